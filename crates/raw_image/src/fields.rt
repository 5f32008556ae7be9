//! Single fields. Each function takes the bytes that are left, and gives what the field says and the bytes
//! behind it.
ghost use Rattle.std.specs.Prelude.{◌≡◌, ◌≤◌, ◌<◌, IfOk, Some};
ghost use Rattle.std.specs.Int.{w32, w64};
ghost use Rattle.raw_image.specs.Fields.{Gives, short, fault_at, front_at, said_at, byte_at, between, address_from, are_zeros, zeros_at};

use crate::kind::ImageKind;
use crate::refused::{Fault, Refusal};
use raw_model::limits::MEMORY_SIZE;

/// The fault of a field that is cut off.
pub(crate) fn short() -> Refusal
    ensures { result ≡ Refusal.At short }
{
    Refusal::At(Fault {
        left: 0,
        kind: ImageKind::Short,
    })
}

/// The fault of a field that begins these bytes.
pub(crate) fn fault_at(kind: ImageKind, bytes: &[u8]) -> Refusal
    ensures { result ≡ Refusal.At (fault_at kind bytes.now) }
{
    Refusal::At(Fault {
        left: bytes.len(),
        kind,
    })
}

/// A value that a set can't have in the field that begins these bytes.
pub(crate) fn bad_field(bytes: &[u8]) -> Refusal
    ensures { result ≡ Refusal.At (fault_at ImageKind.BadField bytes.now) }
{
    fault_at(ImageKind::BadField, bytes)
}

/// The bytes of a field of this width, and the bytes behind it.
pub(crate) fn front_at(bytes: &[u8], width: usize) -> Result<(&[u8], &[u8]), Refusal>
    ensures { Gives (λ x. (x.0.now, x.1.now)) result (front_at width bytes.now) }
{
    if bytes.len() < width {
        return Err(short());
    }
    Ok(bytes.split_at(width))
}

/// A byte.
pub(crate) fn byte_at(bytes: &[u8]) -> Result<(u8, &[u8]), Refusal>
    ensures { Gives (λ x. (x.0, x.1.now)) result (byte_at Some bytes.now) }
{
    match bytes {
        [] => Err(short()),
        [byte, rest @ ..] => Ok((*byte, rest)),
    }
}

/// A byte from `least` to `most`.
pub(crate) fn byte_between(bytes: &[u8], least: u8, most: u8) -> Result<(u8, &[u8]), Refusal>
    ensures read { Gives (λ x. (x.0, x.1.now)) result (byte_at (between least most) bytes.now) }
    ensures least { IfOk result (λ x. least ≤ x.0) }
    ensures most { IfOk result (λ x. x.0 ≤ most) }
{
    let (byte, rest) = byte_at(bytes)?;
    if least <= byte && byte <= most {
        Ok((byte, rest))
    } else {
        Err(bad_field(bytes))
    }
}

/// A number of 32 bits.
pub(crate) fn word_at(bytes: &[u8]) -> Result<(u32, &[u8]), Refusal>
    ensures { Gives (λ x. (x.0, x.1.now)) result (said_at w32 Some bytes.now) }
{
    let (field, rest) = front_at(bytes, 4)?;
    let word = u32::from_be_bytes([field[0], field[1], field[2], field[3]]);
    Ok((word, rest))
}

/// A number of 64 bits.
pub(crate) fn long_at(bytes: &[u8]) -> Result<(u64, &[u8]), Refusal>
    ensures { Gives (λ x. (x.0, x.1.now)) result (said_at w64 Some bytes.now) }
{
    let (field, rest) = front_at(bytes, 8)?;
    let word = u64::from_be_bytes([
        field[0], field[1], field[2], field[3], field[4], field[5], field[6], field[7],
    ]);
    Ok((word, rest))
}

/// A number of 32 bits from `least` to `most`.
pub(crate) fn number_between(bytes: &[u8], least: u32, most: u32) -> Result<(u32, &[u8]), Refusal>
    ensures read { Gives (λ x. (x.0, x.1.now)) result (said_at w32 (between least most) bytes.now) }
    ensures most { IfOk result (λ x. x.0 ≤ most) }
{
    let (number, rest) = word_at(bytes)?;
    if least <= number && number <= most {
        Ok((number, rest))
    } else {
        Err(bad_field(bytes))
    }
}

/// The address of a word in a tile's memory, from `least` on.
pub(crate) fn address_from(bytes: &[u8], least: u32) -> Result<(u32, &[u8]), Refusal>
    ensures read { Gives (λ x. (x.0, x.1.now)) result (said_at w32 (address_from least) bytes.now) }
    ensures inside { IfOk result (λ x. x.0 < MEMORY_SIZE) }
{
    let (address, rest) = word_at(bytes)?;
    if address % 4 == 0 && least <= address && address < MEMORY_SIZE {
        Ok((address, rest))
    } else {
        Err(bad_field(bytes))
    }
}

// Whether all bytes are 0.
fn are_zeros(bytes: &[u8]) -> bool
    ensures { result ≡ are_zeros bytes.now }
{
    bytes.iter().all(|byte| *byte == 0)
}

/// So many bytes 0. Gives the bytes behind them.
pub(crate) fn zeros_at(bytes: &[u8], width: usize) -> Result<&[u8], Refusal>
    ensures { Gives (λ x. x.now) result (zeros_at width bytes.now) }
{
    let (field, rest) = front_at(bytes, width)?;
    if are_zeros(field) {
        Ok(rest)
    } else {
        Err(bad_field(bytes))
    }
}
