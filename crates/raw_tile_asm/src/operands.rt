//! What the operands of an instruction say.
ghost use Rattle.std.specs.Prelude.{◌≡◌, ◌<◌, ◌≤◌, ◌^◌, IfSome, IfOk};
ghost use Rattle.std.specs.Option.{option_map};
ghost use Rattle.std.specs.List.{position};
ghost use Rattle.raw_asm.specs.Labels.{place_in};
ghost use Rattle.raw_tile_asm.specs.Operand.{register_of, signed_half, is_open, cut_at_open, memory_parts, branch_field, jump_field, with_operand, AreSmall, KeepsOthers};

use raw_asm::{AsmKind, Labels, Target, read_target};
use raw_text::{digits_up_to, number};
use raw_tile_isa::{Operand, is_short};

/// The fields that operands fill.
#[derive(Clone, Copy, PartialEq, Eq)]
pub struct Fields {
    pub rs: u8,
    pub rt: u8,
    pub rd: u8,
    pub sh: u8,
    pub imm: u16,
    pub target: u32,
}

/// The register that a token names: `$` and its number, 0 to 31 in decimal without leading zeros.
#[tactic(auto, unfolding(crate::specs::Operand::register_of))]
pub fn register(token: &[u8]) -> Option<u32>
    ensures value { result ≡ register_of token.now }
    ensures bound { IfSome result (λ register. register ≤ 31) }
{
    let digits = token.strip_prefix(b"$")?;
    if digits.len() > 1 && digits[0] == b'0' {
        None
    } else {
        digits_up_to(digits, 10, 31)
    }
}

// The low half of a word that as a signed number is -32,768 to 32,767.
fn signed_half(n: u32) -> Result<u16, AsmKind>
    ensures { result ≡ signed_half n }
{
    if is_short(n) {
        Ok((n & 0xffff) as u16)
    } else {
        Err(AsmKind::RangeOf)
    }
}

fn first_open(bytes: &[u8]) -> Option<usize>
    ensures { result ≡ position is_open bytes.now }
{
    bytes.iter().position(|b| *b == b'(')
}

fn cut_at_open(inner: &[u8]) -> Option<(&[u8], &[u8])>
    ensures { option_map (λ parts. (parts.0.now, parts.1.now)) result ≡ cut_at_open inner.now }
{
    let open = first_open(inner)?;
    Some((&inner[..open], &inner[open + 1..]))
}

// The two parts of `I($s)`.
#[tactic(auto, unfolding(crate::specs::Operand::memory_parts))]
fn memory_parts(token: &[u8]) -> Option<(&[u8], &[u8])>
    ensures { option_map (λ parts. (parts.0.now, parts.1.now)) result ≡ memory_parts token.now }
{
    cut_at_open(token.strip_suffix(b")")?)
}

// The distance of a branch at this place.
fn branch_field(place: u32, target: Target) -> Result<u16, AsmKind>
    requires { place < 2 ^ 31 }
    ensures { result ≡ branch_field place target }
{
    match target {
        Target::Number(n) => signed_half(n.wrapping_sub(place + 1)),
        Target::Label(there) => Ok((there.wrapping_sub(place + 1) & 0xffff) as u16),
    }
}

// The instruction to which a jump goes.
fn jump_field(target: Target) -> Result<u32, AsmKind>
    ensures value { result ≡ jump_field target }
    ensures small { IfOk result (λ n. n < 2 ^ 26) }
{
    match target {
        Target::Number(n) if n < 1 << 26 => Ok(n),
        Target::Number(_) => Err(AsmKind::RangeOf),
        Target::Label(there) => Ok(there & 0x3ff_ffff),
    }
}

/// The fields with that which an operand of an instruction at this place fills.
#[tactic(auto, unfolding(crate::specs::Operand::with_operand))]
pub fn with_operand(
    labels: &Labels<'_>,
    place: u32,
    form: Operand,
    token: &[u8],
    fields: Fields,
) -> Result<Fields, AsmKind>
    requires place { place < 2 ^ 31 }
    requires small { AreSmall fields }
    ensures value { result ≡ with_operand (place_in labels.now) place form token.now fields }
    ensures small { IfOk result AreSmall }
    ensures others { IfOk result (KeepsOthers form fields) }
{
    match form {
        Operand::Rd => {
            let rd = register(token).ok_or(AsmKind::BadOperand)? as u8;
            Ok(Fields { rd, ..fields })
        }
        Operand::Rs => {
            let rs = register(token).ok_or(AsmKind::BadOperand)? as u8;
            Ok(Fields { rs, ..fields })
        }
        Operand::Rt => {
            let rt = register(token).ok_or(AsmKind::BadOperand)? as u8;
            Ok(Fields { rt, ..fields })
        }
        Operand::Shift => {
            let n = number(token).ok_or(AsmKind::BadOperand)?;
            if n >= 32 {
                return Err(AsmKind::RangeOf);
            }
            let sh = n as u8;
            Ok(Fields { sh, ..fields })
        }
        Operand::Signed => {
            let n = number(token).ok_or(AsmKind::BadOperand)?;
            let imm = signed_half(n)?;
            Ok(Fields { imm, ..fields })
        }
        Operand::Unsigned => {
            let n = number(token).ok_or(AsmKind::BadOperand)?;
            if n >= 1 << 16 {
                return Err(AsmKind::RangeOf);
            }
            let imm = n as u16;
            Ok(Fields { imm, ..fields })
        }
        Operand::Branch => {
            let target = read_target(labels, token)?;
            let imm = branch_field(place, target)?;
            Ok(Fields { imm, ..fields })
        }
        Operand::Jump => {
            let named = read_target(labels, token)?;
            let target = jump_field(named)?;
            Ok(Fields { target, ..fields })
        }
        Operand::Memory => {
            let (offset, base) = memory_parts(token).ok_or(AsmKind::BadOperand)?;
            let rs = register(base).ok_or(AsmKind::BadOperand)? as u8;
            let n = number(offset).ok_or(AsmKind::BadOperand)?;
            let imm = signed_half(n)?;
            Ok(Fields { rs, imm, ..fields })
        }
    }
}
