//! Numbers, as a token writes them.
ghost use Rattle.std.specs.Prelude.{◌≡◌, ◌≤◌, ◌==◌, IfSome, slice_index_or};
ghost use Rattle.raw_text.specs.Number.{digits_up_to, number_of};

/// Whether a plus stands first.
fn begins_with_plus(bytes: &[u8]) -> bool
    ensures { result ≡ (slice_index_or bytes.now 0 0 == 43) }
{
    bytes.first() == Some(&b'+')
}

/// The number that the digits write in this radix, where it is at most so large.
///
/// One digit or more of the radix, of either case, and nothing else: no sign, no blank, no `0x`.
/// Leading zeros are allowed. All else, and a number above `most`, is `None`.
pub fn digits_up_to(digits: &[u8], radix: u32, most: u32) -> Option<u32>
    requires low { 2 ≤ radix }
    requires high { radix ≤ 16 }
    ensures value { result ≡ digits_up_to most radix digits.now }
    ensures bound { IfSome result (λ value. value ≤ most) }
{
    // The parser of std takes a plus, which is no part of a number here.
    if begins_with_plus(digits) {
        return None;
    }
    let text = str::from_utf8(digits).ok()?;
    let value = u32::from_str_radix(text, radix).ok()?;
    if value <= most { Some(value) } else { None }
}

/// The number that the bytes write.
///
/// They are decimal digits with a value below 2^32; or `-` and decimal digits with a value of at most
/// 2^31, which give the two's complement; or `0x` and one to eight hexadecimal digits of either case.
/// Leading zeros are allowed in decimal. All else is no number: `None`.
#[tactic(auto, unfolding(crate::specs::Number::number_of))]
pub fn number(bytes: &[u8]) -> Option<u32>
    ensures { result ≡ number_of bytes.now }
{
    if let Some(digits) = bytes.strip_prefix(b"-") {
        Some(digits_up_to(digits, 10, 1 << 31)?.wrapping_neg())
    } else if let Some(digits) = bytes.strip_prefix(b"0x") {
        if digits.len() <= 8 {
            digits_up_to(digits, 16, u32::MAX)
        } else {
            None
        }
    } else {
        digits_up_to(bytes, 10, u32::MAX)
    }
}
