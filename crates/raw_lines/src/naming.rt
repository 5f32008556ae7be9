//! The labels of lines.
ghost use Rattle.std.specs.Prelude.{◌≡◌};
ghost use Rattle.std.specs.Option.{option_map};
ghost use Rattle.raw_asm.specs.Names.{is_letter, is_decimal, are_name_bytes, is_name};
ghost use Rattle.raw_asm.specs.Tokens.{tokens_of};
ghost use Rattle.raw_lines.specs.Places.{label_in};

use raw_asm::Tokens;

fn is_letter(b: u8) -> bool
    ensures { result ≡ is_letter b }
{
    matches!(b, b'A'..=b'Z' | b'a'..=b'z' | b'_')
}

fn is_decimal(b: u8) -> bool
    ensures { result ≡ is_decimal b }
{
    matches!(b, b'0'..=b'9')
}

fn are_name_bytes(bytes: &[u8]) -> bool
    ensures { result ≡ are_name_bytes bytes.now }
{
    bytes.iter().all(|b| is_letter(*b) || is_decimal(*b))
}

/// Whether the bytes are a label's name: a letter or `_`, followed by letters, `_` and digits.
#[tactic(auto, unfolding(raw_asm::specs::Names::is_name))]
pub(crate) fn is_name(bytes: &[u8]) -> bool
    ensures { result ≡ is_name bytes.now }
{
    match bytes.first() {
        Some(b) => is_letter(*b) && are_name_bytes(bytes),
        None => false,
    }
}

/// The label that a line defines.
pub(crate) fn label_in<'a>(line: &Tokens<'a>) -> Option<&'a [u8]>
    ensures { option_map (λ name. name.now) result ≡ label_in (tokens_of line.now) }
{
    match line.label() {
        Some(name) if is_name(name) => Some(name),
        _ => None,
    }
}
