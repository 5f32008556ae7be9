//! Names of labels.
ghost use Rattle.std.specs.Prelude.{◌≡◌};
ghost use Rattle.raw_asm.specs.Names.{is_letter, is_decimal, are_name_bytes, is_name, starts_number};

fn is_letter(b: u8) -> bool
    ensures { result ≡ is_letter b }
{
    matches!(b, b'A'..=b'Z' | b'a'..=b'z' | b'_')
}

fn is_decimal(b: u8) -> bool
    ensures { result ≡ is_decimal b }
{
    matches!(b, b'0'..=b'9')
}

fn are_name_bytes(bytes: &[u8]) -> bool
    ensures { result ≡ are_name_bytes bytes.now }
{
    bytes.iter().all(|b| is_letter(*b) || is_decimal(*b))
}

/// Whether the bytes are a label's name: a letter or `_`, followed by letters, `_` and digits.
#[tactic(auto, unfolding(crate::specs::Names::is_name))]
pub fn is_name(bytes: &[u8]) -> bool
    ensures { result ≡ is_name bytes.now }
{
    match bytes.first() {
        Some(b) => is_letter(*b) && are_name_bytes(bytes),
        None => false,
    }
}

/// Whether the token begins as a number, with a digit or `-`, so that it is no label.
pub fn starts_number(token: &[u8]) -> bool
    ensures { result ≡ starts_number token.now }
{
    match token.first() {
        Some(b) => is_decimal(*b) || *b == b'-',
        None => false,
    }
}
