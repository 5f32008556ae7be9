//! Names of nodes, which are as labels.
ghost use Rattle.std.specs.Prelude.{◌≡◌};
ghost use Rattle.raw_asm.specs.Names.{is_letter, are_name_bytes, is_name};

fn is_letter(b: u8) -> bool
    ensures { result ≡ is_letter b }
{
    b.is_ascii_alphabetic() || b == b'_'
}

fn are_name_bytes(bytes: &[u8]) -> bool
    ensures { result ≡ are_name_bytes bytes.now }
{
    bytes.iter().all(|b| is_letter(*b) || b.is_ascii_digit())
}

/// Whether a token is a name: a letter or `_`, followed by letters, `_` and digits.
#[tactic(auto, unfolding(raw_asm::specs::Names::is_name))]
pub(crate) fn is_name(token: &[u8]) -> bool
    ensures { result ≡ is_name token.now }
{
    match token.first() {
        Some(b) => is_letter(*b) && are_name_bytes(token),
        None => false,
    }
}
