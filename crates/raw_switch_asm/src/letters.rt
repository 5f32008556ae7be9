//! The letters of networks, sides and registers.
ghost use Rattle.std.specs.Prelude.{◌≡◌, ◌<◌, ◌==◌, length, IfSome};
ghost use Rattle.std.specs.Option.{option_map};
ghost use Rattle.std.specs.List.{position};
ghost use Rattle.raw_switch_asm.specs.Letters.{sides, letter_in, register_of, on_network, end_of};

// The sides by the indices of their ends in a network.
pub(crate) const SIDES: &[u8; 5] = b"NESWP";

// The registers by their numbers.
pub(crate) const REGISTERS: &[u8; 4] = b"0123";

// The first place of a letter.
fn letter_place(letters: &[u8], wanted: u8) -> Option<usize>
    ensures place { result ≡ position (λ letter. letter == wanted) letters.now }
    ensures within { IfSome result (λ place. place < length letters.now) }
{
    letters.iter().position(|letter| *letter == wanted)
}

// The place among these letters of a token that is one of them.
#[tactic(auto, unfolding(crate::specs::Letters::letter_in))]
fn letter_in(letters: &[u8], token: &[u8]) -> Option<usize>
    ensures place { result ≡ letter_in letters.now token.now }
    ensures within { IfSome result (λ place. place < length letters.now) }
{
    if token.len() != 1 {
        return None;
    }
    letter_place(letters, token[0])
}

// The side of a token: the index of its end in a network.
pub(crate) fn side(token: &[u8]) -> Option<u8>
    ensures side { result ≡ letter_in sides token.now }
    ensures within { IfSome result (λ side. side < 5) }
{
    let side = letter_in(SIDES, token)?;
    Some(side as u8)
}

// The register of a token.
#[tactic(auto, unfolding(crate::specs::Letters::register_of))]
pub(crate) fn register(token: &[u8]) -> Option<u8>
    ensures register { result ≡ register_of token.now }
    ensures within { IfSome result (λ register. register < 4) }
{
    let number = letter_in(REGISTERS, token.strip_prefix(b"r")?)?;
    Some(number as u8)
}

// The network that a token begins with, and what stands behind its `:`.
#[tactic(auto, unfolding(crate::specs::Letters::on_network))]
pub(crate) fn on_network(token: &[u8]) -> Option<(u8, &[u8])>
    ensures parts { option_map (λ parts. (parts.0, parts.1.now)) result ≡ on_network token.now }
    ensures within { IfSome result (λ parts. parts.0 < 2) }
{
    if let Some(rest) = token.strip_prefix(b"1:") {
        Some((0, rest))
    } else if let Some(rest) = token.strip_prefix(b"2:") {
        Some((1, rest))
    } else {
        None
    }
}

// The end of a token.
#[tactic(auto, unfolding(crate::specs::Letters::end_of))]
pub(crate) fn end(token: &[u8]) -> Option<u8>
    ensures end { result ≡ end_of token.now }
    ensures within { IfSome result (λ end. end < 10) }
{
    let (network, rest) = on_network(token)?;
    let side = side(rest)?;
    Some(5 * network + side)
}
