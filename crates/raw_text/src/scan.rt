//! Where lines, comments and tokens end.
ghost use Rattle.std.specs.Prelude.{◌≡◌, ◌≤◌, not, length};
ghost use Rattle.std.specs.List.{position, position_or_len, list_all};
ghost use Rattle.raw_text.specs.Lines.{is_newline, is_hash, is_blank, is_plain, is_solid};

/// Whether the byte stands between tokens.
fn is_blank(b: u8) -> bool
    ensures { result ≡ is_blank b }
{
    matches!(b, b'\t' | b'\r' | b' ' | b',')
}

/// Whether a line may hold the byte.
fn is_plain(b: u8) -> bool
    ensures { result ≡ is_plain b }
{
    matches!(b, b'\t' | b'\r' | b' '..=b'~')
}

/// Where the first newline stands.
fn first_newline(bytes: &[u8]) -> Option<usize>
    ensures { result ≡ position is_newline bytes.now }
{
    bytes.iter().position(|b| *b == b'\n')
}

/// Where the first '#' stands.
fn first_hash(bytes: &[u8]) -> Option<usize>
    ensures { result ≡ position is_hash bytes.now }
{
    bytes.iter().position(|b| *b == b'#')
}

/// Where the first blank stands.
fn first_blank(bytes: &[u8]) -> Option<usize>
    ensures { result ≡ position is_blank bytes.now }
{
    bytes.iter().position(|b| is_blank(*b))
}

/// Whether a token may hold the byte.
fn is_solid(b: u8) -> bool
    ensures { result ≡ is_solid b }
{
    is_plain(b) && !is_blank(b) && b != b'#'
}

/// Where the first byte stands that no token holds.
fn first_outside(bytes: &[u8]) -> Option<usize>
    ensures { result ≡ position (λ b. not (is_solid b)) bytes.now }
{
    bytes.iter().position(|b| !is_solid(*b))
}

/// How many bytes stand before the first newline, or in all.
#[tactic(auto, using(crate::proofs::Places::position_or_len_from, crate::proofs::Places::place_within))]
pub fn line_len(rest: &[u8]) -> usize
    ensures place { result ≡ position_or_len is_newline rest.now }
    ensures within { result ≤ length rest.now }
{
    first_newline(rest).unwrap_or(rest.len())
}

/// How many bytes stand before the first '#', or in all.
#[tactic(auto, using(crate::proofs::Places::position_or_len_from, crate::proofs::Places::place_within))]
pub fn code_len(line: &[u8]) -> usize
    ensures place { result ≡ position_or_len is_hash line.now }
    ensures within { result ≤ length line.now }
{
    first_hash(line).unwrap_or(line.len())
}

/// How many bytes stand before the first blank, or in all.
#[tactic(auto, using(crate::proofs::Places::position_or_len_from, crate::proofs::Places::place_within))]
pub fn run_len(rest: &[u8]) -> usize
    ensures place { result ≡ position_or_len is_blank rest.now }
    ensures within { result ≤ length rest.now }
{
    first_blank(rest).unwrap_or(rest.len())
}

/// How many bytes stand before the first that no token holds, or in all.
#[tactic(auto, using(crate::proofs::Places::position_or_len_from, crate::proofs::Places::place_within))]
pub fn token_len(rest: &[u8]) -> usize
    ensures place { result ≡ position_or_len (λ b. not (is_solid b)) rest.now }
    ensures within { result ≤ length rest.now }
{
    first_outside(rest).unwrap_or(rest.len())
}

/// Whether a line holds only bytes that it may hold.
pub fn all_plain(line: &[u8]) -> bool
    ensures { result ≡ list_all is_plain line.now }
{
    line.iter().all(|b| is_plain(*b))
}
