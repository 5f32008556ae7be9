//! Lines as their tokens: those of a text, and one whose bytes are given.
ghost use Rattle.std.specs.Prelude.{◌≡◌, ◌-◌, ◌<◌, ◌≤◌, ℕ, List, [], not, length, slice_index_or, if◌then◌else◌};
ghost use Rattle.std.specs.List.{position, position_or_len, list_all};
ghost use Rattle.raw_text.specs.Text.{text_lines};
ghost use Rattle.raw_text.specs.Lines.{is_hash, is_blank, is_plain, runs_of, tokens_of, line_fault};

use raw_text::{MAX_LINE, Text, TextRefusal};

/// A line, as its tokens.
pub trait Tokens {
    /// The tokens, each as its bytes.
    ghost tokens: { Self → List (List ℕ) };

    /// How many there are.
    fn count(&self) -> usize
        ensures { result ≡ length (tokens self.now) };

    /// The token at a place, counted from 0.
    fn token(&self, place: usize) -> &[u8]
        requires { place < length (tokens self.now) }
        ensures { result.now ≡ slice_index_or (tokens self.now) place [] };
}

/// The line of a text at a place, counted from 0.
#[derive(Clone, Copy)]
pub(crate) struct TextLine<'t> {
    pub(crate) text: &'t Text,
    pub(crate) line: usize,
    ghost there: { line < length (text_lines text.now) },
}

impl Tokens for TextLine<'_> {
    ghost use Rattle.std.specs.Prelude.{[], slice_index_or};
    ghost use Rattle.raw_text.specs.Text.{text_lines};

    ghost tokens = { λ l. slice_index_or (text_lines l.text.now) l.line [] };

    fn count(&self) -> usize {
        self.text.tokens_in(self.line)
    }

    fn token(&self, place: usize) -> &[u8] {
        self.text.token(self.line, place)
    }
}

/// A line whose bytes are given, up to its comment.
#[derive(Clone, Copy)]
pub(crate) struct BytesLine<'b> {
    pub(crate) code: &'b [u8],
}

impl Tokens for BytesLine<'_> {
    ghost use Rattle.raw_text.specs.Lines.{runs_of};

    ghost tokens = { λ l. runs_of l.code.now };

    fn count(&self) -> usize {
        count_runs(self.code)
    }

    fn token(&self, place: usize) -> &[u8] {
        run_at(self.code, place)
    }
}

/// The line of these bytes.
pub(crate) fn bytes_line(line: &[u8]) -> BytesLine<'_>
    ensures { runs_of result.code.now ≡ tokens_of line.now }
{
    BytesLine {
        code: &line[..code_len(line)],
    }
}

/// What is wrong with the bytes of a line, told as of a line with the number 1.
pub(crate) fn flaw_of(line: &[u8]) -> Option<TextRefusal>
    ensures { result ≡ line_fault 1 line.now }
{
    if !all_plain(line) {
        Some(TextRefusal::NotAscii { line: 1 })
    } else if line.len() > MAX_LINE {
        Some(TextRefusal::LineTooLong { line: 1 })
    } else {
        None
    }
}

// Whether a line may hold the byte.
fn is_plain(b: u8) -> bool
    ensures { result ≡ is_plain b }
{
    matches!(b, b'\t' | b'\r' | b' '..=b'~')
}

// Whether a line holds only bytes that it may hold.
fn all_plain(line: &[u8]) -> bool
    ensures { result ≡ list_all is_plain line.now }
{
    line.iter().all(|b| is_plain(*b))
}

// Where the first '#' stands.
fn first_hash(bytes: &[u8]) -> Option<usize>
    ensures { result ≡ position is_hash bytes.now }
{
    bytes.iter().position(|b| *b == b'#')
}

// Whether the byte stands between tokens.
fn is_blank(b: u8) -> bool
    ensures { result ≡ is_blank b }
{
    matches!(b, b'\t' | b'\r' | b' ' | b',')
}

// Where the first blank stands.
fn first_blank(bytes: &[u8]) -> Option<usize>
    ensures { result ≡ position is_blank bytes.now }
{
    bytes.iter().position(|b| is_blank(*b))
}

// How many bytes stand before the first '#', or in all.
#[tactic(auto, using(raw_text::proofs::Places::position_or_len_from, raw_text::proofs::Places::place_within))]
fn code_len(line: &[u8]) -> usize
    ensures place { result ≡ position_or_len is_hash line.now }
    ensures within { result ≤ length line.now }
{
    first_hash(line).unwrap_or(line.len())
}

// How many bytes stand before the first blank, or in all.
#[tactic(auto, using(raw_text::proofs::Places::position_or_len_from, raw_text::proofs::Places::place_within))]
fn run_len(rest: &[u8]) -> usize
    ensures place { result ≡ position_or_len is_blank rest.now }
    ensures within { result ≤ length rest.now }
{
    first_blank(rest).unwrap_or(rest.len())
}

// One where there is a run.
fn one_where(some: bool) -> usize
    ensures { result ≡ (if some then 1 else 0) }
{
    if some { 1 } else { 0 }
}

// One less where there is a run.
fn less_where(some: bool, left: usize) -> usize
    ensures { result ≡ (if some then left - 1 else left) }
{
    if some { left.saturating_sub(1) } else { left }
}

// How many runs without blanks there are.
fn count_runs(bytes: &[u8]) -> usize
    ensures { result ≡ length (runs_of bytes.now) }
{
    let mut count = 0;
    let mut at = 0;
    'runs: while at < bytes.len() {
        let long = run_len(&bytes[at..]);
        count += one_where(0 < long);
        at = at + long + 1;
    }
    count
}

// The run without blanks at a place, counted from 0.
fn run_at(bytes: &[u8], place: usize) -> &[u8]
    requires { place < length (runs_of bytes.now) }
    ensures { result.now ≡ slice_index_or (runs_of bytes.now) place [] }
{
    let mut left = place;
    let mut at = 0;
    'runs: while at < bytes.len() {
        let long = run_len(&bytes[at..]);
        if 0 < long && left == 0 {
            return &bytes[at..at + long];
        }
        left = less_where(0 < long, left);
        at = at + long + 1;
    }
    &[]
}
