//! Reading what a line of a claim says of a place, by itself.
ghost use Rattle.std.specs.Prelude.{◌≡◌, ◌<◌, ◌≤◌, drop, length};
ghost use Rattle.raw_asm.specs.Tokens.{tokens_of};
ghost use Rattle.raw_set_text.specs.Forms.{number_at};
ghost use Rattle.raw_claim_text.specs.Forms.{is_out, is_mem, names_place, is_plain_out, named_sink, named_memory, named_place};

use raw_asm::Tokens;
use raw_set_text::{Edge, Position, edge};
use raw_text::number;

/// Where a line says that a word is to be found.
#[derive(Clone, Copy, PartialEq, Eq)]
pub enum NamedPlace {
    /// Among the words of the sink at an edge.
    AtSink(Edge),
    /// In the memory of a tile, at this address.
    InMemory(Position, u32),
}

// Whether a line with tokens begins with `out`.
fn is_out(line: &Tokens<'_>) -> bool
    requires { 0 < length (tokens_of line.now) }
    ensures { result ≡ is_out (tokens_of line.now) }
{
    line.at(0) == b"out".as_slice()
}

// Whether it begins with `mem`.
fn is_mem(line: &Tokens<'_>) -> bool
    requires { 0 < length (tokens_of line.now) }
    ensures { result ≡ is_mem (tokens_of line.now) }
{
    line.at(0) == b"mem".as_slice()
}

/// Whether a line names a place.
pub(crate) fn names_place(line: &Tokens<'_>) -> bool
    ensures { result ≡ names_place (tokens_of line.now) }
{
    line.len() > 0 && (is_out(line) && line.len() == 6 || is_mem(line))
}

/// Whether a line begins with `out`, and names no place.
pub(crate) fn is_plain_out(line: &Tokens<'_>) -> bool
    ensures { result ≡ is_plain_out (tokens_of line.now) }
{
    line.len() > 0 && is_out(line) && line.len() != 6
}

// The number at a place of the operands.
#[tactic(auto, unfolding(raw_set_text::specs::Forms::number_at))]
fn number_at(operands: &Tokens<'_>, place: usize) -> Option<u32>
    requires { place < length (tokens_of operands.now) }
    ensures { result ≡ number_at (tokens_of operands.now) place }
{
    number(operands.at(place))
}

// `NET X Y SIDE`
#[tactic(auto, unfolding(crate::specs::Forms::named_sink))]
fn named_sink(operands: &Tokens<'_>) -> Option<NamedPlace>
    ensures { result ≡ named_sink (tokens_of operands.now) }
{
    if operands.len() != 4 {
        return None;
    }
    let edge = edge(operands)?;
    Some(NamedPlace::AtSink(edge))
}

// `X Y A`
#[tactic(auto, unfolding(crate::specs::Forms::named_memory))]
fn named_memory(operands: &Tokens<'_>) -> Option<NamedPlace>
    ensures { result ≡ named_memory (tokens_of operands.now) }
{
    if operands.len() != 3 {
        return None;
    }
    let x = number_at(operands, 0)?;
    let y = number_at(operands, 1)?;
    let address = number_at(operands, 2)?;
    Some(NamedPlace::InMemory(Position { x, y }, address))
}

/// The place that a line names which names one; `None` where it is of another form.
pub(crate) fn named_place(line: &Tokens<'_>) -> Option<NamedPlace>
    requires { 2 ≤ length (tokens_of line.now) }
    ensures { result ≡ named_place (tokens_of line.now) }
{
    let operands = line.behind(2);
    if is_out(line) {
        named_sink(&operands)
    } else {
        named_memory(&operands)
    }
}
