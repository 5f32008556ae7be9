//! What one line behind `live` says.
ghost use Rattle.std.specs.Prelude.{◌≡◌, ◌≤◌, ◌<◌, true, [], length, not, slice_index_or, IfOk, IfSome};
ghost use Rattle.std.specs.List.{position, list_all};
ghost use Rattle.raw_text.specs.Lines.{is_newline};
ghost use Rattle.raw_text.specs.Text.{text_lines};
ghost use Rattle.raw_text.specs.declared.limits.TheConstants.{MAX_TEXT};
ghost use Rattle.raw_live_text.specs.Puts.{put_of, is_source, is_source_of, put_says, tokens_say, says};
ghost use Rattle.raw_grid.specs.Names.{same_net, same_side};

use crate::fault::LineFault;
use crate::intake::Intake;
use raw_grid::{Net, PortKind, PortPlace, Side};
use raw_text::{Text, TextRefusal, number, read_text};
use std::alloc::{AllocError, Global};

/// A line `put NET X Y SIDE W`. The tile need not be on the grid.
#[derive(Clone, Copy, PartialEq, Eq)]
pub struct Put {
    pub net: Net,
    pub x: u32,
    pub y: u32,
    pub side: Side,
    pub word: u32,
}

/// What a line behind `live` says by itself.
#[derive(Clone, Copy, PartialEq, Eq)]
pub(crate) enum Said {
    /// It has no tokens.
    Nothing,
    /// A word for the port with this processor number.
    Word { port: u32, word: u32 },
    /// This is wrong with it.
    Fault(LineFault),
}

// What the line of a text, which is its first, puts.
#[tactic(auto, unfolding(crate::specs::Puts::put_of))]
fn put_of(text: &Text) -> Option<Put>
    requires { 1 ≤ length (text_lines text.now) }
    ensures { result ≡ put_of (slice_index_or (text_lines text.now) 0 []) }
{
    if text.tokens_in(0) != 6 || text.token(0, 0) != b"put".as_slice() {
        return None;
    }
    let net = Net::named(text.token(0, 1))?;
    let x = number(text.token(0, 2))?;
    let y = number(text.token(0, 3))?;
    let side = Side::named(text.token(0, 4))?;
    let word = number(text.token(0, 5))?;
    Some(Put {
        net,
        x,
        y,
        side,
        word,
    })
}

fn is_source(kind: PortKind) -> bool
    ensures { result ≡ is_source kind }
{
    kind == PortKind::Source
}

fn same_net(a: Net, b: Net) -> bool
    ensures { result ≡ same_net a b }
{
    a == b
}

fn same_side(a: Side, b: Side) -> bool
    ensures { result ≡ same_side a b }
{
    a == b
}

// Whether the place is that of the source that is given the word.
#[tactic(auto, unfolding(crate::specs::Puts::is_source_of))]
fn is_source_of(put: Put, place: PortPlace) -> bool
    ensures { result ≡ is_source_of put place }
{
    is_source(place.kind)
        && same_net(place.net, put.net)
        && u32::from(place.x) == put.x
        && u32::from(place.y) == put.y
        && same_side(place.side, put.side)
}

// The number of the source that is given the word, among the ports.
fn source_of(places: &[PortPlace], put: Put) -> Option<usize>
    ensures value { result ≡ position (is_source_of put) places.now }
    ensures there { IfSome result (λ i. i < length places.now) }
{
    places.iter().position(|place| is_source_of(put, *place))
}

// What a line with tokens says.
fn put_says(intake: &Intake, put: Option<Put>) -> Said
    ensures { result ≡ put_says intake.now put }
{
    let Some(put) = put else {
        return Said::Fault(LineFault::BadLine);
    };
    match source_of(&intake.places, put) {
        None => Said::Fault(LineFault::UndeclaredEdge),
        Some(i) => Said::Word {
            port: intake.first_port + i as u32,
            word: put.word,
        },
    }
}

// What the line of a text, which is its first, says.
fn tokens_say(intake: &Intake, text: &Text) -> Said
    requires { 1 ≤ length (text_lines text.now) }
    ensures { result ≡ tokens_say intake.now (slice_index_or (text_lines text.now) 0 []) }
{
    if text.tokens_in(0) == 0 {
        Said::Nothing
    } else {
        put_says(intake, put_of(text))
    }
}

/// What a line says by itself. It is given up.
pub(crate) fn judge(alloc: Global, intake: &Intake, line: Vec<u8>) -> Result<Said, AllocError>
    requires free { list_all (λ b. not (is_newline b)) line.items ≡ true }
    requires short { length line.items ≤ MAX_TEXT }
    ensures { IfOk result (λ said. said ≡ says intake.now line.items) }
{
    if line.is_empty() {
        return Ok(Said::Nothing);
    }
    match read_text(alloc, line) {
        Ok(text) => Ok(tokens_say(intake, &text)),
        Err(TextRefusal::NotAscii { line: _ }) => Ok(Said::Fault(LineFault::NotAscii)),
        Err(TextRefusal::LineTooLong { line: _ }) => Ok(Said::Fault(LineFault::LineTooLong)),
        Err(TextRefusal::Memory) => Err(AllocError),
    }
}
