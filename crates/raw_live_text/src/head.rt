//! The head of live input: what stands before its mark, a line that is one word alone, and the mark itself.
//!
//! The mark is looked for line by line, and less than a piece is read behind it; what came of that is handed on with the
//! head. A mark that ends the input without a newline counts. Who reads on then asks the source once more; a source that
//! tells its bytes gives none. Over a terminal, control-D has to be typed once more.
ghost use Rattle.std.specs.Prelude.{◌≡◌, ◌+◌, ◌<◌, ◌≤◌, true, [], length, not, slice_index_or, IfOk};
ghost use Rattle.std.specs.List.{list_all};
ghost use Rattle.raw_text.specs.Lines.{is_newline};
ghost use Rattle.raw_text.specs.Text.{text_lines, is_word};
ghost use Rattle.raw_text.specs.declared.limits.TheConstants.{MAX_TEXT};
ghost use Rattle.raw_live_text.specs.declared.reader.TheConstants.{PIECE};
ghost use Rattle.raw_live_text.specs.Heads.{word_end, line_end, StandsAt, FoundAs, IsCut, EndsAs, ReadsHead};

use crate::fault::LineFault;
use crate::reader::PIECE;
use crate::stop::Stop;
use raw_io::{Failed, Source};
use raw_text::{Text, TextRefusal, read_text};
use std::alloc::{AllocError, Global};

/// How the first lines of an input end its head.
#[derive(Clone, Copy, PartialEq, Eq)]
pub enum HeadEnd {
    /// None of them does.
    Open,
    /// The line with this number is the mark.
    Mark { line: u32 },
    /// The line with this number has this fault of its bytes.
    Fault { line: u32, kind: LineFault },
}

/// What stands before the mark, and what was read of the lines behind it.
#[derive(Drop)]
pub struct Head {
    /// The bytes before the mark; all bytes, where there is none.
    pub set: Vec<u8>,
    /// The bytes that were read behind the mark; `None` where the input ended and had none.
    pub rest: Option<Vec<u8>>,
    /// How many bytes were read in all.
    pub given: usize,
}

/// Where the line begins that is not whole yet, and its number.
#[derive(Clone, Copy, PartialEq, Eq)]
pub(crate) struct LinePlace {
    pub(crate) start: usize,
    pub(crate) number: u32,
}

/// What the lines that were judged so far show.
#[derive(Clone, Copy, PartialEq, Eq)]
pub(crate) enum Found {
    /// No line ends the head. The one that is not whole yet stands here.
    Open(LinePlace),
    /// The mark begins at `start`, and the lines after it at `behind`.
    Mark { start: usize, behind: usize },
    /// The line with this number has this fault of its bytes.
    Fault { line: u32, kind: LineFault },
}

// Whether the line of a text, which is its first, is this word alone.
fn is_word(word: &[u8], text: &Text) -> bool
    requires { 1 ≤ length (text_lines text.now) }
    ensures { result ≡ is_word word.now (slice_index_or (text_lines text.now) 0 []) }
{
    text.tokens_in(0) == 1 && text.token(0, 0) == word
}

// How the line of a text, which is its first and has this number, ends the head.
fn word_end(word: &[u8], number: u32, text: &Text) -> HeadEnd
    requires { 1 ≤ length (text_lines text.now) }
    ensures { result ≡ word_end word.now number (slice_index_or (text_lines text.now) 0 []) }
{
    if is_word(word, text) {
        HeadEnd::Mark { line: number }
    } else {
        HeadEnd::Open
    }
}

// Judges the line of this number.
fn line_end(alloc: Global, word: &[u8], number: u32, line: &[u8]) -> Result<HeadEnd, AllocError>
    requires free { list_all (λ b. not (is_newline b)) line.now ≡ true }
    requires short { length line.now ≤ MAX_TEXT }
    ensures { IfOk result (λ end. end ≡ line_end word.now number line.now) }
{
    if line.is_empty() {
        return Ok(HeadEnd::Open);
    }
    let Ok(bytes) = line.to_vec(alloc) else {
        return Err(AllocError);
    };
    match read_text(alloc, bytes) {
        Ok(text) => Ok(word_end(word, number, &text)),
        Err(TextRefusal::NotAscii { line: _ }) => Ok(HeadEnd::Fault {
            line: number,
            kind: LineFault::NotAscii,
        }),
        Err(TextRefusal::LineTooLong { line: _ }) => Ok(HeadEnd::Fault {
            line: number,
            kind: LineFault::LineTooLong,
        }),
        Err(TextRefusal::Memory) => Err(AllocError),
    }
}

// Judges the line that the byte at this place ends, where it ends one.
fn look_at(
    alloc: Global,
    word: &[u8],
    bytes: &[u8],
    at: usize,
    place: LinePlace,
) -> Result<Found, AllocError>
    requires within { at < length bytes.now }
    requires short { length bytes.now ≤ MAX_TEXT }
    requires stands { StandsAt word.now bytes.now at place }
    ensures { IfOk result (FoundAs word.now bytes.now at (at + 1)) }
{
    if bytes[at] != b'\n' {
        return Ok(Found::Open(place));
    }
    match line_end(alloc, word, place.number, &bytes[place.start..at])? {
        HeadEnd::Open => Ok(Found::Open(LinePlace {
            start: at + 1,
            number: place.number + 1,
        })),
        HeadEnd::Mark { line: _ } => Ok(Found::Mark {
            start: place.start,
            behind: at + 1,
        }),
        HeadEnd::Fault { line, kind } => Ok(Found::Fault { line, kind }),
    }
}

// Judges each line that a byte from the place `from` on ends, up to the first that ends the head.
fn look_on(
    alloc: Global,
    word: &[u8],
    bytes: &[u8],
    from: usize,
    place: LinePlace,
) -> Result<Found, AllocError>
    requires within { from ≤ length bytes.now }
    requires short { length bytes.now ≤ MAX_TEXT }
    requires stands { StandsAt word.now bytes.now from place }
    ensures { IfOk result (FoundAs word.now bytes.now from (length bytes.now)) }
{
    let mut place = place;
    for at in from..bytes.len() {
        match look_at(alloc, word, bytes, at, place)? {
            Found::Open(next) => place = next,
            found => return Ok(found),
        }
    }
    Ok(Found::Open(place))
}

// Cuts the line from `start` up to `behind` out of the bytes.
fn cut(alloc: Global, bytes: Vec<u8>, start: usize, behind: usize) -> Result<Head, Stop>
    requires order { start ≤ behind }
    requires within { behind ≤ length bytes.items }
    ensures { IsCut bytes.items start behind result }
{
    let given = bytes.len();
    let Ok(rest) = bytes[behind..].to_vec(alloc) else {
        return Err(Stop::Memory);
    };
    let mut set = bytes;
    set.truncate(start);
    Ok(Head {
        set,
        rest: Some(rest),
        given,
    })
}

// Judges the last line, which no newline ends, at the end of input.
fn finish_head(alloc: Global, word: &[u8], bytes: Vec<u8>, place: LinePlace) -> Result<Head, Stop>
    requires short { length bytes.items ≤ MAX_TEXT }
    requires stands { StandsAt word.now bytes.items (length bytes.items) place }
    ensures { EndsAs word.now bytes.items result }
{
    match line_end(alloc, word, place.number, &bytes[place.start..]) {
        Ok(HeadEnd::Open) => Ok(Head {
            given: bytes.len(),
            set: bytes,
            rest: None,
        }),
        Ok(HeadEnd::Mark { line: _ }) => {
            let behind = bytes.len();
            cut(alloc, bytes, place.start, behind)
        }
        Ok(HeadEnd::Fault { line, kind }) => Err(Stop::At { line, kind }),
        Err(AllocError) => Err(Stop::Memory),
    }
}

/// Reads up to and with the mark, the line that is this word alone, to the end of input, or to the first line that has a
/// fault of its bytes. No more than a piece is asked of the source at once, and no more once a line is whole that ends the
/// head.
///
/// What the lines before the mark mean is not looked at. At most `most + 1` bytes are read, and the last of those only where
/// the first `most` neither hold the mark nor a faulty line that is whole.
pub fn read_head<S: Source>(
    alloc: Global,
    word: &[u8],
    piece: usize,
    most: usize,
    source: &mut S,
) -> Result<Head, Stop>
    requires some { 1 ≤ piece }
    requires piece { piece ≤ PIECE }
    requires most { most ≤ MAX_TEXT }
    ensures reads { ReadsHead word.now piece (S.sight source.old) (S.sight source.new) most result }
    ensures count { (S.sight source.old).faults ≤ (S.sight source.new).faults }
{
    let mut bytes = Vec::new(alloc);
    let mut place = LinePlace {
        start: 0,
        number: 1,
    };
    let mut buf = [0u8; PIECE];
    loop {
        let seen = bytes.len();
        let want = (most - seen).min(piece).max(1);
        let part = &mut buf[..want];
        match source.take(part) {
            Err(Failed) => return Err(Stop::Read),
            Ok(0) => return finish_head(alloc, word, bytes, place),
            Ok(given) => {
                if seen == most {
                    return Err(Stop::TooLong);
                }
                if bytes.extend_from_slice(&part[..given]).is_err() {
                    return Err(Stop::Memory);
                }
                match look_on(alloc, word, &bytes, seen, place) {
                    Ok(Found::Open(next)) => place = next,
                    Ok(Found::Mark { start, behind }) => return cut(alloc, bytes, start, behind),
                    Ok(Found::Fault { line, kind }) => return Err(Stop::At { line, kind }),
                    Err(AllocError) => return Err(Stop::Memory),
                }
            }
        }
    }
}
