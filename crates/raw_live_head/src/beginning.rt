//! The set before the mark, or why it is not read.
ghost use Rattle.std.specs.Prelude.{◌≡◌, ◌≤◌, None, IfOk, IfErr, length};
ghost use Rattle.raw_text.specs.declared.limits.TheConstants.{MAX_TEXT};
ghost use Rattle.raw_text.specs.Lines.{lines_of, first_fault};
ghost use Rattle.raw_text.specs.Text.{text_lines};
ghost use Rattle.raw_live_text.specs.declared.reader.TheConstants.{PIECE};
ghost use Rattle.raw_set_text.specs.Meaning.{IsMeaning};
ghost use Rattle.raw_set_text.specs.Texts.{token_lines};
ghost use Rattle.raw_shell.specs.Seen.{source_seen};
ghost use Rattle.raw_live_head.specs.Flaws.{failure_of};
ghost use Rattle.raw_live_head.specs.Beginning.{IsSetCause, Begins, StopsInHead};

use crate::flaw::{Failure, LineFlaw};
use raw_io::Source;
use raw_live_text::{Head, Stop, read_head};
use raw_model::Set;
use raw_set_text::{SetKind, SetRefusal, read_set};
use raw_text::{MAX_TEXT, Text, read_text};
use std::alloc::Global;

/// A set with its lines, and what was read behind the mark.
#[derive(Drop)]
pub struct Begun {
    pub set: Set,
    /// The lines that say it.
    pub text: Text,
    /// The bytes that were read behind the mark.
    pub rest: Vec<u8>,
    /// How many bytes were read in all.
    pub given: usize,
    /// The number of the line behind the mark.
    pub line: u32,
}

/// Why the reading of lines stopped, as a failure of the program.
pub fn failure_of(stop: Stop) -> Failure
    ensures { result ≡ failure_of stop }
{
    match stop {
        Stop::At { line, kind } => Failure::Refused(LineFlaw::Put { line, kind }),
        Stop::Read => Failure::ReadFault,
        Stop::TooLong => Failure::TooLong,
        Stop::Memory => Failure::Memory,
    }
}

// The set that lines mean, none of which is faulty as a line of text, these lines, and how many they are.
fn set_of(alloc: Global, bytes: Vec<u8>) -> Result<(Set, Text, u32), Failure>
    requires short { length bytes.items ≤ MAX_TEXT }
    requires plain { first_fault 1 (lines_of bytes.items) ≡ None }
    ensures meaning { IfOk result (λ r. IsMeaning (token_lines bytes.items) r.0) }
    ensures lines { IfOk result (λ r. text_lines r.1 ≡ token_lines bytes.items) }
    ensures count { IfOk result (λ r. r.2 ≡ length (lines_of bytes.items)) }
    ensures few { IfOk result (λ r. r.2 ≤ MAX_TEXT) }
    ensures cause { IfErr result (IsSetCause (token_lines bytes.items)) }
{
    let Ok(text) = read_text(alloc, bytes) else {
        return Err(Failure::Memory);
    };
    let count = text.line_count();
    match read_set(alloc, &text, count) {
        Ok(set) => Ok((set, text, count as u32)),
        Err(SetRefusal::At { line, kind }) => Err(Failure::Refused(LineFlaw::Set { line, kind })),
        Err(SetRefusal::Memory) => Err(Failure::Memory),
    }
}

/// Reads the set before the mark, which is the first line that is this word alone. No more than a piece is asked of the
/// source at once, and no more once the mark, or a line that is faulty as a line of text, is whole.
pub fn begin<S: Source>(
    alloc: Global,
    word: &[u8],
    piece: usize,
    source: &mut S,
) -> Result<Begun, Failure>
    requires some { 1 ≤ piece }
    requires piece { piece ≤ PIECE }
    ensures begun { IfOk result (Begins word.now piece (S.sight source.old) (S.sight source.new)) }
    ensures stops { IfErr result (StopsInHead word.now piece (source_seen S.sight source.old source.new)) }
    ensures count { (S.sight source.old).faults ≤ (S.sight source.new).faults }
{
    let Head { set, rest, given } = match read_head(alloc, word, piece, MAX_TEXT, source) {
        Ok(head) => head,
        Err(stop) => return Err(failure_of(stop)),
    };
    let (set, text, lines) = match set_of(alloc, set) {
        Ok(read) => read,
        Err(failure) => return Err(failure),
    };
    match rest {
        Some(rest) => Ok(Begun {
            set,
            text,
            rest,
            given,
            line: lines + 2,
        }),
        None => Err(Failure::Refused(LineFlaw::Set {
            line: lines + 1,
            kind: SetKind::Missing,
        })),
    }
}
