//! The lines of a text, each with the places of its tokens.
ghost use Rattle.std.specs.Prelude.{◌≡◌, ◌≤◌, ◌+◌, None, map, length, IfOk, OnOk, IfErr, slice_range};
ghost use Rattle.std.specs.List.{All};
ghost use Rattle.raw_text.specs.Lines.{lines_of, runs_of, tokens_of, first_fault, line_fault, IsCause};
ghost use Rattle.raw_text.specs.Tokens.{line_tokens, BeginsToken, AreInOrder, IsPart, AreLinesInOrder};
ghost use Rattle.raw_text.specs.Cutting.{IsCode, IsPlainLine, AreCut, AddsTokens};
ghost use Rattle.raw_text.specs.declared.lines.TextRefusal.TheVariants.{Memory};

use crate::limits::{MAX_LINE, MAX_TEXT};
use crate::scan::{all_plain, code_len, line_len, run_len};
use std::alloc::{AllocError, AllocFailed, Global};

/// A line: which tokens of its text it has, those from `first` up to `end`, which is not its own.
#[derive(Clone, Copy, PartialEq, Eq)]
pub struct Line {
    pub first: u32,
    pub end: u32,
}

/// Where all tokens begin, and the lines.
#[derive(Drop)]
pub(crate) struct Places {
    pub starts: Vec<u32>,
    pub lines: Vec<Line>,
}

/// Why bytes are no text.
#[derive(Clone, Copy, Debug, PartialEq, Eq)]
pub enum TextRefusal {
    /// The first faulty line holds a byte other than a tab (9), a carriage return (13) and 32 to 126.
    NotAscii { line: u32 },
    /// The first faulty line holds no such byte, and more than 1,000 bytes before its newline.
    LineTooLong { line: u32 },
    /// No memory was left for the lines or the tokens of one.
    Memory,
}

impl From<AllocError> for TextRefusal {
    ghost from_gives = { λ _ e. e ≡ Memory };

    fn from(_: AllocError) -> TextRefusal {
        TextRefusal::Memory
    }
}

impl<T: Drop> From<AllocFailed<T>> for TextRefusal {
    ghost from_gives = { λ _ e. e ≡ Memory };

    fn from(_: AllocFailed<T>) -> TextRefusal {
        TextRefusal::Memory
    }
}

/// What is wrong with the line of this number.
fn fault_of(number: u32, line: &[u8]) -> Option<TextRefusal>
    ensures { result ≡ line_fault number line.now }
{
    if !all_plain(line) {
        Some(TextRefusal::NotAscii { line: number })
    } else if line.len() > MAX_LINE {
        Some(TextRefusal::LineTooLong { line: number })
    } else {
        None
    }
}

/// Appends the places where the runs without blanks begin, from `start` up to `end`.
fn cut_tokens(
    bytes: &[u8],
    start: usize,
    end: usize,
    starts: &mut Vec<u32>,
) -> Result<(), AllocError>
    requires in_order { start ≤ end }
    requires within { end ≤ length bytes.now }
    requires small { length bytes.now ≤ MAX_TEXT }
    requires code { IsCode bytes.now start end }
    requires cut { AreCut bytes.now start starts.old.items }
    ensures tokens { OnOk result (AddsTokens bytes.now starts.old.items starts.new.items (runs_of (slice_range bytes.now start end))) }
    ensures cut { OnOk result (AreCut bytes.now (end + 1) starts.new.items) }
{
    let mut at = start;
    while at < end {
        let stop = at + run_len(&bytes[at..end]);
        if at < stop {
            starts.push(at as u32)?;
        }
        at = stop + 1;
    }
    Ok(())
}

/// The line that stands from `start` up to `end`. The places where its tokens begin are appended.
fn cut_line(
    bytes: &[u8],
    start: usize,
    end: usize,
    starts: &mut Vec<u32>,
) -> Result<Line, AllocError>
    requires in_order { start ≤ end }
    requires within { end ≤ length bytes.now }
    requires small { length bytes.now ≤ MAX_TEXT }
    requires line { IsPlainLine bytes.now start end }
    requires cut { AreCut bytes.now start starts.old.items }
    ensures first { IfOk result (λ line. line.first ≡ length starts.old.items) }
    ensures end { IfOk result (λ line. line.end ≡ length starts.new.items) }
    ensures tokens { OnOk result (AddsTokens bytes.now starts.old.items starts.new.items (tokens_of (slice_range bytes.now start end))) }
    ensures cut { OnOk result (AreCut bytes.now (end + 1) starts.new.items) }
{
    let first = starts.len() as u32;
    let code_end = start + code_len(&bytes[start..end]);
    cut_tokens(bytes, start, code_end, starts)?;
    Ok(Line {
        first,
        end: starts.len() as u32,
    })
}

/// The lines of the bytes, and where their tokens begin.
pub(crate) fn cut_lines(alloc: Global, bytes: &[u8]) -> Result<Places, TextRefusal>
    requires { length bytes.now ≤ MAX_TEXT }
    ensures lines { IfOk result (λ places.
        map (line_tokens bytes.now places.starts.items) places.lines.items ≡ map tokens_of (lines_of bytes.now)) }
    ensures few { IfOk result (λ places. length places.lines.items ≤ length bytes.now) }
    ensures tokens { IfOk result (λ places. All (BeginsToken bytes.now) places.starts.items) }
    ensures ordered { IfOk result (λ places. AreInOrder bytes.now places.starts.items) }
    ensures parts { IfOk result (λ places. All (IsPart (length places.starts.items)) places.lines.items) }
    ensures lines_ordered { IfOk result (λ places. AreLinesInOrder places.lines.items) }
    ensures faultless { OnOk result (first_fault 1 (lines_of bytes.now) ≡ None) }
    ensures cause { IfErr result (λ refusal. IsCause refusal (first_fault 1 (lines_of bytes.now))) }
{
    let mut starts = Vec::new(alloc);
    let mut lines = Vec::new(alloc);
    let mut number = 1;
    let mut at = 0;
    while at < bytes.len() {
        let end = at + line_len(&bytes[at..]);
        if let Some(fault) = fault_of(number, &bytes[at..end]) {
            return Err(fault);
        }
        let line = cut_line(bytes, at, end, &mut starts)?;
        lines.push(line)?;
        number += 1;
        at = end + 1;
    }
    Ok(Places { starts, lines })
}
