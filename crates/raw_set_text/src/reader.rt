//! Reading the text of a set.
ghost use Rattle.std.specs.Prelude.{◌≡◌, ◌≤◌, ◌<◌, ℕ, ◌+◌, [], ◌∷◌, length, take, drop, slice_index_or, Some, IfOk, IfErr};
ghost use Rattle.std.specs.List.{before_first};
ghost use Rattle.raw_text.specs.Text.{text_lines};
ghost use Rattle.raw_asm.specs.Tokens.{tokens_of, section_lines};
ghost use Rattle.raw_set_text.specs.Entry.Entry.{Grid, Limit, Tile, Switch};
ghost use Rattle.raw_set_text.specs.Forms.{line_entry};
ghost use Rattle.raw_set_text.specs.Sections.{is_end};
ghost use Rattle.raw_set_text.specs.Meaning.{IsMeaning, IsCause};
ghost use Rattle.raw_set_text.specs.Building.{PortsStand};
ghost use Rattle.raw_set_text.specs.Reading.{IsRead, StandsAt, PassesFrom, located, of_section};

use crate::builder::Builder;
use crate::declaration::{Line, Position};
use crate::forms::read_line;
use crate::head::{read_grid, read_limit};
use crate::kind::{SetKind, SetRefusal};
use crate::laws::law_lawful;
use crate::ports::Ports;
use crate::refused::LineRefusal;
use raw_asm::{AsmRefusal, Section, Tokens};
use raw_model::Set;
use raw_model::limits::MAX_STEPS;
use raw_switch_asm::assemble_switch;
use raw_text::{MAX_TEXT, Text};
use raw_tile_asm::assemble_tile;
use std::alloc::Global;

// A refusal of the line at a place.
fn located(place: usize, refusal: LineRefusal) -> SetRefusal
    requires { place ≤ MAX_TEXT }
    ensures { result ≡ located place refusal }
{
    match refusal {
        LineRefusal::Fault(kind) => SetRefusal::At {
            line: place as u32 + 1,
            kind,
        },
        LineRefusal::Memory => SetRefusal::Memory,
    }
}

// What is missing behind the last line.
fn missing(lines: &Section<'_>) -> SetRefusal
    ensures { result ≡ located (length (section_lines lines.now)) (LineRefusal.Fault SetKind.Missing) }
{
    located(lines.len(), LineRefusal::Fault(SetKind::Missing))
}

// The place of the first line from a place on that has tokens, or the number of lines.
fn next_line(lines: &Section<'_>, from: usize) -> usize
    requires { from ≤ length (section_lines lines.now) }
    ensures low { from ≤ result }
    ensures high { result ≤ length (section_lines lines.now) }
    ensures blank { (k : ℕ) → from ≤ k → k < result → length (slice_index_or (section_lines lines.now) k []) ≡ 0 }
    ensures told { result < length (section_lines lines.now) → 0 < length (slice_index_or (section_lines lines.now) result []) }
{
    for place in from..lines.len() {
        if lines.line(place).len() != 0 {
            return place;
        }
    }
    lines.len()
}

// The grid, and the place behind its line.
fn read_first(alloc: Global, lines: &Section<'_>) -> Result<(Ports, usize), SetRefusal>
    ensures read { IfOk result (λ first. IsRead (section_lines lines.now) first.1 (Grid first.0.topo.cols first.0.topo.rows ∷ [])) }
    ensures stands { IfOk result (λ first. PortsStand first.0 (Grid first.0.topo.cols first.0.topo.rows ∷ [])) }
    ensures cause { IfErr result (IsCause (section_lines lines.now)) }
{
    let place = next_line(lines, 0);
    if place == lines.len() {
        return Err(missing(lines));
    }
    match read_grid(alloc, &lines.line(place)) {
        Ok(ports) => Ok((ports, place + 1)),
        Err(refusal) => Err(located(place, refusal)),
    }
}

// The limit, and the place behind its line.
fn read_second(lines: &Section<'_>, from: usize) -> Result<(u32, usize), SetRefusal>
    requires { (columns : ℕ) × (rows : ℕ) × IsRead (section_lines lines.now) from (Grid columns rows ∷ []) }
    ensures read { (columns rows : ℕ) → IsRead (section_lines lines.now) from (Grid columns rows ∷ []) →
        IfOk result (λ second. IsRead (section_lines lines.now) second.1 (Grid columns rows ∷ Limit second.0 ∷ [])) }
    ensures some { IfOk result (λ second. 1 ≤ second.0) }
    ensures few { IfOk result (λ second. second.0 ≤ MAX_STEPS) }
    ensures cause { IfErr result (IsCause (section_lines lines.now)) }
{
    let place = next_line(lines, from);
    if place == lines.len() {
        return Err(missing(lines));
    }
    match read_limit(&lines.line(place)) {
        Ok(limit) => Ok((limit, place + 1)),
        Err(refusal) => Err(located(place, refusal)),
    }
}

// Whether a line ends a section: `end` is its only token.
fn is_end(line: &Tokens<'_>) -> bool
    ensures { result ≡ is_end (tokens_of line.now) }
{
    line.len() == 1 && line.at(0) == b"end".as_slice()
}

// The place of the line that ends a section whose lines begin here, or the number of lines.
fn end_of(lines: &Section<'_>, from: usize) -> usize
    requires { from ≤ length (section_lines lines.now) }
    ensures { result ≡ from + length (before_first is_end (drop from (section_lines lines.now))) }
{
    for place in from..lines.len() {
        if is_end(&lines.line(place)) {
            return place;
        }
    }
    lines.len()
}

// A refusal of a line of a section.
fn assembled(refusal: AsmRefusal) -> SetRefusal
    ensures { result ≡ of_section refusal }
{
    match refusal {
        AsmRefusal::At { line, kind } => SetRefusal::At {
            line,
            kind: SetKind::Asm(kind),
        },
        AsmRefusal::Memory => SetRefusal::Memory,
    }
}

// Reads the section of a tile from its head on, and gives the place behind its end.
fn read_tile(
    alloc: Global,
    text: &Text,
    lines: &Section<'_>,
    head: usize,
    tile: Position,
    builder: &mut Builder,
) -> Result<usize, SetRefusal>
    requires lines { section_lines lines.now ≡ take (length (section_lines lines.now)) (text_lines text.now) }
    requires here { head < length (section_lines lines.now) }
    requires entry { line_entry (slice_index_or (section_lines lines.now) head []) ≡ Some (Tile tile []) }
    requires stands { StandsAt (section_lines lines.now) head builder.old }
    ensures { PassesFrom (section_lines lines.now) head builder.new result }
{
    let number = match builder.tile_head(tile) {
        Ok(number) => number,
        Err(refusal) => return Err(located(head, refusal)),
    };
    let end = end_of(lines, head + 1);
    let code = match assemble_tile(alloc, text, head + 1, end) {
        Ok(code) => code,
        Err(refusal) => return Err(assembled(refusal)),
    };
    if end == lines.len() {
        return Err(missing(lines));
    }
    match builder.tiles.add_code(number, code) {
        Ok(()) => Ok(end + 1),
        Err(refusal) => Err(located(end, refusal)),
    }
}

// Reads the section of a switch from its head on, and gives the place behind its end.
fn read_switch(
    alloc: Global,
    text: &Text,
    lines: &Section<'_>,
    head: usize,
    tile: Position,
    builder: &mut Builder,
) -> Result<usize, SetRefusal>
    requires lines { section_lines lines.now ≡ take (length (section_lines lines.now)) (text_lines text.now) }
    requires here { head < length (section_lines lines.now) }
    requires entry { line_entry (slice_index_or (section_lines lines.now) head []) ≡ Some (Switch tile []) }
    requires stands { StandsAt (section_lines lines.now) head builder.old }
    ensures { PassesFrom (section_lines lines.now) head builder.new result }
{
    let number = match builder.switch_head(tile) {
        Ok(number) => number,
        Err(refusal) => return Err(located(head, refusal)),
    };
    let end = end_of(lines, head + 1);
    let ends = builder.wired(tile);
    let code = match assemble_switch(alloc, text, head + 1, end, ends) {
        Ok(code) => code,
        Err(refusal) => return Err(assembled(refusal)),
    };
    if end == lines.len() {
        return Err(missing(lines));
    }
    match builder.tiles.add_switch(number, code) {
        Ok(()) => Ok(end + 1),
        Err(refusal) => Err(located(end, refusal)),
    }
}

// Reads what stands at a place outside sections, and gives the place behind it.
fn read_entry(
    alloc: Global,
    text: &Text,
    lines: &Section<'_>,
    place: usize,
    builder: &mut Builder,
) -> Result<usize, SetRefusal>
    requires lines { section_lines lines.now ≡ take (length (section_lines lines.now)) (text_lines text.now) }
    requires here { place < length (section_lines lines.now) }
    requires stands { StandsAt (section_lines lines.now) place builder.old }
    ensures { PassesFrom (section_lines lines.now) place builder.new result }
{
    let line = lines.line(place);
    if line.len() == 0 {
        return Ok(place + 1);
    }
    let said = match read_line(alloc, &line) {
        Ok(said) => said,
        Err(refusal) => return Err(located(place, refusal)),
    };
    match said {
        Line::Plain(declaration) => match builder.add(&declaration) {
            Ok(()) => Ok(place + 1),
            Err(refusal) => Err(located(place, refusal)),
        },
        Line::Tile(tile) => read_tile(alloc, text, lines, place, tile, builder),
        Line::Switch(tile) => read_switch(alloc, text, lines, place, tile, builder),
    }
}

/// The set that the first `to` lines of a text mean.
///
/// It goes over the lines once. A refusal names the least faulty line and the first of its faults, or is
/// want of memory; the text is unchanged. Of the kinds, `NotAscii` and `LineTooLong` never come, since a
/// `Text` has no such line.
pub fn read_set(alloc: Global, text: &Text, to: usize) -> Result<Set, SetRefusal>
    requires { to ≤ length (text_lines text.now) }
    ensures meaning { IfOk result (IsMeaning (take to (text_lines text.now))) }
    ensures cause { IfErr result (IsCause (take to (text_lines text.now))) }
{
    law_lawful();
    let lines = Section::new(text, 0, to);
    let (ports, from) = read_first(alloc, &lines)?;
    let (limit, from) = read_second(&lines, from)?;
    let mut builder = Builder::new(alloc, ports, limit)?;
    let mut place = from;
    while place < lines.len() {
        place = read_entry(alloc, text, &lines, place, &mut builder)?;
    }
    builder.finish(alloc)
}
