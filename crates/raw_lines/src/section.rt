//! The sections of a text: which lines the program of each processor has.
ghost use Rattle.std.specs.Prelude.{◌≡◌, ◌<◌, ◌+◌, ◌*◌, ◌++◌, length, IfOk, OnOk, Some};
ghost use Rattle.raw_asm.specs.Tokens.{tokens_of, section_lines};
ghost use Rattle.raw_set_text.specs.Forms.{line_entry};
ghost use Rattle.raw_set_text.specs.Sections.{is_end};
ghost use Rattle.raw_lines.specs.Sections.{begun, begun_by, sections_in, is_for, section_for};
ghost use Rattle.raw_lines.specs.Reading.{open_behind, ended_by};

use crate::kind::ProgramKind;
use raw_asm::{Section, Tokens};
use raw_grid::Topo;
use raw_set_text::Position;
use raw_text::{MAX_TEXT, number};
use std::alloc::{AllocError, Global};

/// A section of a text: whose program it is, and which lines of the text it has.
#[derive(Clone, Copy, PartialEq, Eq)]
pub struct ProgramSection {
    pub kind: ProgramKind,
    pub tile: Position,
    /// The place of its first line, counted from 0.
    pub from: usize,
    /// The place behind its last line, which is that of its line `end`.
    pub to: usize,
}

// The section of a program of this kind whose head at a place has these operands; it has no line yet.
fn begun_by(kind: ProgramKind, operands: &Tokens<'_>, place: usize) -> Option<ProgramSection>
    requires few { place < MAX_TEXT }
    requires two { length (tokens_of operands.now) ≡ 2 }
    ensures { result ≡ begun_by place (Some kind) (tokens_of operands.now) }
{
    let x = number(operands.at(0))?;
    let y = number(operands.at(1))?;
    let from = place + 1;
    Some(ProgramSection {
        kind,
        tile: Position { x, y },
        from,
        to: from,
    })
}

// The section that a line at a place outside sections begins; it has no line yet.
fn begun(line: &Tokens<'_>, place: usize) -> Option<ProgramSection>
    requires { place < MAX_TEXT }
    ensures { result ≡ begun place (line_entry (tokens_of line.now)) }
{
    if line.len() != 3 {
        return None;
    }
    let kind = ProgramKind::named(line.at(0))?;
    begun_by(kind, &line.behind(1), place)
}

// Whether a line ends a section: `end` is its only token.
fn is_end(line: &Tokens<'_>) -> bool
    ensures { result ≡ is_end (tokens_of line.now) }
{
    line.len() == 1 && line.at(0) == b"end".as_slice()
}

// The section that is open behind a line, by the one that is open before it.
fn open_behind(
    current: Option<ProgramSection>,
    line: &Tokens<'_>,
    place: usize,
) -> Option<ProgramSection>
    requires { place < MAX_TEXT }
    ensures { result ≡ open_behind place (tokens_of line.now) current }
{
    match current {
        None => begun(line, place),
        Some(_) if is_end(line) => None,
        Some(section) => Some(section),
    }
}

// Appends the open section, where the line at a place ends it.
fn push_ended(
    sections: &mut Vec<ProgramSection>,
    current: Option<ProgramSection>,
    line: &Tokens<'_>,
    place: usize,
) -> Result<(), AllocError>
    ensures { OnOk result (sections.new.items ≡ sections.old.items ++ ended_by place (tokens_of line.now) current) }
{
    match current {
        Some(section) if is_end(line) => {
            sections.push(ProgramSection {
                to: place,
                ..section
            })?;
            Ok(())
        }
        _ => Ok(()),
    }
}

/// The sections of some lines, in their order. A section that has not ended is none.
pub fn sections(alloc: Global, lines: &Section<'_>) -> Result<Vec<ProgramSection>, AllocError>
    ensures { IfOk result (λ sections. sections.items ≡ sections_in (section_lines lines.now)) }
{
    let mut sections = Vec::new(alloc);
    let mut current = None;
    for place in 0..lines.len() {
        let line = lines.line(place);
        push_ended(&mut sections, current, &line, place)?;
        current = open_behind(current, &line, place);
    }
    Ok(sections)
}

// The number of a tile by its position, which need not be on the grid.
fn number_of(tile: Position, cols: u8) -> u64
    ensures { result ≡ tile.y * cols + tile.x }
{
    u64::from(tile.y) * u64::from(cols) + u64::from(tile.x)
}

// Whether a section is that of a tile, or of its switch.
fn is_for(section: ProgramSection, kind: ProgramKind, cols: u8, tile: u32) -> bool
    ensures { result ≡ is_for kind cols tile section }
{
    section.kind == kind && number_of(section.tile, cols) == u64::from(tile)
}

/// The section of a tile, or of its switch, where there is one.
pub(crate) fn section_for(
    sections: &[ProgramSection],
    kind: ProgramKind,
    topo: &Topo,
    tile: u32,
) -> Option<ProgramSection>
    ensures { result ≡ section_for sections.now kind topo.now tile }
{
    let cols = topo.cols();
    sections
        .iter()
        .copied()
        .find(|section| is_for(*section, kind, cols, tile))
}
