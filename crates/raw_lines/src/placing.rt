//! Where the labels of the programs of a text stand.
ghost use Rattle.std.specs.Prelude.{◌≡◌, ◌≤◌, length, take};
ghost use Rattle.raw_text.specs.Text.{text_lines};
ghost use Rattle.raw_asm.specs.Section.{has_label};
ghost use Rattle.raw_asm.specs.Tokens.{tokens_of, section_lines};
ghost use Rattle.raw_lines.specs.Sections.{sections_in};
ghost use Rattle.raw_lines.specs.Placing.{place_among};

use crate::kind::{ProgramKind, size_in};
use crate::naming::is_name;
use crate::section::{ProgramSection, section_for, sections};
use raw_asm::{Section, Tokens};
use raw_grid::{ProcId, Topo};
use raw_text::Text;
use std::alloc::{AllocError, Global};

// Whether a line has the label of this name.
fn has_label(line: &Tokens<'_>, name: &[u8]) -> bool
    ensures { result ≡ has_label name.now (tokens_of line.now) }
{
    match line.label() {
        Some(label) => label == name && is_name(name),
        None => false,
    }
}

// Where a label stands among the lines of a program.
fn place_among(kind: ProgramKind, name: &[u8], section: &Section<'_>) -> Option<u32>
    ensures { result ≡ place_among kind name.now (section_lines section.now) }
{
    let mut place = 0;
    for at in 0..section.len() {
        let line = section.line(at);
        if has_label(&line, name) {
            return Some(place);
        }
        place += size_in(kind, &line);
    }
    None
}

/// The programs that the first lines of a text say, by their sections, and where their labels stand.
#[derive(Drop)]
pub struct TextLabels<'t> {
    text: &'t Text,
    to: usize,
    pub(crate) topo: &'t Topo,
    sections: Vec<ProgramSection>,
    ghost within: { to ≤ length (text_lines text.now) },
    ghost all: { sections.items ≡ sections_in (take to (text_lines text.now)) },
}

impl<'t> TextLabels<'t> {
    ghost use Rattle.std.specs.Prelude.{◌≡◌, ◌≤◌, ◌<◌, length, take, IfOk};
    ghost use Rattle.std.specs.Option.{option_map};
    ghost use Rattle.raw_text.specs.Text.{text_lines};
    ghost use Rattle.raw_grid.specs.Topology.{tile_count};
    ghost use Rattle.raw_lines.specs.Sections.{part_for};
    ghost use Rattle.raw_lines.specs.Reading.{seen};
    ghost use Rattle.raw_lines.specs.Placing.{place_for, label_places};
    ghost use Rattle.raw_lines.specs.LabelsOf.{lines_in, places_in};

    /// Those of the first `to` lines of a text, which are to mean a set with this grid.
    pub fn new(
        alloc: Global,
        text: &'t Text,
        to: usize,
        topo: &'t Topo,
    ) -> Result<TextLabels<'t>, AllocError>
        requires { to ≤ length (text_lines text.now) }
        ensures { IfOk result (λ labels. places_in labels ≡ label_places topo.now (take to (text_lines text.now))) }
    {
        let labels = TextLabels::of(alloc, text, to, topo)?;
        Ok(labels)
    }

    // The same, for who goes through the programs.
    pub(crate) fn of(
        alloc: Global,
        text: &'t Text,
        to: usize,
        topo: &'t Topo,
    ) -> Result<TextLabels<'t>, AllocError>
        requires { to ≤ length (text_lines text.now) }
        ensures topo { IfOk result (λ labels. labels.topo.now ≡ topo.now) }
        ensures lines { IfOk result (λ labels. lines_in labels ≡ take to (text_lines text.now)) }
    {
        let sections = sections(alloc, &Section::new(text, 0, to))?;
        Ok(TextLabels {
            text,
            to,
            topo,
            sections,
        })
    }

    // The lines that the program of a tile has, or of its switch.
    pub(crate) fn part_for(&self, kind: ProgramKind, tile: u32) -> Option<Section<'t>>
        ensures { option_map seen result ≡ part_for (lines_in self.now) self.now.sections.items kind self.now.topo.now tile }
    {
        match section_for(&self.sections, kind, self.topo, tile) {
            None => None,
            Some(section) => Some(Section::new(self.text, section.from, section.to)),
        }
    }

    // Where a label stands in the program of a tile, or of its switch.
    fn place_for(&self, kind: ProgramKind, tile: u32, name: &[u8]) -> Option<u32>
        ensures { result ≡ place_for kind self.now.topo.now (lines_in self.now) tile name.now }
    {
        match self.part_for(kind, tile) {
            None => None,
            Some(part) => place_among(kind, name, &part),
        }
    }

    /// Where a label stands in the program of a processor, where that has one of this name.
    pub fn place(&self, proc: ProcId, name: &[u8]) -> Option<u32>
        ensures { result ≡ places_in self.now proc.0 name.now }
    {
        let tiles = self.topo.tiles();
        if proc.0 < tiles {
            self.place_for(ProgramKind::Tile, proc.0, name)
        } else if proc.0 < 2 * tiles {
            self.place_for(ProgramKind::Switch, proc.0 - tiles, name)
        } else {
            None
        }
    }
}
