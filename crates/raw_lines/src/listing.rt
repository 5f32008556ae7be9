//! The lines and labels of all programs of a text.
ghost use Rattle.std.specs.Prelude.{◌≡◌, ◌<◌, ◌≤◌, ◌++◌, length, take, IfOk, OnOk};
ghost use Rattle.std.specs.List.{flat_map, range_with_len};
ghost use Rattle.std.specs.Option.{option_map};
ghost use Rattle.raw_text.specs.Text.{text_lines};
ghost use Rattle.raw_grid.specs.Topology.{tile_count};
ghost use Rattle.raw_lines.specs.LabelsOf.{lines_in};
ghost use Rattle.raw_lines.specs.Lines.{name_of, told_of, section_text, program_text, lines_text, label_lines, number_lines, processor_of, labels_of, numbers_of, sources_text};
ghost use Rattle.raw_lines.specs.Reading.{seen};

use crate::kind::ProgramKind;
use crate::lines::push_section;
use crate::placing::TextLabels;
use crate::telling::{push_label_lines, push_number_lines};
use raw_asm::Section;
use raw_grid::Topo;
use raw_state_text::Line;
use raw_text::Text;
use std::alloc::{AllocError, Global};

// The name of a tile or of a switch.
fn name_of(kind: ProgramKind, topo: &Topo, tile: u32) -> Line
    ensures { result ≡ name_of kind topo.now tile }
{
    let mut name = Line::new();
    name.push_text(kind.text());
    name.push_text(b" ");
    name.push_place(topo, tile);
    name.push_text(b" ");
    name
}

// The number of a tile or a switch among the processors.
fn processor_of(kind: ProgramKind, topo: &Topo, tile: u32) -> u32
    requires { tile < tile_count topo.now }
    ensures { result ≡ processor_of kind topo.now tile }
{
    match kind {
        ProgramKind::Tile => tile,
        ProgramKind::Switch => topo.tiles() + tile,
    }
}

// Appends the lines of a program of this name, where it has a section.
fn push_program(
    alloc: Global,
    bytes: &mut Vec<u8>,
    name: &Line,
    part: Option<Section<'_>>,
    kind: ProgramKind,
) -> Result<(), AllocError>
    ensures { OnOk result (bytes.new.items ≡ bytes.old.items ++ told_of (section_text kind name.now) (option_map seen part.entry)) }
{
    match part {
        None => Ok(()),
        Some(section) => push_section(alloc, bytes, name.as_bytes(), &section, kind),
    }
}

// Appends the lines of the programs of all tiles, or of all switches.
fn push_programs(
    alloc: Global,
    bytes: &mut Vec<u8>,
    labels: &TextLabels<'_>,
    kind: ProgramKind,
) -> Result<(), AllocError>
    ensures { OnOk result (bytes.new.items ≡ bytes.old.items ++
        flat_map (program_text kind labels.now.topo.now (lines_in labels.now) labels.now.sections.items) (range_with_len 0 (tile_count labels.now.topo.now))) }
{
    for tile in 0..labels.topo.tiles() {
        let part = labels.part_for(kind, tile);
        push_program(alloc, bytes, &name_of(kind, labels.topo, tile), part, kind)?;
    }
    Ok(())
}

/// Which line gives each instruction of the programs that the first `to` lines of a text say, and which labels stand
/// there. The tiles come first, and then the switches.
///
/// The lines are to mean a set with this grid. It goes over them three times, and takes memory for what it tells.
pub fn list_lines(alloc: Global, text: &Text, to: usize, topo: &Topo) -> Result<Vec<u8>, AllocError>
    requires { to ≤ length (text_lines text.now) }
    ensures { IfOk result (λ bytes. bytes.items ≡ lines_text topo.now (take to (text_lines text.now))) }
{
    let labels = TextLabels::of(alloc, text, to, topo)?;
    let mut bytes = Vec::new(alloc);
    push_programs(alloc, &mut bytes, &labels, ProgramKind::Tile)?;
    push_programs(alloc, &mut bytes, &labels, ProgramKind::Switch)?;
    Ok(bytes)
}

// Appends the labels of a processor's program, where it has a section.
fn push_labels(
    bytes: &mut Vec<u8>,
    part: Option<Section<'_>>,
    kind: ProgramKind,
    processor: u32,
) -> Result<(), AllocError>
    ensures { OnOk result (bytes.new.items ≡ bytes.old.items ++ told_of (λ from lines. label_lines kind processor lines) (option_map seen part.entry)) }
{
    match part {
        None => Ok(()),
        Some(section) => push_label_lines(bytes, kind, processor, &section),
    }
}

// Appends the labels of all tiles, or of all switches.
fn push_all_labels(
    bytes: &mut Vec<u8>,
    labels: &TextLabels<'_>,
    kind: ProgramKind,
) -> Result<(), AllocError>
    ensures { OnOk result (bytes.new.items ≡ bytes.old.items ++
        flat_map (labels_of kind labels.now.topo.now (lines_in labels.now) labels.now.sections.items) (range_with_len 0 (tile_count labels.now.topo.now))) }
{
    for tile in 0..labels.topo.tiles() {
        let part = labels.part_for(kind, tile);
        push_labels(bytes, part, kind, processor_of(kind, labels.topo, tile))?;
    }
    Ok(())
}

// Appends the lines of the instructions of a processor's program, where it has a section.
fn push_numbers(
    bytes: &mut Vec<u8>,
    part: Option<Section<'_>>,
    kind: ProgramKind,
    processor: u32,
) -> Result<(), AllocError>
    ensures { OnOk result (bytes.new.items ≡ bytes.old.items ++ told_of (number_lines kind processor) (option_map seen part.entry)) }
{
    match part {
        None => Ok(()),
        Some(section) => push_number_lines(bytes, kind, processor, &section),
    }
}

// Appends the lines of the instructions of all tiles, or of all switches.
fn push_all_numbers(
    bytes: &mut Vec<u8>,
    labels: &TextLabels<'_>,
    kind: ProgramKind,
) -> Result<(), AllocError>
    ensures { OnOk result (bytes.new.items ≡ bytes.old.items ++
        flat_map (numbers_of kind labels.now.topo.now (lines_in labels.now) labels.now.sections.items) (range_with_len 0 (tile_count labels.now.topo.now))) }
{
    for tile in 0..labels.topo.tiles() {
        let part = labels.part_for(kind, tile);
        push_numbers(bytes, part, kind, processor_of(kind, labels.topo, tile))?;
    }
    Ok(())
}

/// Appends the same in the lines of a trace: the labels of each tile and then of each switch, and then the lines of
/// their instructions, each behind the number of the processor.
pub fn push_sources(
    alloc: Global,
    bytes: &mut Vec<u8>,
    text: &Text,
    to: usize,
    topo: &Topo,
) -> Result<(), AllocError>
    requires { to ≤ length (text_lines text.now) }
    ensures { OnOk result (bytes.new.items ≡ bytes.old.items ++ sources_text topo.now (take to (text_lines text.now))) }
{
    let labels = TextLabels::of(alloc, text, to, topo)?;
    push_all_labels(bytes, &labels, ProgramKind::Tile)?;
    push_all_labels(bytes, &labels, ProgramKind::Switch)?;
    push_all_numbers(bytes, &labels, ProgramKind::Tile)?;
    push_all_numbers(bytes, &labels, ProgramKind::Switch)?;
    Ok(())
}
