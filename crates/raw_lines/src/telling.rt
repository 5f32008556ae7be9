//! The lines of a trace that tell the labels and the lines of one program.
ghost use Rattle.std.specs.Prelude.{◌≡◌, ◌*◌, ◌+◌, ◌<◌, ◌≤◌, ◌++◌, length, OnOk};
ghost use Rattle.std.specs.List.{flat_map, range_with_len};
ghost use Rattle.raw_asm.specs.Tokens.{tokens_of, section_lines};
ghost use Rattle.raw_lines.specs.Places.{label_in};
ghost use Rattle.raw_lines.specs.Lines.{label_line, label_lines, number_line, number_lines};

use crate::appending::push_number;
use crate::kind::{ProgramKind, size_in};
use crate::naming::label_in;
use raw_asm::{Section, Tokens};
use std::alloc::AllocError;

// Appends that the label of a line stands at a place of a processor's program, where it has one.
fn push_label_line(
    bytes: &mut Vec<u8>,
    processor: u32,
    place: u32,
    line: &Tokens<'_>,
) -> Result<(), AllocError>
    ensures { OnOk result (bytes.new.items ≡ bytes.old.items ++ label_line processor place (label_in (tokens_of line.now))) }
{
    match label_in(line) {
        None => Ok(()),
        Some(name) => {
            bytes.extend_from_slice(b"label ")?;
            push_number(bytes, u64::from(processor))?;
            bytes.extend_from_slice(b" ")?;
            push_number(bytes, u64::from(place))?;
            bytes.extend_from_slice(b" ")?;
            bytes.extend_from_slice(name)?;
            bytes.extend_from_slice(b"\n")
        }
    }
}

/// Appends the labels of a processor's program.
pub(crate) fn push_label_lines(
    bytes: &mut Vec<u8>,
    kind: ProgramKind,
    processor: u32,
    section: &Section<'_>,
) -> Result<(), AllocError>
    ensures { OnOk result (bytes.new.items ≡ bytes.old.items ++ label_lines kind processor (section_lines section.now)) }
{
    let mut place = 0;
    for at in 0..section.len() {
        let line = section.line(at);
        push_label_line(bytes, processor, place, &line)?;
        place += size_in(kind, &line);
    }
    Ok(())
}

// Appends that a line gives the instruction at a place of a processor's program.
fn push_number_line(
    bytes: &mut Vec<u8>,
    processor: u32,
    section: &Section<'_>,
    line: usize,
    place: u32,
) -> Result<(), AllocError>
    requires { line < length (section_lines section.now) }
    ensures { OnOk result (bytes.new.items ≡ bytes.old.items ++ number_line processor section.now.from line place) }
{
    bytes.extend_from_slice(b"line ")?;
    push_number(bytes, u64::from(processor))?;
    bytes.extend_from_slice(b" ")?;
    push_number(bytes, u64::from(place))?;
    bytes.extend_from_slice(b" ")?;
    push_number(bytes, u64::from(section.line_number(line)))?;
    bytes.extend_from_slice(b"\n")
}

// Appends the instructions that a line of this size gives, the first of them at a place.
fn push_numbers(
    bytes: &mut Vec<u8>,
    processor: u32,
    section: &Section<'_>,
    line: usize,
    place: u32,
    size: u32,
) -> Result<(), AllocError>
    requires line { line < length (section_lines section.now) }
    requires small { place ≤ 2 * line }
    requires few { size ≤ 2 }
    ensures { OnOk result (bytes.new.items ≡ bytes.old.items ++
        flat_map (λ j. number_line processor section.now.from line (place + j)) (range_with_len 0 size)) }
{
    for j in 0..size {
        push_number_line(bytes, processor, section, line, place + j)?;
    }
    Ok(())
}

/// Appends the lines of the instructions of a processor's program.
pub(crate) fn push_number_lines(
    bytes: &mut Vec<u8>,
    kind: ProgramKind,
    processor: u32,
    section: &Section<'_>,
) -> Result<(), AllocError>
    ensures { OnOk result (bytes.new.items ≡ bytes.old.items ++
        number_lines kind processor section.now.from (section_lines section.now)) }
{
    let mut place = 0;
    for line in 0..section.len() {
        let size = size_in(kind, &section.line(line));
        push_numbers(bytes, processor, section, line, place, size)?;
        place += size;
    }
    Ok(())
}
