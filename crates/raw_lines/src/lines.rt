//! The lines of the command `lines` for one program.
ghost use Rattle.std.specs.Prelude.{◌≡◌, ◌*◌, ◌+◌, ◌<◌, ◌≤◌, ◌==◌, ◌++◌, length, OnOk, if◌then◌else◌};
ghost use Rattle.raw_asm.specs.Tokens.{tokens_of, section_lines};
ghost use Rattle.raw_lines.specs.Places.{place_in, size_at, label_in};
ghost use Rattle.raw_lines.specs.Lines.{label_text, told, line_text, last_text, section_text};
ghost use Rattle.raw_lines.specs.Reading.{labels_between, StandHere};

use crate::appending::push_number;
use crate::kind::{ProgramKind, size_in};
use crate::naming::label_in;
use raw_asm::{Section, Tokens};
use raw_text::MAX_TEXT;
use std::alloc::{AllocError, Global};

// Appends the label of a line, behind the word for it.
fn push_label(bytes: &mut Vec<u8>, line: &Tokens<'_>) -> Result<(), AllocError>
    ensures { OnOk result (bytes.new.items ≡ bytes.old.items ++ label_text (label_in (tokens_of line.now))) }
{
    match label_in(line) {
        None => Ok(()),
        Some(name) => {
            bytes.extend_from_slice(b" label ")?;
            bytes.extend_from_slice(name)
        }
    }
}

// Appends the labels of the lines from a place up to another.
fn push_labels(
    bytes: &mut Vec<u8>,
    section: &Section<'_>,
    from: usize,
    to: usize,
) -> Result<(), AllocError>
    requires order { from ≤ to }
    requires within { to ≤ length (section_lines section.now) }
    ensures { OnOk result (bytes.new.items ≡ bytes.old.items ++ labels_between (section_lines section.now) from to) }
{
    for line in from..to {
        push_label(bytes, &section.line(line))?;
    }
    Ok(())
}

// Appends that a line gives the instruction at a place, and the labels of the lines from `since` up to `to`.
fn push_instruction(
    bytes: &mut Vec<u8>,
    name: &[u8],
    section: &Section<'_>,
    line: usize,
    place: u32,
    since: usize,
    to: usize,
) -> Result<(), AllocError>
    requires line { line < length (section_lines section.now) }
    requires order { since ≤ to }
    requires within { to ≤ length (section_lines section.now) }
    ensures { OnOk result (bytes.new.items ≡ bytes.old.items ++
        told name.now section.now.from line place (labels_between (section_lines section.now) since to)) }
{
    bytes.extend_from_slice(name)?;
    push_number(bytes, u64::from(place))?;
    bytes.extend_from_slice(b" line ")?;
    push_number(bytes, u64::from(section.line_number(line)))?;
    push_labels(bytes, section, since, to)?;
    bytes.extend_from_slice(b"\n")
}

// Appends the instructions that a line of this size gives, the first of them at a place; the labels of the lines from `since` on stand
// there.
fn push_line(
    bytes: &mut Vec<u8>,
    name: &[u8],
    section: &Section<'_>,
    line: usize,
    place: u32,
    since: usize,
    size: u32,
) -> Result<(), AllocError>
    requires line { line < length (section_lines section.now) }
    requires small { place ≤ 2 * line }
    requires since { since ≤ line }
    requires few { size ≤ 2 }
    ensures { (kind : ProgramKind) → place ≡ place_in kind (section_lines section.now) line → size ≡ size_at kind (section_lines section.now) line →
        StandHere kind (section_lines section.now) since line →
        OnOk result (bytes.new.items ≡ bytes.old.items ++ line_text kind name.now section.now.from (section_lines section.now) line) }
{
    if size == 0 {
        return Ok(());
    }
    let behind = line + 1;
    push_instruction(bytes, name, section, line, place, since, behind)?;
    if size == 1 {
        return Ok(());
    }
    push_instruction(bytes, name, section, line, place + 1, behind, behind)
}

// The line from which on labels stand at the place behind a line of this size.
fn since_behind(since: usize, line: usize, size: u32) -> usize
    requires { line < MAX_TEXT }
    ensures { result ≡ (if size == 0 then since else line + 1) }
{
    if size == 0 { since } else { line + 1 }
}

// Appends the labels behind the last instruction: those from the line `since` on.
fn push_last(
    alloc: Global,
    bytes: &mut Vec<u8>,
    name: &[u8],
    section: &Section<'_>,
    place: u32,
    since: usize,
) -> Result<(), AllocError>
    requires { since ≤ length (section_lines section.now) }
    ensures { OnOk result (bytes.new.items ≡ bytes.old.items ++
        last_text name.now place (labels_between (section_lines section.now) since (length (section_lines section.now)))) }
{
    let mut labels = Vec::new(alloc);
    push_labels(&mut labels, section, since, section.len())?;
    if labels.is_empty() {
        return Ok(());
    }
    bytes.extend_from_slice(name)?;
    push_number(bytes, u64::from(place))?;
    bytes.extend_from_slice(&labels)?;
    bytes.extend_from_slice(b"\n")
}

/// Appends the lines of a program, each behind this name.
pub(crate) fn push_section(
    alloc: Global,
    bytes: &mut Vec<u8>,
    name: &[u8],
    section: &Section<'_>,
    kind: ProgramKind,
) -> Result<(), AllocError>
    ensures { OnOk result (bytes.new.items ≡ bytes.old.items ++
        section_text kind name.now section.now.from (section_lines section.now)) }
{
    let mut place = 0;
    let mut since = 0;
    for line in 0..section.len() {
        let size = size_in(kind, &section.line(line));
        push_line(bytes, name, section, line, place, since, size)?;
        since = since_behind(since, line, size);
        place += size;
    }
    push_last(alloc, bytes, name, section, place, since)
}
