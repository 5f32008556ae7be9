//! Assembling the lines of a section.
ghost use Rattle.std.specs.Prelude.{◌≡◌, ◌+◌, ◌<◌, ◌≤◌, ◌^◌, ◌++◌, [], length, take, slice_index_or, IfOk, IfErr, OnOk, Option, nat_lt, false};
ghost use Rattle.std.specs.Option.{is_some, option_map_or};
ghost use Rattle.std.specs.List.{position};
ghost use Rattle.raw_asm.specs.Names.{label_of, statement_of};
ghost use Rattle.raw_asm.specs.Emitted.{emitted, Gives};
ghost use Rattle.raw_asm.specs.Tokens.{tokens_of, section_lines};
ghost use Rattle.raw_asm.specs.NameTable.{value_in};
ghost use Rattle.raw_asm.specs.Labels.{StandsFor};
ghost use Rattle.raw_asm.specs.Refusal.{IsCause};
ghost use Rattle.raw_asm.specs.Section.{has_label, label_place, label_fault, line_code, place_of, size_of, IsMeaning};

use crate::cut::Section;
use crate::kind::{AsmKind, AsmRefusal};
use crate::label_table::{Labels, labels_of};
use crate::language::{Emitted, Statements};
use crate::limits::MAX_CODE;
use crate::names::is_name;
use std::alloc::{AllocError, Global};
use std::collections::BTreeMap;

// Whether the first line of a label is before this one.
fn is_before(lines: &BTreeMap<&[u8], usize>, name: &[u8], line: usize) -> bool
    ensures { result ≡ option_map_or (λ first. nat_lt first line) (value_in lines.now name.now) false }
{
    match lines.get(name).copied() {
        Some(first) => first < line,
        None => false,
    }
}

// Whether a line before this one has this label.
fn is_labelled_before<I: Copy, S: Statements<I>>(
    statements: &S,
    labels: &Labels<'_>,
    section: &Section<'_>,
    line: usize,
    name: &[u8],
) -> bool
    requires { StandsFor (S.language statements.now) labels.now (section_lines section.now) }
    ensures { result ≡ is_some (position (has_label name.now) (take line (section_lines section.now))) }
{
    is_before(&labels.lines, name, line)
}

// What is wrong with the label of a line.
#[tactic(auto, unfolding(crate::specs::Section::label_fault))]
fn label_fault<I: Copy, S: Statements<I>>(
    statements: &S,
    labels: &Labels<'_>,
    section: &Section<'_>,
    line: usize,
) -> Option<AsmKind>
    requires line { line < length (section_lines section.now) }
    requires labels { StandsFor (S.language statements.now) labels.now (section_lines section.now) }
    ensures { result ≡ label_fault (section_lines section.now) line (label_of (slice_index_or (section_lines section.now) line [])) }
{
    let name = section.line(line).label()?;
    if !is_name(name) {
        Some(AsmKind::UnknownName)
    } else if is_labelled_before(statements, labels, section, line, name) {
        Some(AsmKind::DoubleLabel)
    } else {
        None
    }
}

// The instructions of a line's statement.
fn statement_code<I: Copy, S: Statements<I>>(
    statements: &S,
    labels: &Labels<'_>,
    section: &Section<'_>,
    line: usize,
    place: u32,
) -> Result<Emitted<I>, AsmKind>
    requires line { line < length (section_lines section.now) }
    requires small { place < 2 ^ 31 }
    requires labels { StandsFor (S.language statements.now) labels.now (section_lines section.now) }
    ensures code { Gives emitted result ((S.language statements.now).code (label_place (S.language statements.now) (section_lines section.now)) place
        (statement_of (slice_index_or (section_lines section.now) line []))) }
    ensures size { IfOk result (λ gave. length (emitted gave) ≡ size_of (S.language statements.now) (slice_index_or (section_lines section.now) line [])) }
{
    statements.code(labels, place, &section.line(line).statement())
}

impl<I> Emitted<I> {
    // How many instructions they are.
    fn len(&self) -> u32
        ensures { result ≡ length (emitted self.now) }
    {
        match self {
            Emitted::Nothing => 0,
            Emitted::One(_) => 1,
            Emitted::Two(_, _) => 2,
        }
    }
}

// What a line gives.
#[tactic(auto, unfolding(crate::specs::Section::line_code))]
fn line_code<I: Copy, S: Statements<I>>(
    statements: &S,
    labels: &Labels<'_>,
    section: &Section<'_>,
    line: usize,
    place: u32,
    most: u32,
) -> Result<Emitted<I>, AsmKind>
    requires line { line < length (section_lines section.now) }
    requires most { most ≡ (S.language statements.now).most }
    requires few { most ≤ MAX_CODE }
    requires place { place ≡ place_of (S.language statements.now) (section_lines section.now) line }
    requires small { place ≤ most }
    requires labels { StandsFor (S.language statements.now) labels.now (section_lines section.now) }
    ensures code { Gives emitted result (line_code (S.language statements.now) (section_lines section.now) line) }
    ensures size { IfOk result (λ gave. length (emitted gave) ≡ size_of (S.language statements.now) (slice_index_or (section_lines section.now) line [])) }
    ensures fits { IfOk result (λ gave. place + length (emitted gave) ≤ most) }
{
    if let Some(kind) = label_fault(statements, labels, section, line) {
        return Err(kind);
    }
    let code = statement_code(statements, labels, section, line, place)?;
    if place + code.len() > most {
        return Err(AsmKind::TooLong);
    }
    Ok(code)
}

// Appends the instructions to the program.
fn push_emitted<I: Copy>(program: &mut Vec<I>, gave: &Emitted<I>) -> Result<(), AllocError>
    ensures { OnOk result (program.new.items ≡ program.old.items ++ emitted gave.now) }
{
    match gave {
        Emitted::Nothing => {}
        Emitted::One(first) => program.push(*first)?,
        Emitted::Two(first, second) => {
            program.push(*first)?;
            program.push(*second)?;
        }
    }
    Ok(())
}

/// The program that the lines of a section mean.
///
/// A refusal names the least faulty line and its fault, or is want of memory.
pub fn assemble<I: Copy, S: Statements<I>>(
    alloc: Global,
    statements: &S,
    section: &Section<'_>,
) -> Result<Vec<I>, AsmRefusal>
    ensures meaning { IfOk result (λ program. IsMeaning (S.language statements.now) (section_lines section.now) program.items) }
    ensures cause { IfErr result (IsCause (S.language statements.now) (section_lines section.now) section.now.from) }
{
    let labels = labels_of(alloc, statements, section)?;
    let most = statements.most();
    let mut program = Vec::new(alloc);
    for line in 0..section.len() {
        match line_code(
            statements,
            &labels,
            section,
            line,
            program.len() as u32,
            most,
        ) {
            Ok(gave) => push_emitted(&mut program, &gave)?,
            Err(kind) => {
                return Err(AsmRefusal::At {
                    line: section.line_number(line),
                    kind,
                });
            }
        }
    }
    Ok(program)
}
