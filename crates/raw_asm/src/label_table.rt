//! The labels of a section, and where its lines stand in the program.
ghost use Rattle.std.specs.Prelude.{◌≡◌, ℕ, ◌<◌, ◌≤◌, List, [], Option, Some, None, length, slice_get, slice_index, slice_index_or, OnOk, IfOk, if◌then◌else◌};
ghost use Rattle.std.specs.Option.{option_or};
ghost use Rattle.std.specs.List.{position};
ghost use Rattle.raw_asm.specs.Tokens.{tokens_of, section_lines};
ghost use Rattle.raw_asm.specs.Section.{has_label, place_of};
ghost use Rattle.raw_asm.specs.NameTable.{value_in};

use crate::cut::{Section, Tokens};
use crate::language::Statements;
use crate::name_table::add_first;
use crate::names::is_name;
use std::alloc::{AllocError, Global};
use std::collections::BTreeMap;

/// The first line that defines each label, and the place in the program at which each line stands.
#[derive(Drop)]
pub struct Labels<'a> {
    pub(crate) lines: BTreeMap<&'a [u8], usize>,
    pub(crate) starts: Vec<u32>,
}

impl Labels<'_> {
    ghost use Rattle.std.specs.Prelude.{◌≡◌};
    ghost use Rattle.raw_asm.specs.Labels.{place_in};

    /// The place for which a label stands; `None` where no line defines it.
    #[tactic(auto, unfolding(crate::specs::Labels::place_in))]
    pub fn place(&self, name: &[u8]) -> Option<u32>
        ensures { result ≡ place_in self.now name.now }
    {
        let line = self.lines.get(name).copied()?;
        self.starts.get(line).copied()
    }
}

// Adds the label of a line, unless its name is there.
fn add_label<'a>(
    lines: &mut BTreeMap<&'a [u8], usize>,
    tokens: &Tokens<'a>,
    line: usize,
) -> Result<(), AllocError>
    ensures { OnOk result ((name : List ℕ) → value_in lines.new name
        ≡ option_or (value_in lines.old name) (if has_label name (tokens_of tokens.now) then Some line else None)) }
{
    let Some(name) = tokens.label() else {
        return Ok(());
    };
    if is_name(name) {
        add_first(lines, name, line)?;
    }
    Ok(())
}

// The first line of each label.
fn label_lines<'a>(
    alloc: Global,
    section: &Section<'a>,
) -> Result<BTreeMap<&'a [u8], usize>, AllocError>
    ensures { IfOk result (λ lines. (name : List ℕ) → value_in lines name ≡ position (has_label name) (section_lines section.now)) }
{
    let mut lines = BTreeMap::new(alloc);
    for line in 0..section.len() {
        add_label(&mut lines, &section.line(line), line)?;
    }
    Ok(lines)
}

// Where each line stands.
fn line_starts<I: Copy, S: Statements<I>>(
    alloc: Global,
    statements: &S,
    section: &Section<'_>,
) -> Result<Vec<u32>, AllocError>
    ensures count { IfOk result (λ starts. length starts.items ≡ length (section_lines section.now)) }
    ensures places { IfOk result (λ starts. (k : ℕ) → k < length (section_lines section.now)
        → slice_index starts.items k ≡ place_of (S.language statements.now) (section_lines section.now) k) }
{
    let mut starts = Vec::new(alloc);
    let mut place = 0;
    for line in 0..section.len() {
        starts.push(place)?;
        place += statements.size(&section.line(line).statement());
    }
    Ok(starts)
}

ghost use Rattle.raw_asm.specs.Labels.{StandsFor};

/// The labels of a section.
pub fn labels_of<'a, I: Copy, S: Statements<I>>(
    alloc: Global,
    statements: &S,
    section: &Section<'a>,
) -> Result<Labels<'a>, AllocError>
    ensures { IfOk result (λ labels. StandsFor (S.language statements.now) labels (section_lines section.now)) }
{
    Ok(Labels {
        lines: label_lines(alloc, section)?,
        starts: line_starts(alloc, statements, section)?,
    })
}
