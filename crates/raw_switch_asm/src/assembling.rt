//! Assembling the text of a switch.
ghost use Rattle.std.specs.Prelude.{◌≡◌, ◌≤◌, length, slice_range, IfOk, IfErr};
ghost use Rattle.raw_text.specs.Text.{text_lines};
ghost use Rattle.raw_asm.specs.Section.{IsMeaning};
ghost use Rattle.raw_asm.specs.Refusal.{IsCause};

use crate::names::Names;
use crate::statement::instruction;
use raw_asm::{AsmKind, AsmRefusal, Emitted, Labels, Section, Statements, Tokens, assemble};
use raw_grid::Ends;
use raw_switch_isa::{MAX_SWITCH_CODE, SwitchIns};
use raw_text::Text;
use std::alloc::Global;

// The statements of a switch with wires at these ends.
#[derive(Drop)]
struct SwitchStatements {
    names: Names,
    wired: Ends,
}

impl Statements<SwitchIns> for SwitchStatements {
    ghost use Rattle.raw_switch_asm.specs.Language.{switch_language};

    ghost language = { λ statements. switch_language statements.wired };

    fn most(&self) -> u32 {
        MAX_SWITCH_CODE as u32
    }

    fn size(&self, statement: &Tokens<'_>) -> u32 {
        if statement.len() == 0 { 0 } else { 1 }
    }

    #[tactic(auto, unfolding(crate::specs::Language::statement_code))]
    fn code(
        &self,
        labels: &Labels<'_>,
        _place: u32,
        statement: &Tokens<'_>,
    ) -> Result<Emitted<SwitchIns>, AsmKind> {
        if statement.len() == 0 {
            return Ok(Emitted::Nothing);
        }
        let ins = instruction(&self.names, self.wired, labels, statement)?;
        Ok(Emitted::One(ins))
    }
}

ghost use Rattle.raw_switch_asm.specs.Language.{switch_language};

/// The program that the lines of a text mean for a switch with wires at these ends: those from the
/// place `from` up to `to`, which is not their own, counted from 0.
///
/// A program has at most 8,192 instructions. A refusal names the least faulty line, by its number in
/// the text, and its fault, or is want of memory.
pub fn assemble_switch(
    alloc: Global,
    text: &Text,
    from: usize,
    to: usize,
    ends: Ends,
) -> Result<Vec<SwitchIns>, AsmRefusal>
    requires order { from ≤ to }
    requires within { to ≤ length (text_lines text.now) }
    ensures meaning { IfOk result (λ code. IsMeaning (switch_language ends) (slice_range (text_lines text.now) from to) code.items) }
    ensures cause { IfErr result (IsCause (switch_language ends) (slice_range (text_lines text.now) from to) from) }
{
    let statements = SwitchStatements {
        names: Names::new(alloc)?,
        wired: ends,
    };
    assemble(alloc, &statements, &Section::new(text, from, to))
}
