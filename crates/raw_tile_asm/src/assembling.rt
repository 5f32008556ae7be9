//! Assembling the text of a tile.
ghost use Rattle.std.specs.Prelude.{◌≡◌, ◌≤◌, length, slice_range, IfOk, IfErr};
ghost use Rattle.raw_text.specs.Text.{text_lines};
ghost use Rattle.raw_asm.specs.Section.{IsMeaning};
ghost use Rattle.raw_asm.specs.Refusal.{IsCause};
ghost use Rattle.raw_tile_asm.specs.Language.{tile_language};

use crate::names::Names;
use crate::statement::{load_size, load_statement, named, word_statement};
use raw_asm::{AsmKind, AsmRefusal, Emitted, Labels, Section, Statements, Tokens, assemble};
use raw_text::Text;
use raw_tile_isa::{MAX_TILE_CODE, TileIns};
use std::alloc::Global;

// The statements of tile text.
#[derive(Drop)]
struct TileStatements {
    names: Names,
}

impl Statements<TileIns> for TileStatements {
    ghost use Rattle.raw_tile_asm.specs.Language.{tile_language};

    ghost language = { λ _. tile_language };

    fn most(&self) -> u32 {
        MAX_TILE_CODE as u32
    }

    fn size(&self, statement: &Tokens<'_>) -> u32 {
        if statement.len() == 0 {
            0
        } else if statement.at(0) == b"li".as_slice() {
            load_size(&statement.behind(1))
        } else {
            1
        }
    }

    fn code(
        &self,
        labels: &Labels<'_>,
        place: u32,
        statement: &Tokens<'_>,
    ) -> Result<Emitted<TileIns>, AsmKind> {
        if statement.len() == 0 {
            return Ok(Emitted::Nothing);
        }
        let name = statement.at(0);
        let operands = statement.behind(1);
        if name == b"li".as_slice() {
            load_statement(&operands)
        } else if name == b".word".as_slice() {
            word_statement(&operands)
        } else {
            named(&self.names, labels, place, name, &operands)
        }
    }
}

/// The program that the lines of a text mean as tile text, from the place `from` up to `to`, both counted
/// from 0.
///
/// A refusal names the least faulty line and the first of its faults, or is want of memory; the text is
/// unchanged. A line of tile text has none of the faults of routes, `BadRoute`, `TwoSources` and
/// `TwoRegisters`, and not `UndeclaredEdge`. A program has at most 16,384 instructions.
pub fn assemble_tile(
    alloc: Global,
    text: &Text,
    from: usize,
    to: usize,
) -> Result<Vec<TileIns>, AsmRefusal>
    requires order { from ≤ to }
    requires within { to ≤ length (text_lines text.now) }
    ensures meaning { IfOk result (λ program.
        IsMeaning tile_language (slice_range (text_lines text.now) from to) program.items) }
    ensures cause { IfErr result (IsCause tile_language (slice_range (text_lines text.now) from to) from) }
{
    let statements = TileStatements {
        names: Names::new(alloc)?,
    };
    assemble(alloc, &statements, &Section::new(text, from, to))
}
