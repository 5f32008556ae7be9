//! The two kinds of programs, and how many instructions a line of each gives.
ghost use Rattle.std.specs.Prelude.{◌≡◌, ◌≤◌, [], length, slice_index_or};
ghost use Rattle.raw_text.specs.Number.{number_of};
ghost use Rattle.raw_asm.specs.Tokens.{tokens_of};
ghost use Rattle.raw_tile_asm.specs.Statement.{load_size};
ghost use Rattle.raw_tile_asm.specs.Language.{statement_size};
ghost use Rattle.raw_lines.specs.Sections.{kind_named};
ghost use Rattle.raw_lines.specs.Places.{size_in};
ghost use Rattle.raw_lines.specs.Lines.{kind_text};

use raw_asm::Tokens;
use raw_text::number;
use raw_tile_isa::is_one;

/// What has a program.
#[derive(Clone, Copy, PartialEq, Eq)]
pub enum ProgramKind {
    Tile,
    /// The switch of a tile.
    Switch,
}

impl ProgramKind {
    /// The word for it, which begins its sections.
    pub(crate) fn text(self) -> &'static [u8]
        ensures text { result.now ≡ kind_text self }
        ensures short { length result.now ≤ 6 }
    {
        match self {
            ProgramKind::Tile => b"tile",
            ProgramKind::Switch => b"switch",
        }
    }

    /// Whose section begins with this word.
    pub(crate) fn named(word: &[u8]) -> Option<ProgramKind>
        ensures { result ≡ kind_named word.now }
    {
        if word == b"tile".as_slice() {
            Some(ProgramKind::Tile)
        } else if word == b"switch".as_slice() {
            Some(ProgramKind::Switch)
        } else {
            None
        }
    }
}

// How many instructions `li` gives with these operands.
fn load_size(operands: &Tokens<'_>) -> u32
    ensures value { result ≡ load_size (number_of (slice_index_or (tokens_of operands.now) 1 [])) }
    ensures bound { result ≤ 2 }
{
    if operands.len() < 2 {
        return 1;
    }
    match number(operands.at(1)) {
        Some(word) if !is_one(word) => 2,
        _ => 1,
    }
}

// How many instructions a statement of a tile gives.
fn tile_size(statement: &Tokens<'_>) -> u32
    ensures value { result ≡ statement_size (tokens_of statement.now) }
    ensures bound { result ≤ 2 }
{
    if statement.len() == 0 {
        0
    } else if statement.at(0) == b"li".as_slice() {
        load_size(&statement.behind(1))
    } else {
        1
    }
}

/// How many instructions a line of a section gives.
pub(crate) fn size_in(kind: ProgramKind, line: &Tokens<'_>) -> u32
    ensures value { result ≡ size_in kind (tokens_of line.now) }
    ensures bound { result ≤ 2 }
{
    let statement = line.statement();
    match kind {
        ProgramKind::Tile => tile_size(&statement),
        ProgramKind::Switch if statement.len() == 0 => 0,
        ProgramKind::Switch => 1,
    }
}
