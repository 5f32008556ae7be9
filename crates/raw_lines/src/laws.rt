//! A law of the definitions. The function does nothing: its contract is the law.
ghost use Rattle.std.specs.Prelude.{ℕ, List};
ghost use Rattle.raw_model.specs.Program.{ProgramSet};
ghost use Rattle.raw_set_text.specs.Meaning.{IsMeaning};
ghost use Rattle.raw_lines.specs.Laws.{ArePrograms};

/// What is told of a text is told of the set that it means: the lines that a program has mean that program, and a
/// program without lines is empty.
pub fn law_lines()
    ensures { (lines : List (List (List ℕ))) (set : ProgramSet) → IsMeaning lines set → ArePrograms lines set }
{
    raw_tile_asm::law_lawful();
    raw_switch_asm::law_lawful();
}
