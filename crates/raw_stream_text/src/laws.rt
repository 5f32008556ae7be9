//! Laws of the definitions. Each function does nothing: its contract is the law.
ghost use Rattle.std.specs.Prelude.{ℕ, List, Option};
ghost use Rattle.raw_grid.specs.Topology.{Topology};
ghost use Rattle.raw_stream_text.specs.Meaning.{IsOneStream};
ghost use Rattle.raw_stream_text.specs.Texts.{IsOneText};

/// Lines mean exactly one stream with the words of its sources, which keeps all that such streams keep, or have exactly one
/// least fault, and not both: by themselves, and as a claim of a set, after other lines.
pub fn law_one_answer()
    ensures { (claimed : Option Topology) (from : ℕ) (lines : List (List (List ℕ))) → IsOneStream claimed from lines }
{}

/// A text means exactly one stream with the words of its sources, or has exactly one least fault, and not both.
pub fn law_one_text()
    ensures { (bytes : List ℕ) → IsOneText bytes }
{
    law_one_answer();
}
