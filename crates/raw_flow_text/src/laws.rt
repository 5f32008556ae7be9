//! Laws of the definitions. Each function does nothing: its contract is the law.
ghost use Rattle.std.specs.Prelude.{ℕ, List, Option};
ghost use Rattle.raw_flow_text.specs.Meaning.{IsOneFlow};
ghost use Rattle.raw_flow_text.specs.Texts.{IsOneText};

/// Lines mean exactly one flow with the words of its inputs, which keeps all that such flows keep, or have exactly one
/// least fault, and not both: where the grid may have any size, and where one is wanted; alone, and after other lines.
pub fn law_one_answer()
    ensures { (wanted : Option (ℕ × ℕ)) (from : ℕ) (lines : List (List (List ℕ))) → IsOneFlow wanted from lines }
{}

/// A text means exactly one flow with the words of its inputs, or has exactly one least fault, and not both.
pub fn law_one_text()
    ensures { (bytes : List ℕ) → IsOneText bytes }
{
    law_one_answer();
}
