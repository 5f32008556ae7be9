//! Laws of the definitions. Each function does nothing: its contract is the law.
ghost use Rattle.std.specs.Prelude.{ℕ, List};
ghost use Rattle.raw_plan_text.specs.Meaning.{IsOnePlan};
ghost use Rattle.raw_plan_text.specs.Texts.{IsOnePlanText};

/// Lines mean exactly one plan, which is as a planner asks, or have exactly one least fault, and not both.
pub fn law_one_answer()
    ensures { (lines : List (List (List ℕ))) → IsOnePlan lines }
{}

/// A text means exactly one plan, which is as a planner asks, or has exactly one least fault, and not both. The first line that
/// no text may have comes before all other faults.
pub fn law_one_plan_text()
    ensures { (bytes : List ℕ) → IsOnePlanText bytes }
{
    law_one_answer();
}
