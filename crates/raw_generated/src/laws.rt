//! Laws of the definitions. Each function does nothing: its contract is the law.
ghost use Rattle.std.specs.Prelude.{◌≡◌, ℕ, ◌≤◌, [], ◌∷◌, codes};
ghost use Rattle.raw_model.specs.Outcomes.Outcome.{Done};
ghost use Rattle.raw_model.specs.Program.{IsSet};
ghost use Rattle.raw_generated.specs.Generated.{words_from, generated};
ghost use Rattle.raw_generated.specs.Summary.{summary_line};

use crate::limits::MAX_GENERATED_WORDS;

/// The generated set of 1 to `MAX_GENERATED_WORDS` words keeps all that sets keep.
#[tactic(auto, using(crate::proofs::Whole::generated_is_set))]
pub fn law_generated()
    ensures { (n : ℕ) → 1 ≤ n → n ≤ MAX_GENERATED_WORDS → IsSet (generated n) }
{}

/// The first words, and the lines of runs of one word and of two, worked by hand: the sixteen tiles add
/// 0 + 1 + .. + 15 = 120 to each word.
pub fn law_lines()
    ensures words { words_from 2 2 ≡ 2 ∷ (1017233273 ∷ []) }
    ensures one { summary_line 1 Done (121 ∷ []) 162 ≡
        codes "work 1 done words 1 sum 0x00000079 steps 162\n" }
    ensures two { summary_line 2 Done (122 ∷ (1017233393 ∷ [])) 244 ≡
        codes "work 2 done words 2 sum 0x3ca1c06b steps 244\n" }
{}
