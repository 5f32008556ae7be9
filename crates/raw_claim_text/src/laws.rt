//! The law of the definitions. The function does nothing: its contract is the law.
ghost use Rattle.std.specs.Prelude.{ℕ, List};
ghost use Rattle.raw_claim_text.specs.Texts.{IsOneText};

/// A text means exactly one set with exactly one claim, or has exactly one least fault, and not both.
pub fn law_one_text()
    ensures { (bytes : List ℕ) → IsOneText bytes }
{
    raw_set_text::law_one_answer();
    raw_flow_text::law_one_answer();
}
