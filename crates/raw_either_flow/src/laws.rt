//! The law of the definitions. The function does nothing: its contract is the law.
ghost use Rattle.std.specs.Prelude.{ℕ, List};
ghost use Rattle.raw_either_flow.specs.Texts.{IsOneText};

/// A text means exactly one flow with its ports and words, or has exactly one least fault, and not both.
pub fn law_one_text()
    ensures { (bytes : List ℕ) → IsOneText bytes }
{
    raw_flow_text::law_one_answer();
    raw_stream_text::law_one_answer();
    raw_unroll::law_placed();
}
