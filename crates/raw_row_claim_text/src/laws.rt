//! The law of the definitions. The function does nothing: its contract is the law.
ghost use Rattle.std.specs.Prelude.{ℕ, List};
ghost use Rattle.raw_row_claim_text.specs.Texts.{IsOneText};

/// As a claim of rows a text means exactly one set with exactly one stream, or has exactly one least fault, and not both.
pub fn law_one_text()
    ensures { (bytes : List ℕ) → IsOneText bytes }
{
    raw_set_text::law_one_answer();
    raw_stream_text::law_one_answer();
}
