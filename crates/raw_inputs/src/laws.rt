//! Laws. The functions do nothing: their contracts are the laws.
ghost use Rattle.std.specs.Prelude.{ℕ, ◌<◌, ◌≢◌, List, All};
ghost use Rattle.raw_inputs.specs.Inputs.{IsOneSet, IsOneInput, MeansOrFails, HasOneFault};
ghost use Rattle.raw_inputs.specs.declared.form.InputForm.{InputForm};

use raw_flow::law_compiled_at;
use raw_image::law_one_answer;
use raw_plan_text::law_one_plan_text;
use raw_report::law_history;
use raw_route::law_planned;
use raw_set_text::law_one_text;

/// A text means exactly one set, or has exactly one fault, and not both.
pub(crate) fn law_texts()
    ensures { (form : InputForm) (input : List ℕ) → form ≢ InputForm.Image → IsOneSet form input }
{
    law_one_text();
    law_one_plan_text();
    law_planned();
    raw_either_flow::law_one_text();
    law_compiled_at();
    raw_set_text::law_one_answer();
    law_history();
    raw_claim_text::law_one_text();
    raw_row_claim_text::law_one_text();
}

/// An input means at most one set, and where it means one it has no fault.
pub fn law_one_input()
    ensures { (form : InputForm) (input : List ℕ) → IsOneInput form input }
{
    law_texts();
    law_one_answer();
}

/// Bytes mean a set, or have exactly one fault: each input is taken, or refused at one place.
pub fn law_every_input()
    ensures either { (form : InputForm) (input : List ℕ) → All (λ byte. byte < 256) input → MeansOrFails form input }
    ensures one_fault { (form : InputForm) (input : List ℕ) → All (λ byte. byte < 256) input → HasOneFault form input }
{
    law_texts();
    law_one_answer();
}
