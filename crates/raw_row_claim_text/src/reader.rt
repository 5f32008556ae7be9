//! Reading the text of a claim of rows.
ghost use Rattle.std.specs.Prelude.{◌≡◌, ◌↔◌, None, true, false, IfOk, IfErr, IfSome, Some};
ghost use Rattle.raw_text.specs.Text.{text_lines};
ghost use Rattle.raw_stream_text.specs.Meaning.{IsFed};
ghost use Rattle.raw_row_claim_text.specs.Meaning.{has_rows, Says, IsCause};

use crate::claim::RowClaim;
use raw_set_text::{SetRefusal, read_set};
use raw_stream_text::{is_stream, read_stream_from};
use raw_text::Text;
use std::alloc::Global;

/// The set and the stream that a text means, or `None` exactly where it has no line `claim`, or the lines behind that are not
/// those of a stream: then it is no claim of rows.
///
/// A refusal names the least faulty line, counted from the start of the text, and the first of its faults, or is want of
/// memory: a fault of the set before the line `claim` comes first, and then those of the stream behind it. The text is
/// unchanged.
pub fn read_row_claim(alloc: Global, text: &Text) -> Result<Option<RowClaim>, SetRefusal>
    ensures meaning { IfOk result (λ claim. IfSome claim (λ claim. Says (text_lines text.now) (claim.set, claim.input))) }
    ensures none { IfOk result (λ claim. (claim ≡ None) ↔ (has_rows (text_lines text.now) ≡ false)) }
    ensures cause { IfErr result (IsCause (text_lines text.now)) }
    ensures rows { IfErr result (λ _. has_rows (text_lines text.now) ≡ true) }
    ensures fed { IfOk result (λ claim. IfSome claim (λ claim. IsFed (Some claim.set.topo) claim.input)) }
{
    let Some(place) = text.find_word(b"claim") else {
        return Ok(None);
    };
    if !is_stream(text, place + 1) {
        return Ok(None);
    }
    let set = match read_set(alloc, text, place) {
        Ok(set) => set,
        Err(refusal) => return Err(refusal),
    };
    match read_stream_from(alloc, text, place + 1, Some(&set.topo)) {
        Ok(input) => Ok(Some(RowClaim { set, input })),
        Err(refusal) => Err(refusal),
    }
}
