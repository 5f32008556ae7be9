//! The command `prove` of a stream that is claimed of a set.
ghost use Rattle.std.specs.Prelude.{◌≡◌, ℕ, List, Some, string_bytes, IfOk};
ghost use Rattle.raw_stream_text.specs.Meaning.{IsFed};
ghost use Rattle.raw_shell.specs.Seen.{sink_seen};
ghost use Rattle.raw_owed.specs.declared.limits.TheConstants.{MAX_TOLD_WORDS};
ghost use Rattle.raw_inputs.specs.Claimed.{IsRowClaim};
ghost use Rattle.raw_owed.specs.ClaimOutputs.{told_words};
ghost use Rattle.raw_owed.specs.Obeyed.{Obeyed};
ghost use Rattle.raw_command_line.specs.declared.arguments.ReadingCommand.TheVariants.{Prove};
ghost use Rattle.raw_command_line.specs.declared.arguments.Command.TheVariants.{Reads};

use crate::proved::{cycles_told, ending_with};
use raw_inputs::Failure;
use raw_io::Sink;
use raw_model::Set;
use raw_owed::{Answer, MAX_TOLD_WORDS, ended};
use raw_prove::word_count;
use raw_refute::answer_rows;
use raw_row_claim_text::{RowClaim, seat};
use raw_row_terms::law_rows_right;
use raw_set_text::list_feeds;
use raw_steady::{law_count, law_words};
use raw_verdict::write_answer;
use std::alloc::{AllocError, Global};

// The lines of the words of a set, or nothing where they are too many to be told.
fn words_told(alloc: Global, set: &Set) -> Result<String, AllocError>
    ensures { IfOk result (λ text. string_bytes text ≡ told_words set.now) }
{
    if word_count(set) > MAX_TOLD_WORDS as usize {
        Ok(String::new(alloc))
    } else {
        list_feeds(alloc, set)
    }
}

/// Proves a stream that is claimed of a set, or looks for words that refute it, and puts what is said of it.
pub(crate) fn prove_stream<K: Sink>(alloc: Global, claim: RowClaim, out: &mut K) -> Answer
    requires { IsFed (Some claim.set.topo) claim.input }
    ensures { (input : List ℕ) → IsRowClaim input claim.set claim.input →
        Obeyed (Reads Prove) input (sink_seen K.sight out.old out.new) result }
{
    law_count();
    law_words();
    law_rows_right();
    let input = claim.input;
    let mut set = claim.set;
    let stream = input.stream;
    let Ok(seated) = seat(alloc, &set, &stream) else {
        return Err(Failure::Memory);
    };
    let Ok(said) = answer_rows(alloc, &mut set, &seated.stream, &seated.order) else {
        return Err(Failure::Memory);
    };
    let Ok(cycles) = cycles_told(alloc, &set, &said) else {
        return Err(Failure::Memory);
    };
    let Ok(words) = words_told(alloc, &set) else {
        return Err(Failure::Memory);
    };
    ended(
        write_answer(&said, cycles, words.as_bytes(), out),
        ending_with(&said),
    )
}
