//! The command `prove`: whether a set meets a claim, for all words of its sources, or words under which it does not.
ghost use Rattle.std.specs.Prelude.{◌≡◌, ◌≤◌, ℕ, List, Some, IfOk, length};
ghost use Rattle.raw_steady.specs.Count.{cycle_count};
ghost use Rattle.raw_verdict.specs.Text.{answer_text};
ghost use Rattle.raw_model.specs.Program.{IsSet};
ghost use Rattle.raw_inputs.specs.Claimed.{IsFlowClaim};
ghost use Rattle.raw_owed.specs.Proved.{prove_ending};
ghost use Rattle.raw_shell.specs.Seen.{sink_seen};
ghost use Rattle.raw_owed.specs.Obeyed.{Obeyed};
ghost use Rattle.raw_command_line.specs.declared.arguments.ReadingCommand.TheVariants.{Prove};
ghost use Rattle.raw_command_line.specs.declared.arguments.Command.TheVariants.{Reads};

use crate::row_proved::prove_stream;
use raw_claim_text::Claim;
use raw_inputs::{Claimed, Failure, claim_in};
use raw_io::Sink;
use raw_model::Set;
use raw_owed::{Answer, ended};
use raw_refute::{Answer as Said, answer};
use raw_set_text::list_feeds;
use raw_shell::CommandEnding;
use raw_steady::{cycles_of, law_count, law_words};
use raw_text::MAX_TEXT;
use raw_verdict::write_answer;
use std::alloc::{AllocError, Global};

/// How the command ends with what is said of the claim.
pub(crate) fn ending_with(said: &Said) -> CommandEnding
    ensures { result ≡ prove_ending said.now }
{
    match said {
        Said::Proved(_) | Said::ProvedByRows(_) => CommandEnding::Done,
        Said::Refuted { .. } => CommandEnding::Refuted,
        Said::Unproved(_) => CommandEnding::Unproved,
    }
}

/// The cycles that are told: those of a set of which a claim is proved.
pub(crate) fn cycles_told(alloc: Global, set: &Set, said: &Said) -> Result<Option<u64>, AllocError>
    ensures told { IfOk result (λ cycles. (words : List ℕ) → answer_text cycles words said.now ≡ answer_text (Some (cycle_count set.now)) words said.now) }
    ensures valid { IsSet set.now }
{
    // The set is read so that its rules are known.
    let _limit = set.limit;
    match said {
        Said::Proved(_) => Ok(Some(cycles_of(alloc, set)?)),
        _ => Ok(None),
    }
}

// Proves a flow that is claimed of a set, or looks for words that refute it, and puts what is said of it.
fn prove_flow<K: Sink>(alloc: Global, claim: Claim, out: &mut K) -> Answer
    ensures { (input : List ℕ) → IsFlowClaim input claim.set claim.flow claim.places.items →
        Obeyed (Reads Prove) input (sink_seen K.sight out.old out.new) result }
{
    law_count();
    law_words();
    let flow = claim.flow;
    let places = claim.places;
    let mut set = claim.set;
    let Ok(said) = answer(alloc, &mut set, &flow, &places) else {
        return Err(Failure::Memory);
    };
    let Ok(cycles) = cycles_told(alloc, &set, &said) else {
        return Err(Failure::Memory);
    };
    let Ok(words) = list_feeds(alloc, &set) else {
        return Err(Failure::Memory);
    };
    ended(
        write_answer(&said, cycles, words.as_bytes(), out),
        ending_with(&said),
    )
}

/// Proves the claim behind the set in an input of the set, or looks for words that refute it, and puts what is said of it.
pub fn prove_claim<K: Sink>(alloc: Global, input: Vec<u8>, out: &mut K) -> Answer
    requires { length input.items ≤ MAX_TEXT }
    ensures { Obeyed (Reads Prove) input.items
        (sink_seen K.sight out.old out.new) result }
{
    match claim_in(alloc, input) {
        Ok(Claimed::Flow(claim)) => prove_flow(alloc, claim, out),
        Ok(Claimed::Rows(claim)) => prove_stream(alloc, claim, out),
        Err(failure) => Err(failure),
    }
}
