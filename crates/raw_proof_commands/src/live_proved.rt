//! The command `prove --live`: for which numbers of rows a set meets a stream.
ghost use Rattle.std.specs.Prelude.{◌≡◌, ◌≤◌, ℕ, List, Some, IfOk, length, map, slice_index};
ghost use Rattle.raw_stream_text.specs.Meaning.{IsFed};
ghost use Rattle.raw_shell.specs.Seen.{sink_seen};
ghost use Rattle.raw_inputs.specs.Claimed.{IsFlowClaim, IsRowClaim};
ghost use Rattle.raw_owed.specs.LiveOutputs.{live_text};
ghost use Rattle.raw_owed.specs.Owed.{Owes};
ghost use Rattle.raw_owed.specs.Obeyed.{Obeyed};
ghost use Rattle.raw_verdict.specs.LiveText.{lacks_text};
ghost use Rattle.raw_command_line.specs.declared.arguments.ReadingCommand.TheVariants.{ProveLive};
ghost use Rattle.raw_command_line.specs.declared.arguments.Command.TheVariants.{Reads};

use raw_claim_text::Claim;
use raw_cut::{Extent, prove_live};
use raw_inputs::{Claimed, Failure, claim_in};
use raw_io::Sink;
use raw_owed::{Answer, ended};
use raw_row_claim_text::{RowClaim, seat};
use raw_shell::CommandEnding;
use raw_text::MAX_TEXT;
use raw_verdict::{lacks_text, write_no_cut, write_proved_rows};
use std::alloc::{AllocError, Global};

// What a port lacks.
fn lack_at(lacks: &[u32], port: u32) -> u32
    ensures { result ≡ slice_index lacks.now port }
{
    match lacks.get(port as usize) {
        Some(lack) => *lack,
        None => 0,
    }
}

// What these ports lack, in their order.
fn lacks_of(alloc: Global, lacks: &[u32], order: &[u32]) -> Result<Vec<u32>, AllocError>
    ensures { IfOk result (λ found. found.items ≡ map (slice_index lacks.now) order.now) }
{
    let mut found = Vec::with_capacity(alloc, order.len())?;
    for port in order {
        found.push(lack_at(lacks, *port))?;
    }
    Ok(found)
}

// The text of what these ports lack.
fn told_lacks(alloc: Global, lacks: &[u32], order: &[u32]) -> Result<Vec<u8>, AllocError>
    ensures { IfOk result (λ text. text.items ≡ lacks_text (map (slice_index lacks.now) order.now)) }
{
    let lacks = lacks_of(alloc, lacks, order)?;
    lacks_text(alloc, &lacks)
}

// Puts for which numbers of rows a set is proved.
fn put_extent<K: Sink>(alloc: Global, extent: &Extent, order: &[u32], out: &mut K) -> Answer
    ensures { (input : List ℕ) → Owes (Reads ProveLive) input (live_text order.now (Some extent.now)) CommandEnding.Done →
        Obeyed (Reads ProveLive) input (sink_seen K.sight out.old out.new) result }
{
    let Ok(lacks) = told_lacks(alloc, &extent.lacks, order) else {
        return Err(Failure::Memory);
    };
    let put = write_proved_rows(extent.least, extent.most, &lacks, out);
    ended(put, CommandEnding::Done)
}

// Says of a stream that is claimed of a set for which numbers of rows it is proved.
fn prove_rows<K: Sink>(alloc: Global, claim: RowClaim, out: &mut K) -> Answer
    requires { IsFed (Some claim.set.topo) claim.input }
    ensures { (input : List ℕ) → IsRowClaim input claim.set claim.input →
        Obeyed (Reads ProveLive) input (sink_seen K.sight out.old out.new) result }
{
    let input = claim.input;
    let set = claim.set;
    let stream = input.stream;
    let Ok(seated) = seat(alloc, &set, &stream) else {
        return Err(Failure::Memory);
    };
    match prove_live(alloc, &set, &seated.stream) {
        Ok(Some(extent)) => put_extent(alloc, &extent, &seated.order, out),
        Ok(None) => ended(write_no_cut(out), CommandEnding::Unproved),
        Err(_) => Err(Failure::Memory),
    }
}

// Says that a flow, which has no rows, is not proved for any number of them.
fn put_no_cut<K: Sink>(claim: &Claim, out: &mut K) -> Answer
    ensures { (input : List ℕ) → IsFlowClaim input claim.now.set claim.now.flow claim.now.places.items →
        Obeyed (Reads ProveLive) input (sink_seen K.sight out.old out.new) result }
{
    ended(write_no_cut(out), CommandEnding::Unproved)
}

/// Says of the claim behind the set in an input for which numbers of rows it is proved.
pub fn prove_live_claim<K: Sink>(alloc: Global, input: Vec<u8>, out: &mut K) -> Answer
    requires { length input.items ≤ MAX_TEXT }
    ensures { Obeyed (Reads ProveLive) input.items
        (sink_seen K.sight out.old out.new) result }
{
    match claim_in(alloc, input) {
        Ok(Claimed::Flow(claim)) => put_no_cut(&claim, out),
        Ok(Claimed::Rows(claim)) => prove_rows(alloc, claim, out),
        Err(failure) => Err(failure),
    }
}
