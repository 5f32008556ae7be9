//! What a run of a set says of a claim.
ghost use Rattle.std.specs.Prelude.{◌≡◌, ◌<◌, ◌^◌, length, All, IfOk};
ghost use Rattle.raw_model.specs.Program.{IsSet};
ghost use Rattle.raw_model.specs.Rest.{IsQuiet};
ghost use Rattle.raw_flow.specs.Flows.{inputs_in, outs_of};
ghost use Rattle.raw_term.specs.Seen.{miscount, seen};
ghost use Rattle.raw_refute.specs.Judged.{first_other, of_done, of_counts, IsFaultOf, IsJudged};

use crate::fault::Fault;
use crate::seeing::{miscount, seen};
use raw_flow::{Flow, direct};
use raw_grid::ProcId;
use raw_model::Set;
use raw_outcome::{Outcome, outcome};
use raw_serial::Machine;
use raw_term::Place;
use std::alloc::{AllocError, Global};

/// The first place where two lists of words, as long as one another, differ.
pub(crate) fn first_other(got: &[u32], outs: &[u32]) -> Option<Fault>
    requires { length got.now ≡ length outs.now }
    ensures { result ≡ first_other 0 got.now outs.now }
{
    for out in 0..got.len() {
        if got[out] != outs[out] {
            return Some(Fault::Out {
                out,
                word: got[out],
                claim: outs[out],
            });
        }
    }
    None
}

// How the words at the places differ from the values of the outs, where all is done.
#[tactic(auto, unfolding(crate::specs::Judged::of_done))]
fn of_done(got: &[u32], outs: &[u32]) -> Option<Fault>
    ensures { result ≡ of_done got.now outs.now }
{
    if got.len() != outs.len() {
        return Some(Fault::Words {
            received: got.len(),
            outs: outs.len(),
        });
    }
    first_other(got, outs)
}

/// What a run of a set says of a claim.
#[derive(Clone, Copy)]
pub struct Ran {
    /// How its rest differs from the claim; None where it is right.
    pub fault: Option<Fault>,
    /// How many steps it took. No clause says so.
    pub steps: u64,
}

/// How many steps all processors of a machine have taken.
pub(crate) fn steps_of(machine: &Machine<'_>) -> u64 {
    let mut steps: u64 = 0;
    for p in 0..machine.procs() {
        steps = steps.saturating_add(machine.count(ProcId(p)));
    }
    steps
}

// How a machine that is done differs from a claim of these words: first by the counts of its sinks, and then by the words
// at the places.
fn done_fault(
    alloc: Global,
    machine: &Machine<'_>,
    claim: &Flow,
    places: &[Place],
    words: &[u32],
) -> Result<Option<Fault>, AllocError>
    requires each { length words.now ≡ inputs_in claim.now.nodes }
    ensures { IfOk result (λ fault. fault ≡ of_counts (miscount places.now machine.now.state.locals)
        (seen places.now machine.now.state) (outs_of claim.now words.now)) }
{
    match miscount(machine, places) {
        Some((received, outs)) => Ok(Some(Fault::Words { received, outs })),
        None => {
            let got = seen(alloc, machine, places)?;
            let outs = direct(alloc, claim, words)?;
            Ok(of_done(&got, &outs))
        }
    }
}

// How a machine at rest differs from a claim of these words.
fn fault_of(
    alloc: Global,
    machine: &Machine<'_>,
    claim: &Flow,
    places: &[Place],
    words: &[u32],
) -> Result<Option<Fault>, AllocError>
    requires quiet { IsQuiet machine.now.set machine.now.state }
    requires each { length words.now ≡ inputs_in claim.now.nodes }
    ensures { IfOk result (IsFaultOf machine.now.set claim.now places.now words.now machine.now.state) }
{
    let how = outcome(machine);
    match how {
        Outcome::Done => done_fault(alloc, machine, claim, places, words),
        _ => Ok(Some(Fault::Ends(how))),
    }
}

/// Runs a set once, and says how its rest differs from a claim of these words.
///
/// What it says holds of each run of the set, in whatever order. Beside the machine the call takes memory for the words
/// at the places of the claim and for its values.
pub fn judge(
    alloc: Global,
    set: &Set,
    claim: &Flow,
    places: &[Place],
    words: &[u32],
) -> Result<Ran, AllocError>
    requires each { length words.now ≡ inputs_in claim.now.nodes }
    ensures judged { IfOk result (λ ran. IsJudged set.now claim.now places.now words.now ran.fault) }
    ensures valid { IsSet set.now }
    ensures words { All (λ word. word < 2 ^ 32) words.now }
{
    // The set is read so that its rules are known.
    let _limit = set.limit;
    let mut machine = Machine::open(alloc, set)?;
    machine.run();
    let fault = fault_of(alloc, &machine, claim, places, words)?;
    Ok(Ran {
        fault,
        steps: steps_of(&machine),
    })
}
