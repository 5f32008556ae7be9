//! Verdicts.
ghost use Rattle.std.specs.Prelude.{◌≡◌, ℕ, IfOk};
ghost use Rattle.raw_model.specs.Program.{IsSet};
ghost use Rattle.raw_term.specs.TermMachine.{numbered};
ghost use Rattle.raw_term.specs.Claims.{MeetsAt};
ghost use Rattle.raw_term.specs.Verdicts.{IsOfRest, IsVerdict};
ghost use Rattle.raw_prove.specs.Units.{state_of};
ghost use Rattle.raw_prove.specs.Runs.{RestsAt, IsOutcomeOf};

use crate::comparing::compare;
use crate::machine::Machine;
use crate::opening::{open, word_count};
use crate::proof::{Difference, Proof};
use crate::running::End;
use raw_flow::{Flow, Node};
use raw_model::Set;
use raw_outcome::{Outcome, outcome};
use raw_serial::Machine as SerialMachine;
use raw_term::{Place, TermRefusal, TermTable, Verdict, claim_terms, law_proved, law_runs};
use std::alloc::{AllocError, Global};

/// How each run of a set comes to rest, by the run with its own words. Beside the machine it takes no memory.
pub fn outcome_of(alloc: Global, set: &Set) -> Result<Outcome, AllocError>
    ensures { IfOk result (λ how. IsOutcomeOf set.now how) }
{
    let mut machine = SerialMachine::open(alloc, set)?;
    machine.run();
    Ok(outcome(&machine))
}

// What a machine at rest says of a claim, where each run of the set comes to rest so.
fn rested(
    alloc: Global,
    set: &Set,
    machine: &mut Machine,
    claim: &Flow,
    places: &[Place],
    how: Outcome,
) -> Result<Verdict, AllocError>
    requires valid { IsSet set.now }
    requires rests { RestsAt set.now machine.old }
    requires outcome { IsOutcomeOf set.now how }
    ensures { IfOk result (IsOfRest (numbered set.now) claim.now places.now (state_of machine.old)) }
{
    law_runs();
    match how {
        Outcome::Done => compare(alloc, machine, claim, places),
        _ => Ok(Verdict::Rests(how)),
    }
}

/// All terms of a table, by their numbers.
pub fn nodes_of(alloc: Global, table: &TermTable) -> Result<Vec<Node>, AllocError> {
    let mut nodes = Vec::new(alloc);
    for number in 0..table.len() {
        if let Some(node) = table.node(number) {
            nodes.push(node)?;
        }
    }
    Ok(nodes)
}

// What is left to look at behind a verdict: terms that should be the same, where some are not seen to be.
fn difference(
    alloc: Global,
    mut machine: Machine,
    claim: &Flow,
    places: &[Place],
    verdict: Verdict,
) -> Result<Option<Difference>, AllocError> {
    if !matches!(verdict, Verdict::Differs(_)) {
        return Ok(None);
    }
    let received = machine.seen(alloc, places)?;
    let Ok(numbers) = claim_terms(alloc, &mut machine.table, &claim.nodes) else {
        return Err(AllocError);
    };
    let mut claimed = Vec::new(alloc);
    for out in &claim.outs {
        if let Some(number) = numbers.get(*out as usize) {
            claimed.push(*number)?;
        }
    }
    let nodes = nodes_of(alloc, &machine.table)?;
    Ok(Some(Difference {
        nodes,
        received,
        claimed,
    }))
}

// What the run of a set with terms says of a claim, where each run of the set comes to rest so.
fn judge(
    alloc: Global,
    set: &Set,
    claim: &Flow,
    places: &[Place],
    how: Outcome,
) -> Result<Proof, AllocError>
    requires outcome { IsOutcomeOf set.now how }
    ensures { IfOk result (λ proof. IsVerdict set.now claim.now places.now proof.verdict) }
{
    let inputs = claim.input_count();
    let words = word_count(set);
    if inputs != words {
        return Ok(Proof {
            verdict: Verdict::Inputs { inputs, words },
            difference: None,
        });
    }
    let mut machine = match open(alloc, set) {
        Ok(machine) => machine,
        Err(TermRefusal::TooMany) => {
            return Ok(Proof {
                verdict: Verdict::TooMany,
                difference: None,
            });
        }
        Err(TermRefusal::Memory) => return Err(AllocError),
    };
    match machine.run(set)? {
        End::Rests => {
            let verdict = rested(alloc, set, &mut machine, claim, places, how)?;
            let difference = difference(alloc, machine, claim, places, verdict)?;
            Ok(Proof {
                verdict,
                difference,
            })
        }
        End::Hangs { step, p } => Ok(Proof {
            verdict: Verdict::Hangs { step, p },
            difference: None,
        }),
        End::TooMany => Ok(Proof {
            verdict: Verdict::TooMany,
            difference: None,
        }),
    }
}

/// Runs a set once with terms in the place of the words of its sources, in the serial order, and says what that
/// shows of a claim. A claim is a flow whose k-th input stands for the k-th word of all sources, those of the first
/// port first, and whose outs are claimed of the words at these places.
///
/// `Proved` says that the set meets the claim (`MeetsAt`): with any words in its sources, as many as they have, each run
/// of it, in whatever order, ends done with the values of the outs at the places, and with as many words at each sink as
/// are claimed of it. The other verdicts are those of the definition (`IsVerdict`), and say nothing of the set but that.
/// `Differs` is exact but for the classes that are found.
///
/// `how` is how each run of the set comes to rest, as `outcome_of` finds. Beside the machine the call takes memory for the
/// table of terms, up to `MAX_TERMS` of them, and where two terms that are compared are not one up to 256 bytes more for
/// each.
pub fn prove(
    alloc: Global,
    set: &Set,
    claim: &Flow,
    places: &[Place],
    how: Outcome,
) -> Result<Proof, AllocError>
    requires outcome { IsOutcomeOf set.now how }
    ensures verdict { IfOk result (λ proof. IsVerdict set.now claim.now places.now proof.verdict) }
    ensures meets { IfOk result (λ proof. (n : ℕ) → proof.verdict ≡ Verdict.Proved n → MeetsAt set.now claim.now places.now) }
{
    law_proved();
    // The set and the claim are read so that their rules are known.
    let _limit = set.limit;
    let _cols = claim.cols;
    judge(alloc, set, claim, places, how)
}
