//! The set with the fewest cycles.
ghost use Rattle.std.specs.Prelude.{◌≡◌, ◌<◌, None, IfOk, IfSome, length};
ghost use Rattle.raw_model.specs.Program.{IsSet};
ghost use Rattle.raw_flow.specs.Flows.{inputs_in};
ghost use Rattle.raw_flow.specs.Compiled.{compiled as compiled_set};
ghost use Rattle.raw_clock.specs.Clock.{HasCycles};
ghost use Rattle.raw_term.specs.Claims.{Meets};
ghost use Rattle.raw_steady.specs.Steady.{KeepsCycles};
ghost use Rattle.raw_steady.specs.Count.{cycle_count};
ghost use Rattle.raw_choice.specs.Choice.{IsMade, IsChoice};

use raw_clock::{law_clock, run};
use raw_flow::Flow;
use raw_model::Set;
use raw_outcome::outcome;
use raw_prove::prove;
use raw_schedule::Candidates;
use raw_serial::Machine;
use raw_steady::{cycles_of, law_count, law_words};
use raw_term::{Verdict, law_compiled_meets};
use std::alloc::{AllocError, Global};

// The best set so far, if there is one, and its cycles.
#[derive(Drop)]
struct Best {
    set: Option<Set>,
    cycles: u64,
}

// The compiled set is the first; where there is none, any set is better.
fn first_best(alloc: Global, compiled: Option<Set>) -> Result<Best, AllocError>
    ensures set { IfOk result (λ best. best.set ≡ compiled) }
    ensures cycles { IfOk result (λ best. IfSome best.set (λ set. best.cycles ≡ cycle_count set)) }
    ensures valid { IfOk result (λ best. IfSome best.set IsSet) }
{
    let cycles = match &compiled {
        Some(set) => cycles_of(alloc, set)?,
        None => u64::MAX,
    };
    Ok(Best {
        set: compiled,
        cycles,
    })
}

// The cycles of a candidate, if they are fewer than so many and it is proved that the candidate meets the flow. The
// cycles are counted first, since a proof takes longer, and serves only where they are fewer.
fn fewer_cycles(
    alloc: Global,
    flow: &Flow,
    candidate: &Set,
    than: u64,
) -> Result<Option<u64>, AllocError>
    ensures cycles { IfOk result (λ found. IfSome found (HasCycles candidate.now)) }
    ensures fewer { IfOk result (λ found. IfSome found (λ cycles. cycles < than)) }
    ensures meets { IfOk result (λ found. IfSome found (λ _. Meets candidate.now flow.now)) }
    ensures keeps { IfOk result (λ found. IfSome found (KeepsCycles candidate.now)) }
    ensures valid { IsSet candidate.now }
{
    law_clock();
    law_words();
    // The set is read so that its rules are known.
    let _limit = candidate.limit;
    let mut machine = Machine::open(alloc, candidate)?;
    let ran = run(&mut machine, alloc)?;
    if ran.cycles >= than {
        return Ok(None);
    }
    // The machine of the clock is at rest, and says how every run ends.
    match prove(alloc, candidate, flow, &[], outcome(&machine))?.verdict {
        Verdict::Proved(_) => Ok(Some(ran.cycles)),
        _ => Ok(None),
    }
}

/// The set with the fewest cycles for a flow, of the candidates that the search finds and the compiled set of the flow
/// with these words, where there is one. A candidate is taken only where it is proved that it meets the flow for all words;
/// so the choice rests on the proof alone, and not on the search. None is where there is no compiled set, and none is found.
///
/// The only error is want of memory, also where it is wanting for one candidate: so the set does not depend on how much
/// memory there is.
pub fn choose(
    alloc: Global,
    flow: &Flow,
    inputs: &[u32],
    compiled: Option<Set>,
) -> Result<Option<Set>, AllocError>
    requires inputs { length inputs.now ≡ inputs_in flow.now.nodes }
    requires compiled { IfSome compiled (λ set. set ≡ compiled_set flow.now inputs.now) }
    requires none { compiled ≡ None → ¬ (IsMade flow.now inputs.now) }
    ensures choice { IfOk result (λ found. IfSome found (IsChoice flow.now inputs.now)) }
    ensures none { IfOk result (λ found. found ≡ None → ¬ (IsMade flow.now inputs.now)) }
{
    law_compiled_meets();
    law_count();
    // The flow is read so that its rules are known.
    let _cols = flow.cols;
    let mut best = first_best(alloc, compiled)?;
    let mut candidates = Candidates::search(alloc, flow)?;
    'candidates: for _ in 0..u64::MAX {
        let Some(candidate) = candidates.next_candidate(alloc, flow, inputs)? else {
            break;
        };
        if let Some(cycles) = fewer_cycles(alloc, flow, &candidate, best.cycles)? {
            best = Best {
                set: Some(candidate),
                cycles,
            };
        }
    }
    Ok(best.set)
}
