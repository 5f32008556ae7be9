//! The outcome of a machine, and the chain of waits from a processor.
ghost use Rattle.std.specs.Prelude.{◌≡◌, ℕ, ◌<◌, IsSomeAnd, slice_get, option_map};
ghost use Rattle.std.specs.List.{position};
ghost use Rattle.raw_grid.specs.Topology.{proc_count};
ghost use Rattle.raw_model.specs.Rest.{IsQuiet};
ghost use Rattle.raw_model.specs.Waits.{waits_for};
ghost use Rattle.raw_model.specs.Outcomes.{outcome, chain_end};
ghost use Rattle.raw_processor.specs.Processor.{local_of};
ghost use Rattle.raw_outcome.specs.Told.{told, passes, mark_passes};

use crate::asked::Asked;
use crate::ends::{Outcome, Test};
use raw_cycle::find_cycle;
use raw_grid::ProcId;
use raw_model::{Mark, Set};
use raw_processor::Processor;
use raw_serial::Machine;

// Whether a tile or a switch with this mark and count passes.
fn mark_passes(limit: u32, test: Test, mark: Mark, count: u64) -> bool
    ensures { result ≡ mark_passes limit test mark count }
{
    match test {
        Test::Trapped => matches!(mark, Mark::Trapped(_)),
        Test::Limit => mark == Mark::Going && count == u64::from(limit),
        Test::Unhalted => mark != Mark::Halted,
    }
}

// Whether a processor passes. A port never does.
fn processor_passes(set: &Set, test: Test, processor: &Processor) -> bool
    ensures { result ≡ passes set.now test (local_of processor.now) }
{
    match processor {
        Processor::Tile(tile) => mark_passes(set.limit, test, tile.state.mark, tile.state.count),
        Processor::Switch(switch) => {
            mark_passes(set.limit, test, switch.state.mark, switch.state.count)
        }
        Processor::Source(_) | Processor::Sink(_) => false,
    }
}

// Whether the processor with this number passes.
#[tactic(auto, using(crate::proofs::Passing::some_and))]
fn is_one(m: &Machine<'_>, test: Test, p: ProcId) -> bool
    requires { p.0 < proc_count m.now.set.topo }
    ensures { IsSomeAnd (slice_get m.now.state.locals p.0) (λ l. result ≡ passes m.now.set test l) }
{
    processor_passes(m.set(), test, m.processor(p))
}

// The least processor that passes.
fn first(m: &Machine<'_>, test: Test) -> Option<ProcId>
    ensures { option_map (λ p. p.0) result ≡ position (passes m.now.set test) m.now.state.locals }
{
    for p in 0..m.procs() {
        if is_one(m, test, ProcId(p)) {
            return Some(ProcId(p));
        }
    }
    None
}

/// How a machine at rest came to rest.
///
/// Where processors wait in a cycle, it is the deadlock of the cycle that holds the least processor on
/// any cycle, whatever else is trapped or stopped.
#[tactic(auto, unfolding(raw_model::specs::Outcomes::outcome))]
pub fn outcome(m: &Machine<'_>) -> Outcome
    requires { IsQuiet m.now.set m.now.state }
    ensures { told (waits_for m.now.set m.now.state) result ≡ outcome m.now.set m.now.state }
{
    if let Some(cycle) = find_cycle(&Asked { machine: m }) {
        return Outcome::Deadlock {
            least: ProcId(cycle.least),
            length: cycle.length,
        };
    }
    if let Some(p) = first(m, Test::Trapped) {
        return Outcome::Trapped { p };
    }
    if let Some(p) = first(m, Test::Limit) {
        return Outcome::Limit { p };
    }
    match first(m, Test::Unhalted) {
        Some(p) => Outcome::Stuck { p },
        None => Outcome::Done,
    }
}

/// The end of the chain of waits from a processor: each is the one that the one before it waits for, up to
/// the first that waits for none.
pub fn chain_end(m: &Machine<'_>, p: ProcId) -> ProcId
    requires { p.0 < proc_count m.now.set.topo }
    ensures end { result.0 ≡ chain_end m.now.set m.now.state p.0 }
    ensures there { result.0 < proc_count m.now.set.topo }
{
    ProcId(raw_cycle::chain_end(&Asked { machine: m }, p.0))
}
