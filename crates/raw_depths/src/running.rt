//! A set run at each depth.
ghost use Rattle.std.specs.Prelude.{◌≡◌, ◌≢◌, ◌+◌, ◌*◌, ◌<◌, ◌≤◌, ℕ, true, false, Some, IfOk, length, take, sum_by, IsSomeAnd, slice_get};
ghost use Rattle.raw_grid.specs.Topology.{proc_count};
ghost use Rattle.raw_model.specs.Local.{steps_of};
ghost use Rattle.raw_processor.specs.Processor.{local_of};
ghost use Rattle.raw_depth.specs.Depth.{at_depth};
ghost use Rattle.raw_depths.specs.Text.{instructions_of, program_steps};
ghost use Rattle.raw_depths.specs.Found.{IsRestedOf, AreItsCycles, AreDepths};

use crate::collecting::report_of;
use crate::cycle::value_waits;
use crate::found::{AtDepth, Depths};
use raw_clock::run;
use raw_grid::ProcId;
use raw_model::Set;
use raw_model::limits::{MAX_DEPTH, MAX_STEPS};
use raw_outcome::outcome;
use raw_processor::Processor;
use raw_serial::Machine;
use raw_steady::{law_count, law_depths};
use std::alloc::{AllocError, Global};

/// How a set came to rest.
#[derive(Drop)]
pub(crate) struct Rested {
    pub(crate) rest: AtDepth,
    pub(crate) report: Vec<u8>,
    /// The lines of the waits of its cycle, where each of them is for a value.
    pub(crate) waits: Option<Vec<u8>>,
}

// How many instructions a processor that has taken so many steps has executed: a port none.
fn executed(processor: &Processor, count: u64) -> u64
    requires { count ≡ steps_of (local_of processor.now) }
    ensures value { result ≡ instructions_of (local_of processor.now) }
    ensures few { result ≤ count }
{
    match processor {
        Processor::Tile(_) | Processor::Switch(_) => count,
        Processor::Source(_) | Processor::Sink(_) => 0,
    }
}

// How many instructions a processor has executed, and that this is the next term of the sum over all.
fn instructions(m: &Machine<'_>, p: ProcId) -> u64
    requires { p.0 < proc_count m.now.set.topo }
    ensures few { result ≤ MAX_STEPS }
    ensures next { sum_by instructions_of (take (p.0 + 1) m.now.state.locals)
        ≡ sum_by instructions_of (take p.0 m.now.state.locals) + result }
{
    executed(m.processor(p), m.count(p))
}

// How many steps all tiles and all switches have taken.
fn program_steps(m: &Machine<'_>) -> u64
    ensures { result ≡ program_steps m.now.state }
{
    let mut steps = 0;
    for p in 0..m.procs() {
        steps += instructions(m, ProcId(p));
    }
    steps
}

// A set, run by its clock until it rests. All memory of the machine is taken when it is opened.
fn run_to_rest(alloc: Global, set: &Set) -> Result<Rested, AllocError>
    ensures { IfOk result (IsRestedOf set.now) }
{
    law_count();
    let mut machine = Machine::open(alloc, set)?;
    let ran = run(&mut machine, alloc)?;
    let _set = machine.set();
    let outcome = outcome(&machine);
    let report = report_of(alloc, &machine, outcome)?;
    let waits = value_waits(alloc, &machine, outcome)?;
    let steps = program_steps(&machine);
    Ok(Rested {
        rest: AtDepth {
            outcome,
            steps,
            cycles: ran.cycles,
        },
        report,
        waits,
    })
}

// Gives the wires of a set another depth.
fn set_depth(set: &mut Set, depth: u8)
    requires some { 1 ≤ depth }
    requires few { depth ≤ 7 }
    ensures { set.new ≡ at_depth set.old depth }
{
    set.depth = depth;
}

// Whether a report is the one of the depth before. At the first depth, before which there is none, it counts as the same.
fn is_same(depth: u8, report: &[u8], last: &[u8]) -> bool
    ensures first { depth ≡ 1 → result ≡ true }
    ensures alike { 1 < depth → result ≡ true → report.now ≡ last.now }
    ensures differ { 1 < depth → result ≡ false → report.now ≢ last.now }
{
    depth == 1 || report == last
}

// Whether it has fewer cycles than at each depth before, where these are the fewest. At the first depth, before which there
// is none, it has.
fn is_faster(depth: u8, cycles: u64, fewest: u64) -> bool
    ensures first { depth ≡ 1 → result ≡ true }
    ensures faster { 1 < depth → result ≡ true → cycles < fewest }
    ensures slower { 1 < depth → result ≡ false → fewest ≤ cycles }
{
    depth == 1 || cycles < fewest
}

// Runs a set at each depth from 1 to 7, and leaves it with the last one.
fn run_all(alloc: Global, set: &mut Set) -> Result<Depths, AllocError>
    ensures found { IfOk result (AreDepths set.old) }
    ensures set { set.new ≡ at_depth set.old set.new.depth }
{
    let mut found = Depths::new(alloc);
    let mut last = Vec::new(alloc);
    for depth in 1..MAX_DEPTH + 1 {
        set_depth(set, depth);
        let next = run_to_rest(alloc, set)?;
        let same = is_same(depth, &next.report, &last);
        let faster = is_faster(depth, next.rest.cycles, found.fewest);
        found.add(depth, same, faster, next.rest, next.waits)?;
        last = next.report;
    }
    Ok(found)
}

/// Runs a set by its clock at each depth from 1 to 7, all else as it says, and tells how it comes to rest there.
///
/// It takes the memory of one machine at a time, and that of two reports. The set is as it was at the return.
pub fn depths(alloc: Global, set: &mut Set) -> Result<Depths, AllocError>
    ensures found { IfOk result (AreDepths set.old) }
    // Where none waits for room once the set is at rest at a depth, it has no more cycles at any greater one.
    ensures cycles { AreItsCycles set.old }
    ensures unchanged { set.new ≡ set.old }
{
    law_count();
    law_depths();
    let own = set.depth;
    let found = run_all(alloc, set);
    set_depth(set, own);
    found
}
