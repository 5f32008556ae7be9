//! The machines of worked texts, stepped in other orders than that of `run`: by themselves, and on a shared fabric by one
//! thread and by several.
ghost use Rattle.raw_fabric.specs.Opened.{about_of, id_of, IsOpen, IsPass, ArePasses};

use crate::fabric::{opened, set_of, turn as fabric_turn};
use crate::failing::TWO_VALUES;
use raw_fabric::{Fabric, Pass};
use raw_grid::ProcId;
use raw_io::MemSink;
use raw_model::Set;
use raw_outcome::outcome;
use raw_report::write_report;
use raw_serial::Machine;
use std::alloc::Global;
use std::process::Abort;
use std::test::Fail;
use std::thread;
use std::thread::Threads;

/// Sets that come to rest done, stuck, trapped, at the limit and in a deadlock.
static SETS: [&[u8]; 10] = [
    TWO_VALUES,
    // A multicast waits for its full output.
    b"grid 1 1\nlimit 100\nsource 1 0 0 W\nfeed 1 0 0 W 1 2 3 4 5 6\nsink 1 0 0 E 1\nsink 1 0 0 S 10\nswitch 0 0\nloop: j loop 1:W>E 1:W>S 1:W>P\nend\n",
    // Both networks fire whole or not at all.
    b"grid 1 1\nlimit 10\nsource 1 0 0 W\nfeed 1 0 0 W 9\nsource 2 0 0 W\nsink 1 0 0 E 5\nsink 2 0 0 E 5\nswitch 0 0\n1:W>E 2:W>E\nhalt\nend\n",
    // Two switches wait for each other.
    b"grid 2 1\nlimit 10\nswitch 0 0\n1:E>P\nend\nswitch 1 0\n1:W>P\nend\n",
    // A cycle of four comes before a trap.
    b"grid 2 2\nlimit 10\nswitch 0 0\n1:E>P\nend\nswitch 1 0\n1:S>P\nend\nswitch 1 1\n1:W>P\nend\nswitch 0 1\n1:N>P\nend\ntile 0 0\nlw $5, 2($0)\nend\n",
    // A full sink holds back a tile.
    b"grid 1 1\nlimit 100\nsink 1 0 0 E 2\ntile 0 0\nli $5, 7\nloop: addu $24, $5, $0\naddiu $5, $5, -1\nbne $5, $0, loop\nhalt\nend\nswitch 0 0\n1:P>E\n1:P>E\n1:P>E\n1:P>E\n1:P>E\n1:P>E\n1:P>E\nhalt\nend\n",
    // Two values are asked of a wire that holds one at most.
    b"grid 1 1\nlimit 10\ndepth 1\nsource 1 0 0 W\nfeed 1 0 0 W 3 4\ntile 0 0\naddu $5, $24, $24\nhalt\nend\nswitch 0 0\n1:W>P\n1:W>P\nhalt\nend\n",
    // A tile owes turns by its miss stream.
    b"grid 1 1\nlimit 10\nmisses 0 0 3 0 2\ntile 0 0\nlw $5, 0($0)\nlw $6, 2048($0)\nlw $7, 4096($0)\nhalt\nend\n",
    // A tile traps at its word's address, another jumps past its program.
    b"grid 2 1\nlimit 10\ntile 0 0\nlw $5, 2($0)\nend\ntile 1 0\nj 7\nend\n",
    // The limit stops a tile.
    b"grid 1 1\nlimit 7\ntile 0 0\nloop: j loop\nend\n",
];

/// The report of a machine at rest.
pub(crate) fn report_of(
    rt: &impl Abort,
    alloc: Global,
    machine: &Machine<'_>,
) -> Result<MemSink, Fail> {
    assert!(rt; machine.quiet());
    let mut out = MemSink::new(alloc, 100_000, Vec::new(alloc))?;
    write_report(machine, outcome(machine), &mut out)?;
    Ok(out)
}

/// Gives a processor its turn, if there is one with this number.
pub(crate) fn turn(machine: &mut Machine<'_>, p: u32) {
    let set: &Set = machine.set();
    if p < set.topo.procs() {
        machine.step(ProcId(p));
    }
}

/// Steps a machine in sweeps by falling numbers.
fn sweep_down(machine: &mut Machine<'_>) {
    let procs = machine.set().topo.procs();
    for _ in 0..100 {
        for p in 0..procs {
            turn(machine, procs - 1 - p);
        }
    }
}

/// Gives each processor of a fabric its turn, in sweeps by falling numbers.
fn sweep_fabric(fabric: &Fabric<'_>, passes: &mut [Pass])
    requires fabric { IsOpen fabric.now }
    requires passes { ArePasses (about_of fabric.now) (id_of fabric.now) passes.old }
    ensures { ArePasses (about_of fabric.now) (id_of fabric.now) passes.new }
{
    for _ in 0..100 {
        sweep_once(fabric, passes);
    }
}

fn sweep_once(fabric: &Fabric<'_>, passes: &mut [Pass])
    requires fabric { IsOpen fabric.now }
    requires passes { ArePasses (about_of fabric.now) (id_of fabric.now) passes.old }
    ensures { ArePasses (about_of fabric.now) (id_of fabric.now) passes.new }
{
    let procs = fabric.procs();
    for i in 0..procs {
        fabric_turn(fabric, passes, procs - 1 - i);
    }
}

/// The report of a set's machine that came to rest on a fabric with three passes.
fn fabric_report(rt: &impl Abort, alloc: Global, set: &Set) -> Result<MemSink, Fail> {
    let (fabric, mut passes) = opened(alloc, set, 3)?;
    sweep_fabric(&fabric, &mut passes);
    let (machine, _) = fabric.close(passes);
    report_of(rt, alloc, &machine)
}

/// Gives each processor of a pass its turn, in sweeps by falling numbers.
fn sweep_pass(fabric: &Fabric<'_>, pass: &mut Pass)
    requires fabric { IsOpen fabric.now }
    requires pass { IsPass (about_of fabric.now) (id_of fabric.now) pass.old.log.worker pass.old }
    ensures { IsPass (about_of fabric.now) (id_of fabric.now) pass.old.log.worker pass.new }
{
    for _ in 0..100 {
        sweep_pass_once(fabric, pass);
        thread::yield_now();
    }
}

fn sweep_pass_once(fabric: &Fabric<'_>, pass: &mut Pass)
    requires fabric { IsOpen fabric.now }
    requires pass { IsPass (about_of fabric.now) (id_of fabric.now) pass.old.log.worker pass.old }
    ensures { IsPass (about_of fabric.now) (id_of fabric.now) pass.old.log.worker pass.new }
{
    let procs = fabric.procs();
    for i in 0..procs {
        let p = ProcId(procs - 1 - i);
        if pass.holds(p) {
            fabric.try_fire(pass, p);
        }
    }
}

/// The same of all passes, each in a thread of its own.
fn sweep_in_threads<R: Threads + Sync>(rt: &R, fabric: &Fabric<'_>, passes: &mut [Pass])
    requires fabric { IsOpen fabric.now }
    requires passes { ArePasses (about_of fabric.now) (id_of fabric.now) passes.old }
    ensures { ArePasses (about_of fabric.now) (id_of fabric.now) passes.new }
{
    let workers = passes.len();
    thread::for_each_mut(
        rt,
        passes,
        workers,
        &|worker: usize, pass: &mut Pass|
            requires { IsOpen fabric.now × IsPass (about_of fabric.now) (id_of fabric.now) worker pass.now }
            ensures { IsPass (about_of fabric.entry.now) (id_of fabric.entry.now) worker pass.exit.now }
        { sweep_pass(fabric, pass) },
    );
}

/// The report of a set's machine whose passes were given to threads. A thread may have ended before others sent what its
/// processors wait for: so what is left to do is done at the end.
fn threads_report<R: Threads + Abort + Sync>(
    rt: &R,
    alloc: Global,
    set: &Set,
) -> Result<MemSink, Fail> {
    let (fabric, mut passes) = opened(alloc, set, 3)?;
    sweep_in_threads(rt, &fabric, &mut passes);
    let (mut machine, _) = fabric.close(passes);
    machine.run();
    report_of(rt, alloc, &machine)
}

/// Whether the machine of a text comes to the same report in each order.
fn ends_alike<R: Threads + Abort + Sync>(rt: &R, alloc: Global, text: &[u8]) -> Result<bool, Fail> {
    let set = set_of(alloc, text)?;
    let mut machine = Machine::open(alloc, &set)?;
    machine.run();
    let run = report_of(rt, alloc, &machine)?;
    machine.restart();
    sweep_down(&mut machine);
    let swept = report_of(rt, alloc, &machine)?;
    let on_fabric = fabric_report(rt, alloc, &set)?;
    let in_threads = threads_report(rt, alloc, &set)?;
    Ok(
        run.bytes() == swept.bytes()
            && run.bytes() == on_fabric.bytes()
            && run.bytes() == in_threads.bytes(),
    )
}

#[test]
fn sweeps_by_falling_numbers_end_alike(rt: HostRuntime) -> Result<(), Fail> {
    for text in &SETS {
        assert!(rt; ends_alike(&rt, rt.alloc(), text)?);
    }
    Ok(())
}
