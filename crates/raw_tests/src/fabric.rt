//! Fabrics of small sets: what each turn answers, and the machine that is made at the end.
ghost use Rattle.std.specs.Prelude.{IfOk};
ghost use Rattle.raw_fabric.specs.Opened.{about_of, id_of, IsOpen, ArePasses};

use crate::failing::{TWO_VALUES, TWO_VALUES_REPORT};
use crate::orders::report_of;
use raw_fabric::{Fabric, FabricTurn, Pass, Workers};
use raw_grid::{ProcId, WireId};
use raw_model::Set;
use raw_serial::Machine;
use raw_set_text::read_set;
use raw_text::{MAX_TEXT, read_text};
use std::alloc::Global;
use std::test::Fail;

// A tile that jumps to its own place.
const NO_END: &[u8] = b"grid 1 1\nlimit 5000\ntile 0 0\nj 0\nend\n";

// How many steps the logs of a fabric have room for.
const LOG_STEPS: usize = 4096;

/// The set of a text.
pub(crate) fn set_of(alloc: Global, text: &[u8]) -> Result<Set, Fail> {
    let bytes = text.to_vec(alloc)?;
    if bytes.len() > MAX_TEXT {
        return Err("a long text".into());
    }
    let text = read_text(alloc, bytes)?;
    let lines = text.line_count();
    match read_set(alloc, &text, lines) {
        Ok(set) => Ok(set),
        Err(_) => Err("no set".into()),
    }
}

// A fabric of the machine of a set.
pub(crate) fn opened<'s>(
    alloc: Global,
    set: &'s Set,
    workers: u32,
) -> Result<(Fabric<'s>, Vec<Pass>), Fail>
    ensures fabric { IfOk result (λ r. IsOpen r.0) }
    ensures passes { IfOk result (λ r. ArePasses (about_of r.0) (id_of r.0) r.1.items) }
{
    let Ok(machine) = Machine::open(alloc, set) else {
        return Err("no machine".into());
    };
    let Some(workers) = Workers::new(workers) else {
        return Err("no such number of workers".into());
    };
    match Fabric::open(alloc, machine, workers, LOG_STEPS as u32, Vec::new(alloc)) {
        Ok(opened) => Ok(opened),
        Err(_) => Err("no fabric".into()),
    }
}

// The turn of a processor, with the pass that holds it.
pub(crate) fn turn(fabric: &Fabric<'_>, passes: &mut [Pass], p: u32) -> Option<FabricTurn>
    requires fabric { IsOpen fabric.now }
    requires passes { ArePasses (about_of fabric.now) (id_of fabric.now) passes.old }
    ensures { ArePasses (about_of fabric.now) (id_of fabric.now) passes.new }
{
    if p >= fabric.procs() {
        return None;
    }
    let worker = p % fabric.workers();
    Some(fabric.try_fire(&mut passes[worker as usize], ProcId(p)))
}

// Whether these processors, given their turns one after another, answer so.
fn answer_so(fabric: &Fabric<'_>, passes: &mut [Pass], entries: &[(u32, FabricTurn)]) -> bool
    requires fabric { IsOpen fabric.now }
    requires passes { ArePasses (about_of fabric.now) (id_of fabric.now) passes.old }
    ensures { ArePasses (about_of fabric.now) (id_of fabric.now) passes.new }
{
    for entry in entries {
        if turn(fabric, passes, entry.0) != Some(entry.1) {
            return false;
        }
    }
    true
}

static TWO_PASSES: [(u32, FabricTurn); 8] = [
    (
        0,
        FabricTurn::Waits {
            wire: WireId(0),
            seen: 0,
        },
    ),
    (2, FabricTurn::Fired),
    (2, FabricTurn::Fired),
    (2, FabricTurn::Stopped),
    (1, FabricTurn::Fired),
    (
        0,
        FabricTurn::Waits {
            wire: WireId(0),
            seen: 0x0000_0400_0000_0200,
        },
    ),
    (1, FabricTurn::Fired),
    (0, FabricTurn::Fired),
];

#[test]
fn two_passes_turn_by_turn(rt: HostRuntime) -> Result<(), Fail> {
    let alloc = rt.alloc();
    let set = set_of(alloc, TWO_VALUES)?;
    let (fabric, mut passes) = opened(alloc, &set, 2)?;
    assert!(rt; answer_so(&fabric, &mut passes, &TWO_PASSES));
    let (mut machine, logs) = fabric.close(passes);
    for log in &logs {
        let due: &[ProcId] = if log.worker == 0 {
            &[ProcId(2), ProcId(2), ProcId(0)]
        } else {
            &[ProcId(1), ProcId(1)]
        };
        assert!(rt; log.steps.as_slice() == due);
    }
    // Only the tile and the switch have to halt.
    machine.run();
    assert!(rt; logs.len() == 2 && report_of(&rt, alloc, &machine)?.bytes() == TWO_VALUES_REPORT);
    Ok(())
}

#[test]
fn a_full_log(rt: HostRuntime) -> Result<(), Fail> {
    let alloc = rt.alloc();
    let set = set_of(alloc, NO_END)?;
    let (fabric, mut passes) = opened(alloc, &set, 1)?;
    assert!(rt; answer_so(&fabric, &mut passes, &[(0, FabricTurn::Fired); LOG_STEPS]));
    assert!(rt; answer_so(&fabric, &mut passes, &[(0, FabricTurn::LogFull)]));
    let (machine, _) = fabric.close(passes);
    assert!(rt; machine.procs() > 0 && machine.count(ProcId(0)) == 4096);
    Ok(())
}
