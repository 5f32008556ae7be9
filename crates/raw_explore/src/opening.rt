//! A run that is opened.
ghost use Rattle.std.specs.Prelude.{◌≡◌, ◌<◌, ◌^◌, IfOk, IfSome, is_some};
ghost use Rattle.raw_set_text.specs.Listing.{listing};
ghost use Rattle.raw_serial.specs.Fresh.{IsFresh};
ghost use Rattle.raw_clock.specs.Clock.{HasCycles};
ghost use Rattle.raw_trace.specs.Whole.{has_whole};
ghost use Rattle.raw_whole.specs.Kept.{IsWhole};
ghost use Rattle.raw_explore.specs.Engine.{IsOpened};

use raw_clock::{Cycles, run};
use raw_model::Set;
use raw_outcome::{Outcome, outcome};
use raw_serial::Machine;
use raw_set_text::list_set;
use raw_trace::MAX_WHOLE_TURNS;
use raw_whole::{Whole, gather};
use std::alloc::{AllocError, Global};

/// A run of a set by its clock that can be written as a trace: all memory that is needed is taken, and the set was
/// stepped to its rest once, and twice where the lines of the whole run are told.
#[derive(Drop)]
pub struct Opened<'s> {
    /// The machine whose cycles are written; it stands where the set came to rest.
    pub machine: Machine<'s>,
    /// A machine that has done nothing yet.
    pub fresh: Machine<'s>,
    /// What stands in front of the trace: the listing of the set. What is told of the text of the set may be appended.
    pub text: Vec<u8>,
    /// How the set comes to rest.
    pub outcome: Outcome,
    /// How many cycles it has, and what is counted of them.
    pub ran: Cycles,
    /// The turns and the sends of the whole run, where their lines are told.
    pub whole: Option<Whole>,
}

// Whether the lines of a whole run are told, where they are asked for: of so many cycles and processors.
fn has_whole(asked: bool, machine: &Machine<'_>, cycles: u64) -> bool
    requires { cycles < 2 ^ 41 }
    ensures { result ≡ has_whole asked machine.now.set cycles }
{
    asked && (cycles + 1) * u64::from(machine.procs()) <= MAX_WHOLE_TURNS
}

// The turns and the sends of a whole run, of a machine that has done nothing yet, where their lines are told.
fn gather_told(
    asked: bool,
    machine: &mut Machine<'_>,
    alloc: Global,
    cycles: u64,
) -> Result<Option<Whole>, AllocError>
    requires fresh { IsFresh machine.old.set machine.old }
    requires cycles { HasCycles machine.old.set cycles }
    requires few { cycles < 2 ^ 41 }
    ensures set { machine.new.set ≡ machine.old.set }
    ensures told { IfOk result (λ whole. is_some whole ≡ has_whole asked machine.old.set cycles) }
    ensures whole { IfOk result (λ whole. IfSome whole (IsWhole machine.old.set cycles)) }
{
    // The set is asked for so that it is known to keep its rules.
    let _set = machine.set();
    if has_whole(asked, machine, cycles) {
        Ok(Some(gather(machine, alloc, cycles)?))
    } else {
        Ok(None)
    }
}

impl<'s> Opened<'s> {
    /// Opens a run of a set, and steps it to its rest. The lines of the whole run may be asked for. Want of memory is the one
    /// refusal.
    pub fn open(alloc: Global, set: &'s Set, whole: bool) -> Result<Self, AllocError>
        ensures opened { IfOk result (λ opened. IsOpened set.now opened.machine opened.fresh opened.outcome opened.ran opened.whole) }
        ensures text { IfOk result (λ opened. opened.text.items ≡ listing set.now) }
        ensures whole { IfOk result (λ opened. is_some opened.whole ≡ has_whole whole set.now opened.ran.cycles) }
    {
        let text = list_set(alloc, set)?;
        let mut machine = Machine::open(alloc, set)?;
        let mut fresh = Machine::open(alloc, set)?;
        // The set and the number of processors are asked for so that it is known that there are few.
        let _set = machine.set();
        let _procs = machine.procs();
        let ran = run(&mut machine, alloc)?;
        let outcome = outcome(&machine);
        let whole = gather_told(whole, &mut fresh, alloc, ran.cycles)?;
        fresh.restart();
        Ok(Opened {
            machine,
            fresh,
            text,
            outcome,
            ran,
            whole,
        })
    }
}
