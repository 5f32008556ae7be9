//! The whole trace.
ghost use Rattle.std.specs.Prelude.{◌≡◌, ℕ, ◌+◌, ◌-◌, ◌<◌, ◌≤◌, ◌^◌, ◌++◌, [], ◌∷◌, None, OnOk, IfSome, is_some, codes, length};
ghost use Rattle.std.specs.List.{flat_map, range_with_len};
ghost use Rattle.raw_io.specs.Writing.{Writes};
ghost use Rattle.raw_grid.specs.Topology.{proc_count};
ghost use Rattle.raw_model.specs.Program.{IsSet};
ghost use Rattle.raw_serial.specs.Fresh.{IsFresh};
ghost use Rattle.raw_clock.specs.Clock.{clock, machine_at};
ghost use Rattle.raw_clock_text.specs.Text.{cycles_text};
ghost use Rattle.raw_trace.specs.Lines.{Begins, cycle_lines, state_line, first_told, past_told, positions, trace_lines};
ghost use Rattle.raw_trace.specs.Text.{line_text, trace_text};
ghost use Rattle.raw_trace.specs.Whole.{whole_lines};
ghost use Rattle.raw_whole.specs.Kept.{IsWhole};
ghost use Rattle.raw_explore.specs.Engine.{IsAt, AreTurnsBefore, IsOpened};

use crate::cycle::step_to;
use crate::line::{Line, put_line};
use crate::lines::begin_line;
use crate::opening::Opened;
use crate::position::put_cycle;
use crate::standing::put_states;
use crate::workspace::Workspace;
use raw_clock_text::write_cycles;
use raw_grid::MAX_PROCS;
use raw_io::{Failed, Sink, put_all};
use raw_serial::{Machine, Turn};
use raw_whole::{Whole, write_whole};

// The cycles that are told.
#[derive(Clone, Copy, PartialEq, Eq)]
struct Window {
    // The first one.
    first: u64,
    // The first position behind them: where the last cycle is told, the state at rest is too.
    end: u64,
}

impl Window {
    // The window of at most so many cycles from a cycle on, of a set that has `cycles`.
    fn new(cycles: u64, from: u64, most: u64) -> Window
        requires few { cycles < 2 ^ 41 }
        ensures first { result.first ≡ first_told cycles from }
        ensures end { result.end ≡ result.first + positions cycles (first_told cycles from) (past_told cycles from most) }
        ensures begun { result.first ≤ cycles }
        ensures ended { result.end ≤ cycles + 1 }
    {
        let first = if from < cycles { from } else { cycles };
        if most < cycles - first {
            Window {
                first,
                end: first + most,
            }
        } else {
            Window {
                first,
                end: cycles + 1,
            }
        }
    }
}

// Writes the lines of cycles, one after another, from that at which the machine stands.
fn put_cycles<K: Sink>(machine: &mut Machine<'_>, window: Window, out: &mut K) -> Result<(), Failed>
    requires at { IsAt machine.old window.first }
    requires later { window.first ≤ window.end }
    ensures set { machine.new.set ≡ machine.old.set }
    ensures at { OnOk result (IsAt machine.new window.end) }
    ensures writes { Writes (K.sight out.old) (K.sight out.new)
        (flat_map (λ k. flat_map line_text (cycle_lines machine.old.set window.first k))
        (range_with_len window.first (window.end - window.first))) result }
{
    // Their number is asked for so that it is known that there are few.
    let _procs = machine.procs();
    let mut before = [None; MAX_PROCS];
    let mut work = Workspace::new();
    'cycles: for k in window.first..window.end {
        put_cycle(machine, window.first, k, &mut before, &mut work, out)?;
    }
    Ok(())
}

// Writes the lines of a trace, of a machine that has done nothing yet.
fn put_lines<K: Sink>(
    machine: &mut Machine<'_>,
    fresh: &Machine<'_>,
    window: Window,
    out: &mut K,
) -> Result<(), Failed>
    requires machine { IsFresh machine.old.set machine.old }
    requires fresh { IsFresh machine.old.set fresh.now }
    requires later { window.first ≤ window.end }
    ensures set { machine.new.set ≡ machine.old.set }
    ensures at { OnOk result (IsAt machine.new window.end) }
    ensures writes { Writes (K.sight out.old) (K.sight out.new)
        (flat_map line_text (Begins window.first
        ∷ (flat_map (state_line machine.old.set (clock machine.old.set window.first)) (range_with_len 0 (proc_count machine.old.set.topo))
        ++ flat_map (cycle_lines machine.old.set window.first) (range_with_len window.first (window.end - window.first))))) result }
{
    // The set is asked for so that it is known to keep its rules.
    let _set = machine.set();
    step_to(machine, 0, window.first);
    let mut line = Line::new();
    begin_line(&mut line, window.first);
    put_line(&line, out)?;
    put_states(machine, fresh, window.first, out)?;
    put_cycles(machine, window, out)
}

// Writes the lines of a whole run, where they are told, of a machine that came to rest.
fn put_whole<K: Sink>(
    machine: &Machine<'_>,
    whole: &Option<Whole>,
    cycles: u64,
    out: &mut K,
) -> Result<(), Failed>
    requires rests { machine.now.state ≡ machine_at (clock machine.now.set cycles) }
    requires whole { IfSome whole.now (IsWhole machine.now.set cycles) }
    ensures { Writes (K.sight out.old) (K.sight out.new)
        (whole_lines (is_some whole.now) machine.now.set cycles) result }
{
    match whole {
        Some(whole) => write_whole(machine, whole, cycles, out),
        None => Ok(()),
    }
}

/// Writes the trace of a run that is opened: its text, the lines of the whole run where they are told, and the
/// state before cycle `from`. Then come at most `most` cycles from there on, the state at rest where the last one
/// is among them, and what is counted of the whole run. It takes no memory, and steps the set to its rest.
///
/// After `Failed` a front of the text is appended. The run is used up either way.
pub fn write_trace<K: Sink>(
    opened: Opened<'_>,
    from: u64,
    most: u64,
    out: &mut K,
) -> Result<(), Failed>
    requires { IsOpened opened.machine.set opened.machine opened.fresh opened.outcome opened.ran opened.whole }
    ensures { Writes (K.sight out.old) (K.sight out.new)
        (trace_text opened.entry.text.items opened.entry.machine.set (is_some opened.entry.whole) opened.entry.ran.cycles from most) result }
{
    let Opened {
        mut machine,
        fresh,
        text,
        outcome,
        ran,
        whole,
    } = opened;
    let window = Window::new(ran.cycles, from, most);
    put_all(out, &text)?;
    put_whole(&machine, &whole, ran.cycles, out)?;
    machine.restart();
    put_lines(&mut machine, &fresh, window, out)?;
    put_all(out, b"counts\n")?;
    step_to(&mut machine, window.end, ran.cycles);
    write_cycles(&machine, outcome, &ran, out)
}
