//! The commands that step a set by its clock.
ghost use Rattle.std.specs.Prelude.{◌≡◌, ℕ, ◌≤◌, List, ◌++◌, IfOk, IfSome, is_some, length};
ghost use Rattle.raw_io.specs.Writing.{Writes};
ghost use Rattle.raw_model.specs.Waits.{waits_for};
ghost use Rattle.raw_model.specs.Outcomes.{outcome};
ghost use Rattle.raw_outcome.specs.Told.{told};
ghost use Rattle.raw_clock.specs.Clock.{HasCycles};
ghost use Rattle.raw_clock.specs.Counted.{IsCounted};
ghost use Rattle.raw_lost.specs.Known.{AreLost};
ghost use Rattle.raw_trace.specs.Text.{trace_text};
ghost use Rattle.raw_viewer.specs.Page.{head, tail};
ghost use Rattle.raw_explore.specs.Engine.{IsOpened};
ghost use Rattle.raw_set_text.specs.Listing.{listing};
ghost use Rattle.raw_trace.specs.Whole.{has_whole};
ghost use Rattle.raw_inputs.specs.Inputs.{whole, Means};
ghost use Rattle.raw_owed.specs.Owed.{sources_in, sources_told};
ghost use Rattle.raw_owed.specs.Owed.{counted_text, written_as};
ghost use Rattle.raw_shell.specs.Seen.{sink_seen};
ghost use Rattle.raw_owed.specs.Obeyed.{Obeyed};

use raw_clock::{Cycles, law_clock, run as run_by_clock};
use raw_clock_text::write_cycles;
use raw_command_line::{
    Command, CyclesOptions, ReadingCommand, SetForm, TraceOptions, TraceOutput,
};
use raw_explore::{Opened, write_trace};
use raw_inputs::{Failure, law_one_input, set_in, text_in};
use raw_io::{Failed, Sink};
use raw_lines::push_sources;
use raw_lost::{Lost, law_lost, lost_of, write_lost};
use raw_model::Set;
use raw_outcome::{Outcome, outcome};
use raw_owed::{Answer, DEFAULT_TRACE_CYCLES, ended};
use raw_path::{law_path, run_path, write_path};
use raw_serial::Machine;
use raw_shell::CommandEnding;
use raw_text::{MAX_TEXT, Text};
use raw_viewer::{write_head, write_tail};
use std::alloc::{AllocError, Global};

// The lost cycles of a set that has so many cycles, where they are told: for them it is stepped once more.
fn lost_in(
    alloc: Global,
    set: &Set,
    is_told: bool,
    cycles: u64,
) -> Result<Option<Vec<Lost>>, AllocError>
    requires { HasCycles set.now cycles }
    ensures told { IfOk result (λ lost. is_some lost ≡ is_told) }
    ensures lost { IfOk result (λ lost. IfSome lost (λ all. AreLost set.now cycles all.items)) }
{
    if is_told {
        return Ok(Some(lost_of(alloc, set, cycles)?));
    }
    Ok(None)
}

// Writes the counts of a set whose machine came to rest by its clock, with those of lost cycles where they are told.
fn put_counts<K: Sink>(
    machine: &Machine<'_>,
    o: Outcome,
    cycles: &Cycles,
    lost: &Option<Vec<Lost>>,
    out: &mut K,
) -> Result<(), Failed>
    requires outcome { told (waits_for machine.now.set machine.now.state) o ≡ outcome machine.now.set machine.now.state }
    requires counted { IsCounted machine.now cycles.now }
    requires lost { IfSome lost.now (λ all. AreLost machine.now.set cycles.now.cycles all.items) }
    ensures { Writes (K.sight out.old) (K.sight out.new)
        (counted_text (is_some lost.now) machine.now.set cycles.now.cycles) result }
{
    match lost {
        Some(lost) => write_lost(machine, o, cycles, lost, out),
        None => write_cycles(machine, o, cycles, out),
    }
}

/// A set, stepped by its clock until it is over, of which the counts are written.
pub fn run_cycles<K: Sink>(alloc: Global, set: &Set, options: CyclesOptions, out: &mut K) -> Answer
    ensures { (input : List ℕ) → Means (whole options.form) input set.now →
        Obeyed (Command.Reads (ReadingCommand.Cycles options)) input
        (sink_seen K.sight out.old out.new) result }
{
    law_clock();
    law_lost();
    law_one_input();
    let Ok(mut machine) = Machine::open(alloc, set) else {
        return Err(Failure::Memory);
    };
    let Ok(cycles) = run_by_clock(&mut machine, alloc) else {
        return Err(Failure::Memory);
    };
    let Ok(lost) = lost_in(alloc, set, options.lost, cycles.cycles) else {
        return Err(Failure::Memory);
    };
    let outcome = outcome(&machine);
    ended(
        put_counts(&machine, outcome, &cycles, &lost, out),
        CommandEnding::Rested(outcome.ending()),
    )
}

/// A set, stepped by its clock until it is over, of which the path is written.
pub fn put_path<K: Sink>(alloc: Global, set: &Set, form: SetForm, out: &mut K) -> Answer
    ensures { (input : List ℕ) → Means (whole form) input set.now →
        Obeyed (Command.Reads (ReadingCommand.Path form)) input
        (sink_seen K.sight out.old out.new) result }
{
    law_clock();
    law_path();
    law_one_input();
    let Ok(mut machine) = Machine::open(alloc, set) else {
        return Err(Failure::Memory);
    };
    let Ok(path) = run_path(&mut machine, alloc) else {
        return Err(Failure::Memory);
    };
    let outcome = outcome(&machine);
    ended(
        write_path(&machine, outcome, &path, out),
        CommandEnding::Rested(outcome.ending()),
    )
}

// The trace of a run that is opened, and the viewer behind its place.
#[tactic(auto, using(raw_io::proofs::Chains::chained))]
fn put_place<K: Sink>(opened: Opened<'_>, from: u64, most: u64, out: &mut K) -> Result<(), Failed>
    requires { IsOpened opened.machine.set opened.machine opened.fresh opened.outcome opened.ran opened.whole }
    ensures { Writes (K.sight out.old) (K.sight out.new)
        (trace_text opened.entry.text.items opened.entry.machine.set (is_some opened.entry.whole) opened.entry.ran.cycles from most ++ tail) result }
{
    write_trace(opened, from, most, out)?;
    write_tail(out)
}

// The page that shows the trace of a run that is opened: the trace stands in its place in the viewer.
#[tactic(auto, using(raw_io::proofs::Chains::chained))]
fn put_page<K: Sink>(opened: Opened<'_>, from: u64, most: u64, out: &mut K) -> Result<(), Failed>
    requires { IsOpened opened.machine.set opened.machine opened.fresh opened.outcome opened.ran opened.whole }
    ensures { Writes (K.sight out.old) (K.sight out.new)
        (head ++ (trace_text opened.entry.text.items opened.entry.machine.set (is_some opened.entry.whole) opened.entry.ran.cycles from most ++ tail)) result }
{
    write_head(out)?;
    put_place(opened, from, most, out)
}

// The trace of a run that is opened, or the page that shows it.
fn put_trace<K: Sink>(
    opened: Opened<'_>,
    output: TraceOutput,
    from: u64,
    most: u64,
    out: &mut K,
) -> Result<(), Failed>
    requires { IsOpened opened.machine.set opened.machine opened.fresh opened.outcome opened.ran opened.whole }
    ensures { Writes (K.sight out.old) (K.sight out.new)
        (written_as output opened.entry.text.items opened.entry.machine.set (is_some opened.entry.whole) opened.entry.ran.cycles from most) result }
{
    match output {
        TraceOutput::Lines => write_trace(opened, from, most, out),
        TraceOutput::Page => put_page(opened, from, most, out),
    }
}

// A run of a set that is opened, with what is told of its text behind the listing, where there is one.
fn open_traced<'s>(
    alloc: Global,
    set: &'s Set,
    text: Option<&Text>,
    whole: bool,
) -> Result<Opened<'s>, AllocError>
    ensures opened { IfOk result (λ opened. IsOpened set.now opened.machine opened.fresh opened.outcome opened.ran opened.whole) }
    ensures whole { IfOk result (λ opened. is_some opened.whole ≡ has_whole whole set.now opened.ran.cycles) }
    ensures text { IfOk result (λ opened. opened.text.items ≡ listing set.now ++ sources_told text.entry set.now) }
{
    let mut opened = Opened::open(alloc, set, whole)?;
    match text {
        None => Ok(opened),
        Some(text) => {
            push_sources(alloc, &mut opened.text, text, text.line_count(), &set.topo)?;
            Ok(opened)
        }
    }
}

// A set, stepped by its clock until it is over, of whose cycles the trace is written, or the page that shows it.
fn trace_set<K: Sink>(
    alloc: Global,
    set: &Set,
    text: Option<&Text>,
    options: TraceOptions,
    out: &mut K,
) -> Answer
    ensures { (input : List ℕ) → Means (whole options.form) input set.now →
        sources_in options.form input set.now ≡ sources_told text.entry set.now →
        Obeyed (Command.Reads (ReadingCommand.Trace options)) input
        (sink_seen K.sight out.old out.new) result }
{
    law_clock();
    law_one_input();
    let Ok(opened) = open_traced(alloc, set, text, options.whole) else {
        return Err(Failure::Memory);
    };
    let outcome = opened.outcome;
    let from = u64::from(options.from.unwrap_or(0));
    let most = u64::from(options.cycles.unwrap_or(DEFAULT_TRACE_CYCLES));
    ended(
        put_trace(opened, options.output, from, most, out),
        CommandEnding::Rested(outcome.ending()),
    )
}

// The same of the set that a text means: which line gives each instruction is told too.
fn trace_text<K: Sink>(alloc: Global, input: Vec<u8>, options: TraceOptions, out: &mut K) -> Answer
    requires few { length input.items ≤ MAX_TEXT }
    requires text { options.form ≡ SetForm.Text }
    ensures { Obeyed (Command.Reads (ReadingCommand.Trace options)) input.items
        (sink_seen K.sight out.old out.new) result }
{
    match text_in(alloc, input) {
        Ok(read) => trace_set(alloc, &read.set, Some(&read.text), options, out),
        Err(failure) => Err(failure),
    }
}

/// The set that an input means, stepped by its clock until it is over, of whose cycles the trace is written, or the page
/// that shows it.
pub fn run_trace<K: Sink>(
    alloc: Global,
    input: Vec<u8>,
    options: TraceOptions,
    out: &mut K,
) -> Answer
    requires { length input.items ≤ MAX_TEXT }
    ensures { Obeyed (Command.Reads (ReadingCommand.Trace options)) input.items
        (sink_seen K.sight out.old out.new) result }
{
    if options.form == SetForm::Text {
        return trace_text(alloc, input, options, out);
    }
    match set_in(alloc, options.form, input) {
        Ok(set) => trace_set(alloc, &set, None, options, out),
        Err(failure) => Err(failure),
    }
}
