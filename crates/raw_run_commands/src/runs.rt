//! The commands `run`, `picture` and `history`: a set is run until it comes to rest.
ghost use Rattle.std.specs.Prelude.{◌≡◌, ℕ, List, ◌++◌};
ghost use Rattle.raw_io.specs.Writing.{Writes};
ghost use Rattle.raw_model.specs.Rest.{IsQuiet, IsRun};
ghost use Rattle.raw_model.specs.Outcomes.{outcome};
ghost use Rattle.raw_model.specs.Waits.{waits_for};
ghost use Rattle.raw_outcome.specs.Told.{told};
ghost use Rattle.raw_steps.specs.Taking.{numbers};
ghost use Rattle.raw_report.specs.History.{history_text};
ghost use Rattle.raw_inputs.specs.Inputs.{whole, Means};
ghost use Rattle.raw_owed.specs.Owed.{run_text};
ghost use Rattle.raw_shell.specs.Seen.{sink_seen};
ghost use Rattle.raw_owed.specs.Obeyed.{Obeyed};

use raw_command_line::{Command, ReadingCommand, RunOptions, RunOutput, StateOutput};
use raw_grid::ProcId;
use raw_inputs::{Failure, law_one_input};
use raw_io::{Failed, Sink, put_all};
use raw_model::{Set, law_bound};
use raw_outcome::{Outcome, outcome};
use raw_owed::{Answer, ended, law_each_run};
use raw_picture::write_picture;
use raw_report::{write_history, write_report};
use raw_serial::Machine;
use raw_set_text::list_set;
use raw_shell::CommandEnding;
use raw_workers::{Gate, Parallelism, work, work_kept};
use std::alloc::Global;
use std::rt::Clock;
use std::thread::Threads;

// What is written of a machine at rest, which came to rest as the outcome says.
fn put_state<K: Sink>(
    m: &Machine<'_>,
    o: Outcome,
    output: StateOutput,
    out: &mut K,
) -> Result<(), Failed>
    requires quiet { IsQuiet m.now.set m.now.state }
    requires outcome { told (waits_for m.now.set m.now.state) o ≡ outcome m.now.set m.now.state }
    ensures { (steps : List ℕ) → IsRun m.now.set steps → Writes
        (K.sight out.old) (K.sight out.new)
        (run_text (RunOutput.State output) m.now.set steps) result }
{
    match output {
        StateOutput::Report => write_report(m, o, out),
        StateOutput::Picture => write_picture(m, out),
    }
}

// A set, run to its rest.
fn run_to_rest<R: Threads + Clock + Sync, K: Sink, G: Gate>(
    rt: &R,
    alloc: Global,
    set: &Set,
    options: RunOptions,
    output: StateOutput,
    out: &mut K,
    gate: &G,
) -> Answer
    requires output { options.output ≡ RunOutput.State output }
    ensures { (input : List ℕ) → Means (whole options.form) input set.now →
        Obeyed (Command.Reads (ReadingCommand.Run options)) input
        (sink_seen K.sight out.old out.new) result }
{
    law_one_input();
    law_bound();
    law_each_run();
    let Ok(fresh) = Machine::open(alloc, set) else {
        return Err(Failure::Memory);
    };
    let machine = work(rt, alloc, fresh, Parallelism::of(options.workers), gate);
    let outcome = outcome(&machine);
    ended(
        put_state(&machine, outcome, output, out),
        CommandEnding::Rested(outcome.ending()),
    )
}

// The listing of a set, and then the history of a run of it.
#[tactic(auto, using(raw_io::proofs::Chains::chained))]
fn put_history<K: Sink>(listing: &[u8], steps: &[ProcId], out: &mut K) -> Result<(), Failed>
    ensures { Writes (K.sight out.old) (K.sight out.new)
        (listing.now ++ history_text (numbers steps.now)) result }
{
    put_all(out, listing)?;
    write_history(steps, out)
}

// A set, run to its rest, whose steps are written.
fn run_history<R: Threads + Clock + Sync, K: Sink, G: Gate>(
    rt: &R,
    alloc: Global,
    set: &Set,
    options: RunOptions,
    out: &mut K,
    gate: &G,
) -> Answer
    requires output { options.output ≡ RunOutput.History }
    ensures { (input : List ℕ) → Means (whole options.form) input set.now →
        Obeyed (Command.Reads (ReadingCommand.Run options)) input
        (sink_seen K.sight out.old out.new) result }
{
    law_one_input();
    law_each_run();
    let Ok(listing) = list_set(alloc, set) else {
        return Err(Failure::Memory);
    };
    let Ok(kept) = work_kept(rt, alloc, set, Parallelism::of(options.workers), gate) else {
        return Err(Failure::Memory);
    };
    let outcome = outcome(&kept.machine);
    ended(
        put_history(&listing, &kept.steps, out),
        CommandEnding::Rested(outcome.ending()),
    )
}

/// Runs a set to its rest, and puts of it what the options say.
pub fn run_set<R: Threads + Clock + Sync, K: Sink, G: Gate>(
    rt: &R,
    alloc: Global,
    set: &Set,
    options: RunOptions,
    out: &mut K,
    gate: &G,
) -> Answer
    ensures { (input : List ℕ) → Means (whole options.form) input set.now →
        Obeyed (Command.Reads (ReadingCommand.Run options)) input
        (sink_seen K.sight out.old out.new) result }
{
    match options.output {
        RunOutput::State(output) => run_to_rest(rt, alloc, set, options, output, out, gate),
        RunOutput::History => run_history(rt, alloc, set, options, out, gate),
    }
}
