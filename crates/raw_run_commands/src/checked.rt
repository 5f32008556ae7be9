//! The command `check`: whether the steps behind a set are lawful.
ghost use Rattle.std.specs.Prelude.{◌≡◌, ◌≤◌, ◌++◌, codes, decimal, length, slice_index};
ghost use Rattle.raw_text.specs.declared.limits.TheConstants.{MAX_TEXT};
ghost use Rattle.raw_steps.specs.Taking.{numbers};
ghost use Rattle.raw_owed.specs.Checked.{why_text, place_text, check_line, check_ending};
ghost use Rattle.raw_shell.specs.Seen.{sink_seen};
ghost use Rattle.raw_owed.specs.Obeyed.{Obeyed};
ghost use Rattle.raw_command_line.specs.declared.arguments.ReadingCommand.TheVariants.{Check};
ghost use Rattle.raw_command_line.specs.declared.arguments.Command.TheVariants.{Reads};

use raw_grid::ProcId;
use raw_inputs::{Failure, steps_in};
use raw_io::{Sink, put_all};
use raw_owed::{Answer, ended};
use raw_report::Line;
use raw_serial::{Machine, Wait};
use raw_shell::CommandEnding;
use raw_steps::{CheckAnswer, Why, check_run};
use std::alloc::Global;

// The processor of a step, or 0 where there is no such step.
fn processor_at(steps: &[ProcId], place: u64) -> u32
    ensures { result ≡ slice_index (numbers steps.now) place }
{
    match steps.get(place as usize) {
        Some(p) => p.0,
        None => 0,
    }
}

// The line of a lawful list of so many steps.
fn lawful_line(steps: usize) -> Line
    ensures { result ≡ codes "lawful " ++ (decimal steps ++ codes "\n") }
{
    let mut line = Line::new();
    line.push_text(b"lawful ");
    line.push_number(steps as u64);
    line.push_text(b"\n");
    line
}

// The front of the line of a step at a place.
fn place_line(place: u64, p: u32) -> Line
    ensures text { result ≡ codes "unlawful at " ++ (decimal place ++ (codes ": " ++ decimal p)) }
    ensures few { length result ≤ 60 }
{
    let mut line = Line::new();
    line.push_text(b"unlawful at ");
    line.push_number(place);
    line.push_text(b": ");
    line.push_number(u64::from(p));
    line
}

// The same, whose processor is stopped.
fn stopped_line(place: u64, p: u32) -> Line
    ensures { result ≡ place_text place p (why_text Why.Stopped) }
{
    let mut line = place_line(place, p);
    line.push_text(b" stopped\n");
    line
}

// The same, whose processor waits.
fn waits_line(place: u64, p: u32, wait: Wait) -> Line
    ensures { result ≡ place_text place p (why_text (Why.Waits wait)) }
{
    let mut line = place_line(place, p);
    line.push_text(b" waits wire ");
    line.push_number(u64::from(wait.wire.0));
    line.push_text(b" for ");
    line.push_number(u64::from(wait.on.0));
    line.push_text(b"\n");
    line
}

// The line of an answer for these steps.
fn answer_line(steps: &[ProcId], answer: CheckAnswer) -> Line
    ensures { result ≡ check_line (numbers steps.now) answer }
{
    match answer {
        CheckAnswer::Lawful => lawful_line(steps.len()),
        CheckAnswer::Unlawful { place, why } => match why {
            Why::Stopped => stopped_line(place, processor_at(steps, place)),
            Why::Waits(wait) => waits_line(place, processor_at(steps, place), wait),
        },
    }
}

// How the command ends with an answer.
fn ending_with(answer: CheckAnswer) -> CommandEnding
    ensures { result ≡ check_ending answer }
{
    match answer {
        CheckAnswer::Lawful => CommandEnding::Done,
        CheckAnswer::Unlawful { .. } => CommandEnding::Unlawful,
    }
}

/// Checks the steps behind the set in an input, from the start of the set, and puts the line of the answer.
pub fn check_history<K: Sink>(alloc: Global, input: Vec<u8>, out: &mut K) -> Answer
    requires { length input.items ≤ MAX_TEXT }
    ensures { Obeyed (Reads Check) input.items
        (sink_seen K.sight out.old out.new) result }
{
    let marked = match steps_in(alloc, input) {
        Ok(marked) => marked,
        Err(failure) => return Err(failure),
    };
    let Ok(mut machine) = Machine::open(alloc, &marked.set) else {
        return Err(Failure::Memory);
    };
    let answer = check_run(&mut machine, &marked.steps);
    let line = answer_line(&marked.steps, answer);
    ended(put_all(out, line.as_bytes()), ending_with(answer))
}
