//! The command `work`: the generated set is run, and summed up in one line.
ghost use Rattle.std.specs.Prelude.{◌≡◌, ◌+◌, ◌%◌, ◌^◌, ◌<◌, ◌≤◌, [], take, sum, sum_by, length};
ghost use Rattle.raw_grid.specs.Topology.{proc_count};
ghost use Rattle.raw_model.specs.Local.{steps_of};
ghost use Rattle.raw_model.specs.Outcomes.{Outcome as How};
ghost use Rattle.raw_model.specs.StateTexts.{outcome_word};
ghost use Rattle.raw_generated.specs.Generated.{grid};
ghost use Rattle.raw_generated.specs.Summary.{words_out, all_steps, summary_line};
ghost use Rattle.raw_shell.specs.Seen.{sink_seen};
ghost use Rattle.raw_owed.specs.Obeyed.{Obeyed};
ghost use Rattle.raw_command_line.specs.declared.arguments.AloneCommand.TheVariants.{Work};
ghost use Rattle.raw_command_line.specs.declared.arguments.Command.TheVariants.{Alone};

use raw_generated::{GeneratedWords, law_generated, make_set};
use raw_grid::ProcId;
use raw_inputs::Failure;
use raw_io::{Sink, put_all};
use raw_model::limits::MAX_STEPS;
use raw_model::{law_bound, law_same_rest};
use raw_outcome::outcome;
use raw_owed::{Answer, ended};
use raw_report::Line;
use raw_serial::Machine;
use raw_shell::CommandEnding;
use raw_workers::{Gate, Parallelism, Workers, work};
use std::alloc::Global;
use std::rt::Clock;
use std::thread::Threads;

// The sum of words, modulo 2^32.
fn sum_of(words: &[u32]) -> u32
    ensures { result ≡ sum words.now % 2 ^ 32 }
{
    let mut sum: u32 = 0;
    for word in words {
        sum = sum.wrapping_add(*word);
    }
    sum
}

// The line of a run of `n` words that came to rest with this outcome's word.
#[tactic(auto, unfolding(raw_generated::specs::Summary::summary_line))]
fn summary_line(n: u32, word: &[u8], words: &[u32], steps: u64) -> Line
    requires { length word.now ≤ 8 }
    ensures { (how : How) → word.now ≡ outcome_word how →
        result ≡ summary_line n how words.now steps }
{
    let mut line = Line::new();
    line.push_text(b"work ");
    line.push_number(u64::from(n));
    line.push_text(b" ");
    line.push_text(word);
    line.push_text(b" words ");
    line.push_number(words.len() as u64);
    line.push_text(b" sum 0x");
    line.push_word(sum_of(words));
    line.push_text(b" steps ");
    line.push_number(steps);
    line.push_text(b"\n");
    line
}

// The count of a processor, and that it is the next term of the sum of counts.
fn count_of(m: &Machine<'_>, p: ProcId) -> u64
    requires { p.0 < proc_count m.now.set.topo }
    ensures few { result ≤ MAX_STEPS }
    ensures next { sum_by steps_of (take (p.0 + 1) m.now.state.locals)
        ≡ sum_by steps_of (take p.0 m.now.state.locals) + result }
{
    m.count(p)
}

// The counts of all processors together.
fn all_steps(m: &Machine<'_>) -> u64
    ensures { result ≡ all_steps m.now.state }
{
    let mut steps = 0;
    for p in 0..m.procs() {
        steps += count_of(m, ProcId(p));
    }
    steps
}

// The words that came out of the generated set's one sink.
fn words_out<'m>(m: &'m Machine<'_>) -> &'m [u32]
    requires { m.now.set.topo ≡ grid }
    ensures { result.now ≡ words_out m.now.state }
{
    let _set = m.set();
    &m.port(1).got
}

/// Runs the generated set of `n` words until it comes to rest, by so many workers where the words say it, and puts its
/// line.
pub fn run_generated<R: Threads + Clock + Sync, K: Sink, G: Gate>(
    rt: &R,
    alloc: Global,
    n: GeneratedWords,
    workers: Option<Workers>,
    out: &mut K,
    gate: &G,
) -> Answer
    ensures { Obeyed (Alone (Work n workers)) []
        (sink_seen K.sight out.old out.new) result }
{
    law_generated();
    law_bound();
    law_same_rest();
    let Ok(set) = make_set(alloc, n) else {
        return Err(Failure::Memory);
    };
    let Ok(fresh) = Machine::open(alloc, &set) else {
        return Err(Failure::Memory);
    };
    let machine = work(rt, alloc, fresh, Parallelism::of(workers), gate);
    let outcome = outcome(&machine);
    let word = outcome.word();
    let line = summary_line(n.count(), word, words_out(&machine), all_steps(&machine));
    ended(
        put_all(out, line.as_bytes()),
        CommandEnding::Rested(outcome.ending()),
    )
}
