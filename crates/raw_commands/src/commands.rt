//! The commands, each over its input and `out`.
ghost use Rattle.std.specs.Prelude.{◌≡◌, ◌≤◌, ℕ, List, [], length};
ghost use Rattle.raw_owed.specs.Answers.{fixed_text_of, help_text, version_text};
ghost use Rattle.raw_inputs.specs.Inputs.{whole, Means};
ghost use Rattle.raw_shell.specs.Seen.{sink_seen};
ghost use Rattle.raw_owed.specs.Obeyed.{Obeyed};

use crate::debugged::run_script;
use crate::lined::put_lines;
use raw_command_line::{AloneCommand, Command, FlowSet, ReadingCommand, SetForm};
use raw_depths::{depths, write_depths};
use raw_image::write_image;
use raw_inputs::{Failure, InputForm, set_in};
use raw_io::Sink;
use raw_model::Set;
use raw_names::write_names;
use raw_owed::{Answer, ended, put_output};
use raw_proof_commands::{
    prove_claim, prove_live_claim, put_endless, put_schedule, put_steadiness,
};
use raw_run_commands::{check_history, put_path, run_cycles, run_generated, run_set, run_trace};
use raw_set_text::list_set;
use raw_shell::{CommandEnding, FixedText};
use raw_text::MAX_TEXT;
use raw_workers::Gate;
use std::alloc::Global;
use std::rt::Clock;
use std::thread::Threads;

#[tactic(auto, unfolding(raw_owed::specs::Answers::help_text))]
fn help() -> &'static [u8]
    ensures { result.now ≡ help_text }
{
    b"\
    rawgrid: runs a grid of tiles and switches, and tells how it came to rest\n\
    \n\
    rawgrid run          runs the set on standard input and writes its report\n\
    rawgrid picture      runs it, and draws how it came to rest, as SVG\n\
    rawgrid history      runs it, and writes its text and the steps that it took\n\
    rawgrid cycles       steps it by the clock, and counts cycles and who waits\n\
    rawgrid path         steps it by the clock, and says what bounds its cycles\n\
    rawgrid trace        steps it by the clock, and writes what each cycle does\n\
    rawgrid explore      writes a page that shows these cycles in a browser\n\
    rawgrid depths       runs it at each depth, and says if deeper queues help\n\
    rawgrid names        writes what processors and wires its numbers stand for\n\
    rawgrid lines        writes which line gives each instruction, and its labels\n\
    rawgrid check        reads a history and says whether each step was lawful\n\
    rawgrid debug        reads a set and a script, and shows it right after any step\n\
    rawgrid prove        reads a set and a claim, and proves it for all its inputs\n\
    rawgrid steady       says whether its time is the same for all its inputs\n\
    rawgrid asm          reads the text of a set and writes its image: bytes\n\
    rawgrid list         reads an image and writes the text of its set\n\
    rawgrid plan         reads sends of words and writes the text of a set for them\n\
    rawgrid flow         reads definitions and writes the text of a set for them\n\
    rawgrid work N       runs N words (1 to 100,000) through 4 by 4 tiles and writes\n\
    \x20                    one line: work N OUTCOME words K sum S steps M\n\
    rawgrid --help       writes this text\n\
    rawgrid --version    writes the version\n\
    \n\
    --workers N          run, picture, history, work: N threads, 1-64; else up to 4\n\
    --image              the set of run, picture, history, cycles, path, trace,\n\
    \x20                    explore, depths, steady or names is an image\n\
    --plan, --flow       it is that of a plan, or of a flow\n\
    --from C             trace, explore: the first cycle; else 0\n\
    --cycles K           trace, explore: at most K cycles, 1 to 50,000; else 1,000\n\
    --whole              trace, explore: and the turns of the whole run\n\
    --lost               cycles: and to what the waits of each processor lead\n\
    --live               debug: answers each line before it reads more;\n\
    \x20                    prove: for every number of rows, of a set that loops\n\
    --schedule           flow: a set of fewer cycles, where a search finds one\n\
    --endless            with it, of rows: a set for rawlive that never ends, proved\n\
    \n\
    All but work, --help and --version read standard input. A set is text: grid C R,\n\
    limit N, then lines depth, source, sink, feed, data, misses, show, and programs\n\
    from tile X Y or switch X Y up to end; # begins a comment. An example:\n\
    \x20   rawgrid run < examples/sum.set\n\
    \n\
    status  0 done                            6 the limit of instructions\n\
    \x20       2 refused words or input          7 standard input failed\n\
    \x20       3 deadlock: a cycle of waits      8 standard output failed\n\
    \x20       4 stuck: waits for one that       9 no memory\n\
    \x20         has stopped                    10 input over 33,554,432 bytes\n\
    \x20       5 trapped                        11 check: a step is not lawful\n\
    \x20                                        12 prove, steady: not proved\n\
    \x20                                        13 prove: words refute the claim\n\
    On 2 and 7 to 10 standard error has one line, of a faulty text or image\n\
    \x20   refused line L: KIND\n\
    \x20   refused image at OFFSET: KIND\n\
    \n\
    docs/HANDBOOK.md has lessons, docs/rawgrid.1 all kinds of faults.\n"
}

#[tactic(auto, unfolding(raw_owed::specs::Answers::version_text))]
fn version() -> &'static [u8]
    ensures { result.now ≡ version_text }
{
    b"rawgrid 0.2.0\n"
}

fn words_of(text: FixedText) -> &'static [u8]
    ensures { result.now ≡ fixed_text_of text }
{
    text.of(help(), version())
}

// The names of the processors and wires of a set.
fn put_names<K: Sink>(set: &Set, form: SetForm, out: &mut K) -> Answer
    ensures { (input : List ℕ) → Means (whole form) input set.now →
        Obeyed (Command.Reads (ReadingCommand.Names form)) input
        (sink_seen K.sight out.old out.new) result }
{
    ended(write_names(set, out), CommandEnding::Done)
}

// How a set comes to rest at each depth of its queues.
fn run_depths<K: Sink>(alloc: Global, set: &mut Set, form: SetForm, out: &mut K) -> Answer
    ensures { (input : List ℕ) → Means (whole form) input set.old →
        Obeyed (Command.Reads (ReadingCommand.Depths form)) input
        (sink_seen K.sight out.old out.new) result }
{
    let Ok(found) = depths(alloc, set) else {
        return Err(Failure::Memory);
    };
    ended(write_depths(&found, out), CommandEnding::Done)
}

// The image of a set.
fn put_image<K: Sink>(alloc: Global, set: &Set, out: &mut K) -> Answer
    ensures { (input : List ℕ) → Means InputForm.Text input set.now →
        Obeyed (Command.Reads ReadingCommand.Asm) input
        (sink_seen K.sight out.old out.new) result }
{
    match write_image(alloc, set) {
        Ok(image) => put_output(&image, out),
        Err(_) => Err(Failure::Memory),
    }
}

// The listing of a set.
fn put_listing<K: Sink>(alloc: Global, set: &Set, out: &mut K) -> Answer
    ensures list { (input : List ℕ) → Means InputForm.Image input set.now →
        Obeyed (Command.Reads ReadingCommand.List) input
        (sink_seen K.sight out.old out.new) result }
    ensures plan { (input : List ℕ) → Means InputForm.Plan input set.now →
        Obeyed (Command.Reads ReadingCommand.Plan) input
        (sink_seen K.sight out.old out.new) result }
    ensures flow { (input : List ℕ) → Means InputForm.Flow input set.now →
        Obeyed (Command.Reads (ReadingCommand.Flow FlowSet.Compiled)) input
        (sink_seen K.sight out.old out.new) result }
{
    match list_set(alloc, set) {
        Ok(listing) => put_output(&listing, out),
        Err(_) => Err(Failure::Memory),
    }
}

/// A command that reads nothing.
pub fn obey_alone<R: Threads + Clock + Sync, K: Sink, G: Gate>(
    rt: &R,
    alloc: Global,
    command: AloneCommand,
    out: &mut K,
    gate: &G,
) -> Answer
    ensures { Obeyed (Command.Alone command) []
        (sink_seen K.sight out.old out.new) result }
{
    match command {
        AloneCommand::Fixed(text) => put_output(words_of(text), out),
        AloneCommand::Work { words, workers } => {
            run_generated(rt, alloc, words, workers, out, gate)
        }
    }
}

/// A command that reads, on its input.
pub fn run_command<R: Threads + Clock + Sync, K: Sink, G: Gate>(
    rt: &R,
    alloc: Global,
    command: ReadingCommand,
    input: Vec<u8>,
    out: &mut K,
    gate: &G,
) -> Answer
    requires { length input.items ≤ MAX_TEXT }
    ensures { Obeyed (Command.Reads command) input.items
        (sink_seen K.sight out.old out.new) result }
{
    match command {
        ReadingCommand::Run(options) => {
            let set = set_in(alloc, options.form, input)?;
            run_set(rt, alloc, &set, options, out, gate)
        }
        ReadingCommand::Cycles(options) => {
            let set = set_in(alloc, options.form, input)?;
            run_cycles(alloc, &set, options, out)
        }
        ReadingCommand::Path(form) => {
            let set = set_in(alloc, form, input)?;
            put_path(alloc, &set, form, out)
        }
        ReadingCommand::Trace(options) => run_trace(alloc, input, options, out),
        ReadingCommand::Depths(form) => {
            let mut set = set_in(alloc, form, input)?;
            run_depths(alloc, &mut set, form, out)
        }
        ReadingCommand::Steady(form) => {
            let set = set_in(alloc, form, input)?;
            put_steadiness(alloc, &set, form, out)
        }
        ReadingCommand::Names(form) => {
            let set = set_in(alloc, form, input)?;
            put_names(&set, form, out)
        }
        ReadingCommand::Lines => put_lines(alloc, input, out),
        ReadingCommand::Asm => {
            let set = set_in(alloc, SetForm::Text, input)?;
            put_image(alloc, &set, out)
        }
        ReadingCommand::List => {
            let set = set_in(alloc, SetForm::Image, input)?;
            put_listing(alloc, &set, out)
        }
        ReadingCommand::Plan => {
            let set = set_in(alloc, SetForm::Plan, input)?;
            put_listing(alloc, &set, out)
        }
        ReadingCommand::Flow(FlowSet::Compiled) => {
            let set = set_in(alloc, SetForm::Flow, input)?;
            put_listing(alloc, &set, out)
        }
        ReadingCommand::Flow(FlowSet::Scheduled) => put_schedule(alloc, input, out),
        ReadingCommand::Flow(FlowSet::Endless) => put_endless(alloc, input, out),
        ReadingCommand::Check => check_history(alloc, input, out),
        ReadingCommand::Debug => run_script(alloc, input, out),
        ReadingCommand::Prove => prove_claim(alloc, input, out),
        ReadingCommand::ProveLive => prove_live_claim(alloc, input, out),
    }
}
