//! The command that the words after the program's name are.
ghost use Rattle.std.specs.Prelude.{◌≡◌, ◌&&◌, map, string_bytes, is_none};
ghost use Rattle.std.specs.Option.{option_and_then};
ghost use Rattle.raw_text.specs.Number.{number_of};
ghost use Rattle.raw_command_line.specs.Arguments.{asks_live_proof, other_command, command_of, command_named, options_of, plain_option, takes_number, workers_option, cycles_option, number_option, said_once, with_option, with_first, form_said, made_said, endless_said, flow_set, is_whole, is_lost, is_endless, has_no_cycles, has_run_options_alone, unless_extra, run_of, cycles_of, trace_of, flow_of, without_options, work_on, work_of};
ghost use Rattle.raw_command_line.specs.declared.arguments.Command.TheVariants.{Reads};

use crate::limits::MAX_TRACE_CYCLES;
use raw_fabric_rule::Workers;
use raw_generated::GeneratedWords;
use raw_shell::{FixedText, workers_of};
use raw_text::number;

/// A command that reads nothing.
#[derive(Clone, Copy, PartialEq, Eq)]
pub enum AloneCommand {
    /// Writes a fixed text.
    Fixed(FixedText),
    /// Runs the generated set of so many words, and writes one line on it.
    Work {
        words: GeneratedWords,
        /// How many workers run the grid, where the words of the command say it.
        workers: Option<Workers>,
    },
}

/// How a set is written that is the whole input.
#[derive(Clone, Copy, PartialEq, Eq)]
pub enum SetForm {
    /// As text.
    Text,
    /// As bytes, in version 1 or 2.
    Image,
    /// As the text of a plan, whose planned set it is.
    Plan,
    /// As the text of a flow, whose compiled set it is.
    Flow,
}

/// What is written of the state in which a grid came to rest.
#[derive(Clone, Copy, PartialEq, Eq)]
pub enum StateOutput {
    /// The report: lines of text.
    Report,
    /// The picture: an SVG document.
    Picture,
}

/// What is written of a run.
#[derive(Clone, Copy, PartialEq, Eq)]
pub enum RunOutput {
    /// The state in which the grid came to rest.
    State(StateOutput),
    /// The listing of the set, and then the steps that the run took.
    History,
}

/// How a grid is run, and what is written of it.
#[derive(Clone, Copy, PartialEq, Eq)]
pub struct RunOptions {
    /// What is written of the run.
    pub output: RunOutput,
    /// How its set is written in the input.
    pub form: SetForm,
    /// How many workers run it, where the words of the command say it.
    pub workers: Option<Workers>,
}

/// How a set is stepped by the clock, and what is written of its lost cycles.
#[derive(Clone, Copy, PartialEq, Eq)]
pub struct CyclesOptions {
    /// How the set is written in the input.
    pub form: SetForm,
    /// Whether the lines of lost cycles are asked for.
    pub lost: bool,
}

/// What is written of the run of a clock.
#[derive(Clone, Copy, PartialEq, Eq)]
pub enum TraceOutput {
    /// The trace alone: lines of text.
    Lines,
    /// A page for a browser that shows the trace.
    Page,
}

/// How a set is stepped by the clock, and what is written of its cycles.
#[derive(Clone, Copy, PartialEq, Eq)]
pub struct TraceOptions {
    /// What is written of the cycles.
    pub output: TraceOutput,
    /// How the set is written in the input.
    pub form: SetForm,
    /// The first cycle that is written, counted from 0, where the words of the command say it.
    pub from: Option<u32>,
    /// How many cycles are written at most, 1 to 50,000, where the words of the command say it.
    pub cycles: Option<u32>,
    /// Whether the lines of the whole run are asked for.
    pub whole: bool,
}

/// Which set is written of a flow.
#[derive(Clone, Copy, PartialEq, Eq)]
pub enum FlowSet {
    /// The compiled set.
    Compiled,
    /// A set that a search may have found, in no more cycles than the compiled set takes.
    Scheduled,
    /// A set for a stream that takes rows as long as it is fed with them.
    Endless,
}

/// A command that reads its input.
#[derive(Clone, Copy, PartialEq, Eq)]
pub enum ReadingCommand {
    /// Runs the set that the input means until it comes to rest, and writes the report, the picture or the history.
    Run(RunOptions),
    /// Steps the set that the input means by the clock, cycle by cycle, and writes how many cycles it takes and who
    /// waits in them.
    Cycles(CyclesOptions),
    /// Steps the set that the input means by the clock, and writes its path: which turn each cycle had to wait for.
    Path(SetForm),
    /// Steps the set that the input means by the clock, and writes what happens in each cycle.
    Trace(TraceOptions),
    /// Runs the set that the input means at each depth of its queues, 1 to 7, and writes how it comes to rest.
    Depths(SetForm),
    /// Says whether the set that the input means takes the same time with any words in its sources.
    Steady(SetForm),
    /// Writes the names of the processors and wires of the set that the input means.
    Names(SetForm),
    /// Writes which line of the input, the text of a set, gives each instruction, and which labels stand there.
    Lines,
    /// Writes the image of the set that the input, a text, means.
    Asm,
    /// Writes the listing of the set whose image the input is.
    List,
    /// Writes the listing of the planned set of the plan that the input means.
    Plan,
    /// Writes the listing of a set that computes the flow that the input means.
    Flow(FlowSet),
    /// Says whether the steps behind the set in the input are lawful.
    Check,
    /// Runs the script behind the set in the input, and writes what it shows.
    Debug,
    /// Says whether the claim behind the set in the input is proved of it, for all words of its sources.
    Prove,
    /// Says for which numbers of rows the claim behind the set in the input is proved of it, for all words.
    ProveLive,
}

/// What the program can do, by whether it reads its input. An option of a command stands in its variant.
#[derive(Clone, Copy, PartialEq, Eq)]
pub enum Command {
    /// The command reads nothing.
    Alone(AloneCommand),
    /// The command reads its input.
    Reads(ReadingCommand),
}

/// What is written only where it is asked for.
#[derive(Clone, Copy, PartialEq, Eq)]
pub enum Extra {
    /// The lines of the whole run, in a trace.
    Whole,
    /// Those of lost cycles, in the text of the clock.
    Lost,
    /// Rows without end, in a set that is scheduled.
    Endless,
}

/// An option of a command.
#[derive(Clone, Copy, PartialEq, Eq)]
pub enum CommandOption {
    /// The set in the input is written so: not as text.
    Form(SetForm),
    /// The grid is run by so many workers.
    Workers(Workers),
    /// A trace begins with this cycle.
    From(u32),
    /// A trace has so many cycles at most, 1 to 50,000.
    Cycles(u32),
    /// This is written too.
    More(Extra),
    /// This set is written of a flow, and not its compiled one.
    Made(FlowSet),
}

/// What the options of a command say, each kind at most once.
#[derive(Clone, Copy, PartialEq, Eq)]
pub struct Options {
    /// How the set in the input is written, if not as text.
    pub form: Option<SetForm>,
    /// How many workers run the grid.
    pub workers: Option<Workers>,
    /// The first cycle of a trace.
    pub from: Option<u32>,
    /// How many cycles a trace has at most, 1 to 50,000.
    pub cycles: Option<u32>,
    /// What is written that is not without it.
    pub more: Option<Extra>,
    /// Which set is written of a flow, if not its compiled one.
    pub made: Option<FlowSet>,
}

// The option that one word is; None where it is none.
#[tactic(auto, unfolding(crate::specs::Arguments::plain_option))]
fn plain_option(word: &[u8]) -> Option<CommandOption>
    ensures { result ≡ plain_option word.now }
{
    if word == "--image".as_bytes() {
        Some(CommandOption::Form(SetForm::Image))
    } else if word == "--plan".as_bytes() {
        Some(CommandOption::Form(SetForm::Plan))
    } else if word == "--flow".as_bytes() {
        Some(CommandOption::Form(SetForm::Flow))
    } else if word == "--schedule".as_bytes() {
        Some(CommandOption::Made(FlowSet::Scheduled))
    } else if word == "--whole".as_bytes() {
        Some(CommandOption::More(Extra::Whole))
    } else if word == "--lost".as_bytes() {
        Some(CommandOption::More(Extra::Lost))
    } else if word == "--endless".as_bytes() {
        Some(CommandOption::More(Extra::Endless))
    } else {
        None
    }
}

// Whether an option has a number behind it.
#[tactic(auto, unfolding(crate::specs::Arguments::takes_number))]
fn takes_number(word: &[u8]) -> bool
    ensures { result ≡ takes_number word.now }
{
    word == "--workers".as_bytes() || word == "--from".as_bytes() || word == "--cycles".as_bytes()
}

// How many workers run a grid, by this number; None where there cannot be so many.
fn workers_option(number: u32) -> Option<CommandOption>
    ensures { result ≡ workers_option number }
{
    Some(CommandOption::Workers(workers_of(number)?))
}

// How many cycles a trace has at most, by this number; None where it cannot have so many.
fn cycles_option(number: u32) -> Option<CommandOption>
    ensures { result ≡ cycles_option number }
{
    if 1 <= number && number <= MAX_TRACE_CYCLES {
        Some(CommandOption::Cycles(number))
    } else {
        None
    }
}

// The option that a word and a number are; None where they are none.
#[tactic(auto, unfolding(crate::specs::Arguments::number_option))]
fn number_option(word: &[u8], number: u32) -> Option<CommandOption>
    ensures { result ≡ number_option word.now number }
{
    if word == "--workers".as_bytes() {
        workers_option(number)
    } else if word == "--from".as_bytes() {
        Some(CommandOption::From(number))
    } else if word == "--cycles".as_bytes() {
        cycles_option(number)
    } else {
        None
    }
}

// A value that is said, where none is said yet.
fn said_once<T: Copy>(said: Option<T>, value: T) -> Option<Option<T>>
    ensures { result ≡ said_once said value }
{
    match said {
        Some(_) => None,
        None => Some(Some(value)),
    }
}

// What is said with one option more; None where one of its kind is said already.
fn with_option(said: Options, option: CommandOption) -> Option<Options>
    ensures { result ≡ with_option said option }
{
    match option {
        CommandOption::Form(form) => Some(Options {
            form: said_once(said.form, form)?,
            ..said
        }),
        CommandOption::Workers(workers) => Some(Options {
            workers: said_once(said.workers, workers)?,
            ..said
        }),
        CommandOption::From(cycle) => Some(Options {
            from: said_once(said.from, cycle)?,
            ..said
        }),
        CommandOption::Cycles(cycles) => Some(Options {
            cycles: said_once(said.cycles, cycles)?,
            ..said
        }),
        CommandOption::More(more) => Some(Options {
            more: said_once(said.more, more)?,
            ..said
        }),
        CommandOption::Made(made) => Some(Options {
            made: said_once(said.made, made)?,
            ..said
        }),
    }
}

// Whether a word is an option that has a number behind it.
fn has_number(word: &String) -> bool
    ensures { result ≡ takes_number (string_bytes word.now) }
{
    takes_number(word.as_str().as_bytes())
}

// What is said with the option that a word and the number behind it are.
fn with_number(said: Options, word: &String, count: &String) -> Option<Options>
    ensures { result ≡ with_first said
        (option_and_then (number_option (string_bytes word.now)) (number_of (string_bytes count.now))) }
{
    let number = number(count.as_str().as_bytes())?;
    with_option(said, number_option(word.as_str().as_bytes(), number)?)
}

// What is said with the option that a word is.
fn with_word(said: Options, word: &String) -> Option<Options>
    ensures { result ≡ with_first said (plain_option (string_bytes word.now)) }
{
    with_option(said, plain_option(word.as_str().as_bytes())?)
}

// What words say that are options, each kind at most once; None where they are not.
#[tactic(auto, using(crate::proofs::Options::one_word, crate::proofs::Options::two_words, crate::proofs::Options::nothing_more))]
fn options_of(words: &[String]) -> Option<Options>
    ensures { result ≡ options_of (map string_bytes words.now) }
{
    let mut said = Options {
        form: None,
        workers: None,
        from: None,
        cycles: None,
        more: None,
        made: None,
    };
    let mut rest = words;
    'options: while let Some((word, behind)) = rest.split_first() {
        if has_number(word) {
            let (count, others) = behind.split_first()?;
            said = with_number(said, word, count)?;
            rest = others;
        } else {
            said = with_word(said, word)?;
            rest = behind;
        }
    }
    Some(said)
}

// The form of a set, which is a text where no option says it.
fn form_said(form: Option<SetForm>) -> SetForm
    ensures { result ≡ form_said form }
{
    match form {
        Some(form) => form,
        None => SetForm::Text,
    }
}

// The set that is written of a flow, which is the compiled one where no option says it.
fn made_said(made: Option<FlowSet>) -> FlowSet
    ensures { result ≡ made_said made }
{
    match made {
        Some(made) => made,
        None => FlowSet::Compiled,
    }
}

// The set that is written where rows without end are asked for: none where no set is scheduled.
fn endless_said(made: Option<FlowSet>) -> Option<FlowSet>
    ensures { result ≡ endless_said made }
{
    match made {
        Some(FlowSet::Scheduled) => Some(FlowSet::Endless),
        Some(FlowSet::Compiled | FlowSet::Endless) | None => None,
    }
}

// Whether the lines of the whole run are asked for.
fn is_whole(more: Option<Extra>) -> bool
    ensures { result ≡ is_whole more }
{
    match more {
        Some(Extra::Whole) => true,
        Some(Extra::Lost | Extra::Endless) | None => false,
    }
}

// Whether those of lost cycles are.
fn is_lost(more: Option<Extra>) -> bool
    ensures { result ≡ is_lost more }
{
    match more {
        Some(Extra::Lost) => true,
        Some(Extra::Whole | Extra::Endless) | None => false,
    }
}

// Whether rows without end are.
fn is_endless(more: Option<Extra>) -> bool
    ensures { result ≡ is_endless more }
{
    match more {
        Some(Extra::Endless) => true,
        Some(Extra::Whole | Extra::Lost) | None => false,
    }
}

// Whether nothing is said of the cycles of a trace, nor of what is written beside.
fn has_no_cycles(said: Options) -> bool
    ensures { result ≡ has_no_cycles said }
{
    said.from.is_none() && said.cycles.is_none() && said.more.is_none()
}

// Whether nothing is said that speaks of a trace, of what is written beside or of what is made of a flow.
fn has_run_options_alone(said: Options) -> bool
    ensures { result ≡ has_run_options_alone said }
{
    said.made.is_none() && has_no_cycles(said)
}

// A command, where no option is said that it does not take.
fn unless_extra(free: bool, command: Command) -> Option<Command>
    ensures { result ≡ unless_extra free command }
{
    if free { Some(command) } else { None }
}

// A run of which this is written. It takes the form of its set, and a number of workers.
fn run_of(output: RunOutput, said: Options) -> Option<Command>
    ensures { result ≡ run_of output said }
{
    let options = RunOptions {
        output,
        form: form_said(said.form),
        workers: said.workers,
    };
    unless_extra(
        has_run_options_alone(said),
        Command::Reads(ReadingCommand::Run(options)),
    )
}

// `cycles`. It takes the form of its set, and whether it has the lines of lost cycles.
fn cycles_of(said: Options) -> Option<Command>
    ensures { result ≡ cycles_of said }
{
    let options = CyclesOptions {
        form: form_said(said.form),
        lost: is_lost(said.more),
    };
    unless_extra(
        said.workers.is_none()
            && said.made.is_none()
            && said.from.is_none()
            && said.cycles.is_none()
            && !is_whole(said.more)
            && !is_endless(said.more),
        Command::Reads(ReadingCommand::Cycles(options)),
    )
}

// A trace or its page. It takes the form of its set, its first cycle, how many it has at most, and whether it has the whole run.
fn trace_of(output: TraceOutput, said: Options) -> Option<Command>
    ensures { result ≡ trace_of output said }
{
    let options = TraceOptions {
        output,
        form: form_said(said.form),
        from: said.from,
        cycles: said.cycles,
        whole: is_whole(said.more),
    };
    unless_extra(
        said.workers.is_none()
            && said.made.is_none()
            && !is_lost(said.more)
            && !is_endless(said.more),
        Command::Reads(ReadingCommand::Trace(options)),
    )
}

// A command that takes the form of its set alone, with this form.
fn with_form_alone(command: ReadingCommand, said: Options) -> Option<Command>
    ensures { result ≡ unless_extra (is_none said.workers && has_run_options_alone said) (Reads command) }
{
    unless_extra(
        said.workers.is_none() && has_run_options_alone(said),
        Command::Reads(command),
    )
}

// The set that is written of a flow: of one that is scheduled it may be asked that its rows have no end.
fn flow_set(made: Option<FlowSet>, more: Option<Extra>) -> Option<FlowSet>
    ensures { result ≡ flow_set made more }
{
    match more {
        None => Some(made_said(made)),
        Some(Extra::Endless) => endless_said(made),
        Some(Extra::Whole | Extra::Lost) => None,
    }
}

// `flow`. It takes which set is written of its flow.
fn flow_of(said: Options) -> Option<Command>
    ensures { result ≡ flow_of said }
{
    match flow_set(said.made, said.more) {
        Some(set) => unless_extra(
            said.form.is_none()
                && said.workers.is_none()
                && said.from.is_none()
                && said.cycles.is_none(),
            Command::Reads(ReadingCommand::Flow(set)),
        ),
        None => None,
    }
}

// A command that takes no option.
fn without_options(command: Command, said: Options) -> Option<Command>
    ensures { result ≡ without_options command said }
{
    let free = said.form.is_none() && said.workers.is_none() && has_run_options_alone(said);
    unless_extra(free, command)
}

// The command of this name, with what its options say.
#[tactic(auto, unfolding(crate::specs::Arguments::command_named))]
fn command_named(name: &[u8], said: Options) -> Option<Command>
    ensures { result ≡ command_named name.now said }
{
    if name == "--help".as_bytes() {
        without_options(Command::Alone(AloneCommand::Fixed(FixedText::Help)), said)
    } else if name == "--version".as_bytes() {
        without_options(
            Command::Alone(AloneCommand::Fixed(FixedText::Version)),
            said,
        )
    } else if name == "run".as_bytes() {
        run_of(RunOutput::State(StateOutput::Report), said)
    } else if name == "picture".as_bytes() {
        run_of(RunOutput::State(StateOutput::Picture), said)
    } else if name == "history".as_bytes() {
        run_of(RunOutput::History, said)
    } else if name == "cycles".as_bytes() {
        cycles_of(said)
    } else if name == "path".as_bytes() {
        with_form_alone(ReadingCommand::Path(form_said(said.form)), said)
    } else if name == "trace".as_bytes() {
        trace_of(TraceOutput::Lines, said)
    } else if name == "explore".as_bytes() {
        trace_of(TraceOutput::Page, said)
    } else if name == "depths".as_bytes() {
        with_form_alone(ReadingCommand::Depths(form_said(said.form)), said)
    } else if name == "steady".as_bytes() {
        with_form_alone(ReadingCommand::Steady(form_said(said.form)), said)
    } else if name == "names".as_bytes() {
        with_form_alone(ReadingCommand::Names(form_said(said.form)), said)
    } else if name == "lines".as_bytes() {
        without_options(Command::Reads(ReadingCommand::Lines), said)
    } else if name == "asm".as_bytes() {
        without_options(Command::Reads(ReadingCommand::Asm), said)
    } else if name == "list".as_bytes() {
        without_options(Command::Reads(ReadingCommand::List), said)
    } else if name == "plan".as_bytes() {
        without_options(Command::Reads(ReadingCommand::Plan), said)
    } else if name == "flow".as_bytes() {
        flow_of(said)
    } else if name == "check".as_bytes() {
        without_options(Command::Reads(ReadingCommand::Check), said)
    } else if name == "debug".as_bytes() {
        without_options(Command::Reads(ReadingCommand::Debug), said)
    } else if name == "prove".as_bytes() {
        without_options(Command::Reads(ReadingCommand::Prove), said)
    } else {
        None
    }
}

// `work` on so many words. It takes a number of workers.
fn work_on(said: Options, words: u32) -> Option<Command>
    ensures { result ≡ work_on said words }
{
    match GeneratedWords::new(words) {
        Some(words) => {
            let workers = said.workers;
            let work = Command::Alone(AloneCommand::Work { words, workers });
            unless_extra(said.form.is_none() && has_run_options_alone(said), work)
        }
        None => None,
    }
}

// `work` on as many words as a number says, where it is one.
fn work_said(said: Options, words: Option<u32>) -> Option<Command>
    ensures { result ≡ option_and_then (work_on said) words }
{
    match words {
        Some(words) => work_on(said, words),
        None => None,
    }
}

// `work` and the words behind it: a number, and then options.
fn work_of(words: &[String]) -> Option<Command>
    ensures { result ≡ work_of (map string_bytes words.now) }
{
    let Some((count, options)) = words.split_first() else {
        return None;
    };
    match options_of(options) {
        Some(said) => work_said(said, number(count.as_str().as_bytes())),
        None => None,
    }
}

// The command of this name with the options that these words are.
fn named_with(name: &String, options: &[String]) -> Option<Command>
    ensures { result ≡ option_and_then (command_named (string_bytes name.now)) (options_of (map string_bytes options.now)) }
{
    match options_of(options) {
        Some(said) => command_named(name.as_str().as_bytes(), said),
        None => None,
    }
}

// Whether the words are `prove --live`.
fn asks_live_proof(words: &[String]) -> bool
    ensures { result ≡ asks_live_proof (map string_bytes words.now) }
{
    match words {
        [command, option] => {
            if command.as_str().as_bytes() == "prove".as_bytes() {
                option.as_str().as_bytes() == "--live".as_bytes()
            } else {
                false
            }
        }
        _ => false,
    }
}

// The command that words are which are not `prove --live`.
fn other_command(words: &[String]) -> Option<Command>
    ensures { result ≡ other_command (map string_bytes words.now) }
{
    match words.split_first() {
        Some((name, rest)) => {
            if name.as_str().as_bytes() == "work".as_bytes() {
                work_of(rest)
            } else {
                named_with(name, rest)
            }
        }
        None => None,
    }
}

/// The command that the words are; None where they are none.
pub fn command_in(words: &[String]) -> Option<Command>
    ensures { result ≡ command_of (map string_bytes words.now) }
{
    if asks_live_proof(words) {
        Some(Command::Reads(ReadingCommand::ProveLive))
    } else {
        other_command(words)
    }
}
