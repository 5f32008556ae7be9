//! What is told of a machine at rest: how it came to rest, and the waits of the cycle or of the chain.
ghost use Rattle.std.specs.Prelude.{◌≡◌, ℕ, List, ◌+◌, ◌<◌, ◌≤◌, ◌++◌, length};
ghost use Rattle.raw_io.specs.Writing.{Writes};
ghost use Rattle.raw_grid.specs.Topology.{proc_count};
ghost use Rattle.raw_grid.specs.Wires.{wires_of};
ghost use Rattle.raw_model.specs.Waits.{waits_for};
ghost use Rattle.raw_model.specs.Outcomes.{outcome};
ghost use Rattle.raw_model.specs.Outcomes.Outcome.{Done, Deadlock, Trapped, Limit, Stuck};
ghost use Rattle.raw_model.specs.StateTexts.{outcome_word};
ghost use Rattle.raw_outcome.specs.Told.{told};
ghost use Rattle.raw_picture.specs.Places.{IsCourse};
ghost use Rattle.raw_picture.specs.Told.{say, is_told, segment, lead, wait_piece, all_waits, description, path_start, path, AnswerFits, AreTold};

use crate::course::{Course, along, wait_course};
use crate::drawn::Drawn;
use crate::forms::push_labelled;
use crate::names::{after_first_word, wait_text};
use raw_grid::{ProcId, WireId};
use raw_io::{Failed, Sink, put_each};
use raw_names::push_processor_name;
use raw_outcome::{Outcome, chain_end};
use raw_serial::Machine;
use raw_state_text::{Line, put_line};

/// How the processors that are told stand.
#[derive(Clone, Copy, PartialEq, Eq)]
pub(crate) enum Shape {
    /// None is told.
    Nothing,
    /// The last of them waits for none.
    Chain,
    /// The last of them waits for the first.
    Cycle,
}

/// The processors that an outcome tells: the first, and how many there are at most, each the one that the one
/// before it waits for.
#[derive(Clone, Copy)]
pub(crate) struct Told {
    pub(crate) first: ProcId,
    pub(crate) count: u32,
    pub(crate) shape: Shape,
}

/// How the waits that are told are put.
#[derive(Clone, Copy, PartialEq, Eq)]
pub(crate) enum Telling {
    /// In words, as the description has them.
    Sentences,
    /// As the path through their courses.
    Lines,
}

/// The word of the outcome of a machine.
pub(crate) fn outcome_word(drawn: &Drawn<'_, '_>) -> &'static [u8]
    ensures text { result.now ≡ outcome_word (outcome drawn.now.machine.now.set drawn.now.machine.now.state) }
    ensures short { length result.now ≤ 8 }
{
    drawn.answer.word()
}

// The sentence of a state in which all is done.
#[tactic(auto, unfolding(crate::specs::Told::say))]
fn say_done(m: &Machine<'_>) -> Line
    ensures { result ≡ say m.now.set m.now.state Done }
{
    let mut line = Line::new();
    line.push_text(b"every tile and every switch is halted");
    line
}

// The sentence of a cycle of so many processors.
#[tactic(auto, unfolding(crate::specs::Told::say))]
fn say_cycle(m: &Machine<'_>, count: u32) -> Line
    ensures { (p : ℕ) (ps : List ℕ) → length ps + 1 ≡ count → result ≡ say m.now.set m.now.state (Deadlock p ps) }
{
    let mut line = Line::new();
    push_labelled(&mut line, b"a cycle of ", count);
    line.push_text(b" processors, each waits for the next");
    line
}

// The sentence of a processor that is trapped.
#[tactic(auto, unfolding(crate::specs::Told::say))]
fn say_trapped(m: &Machine<'_>, p: ProcId) -> Line
    requires { p.0 < proc_count m.now.set.topo }
    ensures { result ≡ say m.now.set m.now.state (Trapped p.0) }
{
    let mut mark = Line::new();
    mark.push_mark(m, p);
    let mut line = Line::new();
    push_processor_name(&mut line, &m.set().topo, p);
    line.push_text(b" is trapped: ");
    line.push_text(after_first_word(mark.as_bytes()));
    line
}

// The sentence of a processor that is at the limit.
#[tactic(auto, unfolding(crate::specs::Told::say))]
fn say_limit(m: &Machine<'_>, p: ProcId) -> Line
    requires { p.0 < proc_count m.now.set.topo }
    ensures { result ≡ say m.now.set m.now.state (Limit p.0) }
{
    let set = m.set();
    let mut line = Line::new();
    push_processor_name(&mut line, &set.topo, p);
    push_labelled(&mut line, b" has executed its limit of ", set.limit);
    line
}

// The sentence of a chain of waits.
#[tactic(auto, unfolding(crate::specs::Told::say))]
fn say_stuck(m: &Machine<'_>, p: ProcId) -> Line
    requires { p.0 < proc_count m.now.set.topo }
    ensures { result ≡ say m.now.set m.now.state (Stuck p.0) }
{
    let topo = &m.set().topo;
    let last = chain_end(m, p);
    let mut line = Line::new();
    line.push_text(b"the waits from ");
    push_processor_name(&mut line, topo, p);
    line.push_text(b" end in ");
    push_processor_name(&mut line, topo, last);
    line.push_text(b", ");
    line.push_mark(m, last);
    line
}

/// The sentence of an outcome.
pub(crate) fn say(drawn: &Drawn<'_, '_>) -> Line
    requires { AnswerFits drawn.now.machine.now.set drawn.now.machine.now.state drawn.now.answer }
    ensures { result ≡ say drawn.now.machine.now.set drawn.now.machine.now.state (outcome drawn.now.machine.now.set drawn.now.machine.now.state) }
{
    let m = drawn.machine;
    match drawn.answer {
        Outcome::Done => say_done(m),
        Outcome::Deadlock { length, .. } => say_cycle(m, length),
        Outcome::Trapped { p } => say_trapped(m, p),
        Outcome::Limit { p } => say_limit(m, p),
        Outcome::Stuck { p } => say_stuck(m, p),
    }
}

/// The processors that an outcome tells.
#[tactic(auto, unfolding(crate::specs::Told::told_in))]
pub(crate) fn tell(m: &Machine<'_>, o: Outcome) -> Told
    requires fits { AnswerFits m.now.set m.now.state o }
    requires outcome { told (waits_for m.now.set m.now.state) o ≡ outcome m.now.set m.now.state }
    ensures { AreTold m.now.set m.now.state result }
{
    let procs = m.procs();
    match o {
        Outcome::Deadlock { least, length } => Told {
            first: least,
            count: length,
            shape: Shape::Cycle,
        },
        Outcome::Stuck { p } => Told {
            first: p,
            count: procs + 1,
            shape: Shape::Chain,
        },
        Outcome::Done | Outcome::Trapped { .. } | Outcome::Limit { .. } => Told {
            first: ProcId(0),
            count: 0,
            shape: Shape::Nothing,
        },
    }
}

/// Whether a processor is told.
pub(crate) fn is_told(drawn: &Drawn<'_, '_>, p: ProcId) -> bool
    ensures { result ≡ is_told drawn.now.machine.now.set drawn.now.machine.now.state p.0 }
{
    let m = drawn.machine;
    let mut next = drawn.listed.first;
    for _step in 0..drawn.listed.count {
        if next.0 == p.0 {
            return true;
        }
        match m.first_wait(next) {
            None => return false,
            Some(wait) => next = wait.on,
        }
    }
    false
}

// The line of a wait, from the beginning of its course to its end.
#[tactic(auto, unfolding(crate::specs::Told::segment))]
fn segment(course: Course) -> Line
    requires { IsCourse course }
    ensures text { result ≡ segment course }
    ensures len { length result ≤ 83 }
{
    let from = along(course, 0);
    let to = along(course, course.channel.length);
    let mut line = Line::new();
    line.push_number(u64::from(from.x));
    push_labelled(&mut line, b" ", from.y);
    push_labelled(&mut line, b"L", to.x);
    push_labelled(&mut line, b" ", to.y);
    line
}

// What stands before the first wait, and before each other one.
fn lead(telling: Telling, first: bool) -> &'static [u8]
    ensures text { result.now ≡ lead telling first }
    ensures short { length result.now ≤ 2 }
{
    match telling {
        Telling::Sentences if first => b": ",
        Telling::Sentences => b"; ",
        Telling::Lines if first => b"M",
        Telling::Lines => b"L",
    }
}

// What is told of processor `p`, which waits on a wire.
#[tactic(auto, unfolding(crate::specs::Told::wait_piece))]
fn wait_piece(telling: Telling, m: &Machine<'_>, first: bool, p: ProcId, wire: WireId) -> Line
    requires wire { wire.0 < length (wires_of m.now.set.topo) }
    requires there { p.0 < proc_count m.now.set.topo }
    ensures { result ≡ wait_piece telling m.now.set.topo first p.0 wire.0 }
{
    let topo = &m.set().topo;
    let drawn = match telling {
        Telling::Sentences => wait_text(topo, p, wire),
        Telling::Lines => segment(wait_course(topo, p, wire)),
    };
    let mut line = Line::new();
    line.push_text(lead(telling, first));
    line.push_text(drawn.as_bytes());
    line
}

// Puts the waits that are told.
fn put_waits<K: Sink>(drawn: &Drawn<'_, '_>, telling: Telling, out: &mut K) -> Result<(), Failed>
    ensures { Writes (K.sight out.old) (K.sight out.new)
        (all_waits telling drawn.now.machine.now.set drawn.now.machine.now.state) result }
{
    let m = drawn.machine;
    let mut p = drawn.listed.first;
    let mut first = true;
    for _step in 0..drawn.listed.count {
        match m.first_wait(p) {
            // It waits for none, and nothing is told of it.
            None => return Ok(()),
            Some(wait) => {
                put_line(&wait_piece(telling, m, first, p, wait.wire), out)?;
                p = wait.on;
                first = false;
            }
        }
    }
    Ok(())
}

/// Puts the description: the sentence of the outcome, and the waits that are told, in words.
#[tactic(auto, unfolding(crate::specs::Told::description), using(raw_io::proofs::Chains::chained))]
pub(crate) fn put_description<K: Sink>(
    drawn: &Drawn<'_, '_>,
    sentence: &Line,
    out: &mut K,
) -> Result<(), Failed>
    requires { sentence.now ≡ say drawn.now.machine.now.set drawn.now.machine.now.state (outcome drawn.now.machine.now.set drawn.now.machine.now.state) }
    ensures { Writes (K.sight out.old) (K.sight out.new)
        (description drawn.now.machine.now.set drawn.now.machine.now.state) result }
{
    put_each(out, &[b"<desc>", sentence.as_bytes()])?;
    put_waits(drawn, Telling::Sentences, out)?;
    put_each(out, &[b".</desc>\n"])
}

// What stands before the line of the waits that are told.
#[tactic(auto, unfolding(crate::specs::Told::path_start))]
fn path_start() -> &'static [u8]
    ensures { result.now ≡ path_start }
{
    b"<path class=\"path\" d=\""
}

// Puts the path of the waits that are told, with this end.
#[tactic(auto, using(raw_io::proofs::Chains::chained))]
fn put_path_with<K: Sink>(drawn: &Drawn<'_, '_>, end: &[u8], out: &mut K) -> Result<(), Failed>
    ensures { Writes (K.sight out.old) (K.sight out.new)
        (path_start ++ all_waits Telling.Lines drawn.now.machine.now.set drawn.now.machine.now.state ++ end.now) result }
{
    put_each(out, &[path_start()])?;
    put_waits(drawn, Telling::Lines, out)?;
    put_each(out, &[end])
}

/// Puts the path of the waits that are told: that of a cycle is closed.
#[tactic(auto, unfolding(crate::specs::Told::path))]
pub(crate) fn put_path<K: Sink>(drawn: &Drawn<'_, '_>, out: &mut K) -> Result<(), Failed>
    ensures { Writes (K.sight out.old) (K.sight out.new) (path drawn.now.machine.now.set drawn.now.machine.now.state) result }
{
    match drawn.listed.shape {
        Shape::Nothing => Ok(()),
        Shape::Chain => put_path_with(drawn, b"\"/>\n", out),
        Shape::Cycle => put_path_with(drawn, b"Z\"/>\n", out),
    }
}
