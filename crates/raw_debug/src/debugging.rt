//! A script as a whole.
ghost use Rattle.std.specs.Prelude.{◌≡◌, ◌⊎◌, ℕ, ◌+◌, ◌≤◌, Some, None, drop, length, OnOk, IfErr};
ghost use Rattle.std.specs.Io.KnownBytes.{Appends};
ghost use Rattle.raw_text.specs.Text.{text_lines};
ghost use Rattle.raw_lines.specs.LabelsOf.{places_in};
ghost use Rattle.raw_debug.specs.Commands.{bad_command};
ghost use Rattle.raw_debug.specs.Script.{first_spot, past_end, script_text, IsCause, IsUntouched, IsRunThrough};

use crate::debugger::Debugger;
use crate::reading::bad_command;
use crate::tokens::TextLine;
use raw_io::{Failed, Sink};
use raw_lines::TextLabels;
use raw_model::Set;
use raw_text::Text;
use std::alloc::{AllocError, Global};

/// Why a script was not run to its end.
#[derive(Clone, Copy, PartialEq, Eq)]
pub enum DebugRefusal {
    /// The line of this number, counted from 1 in the text, is no command: it is the first that is none. Nothing was
    /// written.
    BadCommand { line: u32 },
    /// The line of this number, counted from 1 in the text, names more steps of a processor than it takes until no
    /// processor is enabled: it is the first that does. What the lines before it write was written.
    PastEnd { line: u32 },
    /// A call of the sink failed. A front of the output was written.
    Fault,
    /// There was no memory for a machine. Nothing was written.
    Memory,
}

impl From<Failed> for DebugRefusal {
    ghost use Rattle.std.specs.Prelude.{◌≡◌};
    ghost use Rattle.raw_debug.specs.declared.debugging.DebugRefusal.TheVariants.{Fault};

    ghost from_gives = { λ _ refusal. refusal ≡ Fault };

    fn from(_: Failed) -> Self {
        DebugRefusal::Fault
    }
}

impl From<AllocError> for DebugRefusal {
    ghost use Rattle.std.specs.Prelude.{◌≡◌};
    ghost use Rattle.raw_debug.specs.declared.debugging.DebugRefusal.TheVariants as refused;

    ghost from_gives = { λ _ refusal. refusal ≡ refused.Memory };

    fn from(_: AllocError) -> Self {
        DebugRefusal::Memory
    }
}

// Does what the lines from a place on say, up to the first that goes past the end.
fn follow<K: Sink>(
    debugger: &mut Debugger<'_>,
    labels: &TextLabels<'_>,
    text: &Text,
    from: usize,
    out: &mut K,
) -> Result<(), DebugRefusal>
    requires first { debugger.old.spot ≡ first_spot }
    requires from { from ≤ length (text_lines text.now) }
    requires good { bad_command (places_in labels.now) debugger.old.set (drop from (text_lines text.now)) ≡ None }
    ensures { IsRunThrough (places_in labels.now) debugger.old.set from (drop from (text_lines text.now))
        (K.sight out.old) (K.sight out.new) result }
{
    for line in from..text.line_count() {
        let tokens = TextLine { text, line };
        let reading = debugger.read(labels, &tokens);
        let done = debugger.follow(reading, &tokens, out)?;
        if !done {
            return Err(DebugRefusal::PastEnd {
                line: line as u32 + 1,
            });
        }
    }
    Ok(())
}

/// Runs the script that stands in a text from the line at place `from` on, counted from 0, on a machine of the set. In
/// `until pc` a label may stand for its place.
///
/// The machine goes forward by its steps in the serial order, and back from a copy that was kept on its way, or from
/// the start: once it was led to a step by its number, going back by a few steps costs about as many, and not the whole
/// way. All lines are read before it is opened, and it takes all its memory, that of the copies too, before the first
/// byte is written; where there is memory for fewer copies, or none, it goes back as far as it must. What was sent on a
/// wire is counted by going the whole way once more.
pub fn debug<K: Sink>(
    alloc: Global,
    labels: &TextLabels<'_>,
    set: &Set,
    text: &Text,
    from: usize,
    out: &mut K,
) -> Result<(), DebugRefusal>
    requires { from ≤ length (text_lines text.now) }
    // The whole output of a script is appended, whose lines are all commands and go nowhere past the end;
    ensures ok { OnOk result (
        (bad_command (places_in labels.now) set.now (drop from (text_lines text.now)) ≡ None)
        × (past_end (places_in labels.now) set.now (drop from (text_lines text.now)) ≡ None)
        × Appends (K.sight out.old).bytes (K.sight out.new).bytes (script_text (places_in labels.now) set.now (drop from (text_lines text.now)))) }
    // a refusal has its cause.
    ensures cause { IfErr result (IsCause (places_in labels.now) set.now from (drop from (text_lines text.now))
        (K.sight out.old) (K.sight out.new)) }
    ensures untouched { IfErr result (IsUntouched out.old out.new) }
    ensures count { (K.sight out.old).faults ≤ (K.sight out.new).faults }
    // The first line that is no command is told whatever else is so,
    ensures bad { (k : ℕ) → bad_command (places_in labels.now) set.now (drop from (text_lines text.now)) ≡ Some k →
        result ≡ Err (DebugRefusal.BadCommand (from + k + 1)) }
    // and the first that goes past the end where the sink did not fail and there was memory.
    ensures past { (k : ℕ) → bad_command (places_in labels.now) set.now (drop from (text_lines text.now)) ≡ None →
        past_end (places_in labels.now) set.now (drop from (text_lines text.now)) ≡ Some k →
        (result ≡ Err (DebugRefusal.PastEnd (from + k + 1)))
        ⊎ (result ≡ Err DebugRefusal.Fault) ⊎ (result ≡ Err DebugRefusal.Memory) }
{
    if let Some(line) = bad_command(labels, set, text, from) {
        return Err(DebugRefusal::BadCommand {
            line: line as u32 + 1,
        });
    }
    let mut debugger = Debugger::open_for(alloc, set, text.line_count() - from)?;
    follow(&mut debugger, labels, text, from, out)
}
