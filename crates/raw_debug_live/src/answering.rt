//! The lines behind the line `script`, each of which is answered when it is whole.
ghost use Rattle.std.specs.Prelude.{◌≡◌, ℕ, ◌≤◌, List, [], ◌∷◌, ◌++◌};
ghost use Rattle.raw_io.specs.Sights.{Sight};
ghost use Rattle.raw_text.specs.declared.limits.TheConstants.{MAX_TEXT};
ghost use Rattle.raw_model.specs.Program.{ProgramSet};
ghost use Rattle.raw_lines.specs.LabelsOf.{places_in};
ghost use Rattle.raw_debug.specs.Script.{first_spot};
ghost use Rattle.raw_debug_live.specs.Answering.{At, AtAfter, Finished, Answers};

use crate::byte::take_byte;
use crate::line::LineStart;
use raw_debug::Debugger;
use raw_io::{Failed, Sink, Source};
use raw_lines::TextLabels;

/// Why the reading of lines stopped before the end of input.
#[derive(Clone, Copy, PartialEq, Eq)]
pub enum Halt {
    /// A call of the source failed.
    Read,
    /// A call of the sink failed.
    Write,
    /// The source gave more bytes than are read.
    TooLong,
}

// Notes a byte, and answers the line that it ends.
fn note_byte<K: Sink>(
    debugger: &mut Debugger<'_>,
    labels: &TextLabels<'_>,
    line: &mut LineStart,
    next: u8,
    out: &mut K,
) -> Result<(), Failed>
    ensures { (set : ProgramSet) (bytes : List ℕ) (before : Sight) → At (places_in labels.now) set bytes before (K.sight out.old) debugger.old line.old →
        AtAfter (places_in labels.now) set (bytes ++ next ∷ []) before (K.sight out.new) debugger.new line.new result }
{
    if next != b'\n' {
        line.push(next);
        return Ok(());
    }
    let told = debugger.obey(labels, line.bytes.as_slice(), out);
    line.clear();
    told
}

// Answers the last line, which no newline ends, if there is one.
fn finish<K: Sink>(
    debugger: &mut Debugger<'_>,
    labels: &TextLabels<'_>,
    line: &LineStart,
    out: &mut K,
) -> Result<(), Failed>
    ensures { (set : ProgramSet) (bytes : List ℕ) (before : Sight) → At (places_in labels.now) set bytes before (K.sight out.old) debugger.old line.now →
        Finished (places_in labels.now) set bytes before (K.sight out.new) result }
{
    if line.bytes.as_slice().len() == 0 {
        return Ok(());
    }
    debugger.obey(labels, line.bytes.as_slice(), out)
}

/// Answers lines to the end of the source, each before a byte behind it is taken.
///
/// At most `most + 1` bytes are taken, and the last of those only to see that there are too many.
pub(crate) fn answer_lines<S: Source, K: Sink>(
    debugger: &mut Debugger<'_>,
    labels: &TextLabels<'_>,
    most: usize,
    source: &mut S,
    out: &mut K,
) -> Result<(), Halt>
    requires start { debugger.old.spot ≡ first_spot }
    requires most { most ≤ MAX_TEXT }
    ensures { Answers (S.sight source.old) (S.sight source.new) (K.sight out.old) (K.sight out.new)
        (places_in labels.now) debugger.old.set most result }
{
    let mut line = LineStart::new();
    let mut count = 0;
    'bytes: loop {
        match take_byte(source) {
            Err(Failed) => return Err(Halt::Read),
            Ok(None) => {
                return match finish(debugger, labels, &line, out) {
                    Ok(()) => Ok(()),
                    Err(Failed) => Err(Halt::Write),
                };
            }
            Ok(Some(next)) => {
                if count == most {
                    return Err(Halt::TooLong);
                }
                count += 1;
                if note_byte(debugger, labels, &mut line, next, out).is_err() {
                    return Err(Halt::Write);
                }
            }
        }
    }
}
