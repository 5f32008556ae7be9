//! Writing what is said of a claim.
ghost use Rattle.std.specs.Prelude.{None, ◌++◌};
ghost use Rattle.raw_io.specs.Writing.{Writes};
ghost use Rattle.raw_verdict.specs.Text.{proved_text, verdict_text, answer_text, fault_text, words_text};

use crate::lines::{fault_line, proved_text, verdict_line, words_lines};
use raw_io::{Failed, Sink, put_each};
use raw_refute::{Answer, Fault};
use raw_state_text::put_line;
use raw_term::Verdict;

// Writes the line of a verdict that tells no cycles.
fn write_verdict<K: Sink>(verdict: Verdict, out: &mut K) -> Result<(), Failed>
    ensures { Writes (K.sight out.old) (K.sight out.new) (verdict_text None verdict) result }
{
    put_line(&verdict_line(verdict, None), out)
}

// Writes the line of a claim of so many outs that is proved, and of so many cycles, where they are told.
fn write_proved<K: Sink>(outs: u64, cycles: Option<u64>, out: &mut K) -> Result<(), Failed>
    ensures { Writes (K.sight out.old) (K.sight out.new) (proved_text outs cycles) result }
{
    put_line(&proved_text(outs, cycles), out)
}

// Writes how a run differs from a claim, the lines of its words, and the two words that differ.
fn write_refutation<K: Sink>(fault: Fault, words: &[u8], out: &mut K) -> Result<(), Failed>
    ensures { Writes (K.sight out.old) (K.sight out.new) (fault_text fault ++ words.now ++ words_text fault) result }
{
    let first = fault_line(fault);
    let last = words_lines(fault);
    put_each(out, &[first.as_bytes(), words, last.as_bytes()])
}

/// Writes what is said of a claim. Where it is proved, but not by rows, the line tells so many cycles, where they are given.
/// `words` are the lines of the words with which the set is left; they stand in a refutation alone. It takes no memory.
///
/// After `Failed` a front of the text is appended, never all of it.
pub fn write_answer<K: Sink>(
    answer: &Answer,
    cycles: Option<u64>,
    words: &[u8],
    out: &mut K,
) -> Result<(), Failed>
    ensures { Writes (K.sight out.old) (K.sight out.new) (answer_text cycles words.now answer.now) result }
{
    match answer {
        Answer::Proved(outs) => write_proved(*outs as u64, cycles, out),
        Answer::ProvedByRows(outs) => write_proved(*outs, None, out),
        Answer::Refuted { fault, .. } => write_refutation(*fault, words, out),
        Answer::Unproved(verdict) => write_verdict(*verdict, out),
    }
}
