//! Histories: lists of steps as text.
ghost use Rattle.std.specs.Prelude.{◌≡◌, ◌⊎◌, ℕ, ◌+◌, ◌<◌, ◌≤◌, Some, List, [], ◌++◌, codes, decimal, drop, length, map, option_map, slice_index_or, IfOk, IfErr};
ghost use Rattle.raw_io.specs.Writing.{Writes};
ghost use Rattle.raw_text.specs.Text.{text_lines};
ghost use Rattle.raw_report.specs.History.{history_text, entry_of, entries_of, IsBadEntry, IsCause};

use raw_grid::ProcId;
use raw_io::{Failed, Sink, put_all};
use raw_state_text::Line;
use raw_text::{Text, number};
use std::alloc::{AllocFailed, Global};

/// Why lines are no history.
#[derive(Clone, Copy, Drop, PartialEq, Eq)]
pub enum HistoryRefusal {
    /// The line of this number, counted from 1 in the text, has tokens and is not the number of one
    /// of the processors. It is the first such line.
    BadEntry { line: u32 },
    /// There was no memory for the steps.
    Memory,
}

impl<T: Drop> From<AllocFailed<T>> for HistoryRefusal {
    ghost use Rattle.std.specs.Prelude.{◌≡◌};
    ghost use Rattle.raw_report.specs.declared.history.HistoryRefusal.TheVariants.{Memory};

    ghost from_gives = { λ _ refusal. refusal ≡ Memory };

    fn from(_: AllocFailed<T>) -> Self {
        HistoryRefusal::Memory
    }
}

// The line of a step.
fn step_line(step: ProcId) -> Line
    ensures { result ≡ decimal step.0 ++ codes "\n" }
{
    let mut line = Line::new();
    line.push_number(u64::from(step.0));
    line.push_text(b"\n");
    line
}

/// Writes a list of steps as a history. It takes no memory.
///
/// After `Failed` a front of the history is appended, never all of it.
#[tactic(auto, unfolding(crate::specs::History::history_text))]
pub fn write_history<K: Sink>(steps: &[ProcId], out: &mut K) -> Result<(), Failed>
    ensures { Writes (K.sight out.old) (K.sight out.new)
        (history_text (map (λ p. p.0) steps.now)) result }
{
    put_all(out, b"history\n")?;
    for step in steps {
        put_all(out, step_line(*step).as_bytes())?;
    }
    Ok(())
}

// The step that a line with tokens says.
fn entry_at(text: &Text, line: usize, procs: u32) -> Option<ProcId>
    requires { line < length (text_lines text.now) }
    ensures { option_map (λ p. p.0) result ≡ entry_of procs (slice_index_or (text_lines text.now) line []) }
{
    if text.tokens_in(line) != 1 {
        return None;
    }
    match number(text.token(line, 0)) {
        Some(p) if p < procs => Some(ProcId(p)),
        _ => None,
    }
}

/// The steps that the lines of a text say, from the line at place `from` on, counted from 0.
pub fn read_history(
    alloc: Global,
    text: &Text,
    from: usize,
    procs: u32,
) -> Result<Vec<ProcId>, HistoryRefusal>
    requires { from ≤ length (text_lines text.now) }
    ensures entries { IfOk result (λ steps. entries_of procs (drop from (text_lines text.now))
        ≡ Some (map (λ p. p.0) steps.items)) }
    ensures cause { IfErr result (IsCause procs from (drop from (text_lines text.now))) }
    // Lines that say steps are refused for want of memory alone, and a bad entry is told or there
    // was no memory for the steps before it.
    ensures good { (steps : List ℕ) → entries_of procs (drop from (text_lines text.now)) ≡ Some steps →
        IfErr result (λ refusal. refusal ≡ HistoryRefusal.Memory) }
    ensures bad { (k : ℕ) → IsBadEntry procs (drop from (text_lines text.now)) k →
        (result ≡ Err (HistoryRefusal.BadEntry (from + k + 1))) ⊎ (result ≡ Err HistoryRefusal.Memory) }
{
    let mut steps = Vec::new(alloc);
    for line in from..text.line_count() {
        if text.tokens_in(line) > 0 {
            match entry_at(text, line, procs) {
                Some(p) => steps.push(p)?,
                None => return Err(HistoryRefusal::BadEntry {
                    line: line as u32 + 1,
                }),
            }
        }
    }
    Ok(steps)
}
