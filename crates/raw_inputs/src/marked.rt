//! A set in an input, and the steps or the script that stand behind it.
ghost use Rattle.std.specs.Prelude.{◌≡◌, ◌+◌, ◌-◌, ◌<◌, ◌≤◌, MatchOption, ℕ, List, None, Some, codes, length, take, drop, IfOk, IfErr};
ghost use Rattle.raw_text.specs.Lines.{lines_of, first_fault};
ghost use Rattle.raw_text.specs.Text.{text_lines};
ghost use Rattle.raw_grid.specs.Topology.{proc_count};
ghost use Rattle.raw_model.specs.Program.{ProgramSet};
ghost use Rattle.raw_set_text.specs.Meaning.{IsMeaning};
ghost use Rattle.raw_set_text.specs.Texts.{token_lines};
ghost use Rattle.raw_lines.specs.Placing.{label_places};
ghost use Rattle.raw_debug.specs.Commands.{bad_command};
ghost use Rattle.raw_report.specs.History.{IsCause as IsEntryCause};
ghost use Rattle.raw_steps.specs.Taking.{numbers, AreThere};
ghost use Rattle.raw_claim_text.specs.Marked.{mark_in};
ghost use Rattle.raw_inputs.specs.Inputs.{AreSaid, IsScripted, IsRefusalOf};

use crate::flaw::{Failure, InputFlaw, LineKind, Refusal};
use crate::form::InputForm;
use crate::input::{of_set, refused_at, refused_text};
use raw_debug::bad_command;
use raw_grid::ProcId;
use raw_lines::TextLabels;
use raw_model::Set;
use raw_report::{HistoryRefusal, read_history};
use raw_set_text::{SetKind, read_set};
use raw_text::{MAX_TEXT, Text, read_text};
use std::alloc::{AllocError, Global};

/// A set, and the steps that stand behind it in an input.
#[derive(Drop)]
pub struct Marked {
    /// The set.
    pub set: Set,
    /// The processors of the steps, in their order.
    pub steps: Vec<ProcId>,
}

/// A set, and the text in which it stands before a script.
#[derive(Drop)]
pub struct Scripted {
    /// The set.
    pub set: Set,
    /// The whole text: the set, the line `script` and the script.
    pub text: Text,
    /// The place of the first line of the script, counted from 0.
    pub from: usize,
}

// Why the lines behind the mark say no steps.
fn of_entries(refusal: HistoryRefusal) -> Failure
    ensures { (bytes : List ℕ) (place : ℕ) (set : ProgramSet) → first_fault 1 (lines_of bytes) ≡ None →
        mark_in (codes "history") (token_lines bytes) ≡ Some place → IsMeaning (take place (token_lines bytes)) set →
        IsEntryCause (proc_count set.topo) (place + 1) (drop (place + 1) (token_lines bytes)) refusal →
        IsRefusalOf InputForm.History bytes result }
{
    match refusal {
        HistoryRefusal::BadEntry { line } => {
            Failure::Refused(InputFlaw::At(Refusal::Line(line, LineKind::BadEntry)))
        }
        HistoryRefusal::Memory => Failure::Memory,
    }
}

// Why an input without the mark is refused: the fault of its set, or else the line that is missing.
fn without_mark(alloc: Global, text: &Text) -> Failure
    ensures history { (bytes : List ℕ) → first_fault 1 (lines_of bytes) ≡ None → text_lines text.now ≡ token_lines bytes →
        mark_in (codes "history") (token_lines bytes) ≡ None → IsRefusalOf InputForm.History bytes result }
    ensures script { (bytes : List ℕ) → first_fault 1 (lines_of bytes) ≡ None → text_lines text.now ≡ token_lines bytes →
        mark_in (codes "script") (token_lines bytes) ≡ None → IsRefusalOf InputForm.Script bytes result }
{
    match read_set(alloc, text, text.line_count()) {
        Ok(_) => refused_at(text.line_count() as u32 + 1, SetKind::Missing),
        Err(refusal) => of_set(refusal),
    }
}

/// The set that an input says before its line `history`, and the steps behind that line, or why it says none.
pub fn steps_in(alloc: Global, input: Vec<u8>) -> Result<Marked, Failure>
    requires { length input.items ≤ MAX_TEXT }
    ensures says { IfOk result (λ marked. AreSaid input.items marked.set (numbers marked.steps.items)) }
    ensures there { IfOk result (λ marked. AreThere (proc_count marked.set.topo) marked.steps.items) }
    ensures cause { IfErr result (IsRefusalOf InputForm.History input.items) }
{
    let text = match read_text(alloc, input) {
        Ok(text) => text,
        Err(refusal) => return Err(refused_text(refusal)),
    };
    let Some(place) = text.find_word(b"history") else {
        return Err(without_mark(alloc, &text));
    };
    let set = match read_set(alloc, &text, place) {
        Ok(set) => set,
        Err(refusal) => return Err(of_set(refusal)),
    };
    match read_history(alloc, &text, place + 1, set.topo.procs()) {
        Ok(steps) => Ok(Marked { set, steps }),
        Err(refusal) => Err(of_entries(refusal)),
    }
}

// The place of the first line behind the mark that is no command.
fn bad_line(alloc: Global, set: &Set, text: &Text, mark: usize) -> Result<Option<usize>, AllocError>
    requires { mark < length (text_lines text.now) }
    ensures { IfOk result (λ found. MatchOption found
        (bad_command (label_places set.now.topo (take mark (text_lines text.now))) set.now (drop (mark + 1) (text_lines text.now)) ≡ None)
        (λ line. (mark + 1 ≤ line) × (line < length (text_lines text.now))
        × (bad_command (label_places set.now.topo (take mark (text_lines text.now))) set.now (drop (mark + 1) (text_lines text.now))
        ≡ Some (line - (mark + 1))))) }
{
    let Ok(labels) = TextLabels::new(alloc, text, mark, &set.topo) else {
        return Err(AllocError);
    };
    Ok(bad_command(&labels, set, text, mark + 1))
}

/// The set that an input says before its line `script`, and the text of the script behind that line, or why it says none.
pub fn script_in(alloc: Global, input: Vec<u8>) -> Result<Scripted, Failure>
    requires { length input.items ≤ MAX_TEXT }
    ensures says { IfOk result (IsScripted input.items) }
    ensures cause { IfErr result (IsRefusalOf InputForm.Script input.items) }
{
    let text = match read_text(alloc, input) {
        Ok(text) => text,
        Err(refusal) => return Err(refused_text(refusal)),
    };
    let Some(mark) = text.find_word(b"script") else {
        return Err(without_mark(alloc, &text));
    };
    let set = match read_set(alloc, &text, mark) {
        Ok(set) => set,
        Err(refusal) => return Err(of_set(refusal)),
    };
    match bad_line(alloc, &set, &text, mark) {
        Ok(None) => Ok(Scripted {
            set,
            text,
            from: mark + 1,
        }),
        Ok(Some(line)) => Err(Failure::Refused(InputFlaw::At(Refusal::Line(
            line as u32 + 1,
            LineKind::BadCommand,
        )))),
        Err(_) => Err(Failure::Memory),
    }
}
