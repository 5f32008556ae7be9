//! The set that an input means, or why there is none.
ghost use Rattle.std.specs.Prelude.{◌≡◌, ◌≤◌, ℕ, List, None, Some, codes, length, take, IfOk, IfErr};
ghost use Rattle.raw_text.specs.Lines as text;
ghost use Rattle.raw_text.specs.Text.{text_lines};
ghost use Rattle.raw_set_text.specs.Meaning as set;
ghost use Rattle.raw_set_text.specs.Texts.{token_lines};
ghost use Rattle.raw_image.specs.Answers.{IsRefusal};
ghost use Rattle.raw_plan_text.specs.Meaning as plan;
ghost use Rattle.raw_stream_text.specs.Meaning.{is_stream};
ghost use Rattle.raw_stream_text.specs.Meaning as stream;
ghost use Rattle.raw_either_flow.specs.Texts.{CauseOf};
ghost use Rattle.raw_claim_text.specs.Marked.{mark_in};
ghost use Rattle.raw_shell.specs.declared.failure.Failure.TheVariants.{Refused};
ghost use Rattle.raw_inputs.specs.Inputs.{whole, Means, IsRefusalOf, IsNoStream};

use crate::flaw::{Failure, InputFlaw, LineKind, Refusal};
use crate::form::InputForm;
use raw_codegen::GiveRefusal;
use raw_command_line::SetForm;
use raw_either_flow::read_either;
use raw_flow::compile_at;
use raw_image::{ImageRefusal, read_image};
use raw_model::Set;
use raw_plan_text::read_plan;
use raw_route::{PlanRefusal, plan};
use raw_set_text::{SetKind, SetRefusal, read_set};
use raw_text::{MAX_TEXT, Text, TextRefusal, read_text};
use std::alloc::Global;

/// A text, and the set that it means.
#[derive(Drop)]
pub struct SetText {
    /// The lines of the text.
    pub text: Text,
    /// The set that they mean.
    pub set: Set,
}

/// The refusal of a text at this line, counted from 1.
pub fn refused_at(line: u32, kind: SetKind) -> Failure
    ensures { result ≡ Refused (InputFlaw.At (Refusal.Line line (LineKind.Set kind))) }
{
    Failure::Refused(InputFlaw::At(Refusal::Line(line, LineKind::Set(kind))))
}

/// Why bytes are no text.
pub fn refused_text(refusal: TextRefusal) -> Failure
    ensures set { (bytes : List ℕ) → text.IsCause refusal (text.first_fault 1 (text.lines_of bytes)) →
        IsRefusalOf InputForm.Text bytes result }
    ensures plan { (bytes : List ℕ) → text.IsCause refusal (text.first_fault 1 (text.lines_of bytes)) →
        IsRefusalOf InputForm.Plan bytes result }
    ensures flow { (bytes : List ℕ) → text.IsCause refusal (text.first_fault 1 (text.lines_of bytes)) →
        IsRefusalOf InputForm.Flow bytes result }
    ensures history { (bytes : List ℕ) → text.IsCause refusal (text.first_fault 1 (text.lines_of bytes)) →
        IsRefusalOf InputForm.History bytes result }
    ensures script { (bytes : List ℕ) → text.IsCause refusal (text.first_fault 1 (text.lines_of bytes)) →
        IsRefusalOf InputForm.Script bytes result }
    ensures claim { (bytes : List ℕ) → text.IsCause refusal (text.first_fault 1 (text.lines_of bytes)) →
        IsRefusalOf InputForm.Claim bytes result }
    ensures stream { (bytes : List ℕ) → text.IsCause refusal (text.first_fault 1 (text.lines_of bytes)) →
        IsNoStream bytes result }
{
    match refusal {
        TextRefusal::NotAscii { line } => refused_at(line, SetKind::NotAscii),
        TextRefusal::LineTooLong { line } => refused_at(line, SetKind::LineTooLong),
        TextRefusal::Memory => Failure::Memory,
    }
}

pub(crate) fn of_set(refusal: SetRefusal) -> Failure
    ensures set { (bytes : List ℕ) → text.first_fault 1 (text.lines_of bytes) ≡ None →
        set.IsCause (token_lines bytes) refusal → IsRefusalOf InputForm.Text bytes result }
    ensures plan { (bytes : List ℕ) → text.first_fault 1 (text.lines_of bytes) ≡ None →
        plan.IsCause (token_lines bytes) refusal → IsRefusalOf InputForm.Plan bytes result }
    // The same of the lines before the line `history`, or of all where there is none;
    ensures before_history { (bytes : List ℕ) (place : ℕ) → text.first_fault 1 (text.lines_of bytes) ≡ None →
        mark_in (codes "history") (token_lines bytes) ≡ Some place → set.IsCause (take place (token_lines bytes)) refusal →
        IsRefusalOf InputForm.History bytes result }
    ensures no_history { (bytes : List ℕ) → text.first_fault 1 (text.lines_of bytes) ≡ None →
        mark_in (codes "history") (token_lines bytes) ≡ None → set.IsCause (token_lines bytes) refusal →
        IsRefusalOf InputForm.History bytes result }
    // and of those before the line `script`.
    ensures before_script { (bytes : List ℕ) (place : ℕ) → text.first_fault 1 (text.lines_of bytes) ≡ None →
        mark_in (codes "script") (token_lines bytes) ≡ Some place → set.IsCause (take place (token_lines bytes)) refusal →
        IsRefusalOf InputForm.Script bytes result }
    ensures no_script { (bytes : List ℕ) → text.first_fault 1 (text.lines_of bytes) ≡ None →
        mark_in (codes "script") (token_lines bytes) ≡ None → set.IsCause (token_lines bytes) refusal →
        IsRefusalOf InputForm.Script bytes result }
{
    match refusal {
        SetRefusal::At { line, kind } => refused_at(line, kind),
        SetRefusal::Memory => Failure::Memory,
    }
}

/// Why the text of a flow or of a stream is not read.
pub fn refused_flow(refusal: SetRefusal) -> Failure
    ensures { (bytes : List ℕ) → text.first_fault 1 (text.lines_of bytes) ≡ None →
        CauseOf (is_stream (token_lines bytes)) (token_lines bytes) refusal → IsRefusalOf InputForm.Flow bytes result }
{
    match refusal {
        SetRefusal::At { line, kind } => refused_at(line, kind),
        SetRefusal::Memory => Failure::Memory,
    }
}

/// Why a text is not read as that of a stream.
pub(crate) fn refused_stream(refusal: SetRefusal) -> Failure
    ensures { (bytes : List ℕ) → text.first_fault 1 (text.lines_of bytes) ≡ None →
        stream.IsCause None 0 (token_lines bytes) refusal → IsNoStream bytes result }
{
    match refusal {
        SetRefusal::At { line, kind } => refused_at(line, kind),
        SetRefusal::Memory => Failure::Memory,
    }
}

fn of_image(refusal: ImageRefusal) -> Failure
    ensures { (bytes : List ℕ) → IsRefusal bytes refusal → IsRefusalOf InputForm.Image bytes result }
{
    match refusal {
        ImageRefusal::At { offset, kind } => Failure::Refused(InputFlaw::At(Refusal::Image(
            offset, kind,
        ))),
        ImageRefusal::Memory => Failure::Memory,
    }
}

/// An input as a text, and the set that it means, or why there is none.
pub fn text_in(alloc: Global, input: Vec<u8>) -> Result<SetText, Failure>
    requires { length input.items ≤ MAX_TEXT }
    ensures lines { IfOk result (λ read. text_lines read.text ≡ token_lines input.items) }
    ensures meaning { IfOk result (λ read. Means InputForm.Text input.items read.set) }
    ensures cause { IfErr result (IsRefusalOf InputForm.Text input.items) }
{
    let text = match read_text(alloc, input) {
        Ok(text) => text,
        Err(refusal) => return Err(refused_text(refusal)),
    };
    match read_set(alloc, &text, text.line_count()) {
        Ok(set) => Ok(SetText { text, set }),
        Err(refusal) => Err(of_set(refusal)),
    }
}

// The set whose image these bytes are.
fn set_of_image(alloc: Global, bytes: &[u8]) -> Result<Set, Failure>
    ensures meaning { IfOk result (Means InputForm.Image bytes.now) }
    ensures cause { IfErr result (IsRefusalOf InputForm.Image bytes.now) }
{
    match read_image(alloc, bytes) {
        Ok(set) => Ok(set),
        Err(refusal) => Err(of_image(refusal)),
    }
}

// The planned set of the plan that a text means.
fn set_of_plan(alloc: Global, input: Vec<u8>) -> Result<Set, Failure>
    requires { length input.items ≤ MAX_TEXT }
    ensures meaning { IfOk result (Means InputForm.Plan input.items) }
    ensures cause { IfErr result (IsRefusalOf InputForm.Plan input.items) }
{
    let text = match read_text(alloc, input) {
        Ok(text) => text,
        Err(refusal) => return Err(refused_text(refusal)),
    };
    let read = match read_plan(alloc, &text) {
        Ok(read) => read,
        Err(refusal) => return Err(of_set(refusal)),
    };
    match plan(alloc, read.cols, read.rows, &read.hauls, &read.words) {
        Ok(set) => Ok(set),
        Err(PlanRefusal::TooMany) => Err(refused_at(
            text.line_count() as u32 + 1,
            SetKind::OverLimit,
        )),
        Err(PlanRefusal::Memory) => Err(Failure::Memory),
        // No plan has them that was read.
        Err(
            PlanRefusal::BadSize
            | PlanRefusal::OffGrid { .. }
            | PlanRefusal::NoTarget { .. }
            | PlanRefusal::Twice { .. },
        ) => unreachable!(),
    }
}

// The compiled set of the flow that a text means, plain or of rows.
fn set_of_flow(alloc: Global, input: Vec<u8>) -> Result<Set, Failure>
    requires { length input.items ≤ MAX_TEXT }
    ensures meaning { IfOk result (Means InputForm.Flow input.items) }
    ensures cause { IfErr result (IsRefusalOf InputForm.Flow input.items) }
{
    let text = match read_text(alloc, input) {
        Ok(text) => text,
        Err(refusal) => return Err(refused_text(refusal)),
    };
    let read = match read_either(alloc, &text) {
        Ok(read) => read,
        Err(refusal) => return Err(refused_flow(refusal)),
    };
    match compile_at(alloc, &read.flow, &read.ports, &read.inputs) {
        Ok(set) => Ok(set),
        Err(GiveRefusal::TooMany) => Err(refused_at(
            text.line_count() as u32 + 1,
            SetKind::OverLimit,
        )),
        Err(GiveRefusal::Memory) => Err(Failure::Memory),
    }
}

/// The set that the input means, which is written so, or why it is not read as one.
pub fn set_in(alloc: Global, form: SetForm, input: Vec<u8>) -> Result<Set, Failure>
    requires { length input.items ≤ MAX_TEXT }
    ensures meaning { IfOk result (Means (whole form) input.items) }
    ensures cause { IfErr result (IsRefusalOf (whole form) input.items) }
{
    match form {
        SetForm::Text => match text_in(alloc, input) {
            Ok(read) => Ok(read.set),
            Err(failure) => Err(failure),
        },
        SetForm::Image => set_of_image(alloc, &input),
        SetForm::Plan => set_of_plan(alloc, input),
        SetForm::Flow => set_of_flow(alloc, input),
    }
}
