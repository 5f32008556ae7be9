//! The command `flow --schedule`: a set that computes a flow or a stream, in no more cycles than its compiled set takes.
ghost use Rattle.std.specs.Prelude.{◌≡◌, ◌≤◌, ℕ, List, None, true, false, length, IfOk, IfErr};
ghost use Rattle.raw_text.specs.Lines.{first_fault, lines_of};
ghost use Rattle.raw_text.specs.Text.{text_lines};
ghost use Rattle.raw_set_text.specs.Texts.{token_lines};
ghost use Rattle.raw_shell.specs.Seen.{sink_seen};
ghost use Rattle.raw_owed.specs.Obeyed.{Obeyed};
ghost use Rattle.raw_inputs.specs.Inputs.{IsRefusalOf};
ghost use Rattle.raw_owed.specs.Schedules.{is_stream_text, IsSchedule};
ghost use Rattle.raw_inputs.specs.declared.form.InputForm.{InputForm};
ghost use Rattle.raw_command_line.specs.declared.arguments.FlowSet.TheVariants.{Scheduled};
ghost use Rattle.raw_command_line.specs.declared.arguments.ReadingCommand.TheVariants.{Flow};
ghost use Rattle.raw_command_line.specs.declared.arguments.Command.TheVariants.{Reads};

use raw_choice::choose;
use raw_codegen::GiveRefusal;
use raw_flow::compile;
use raw_flow_text::read_flow;
use raw_inputs::{Failure, refused_at, refused_flow, refused_text};
use raw_io::Sink;
use raw_model::Set;
use raw_owed::{Answer, put_output};
use raw_set_text::{SetKind, list_set};
use raw_stream_choice::choose_for_stream;
use raw_stream_text::{is_stream, read_stream_from};
use raw_text::{MAX_TEXT, Text, read_text};
use std::alloc::Global;

// A set that computes the flow in a text, or why there is none.
fn set_for_flow(alloc: Global, text: &Text) -> Result<Set, Failure>
    ensures made { (input : List ℕ) → first_fault 1 (lines_of input) ≡ None → text_lines text.now ≡ token_lines input →
        is_stream_text input ≡ false → IfOk result (IsSchedule false input) }
    ensures cause { (input : List ℕ) → first_fault 1 (lines_of input) ≡ None → text_lines text.now ≡ token_lines input →
        is_stream_text input ≡ false → IfErr result (IsRefusalOf InputForm.Flow input) }
{
    let read = match read_flow(alloc, text) {
        Ok(read) => read,
        Err(refusal) => return Err(refused_flow(refusal)),
    };
    let compiled = match compile(alloc, &read.flow, &read.inputs) {
        Ok(set) => Some(set),
        Err(GiveRefusal::TooMany) => None,
        Err(GiveRefusal::Memory) => return Err(Failure::Memory),
    };
    match choose(alloc, &read.flow, &read.inputs, compiled) {
        Ok(Some(set)) => Ok(set),
        Ok(None) => Err(refused_at(text.line_count() as u32 + 1, SetKind::OverLimit)),
        Err(_) => Err(Failure::Memory),
    }
}

// A set that computes the stream in a text, or why there is none.
fn set_for_stream(alloc: Global, text: &Text) -> Result<Set, Failure>
    ensures made { (input : List ℕ) → first_fault 1 (lines_of input) ≡ None → text_lines text.now ≡ token_lines input →
        is_stream_text input ≡ true → IfOk result (IsSchedule true input) }
    ensures cause { (input : List ℕ) → first_fault 1 (lines_of input) ≡ None → text_lines text.now ≡ token_lines input →
        is_stream_text input ≡ true → IfErr result (IsRefusalOf InputForm.Flow input) }
{
    let read = match read_stream_from(alloc, text, 0, None) {
        Ok(read) => read,
        Err(refusal) => return Err(refused_flow(refusal)),
    };
    match choose_for_stream(alloc, &read) {
        Ok(Some(set)) => Ok(set),
        Ok(None) => Err(refused_at(text.line_count() as u32 + 1, SetKind::OverLimit)),
        Err(_) => Err(Failure::Memory),
    }
}

// A set that computes the flow or the stream in an input, or why there is none.
fn schedule_in(alloc: Global, input: Vec<u8>) -> Result<Set, Failure>
    requires { length input.items ≤ MAX_TEXT }
    ensures made { IfOk result (IsSchedule (is_stream_text input.items) input.items) }
    ensures cause { IfErr result (IsRefusalOf InputForm.Flow input.items) }
{
    let text = match read_text(alloc, input) {
        Ok(text) => text,
        Err(refusal) => return Err(refused_text(refusal)),
    };
    if is_stream(&text, 0) {
        set_for_stream(alloc, &text)
    } else {
        set_for_flow(alloc, &text)
    }
}

/// Puts the listing of a set that computes the flow or the stream in an input.
pub fn put_schedule<K: Sink>(alloc: Global, input: Vec<u8>, out: &mut K) -> Answer
    requires { length input.items ≤ MAX_TEXT }
    ensures { Obeyed (Reads (Flow Scheduled)) input.items
        (sink_seen K.sight out.old out.new) result }
{
    let set = match schedule_in(alloc, input) {
        Ok(set) => set,
        Err(failure) => return Err(failure),
    };
    match list_set(alloc, &set) {
        Ok(listing) => put_output(&listing, out),
        Err(_) => Err(Failure::Memory),
    }
}
