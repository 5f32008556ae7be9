//! The stream that an input means.
ghost use Rattle.std.specs.Prelude.{◌≤◌, None, length, IfOk, IfErr};
ghost use Rattle.raw_stream_text.specs.Meaning.{IsFed};
ghost use Rattle.raw_stream_text.specs.Texts.{StreamMeaning};
ghost use Rattle.raw_inputs.specs.Inputs.{IsNoStream};

use crate::flaw::Failure;
use crate::input::{refused_stream, refused_text};
use raw_stream_text::{StreamInput, read_stream_from};
use raw_text::{MAX_TEXT, read_text};
use std::alloc::Global;

/// The stream that an input means, with the words of its sources, or why it means none: also the text of a plain flow has a
/// fault then, that of its missing line `rows`.
pub fn stream_in(alloc: Global, input: Vec<u8>) -> Result<StreamInput, Failure>
    requires { length input.items ≤ MAX_TEXT }
    ensures meaning { IfOk result (StreamMeaning input.items) }
    ensures fed { IfOk result (IsFed None) }
    ensures cause { IfErr result (IsNoStream input.items) }
{
    let text = match read_text(alloc, input) {
        Ok(text) => text,
        Err(refusal) => return Err(refused_text(refusal)),
    };
    match read_stream_from(alloc, &text, 0, None) {
        Ok(read) => Ok(read),
        Err(refusal) => Err(refused_stream(refusal)),
    }
}
