//! Reading the text of a flow, plain or of rows.
ghost use Rattle.std.specs.Prelude.{true, false, IfOk, IfErr};
ghost use Rattle.raw_text.specs.Text.{text_lines};
ghost use Rattle.raw_stream_text.specs.Meaning.{is_stream};
ghost use Rattle.raw_either_flow.specs.Texts.{MeansOf, CauseOf};

use crate::placed::PlacedInput;
use raw_flow::Ports;
use raw_flow_text::read_flow;
use raw_set_text::{SetKind, SetRefusal};
use raw_stream_text::{is_stream, read_stream_from};
use raw_text::Text;
use raw_unroll::{law_placed, stream_ports, unroll};
use std::alloc::Global;

// The flow that the lines of a text mean which are none of a stream.
fn read_plain(alloc: Global, text: &Text) -> Result<PlacedInput, SetRefusal>
    ensures meaning { IfOk result (MeansOf false (text_lines text.now)) }
    ensures cause { IfErr result (CauseOf false (text_lines text.now)) }
{
    let read = read_flow(alloc, text)?;
    let ports = Ports::usual(alloc)?;
    Ok(PlacedInput {
        flow: read.flow,
        ports,
        inputs: read.inputs,
    })
}

// The flow that the stream is which the lines of a text mean.
fn read_rows(alloc: Global, text: &Text) -> Result<PlacedInput, SetRefusal>
    ensures meaning { IfOk result (MeansOf true (text_lines text.now)) }
    ensures cause { IfErr result (CauseOf true (text_lines text.now)) }
{
    law_placed();
    let read = read_stream_from(alloc, text, 0, None)?;
    let Some(flow) = unroll(alloc, &read.stream)? else {
        return Err(SetRefusal::At {
            line: text.line_count() as u32 + 1,
            kind: SetKind::OverLimit,
        });
    };
    let ports = stream_ports(alloc, &read.stream)?;
    Ok(PlacedInput {
        flow,
        ports,
        inputs: read.words,
    })
}

/// The flow that the lines of a text mean, with its ports and words. Of a stream it is the flow that the stream is
/// when it is unrolled, with a source for each of its sources and a sink for each of its sinks. Of a plain flow it
/// is that flow with one of each, at the west of tile 0.
///
/// A refusal names the least faulty line and the first of its faults, or is want of memory. A stream that does not fit
/// unrolled is `OverLimit` at the line after the last.
pub fn read_either(alloc: Global, text: &Text) -> Result<PlacedInput, SetRefusal>
    ensures meaning { IfOk result (MeansOf (is_stream (text_lines text.now)) (text_lines text.now)) }
    ensures cause { IfErr result (CauseOf (is_stream (text_lines text.now)) (text_lines text.now)) }
{
    if is_stream(text, 0) {
        read_rows(alloc, text)
    } else {
        read_plain(alloc, text)
    }
}
