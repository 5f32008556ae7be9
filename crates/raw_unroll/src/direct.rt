//! What a sink is due of all rows, without the flow that a stream is.
ghost use Rattle.std.specs.Prelude.{◌≡◌, ◌<◌, ◌≤◌, ◌^◌, ◌++◌, length, map, slice_index, IfOk, OnOk};
ghost use Rattle.std.specs.Option.{option_to_list};
ghost use Rattle.raw_model.specs.declared.limits.TheConstants.{MAX_ALL_WORDS};
ghost use Rattle.raw_stream.specs.Streams.{AreNamed, due_of, due_at, due_to, valued};
ghost use Rattle.raw_stream.specs.Unrolled.{word_count, all_rows};

use crate::counts::first_places;
use crate::valued::row_values;
use raw_stream::{StreamFlow, StreamOut};
use std::alloc::{AllocError, Global};

// Adds what goes to a sink in a row with these values, where it goes to this one.
fn add_out(
    got: &mut Vec<u32>,
    values: &[u32],
    port: usize,
    out: StreamOut,
) -> Result<(), AllocError>
    requires { out.node < length values.now }
    ensures { OnOk result (got.new.items ≡ got.old.items ++ map (slice_index values.now) (option_to_list (due_of port out))) }
{
    if out.port as usize != port {
        return Ok(());
    }
    got.push(values[out.node as usize])?;
    Ok(())
}

// Adds what a sink is due of a row with these values.
fn add_row(
    got: &mut Vec<u32>,
    stream: &StreamFlow,
    values: &[u32],
    port: usize,
) -> Result<(), AllocError>
    requires named { AreNamed stream.now }
    requires values { length values.now ≡ length stream.now.nodes }
    ensures { OnOk result (got.new.items ≡ got.old.items ++ valued values.now (due_at stream.now port)) }
{
    for number in 0..stream.outs.len() {
        add_out(got, values, port, stream.outs[number])?;
    }
    Ok(())
}

/// What the sink of this number is due of all rows, where the sources have these words, one source behind the other.
///
/// It goes over the rows once, and keeps the values of two of them.
pub fn direct_sink(
    alloc: Global,
    stream: &StreamFlow,
    words: &[u32],
    port: usize,
) -> Result<Vec<u32>, AllocError>
    requires named { AreNamed stream.now }
    requires nodes { length stream.now.nodes < 2 ^ 32 }
    requires few { word_count stream.now ≤ MAX_ALL_WORDS }
    requires words { length words.now ≡ word_count stream.now }
    ensures { IfOk result (λ got. got.items ≡ due_to stream.now port (all_rows stream.now words.now)) }
{
    let mut next = first_places(alloc, stream)?;
    let mut before = Vec::new(alloc);
    let mut got = Vec::new(alloc);
    for row in 0..stream.count as usize {
        let values = row_values(alloc, stream, words, &mut next, &before, row)?;
        add_row(&mut got, stream, &values, port)?;
        before = values;
    }
    Ok(got)
}
