//! Whether a set is proved to meet a stream.
ghost use Rattle.std.specs.Prelude.{◌≡◌, true, length, IfOk, IfSome};
ghost use Rattle.std.specs.List.{range_with_len};
ghost use Rattle.raw_model.specs.Program.{IsSet};
ghost use Rattle.raw_stream.specs.Unrolled.{unrolled};
ghost use Rattle.raw_stream.specs.Kept.{IsStream};
ghost use Rattle.raw_term.specs.Claims.{Meets};
ghost use Rattle.raw_stream_choice.specs.StreamSets.{stream_topo};
ghost use Rattle.raw_stream_choice.specs.Standing.{TwinStands};

use crate::numbered::{numbered, sinks_of};
use crate::ports::has_few_outs;
use raw_lengths::prove_length;
use raw_model::Set;
use raw_prove::{misfed, outcome_of, prove_rows};
use raw_stream::StreamFlow;
use raw_term::Verdict;
use std::alloc::{AllocError, Global};

/// A number of ports, where it is as small as that of each grid.
pub(crate) fn few(ports: usize) -> Option<u16>
    ensures { IfSome result (λ count. count ≡ ports) }
{
    if ports <= u16::MAX as usize {
        Some(ports as u16)
    } else {
        None
    }
}

// Whether a set is proved by rows to meet a stream, of which this is the twin with the numbers of the ports of the set.
fn is_proved_by_rows(
    alloc: Global,
    set: &Set,
    stream: &StreamFlow,
    twin: &StreamFlow,
) -> Result<bool, AllocError>
    requires { TwinStands set.now stream.now twin.now }
    ensures { IfOk result (λ is. is ≡ true → Meets set.now (unrolled stream.now)) }
{
    match misfed(set, twin) {
        Some(_) => Ok(false),
        None => prove_length(alloc, set, twin),
    }
}

// Whether a run with terms over all its rows proves it.
fn is_twin_proved(
    alloc: Global,
    set: &Set,
    stream: &StreamFlow,
    twin: &StreamFlow,
    sinks: &[u32],
) -> Result<bool, AllocError>
    requires stands { TwinStands set.now stream.now twin.now }
    requires sinks { sinks.now ≡ range_with_len (length stream.now.sources) (length stream.now.sinks) }
    ensures { IfOk result (λ is. is ≡ true → Meets set.now (unrolled stream.now)) }
{
    let how = outcome_of(alloc, set)?;
    match prove_rows(alloc, set, twin, sinks, how)?.verdict {
        Verdict::Proved(_) => Ok(true),
        _ => Ok(false),
    }
}

/// Whether a set for a stream is proved to meet the flow that the stream is when it is unrolled.
pub(crate) fn is_proved(alloc: Global, set: &Set, stream: &StreamFlow) -> Result<bool, AllocError>
    requires valid { IsSet set.now }
    requires stream { IsStream stream.now }
    requires grid { set.now.topo ≡ stream_topo stream.now }
    ensures { IfOk result (λ is. is ≡ true → Meets set.now (unrolled stream.now)) }
{
    if !has_few_outs(stream) {
        return Ok(false);
    }
    let Some(sources) = few(stream.sources.len()) else {
        return Ok(false);
    };
    let Some(sinks) = few(stream.sinks.len()) else {
        return Ok(false);
    };
    let order = sinks_of(alloc, sources, sinks)?;
    match numbered(alloc, stream, sources) {
        Ok(Some(twin)) => {
            if is_proved_by_rows(alloc, set, stream, &twin)? {
                return Ok(true);
            }
            is_twin_proved(alloc, set, stream, &twin, &order)
        }
        Ok(None) => Ok(false),
        Err(failure) => Err(failure),
    }
}
