//! The set that is written for a stream whose rows have no end.
ghost use Rattle.std.specs.Prelude.{◌≡◌, ◌≤◌, true, map, nat_le, IfOk, IfSome};
ghost use Rattle.std.specs.List.{list_all};
ghost use Rattle.raw_stream.specs.Kept.{IsStream};
ghost use Rattle.raw_stream_choice.specs.StreamSets.{stream_topo};
ghost use Rattle.raw_stream_choice.specs.PortNumbers.{numbered};
ghost use Rattle.raw_stream_choice.specs.Endless.{room_among, endless_port, endless_ports, IsLong, MeetsNumbersOfRows, IsEndlessChoice};

use crate::meeting::few;
use crate::numbered::{numbered, places_of};
use crate::stream_set::set_with;
use raw_cut::{Extent, prove_live};
use raw_grid::{MAX_TILES, PortKind, PortPlace};
use raw_model::limits::{MAX_ALL_CAPACITIES, MAX_CAPACITY};
use raw_model::{PortProg, Set, TileProg};
use raw_pipeline::find_pipeline;
use raw_stream::StreamFlow;
use std::alloc::{AllocError, Global};

// The greatest room that each of so many sinks may have in a set.
fn room_among(sinks: u16) -> Option<u32>
    ensures { IfSome result (λ room. room ≡ room_among sinks) }
{
    match MAX_ALL_CAPACITIES.checked_div(u32::from(sinks)) {
        Some(room) => Some(room.min(MAX_CAPACITY)),
        None => None,
    }
}

// The port at a place of a set that is to be fed, where each sink has this room.
fn endless_port(alloc: Global, place: PortPlace, room: u32) -> PortProg
    ensures { result ≡ endless_port room place }
{
    let capacity = match place.kind {
        PortKind::Source => 0,
        PortKind::Sink => room,
    };
    PortProg {
        words: Vec::new(alloc),
        capacity,
    }
}

// The ports at these places, where each sink has this room.
fn ports_at(alloc: Global, places: &[PortPlace], room: u32) -> Result<Vec<PortProg>, AllocError>
    ensures { IfOk result (λ ports. ports.items ≡ map (endless_port room) places.now) }
{
    let mut ports = Vec::new(alloc);
    for place in places {
        ports.push(endless_port(alloc, *place, room))?;
    }
    Ok(ports)
}

// The ports of a stream in a set that is to be fed.
fn endless_ports(alloc: Global, stream: &StreamFlow) -> Result<Option<Vec<PortProg>>, AllocError>
    ensures { IfOk result (λ found. IfSome found (λ ports. ports.items ≡ endless_ports stream.now)) }
{
    let Some(sinks) = few(stream.sinks.len()) else {
        return Ok(None);
    };
    let Some(room) = room_among(sinks) else {
        return Ok(None);
    };
    let places = places_of(alloc, stream)?;
    let ports = ports_at(alloc, &places, room)?;
    Ok(Some(ports))
}

// The least number of rows for which a set is proved, or what a port lacks, whichever is the most. Nothing is said of it.
fn delay_of(extent: &Extent) -> u32 {
    let mut delay = extent.least;
    for lack in &extent.lacks {
        delay = delay.max(*lack);
    }
    delay
}

// Whether none of these is greater than a number.
fn are_few(lacks: &[u32], most: u32) -> bool
    ensures { result ≡ list_all (λ lack. nat_le lack most) lacks.now }
{
    lacks.iter().all(|lack| *lack <= most)
}

// Whether a set is proved for more than twice as many rows as it may lack words, and as it is proved for at least.
fn is_long(extent: &Extent) -> bool
    ensures { result ≡ true → IsLong extent.now }
{
    let delay = delay_of(extent);
    extent.least <= delay
        && are_few(&extent.lacks, delay)
        && 2 * u64::from(delay) < u64::from(extent.most)
}

// Whether a set is proved to meet a stream, of which this is the twin with the numbers of the ports of the set.
fn meets_twin(
    alloc: Global,
    set: &Set,
    stream: &StreamFlow,
    twin: &StreamFlow,
) -> Result<bool, AllocError>
    requires stream { IsStream stream.now }
    requires grid { set.now.topo ≡ stream_topo stream.now }
    requires twin { twin.now ≡ numbered stream.now }
    ensures { IfOk result (λ is. is ≡ true → MeetsNumbersOfRows stream.now set.now) }
{
    // The set is read so that its rules are known.
    let _limit = set.limit;
    match prove_live(alloc, set, twin)? {
        Some(extent) => Ok(is_long(&extent)),
        None => Ok(false),
    }
}

// Whether a set with the grid of a stream is proved to meet it.
fn meets_rows(alloc: Global, set: &Set, stream: &StreamFlow) -> Result<bool, AllocError>
    requires stream { IsStream stream.now }
    requires grid { set.now.topo ≡ stream_topo stream.now }
    ensures { IfOk result (λ is. is ≡ true → MeetsNumbersOfRows stream.now set.now) }
{
    let Some(sources) = few(stream.sources.len()) else {
        return Ok(false);
    };
    match numbered(alloc, stream, sources) {
        Ok(Some(twin)) => meets_twin(alloc, set, stream, &twin),
        Ok(None) => Ok(false),
        Err(failure) => Err(failure),
    }
}

// A set for a stream that has these programs, where it is proved to meet it.
fn met_set(
    alloc: Global,
    stream: &StreamFlow,
    programs: &[TileProg],
) -> Result<Option<Set>, AllocError>
    requires { IsStream stream.now }
    ensures { IfOk result (λ found. IfSome found (IsEndlessChoice stream.now)) }
{
    let ports = match endless_ports(alloc, stream) {
        Ok(Some(ports)) => ports,
        Ok(None) => return Ok(None),
        Err(failure) => return Err(failure),
    };
    let set = match set_with(alloc, stream, ports, programs) {
        Ok(Some(set)) => set,
        Ok(None) => return Ok(None),
        Err(failure) => return Err(failure),
    };
    // The set is read so that its rules are known.
    let _limit = set.limit;
    if meets_rows(alloc, &set, stream)? {
        Ok(Some(set))
    } else {
        Ok(None)
    }
}

// What the search finds for a stream on so many tiles at most, where that is proved to meet it.
fn found_on(alloc: Global, stream: &StreamFlow, tiles: usize) -> Result<Option<Set>, AllocError>
    requires { IsStream stream.now }
    ensures { IfOk result (λ found. IfSome found (IsEndlessChoice stream.now)) }
{
    match find_pipeline(alloc, stream, true, tiles) {
        Ok(Some(pipeline)) => met_set(alloc, stream, &pipeline.programs),
        Ok(None) => Ok(None),
        Err(failure) => Err(failure),
    }
}

/// A set for a stream that takes rows as long as it is fed with them. It is what the search finds for its grid, or
/// else on one tile, where it is proved that the set meets the stream for all words, whatever the number of rows
/// that the stream has.
///
/// The only error is want of memory.
pub fn choose_endless(alloc: Global, stream: &StreamFlow) -> Result<Option<Set>, AllocError>
    requires { IsStream stream.now }
    ensures { IfOk result (λ found. IfSome found (IsEndlessChoice stream.now)) }
{
    match found_on(alloc, stream, MAX_TILES) {
        Ok(Some(set)) => Ok(Some(set)),
        Ok(None) => found_on(alloc, stream, 1),
        Err(failure) => Err(failure),
    }
}
