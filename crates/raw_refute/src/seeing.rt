//! What is seen of a machine at the places of a claim.
ghost use Rattle.std.specs.Prelude.{◌≡◌, ◌*◌, ◌<◌, map, slice_get, Some, IfOk};
ghost use Rattle.raw_grid.specs.Topology.{proc_count};
ghost use Rattle.raw_model.specs.declared.limits.TheConstants.{MEMORY_WORDS};
ghost use Rattle.raw_model.specs.TileTable.{word_at};
ghost use Rattle.raw_model.specs.Parts.{got_by, got_of, memory_of, received};
ghost use Rattle.raw_processor.specs.Processor.{local_of};
ghost use Rattle.raw_term.specs.Seen.{claimed_of, miscount_of, miscount_from, miscount, word_seen, word_of_bytes, seen};

use raw_grid::ProcId;
use raw_model::limits::MEMORY_WORDS;
use raw_processor::Processor;
use raw_serial::Machine;
use raw_term::{Place, claimed_of};
use std::alloc::{AllocError, Global};

/// The words that a processor has received, none where it is no sink.
pub(crate) fn got_by(processor: &Processor) -> &[u32]
    ensures by { result.now ≡ got_by (local_of processor.now) }
    ensures of { result.now ≡ got_of (Some (local_of processor.now)) }
{
    match processor {
        Processor::Sink(port) => &port.got,
        _ => &[],
    }
}

// The words that all sinks have received, those of the first port first.
fn received(alloc: Global, machine: &Machine<'_>) -> Result<Vec<u32>, AllocError>
    ensures { IfOk result (λ got. got.items ≡ received machine.now.state) }
{
    let mut got = Vec::new(alloc);
    for p in 0..machine.procs() {
        got.extend_from_slice(got_by(machine.processor(ProcId(p))))?;
    }
    Ok(got)
}

// The memory word with this number of a processor; 0 where it has no memory.
#[tactic(auto, unfolding(raw_model::specs::Program::memory_size))]
fn memory_word(processor: &Processor, number: u32) -> u32
    requires { number < MEMORY_WORDS }
    ensures { result ≡ word_of_bytes (memory_of (Some (local_of processor.now))) number }
{
    match processor {
        Processor::Tile(tile) => tile.state.memory.word_at(4 * number),
        Processor::Switch(_) | Processor::Source(_) | Processor::Sink(_) => 0,
    }
}

// The word with this number of those that a sink has received; 0 where there is none.
fn received_word(machine: &Machine<'_>, sink: ProcId, number: u32) -> u32
    ensures { result ≡ word_seen word_of_bytes machine.now.state.locals (Place.Received sink number) }
{
    if sink.0 >= machine.procs() {
        return 0;
    }
    let got = got_by(machine.processor(sink));
    got.get(number as usize).copied().unwrap_or(0)
}

// The memory word with this number of a tile; 0 where there is none.
fn stored_word(machine: &Machine<'_>, tile: ProcId, number: u32) -> u32
    ensures { result ≡ word_seen word_of_bytes machine.now.state.locals (Place.Memory tile number) }
{
    if tile.0 >= machine.procs() || number >= MEMORY_WORDS {
        return 0;
    }
    memory_word(machine.processor(tile), number)
}

// The word at a place.
fn word_seen(machine: &Machine<'_>, place: Place) -> u32
    ensures { result ≡ word_seen word_of_bytes machine.now.state.locals place }
{
    match place {
        Place::Received { sink, number } => received_word(machine, sink, number),
        Place::Memory { tile, number } => stored_word(machine, tile, number),
    }
}

// The words at these places.
fn each_seen(alloc: Global, machine: &Machine<'_>, places: &[Place]) -> Result<Vec<u32>, AllocError>
    ensures { IfOk result (λ words. words.items ≡ map (word_seen word_of_bytes machine.now.state.locals) places.now) }
{
    let mut words = Vec::new(alloc);
    for place in places {
        words.push(word_seen(machine, *place))?;
    }
    Ok(words)
}

/// The words at the places of a claim.
pub(crate) fn seen(
    alloc: Global,
    machine: &Machine<'_>,
    places: &[Place],
) -> Result<Vec<u32>, AllocError>
    ensures { IfOk result (λ words. words.items ≡ seen places.now machine.now.state) }
{
    if places.is_empty() {
        received(alloc, machine)
    } else {
        each_seen(alloc, machine, places)
    }
}

// How many words a sink has received and how many are claimed of it, where these numbers differ.
fn miscount_of(processor: &Processor, places: &[Place], p: usize) -> Option<(usize, usize)>
    ensures { result ≡ miscount_of (local_of processor.now) (claimed_of places.now p) }
{
    let Processor::Sink(port) = processor else {
        return None;
    };
    let claimed = claimed_of(places, p);
    if port.got.len() == claimed {
        None
    } else {
        Some((port.got.len(), claimed))
    }
}

// The counts of the first sink that has received another number of words than are claimed of it.
fn first_miscount(machine: &Machine<'_>, places: &[Place]) -> Option<(usize, usize)>
    ensures { result ≡ miscount_from places.now 0 machine.now.state.locals }
{
    for p in 0..machine.procs() {
        let counts = miscount_of(machine.processor(ProcId(p)), places, p as usize);
        if counts.is_some() {
            return counts;
        }
    }
    None
}

/// How many words the first sink has received of which another number is claimed, and this number.
pub(crate) fn miscount(machine: &Machine<'_>, places: &[Place]) -> Option<(usize, usize)>
    ensures { result ≡ miscount places.now machine.now.state.locals }
{
    if places.is_empty() {
        None
    } else {
        first_miscount(machine, places)
    }
}
