//! Numbers of nodes, and those that stand in their place.
ghost use Rattle.std.specs.Prelude.{◌≡◌, ◌+◌, ◌^◌, ◌<◌, ◌≤◌, map, slice_index, IfOk};
ghost use Rattle.std.specs.List.{range_with_len};
ghost use Rattle.raw_stream.specs.Streams.{valued};

use std::alloc::{AllocError, Global};

/// The number at a place of a list, and 0 behind its end.
pub(crate) fn number_at(numbers: &[u32], place: u32) -> u32
    ensures { result ≡ slice_index numbers.now place }
{
    match numbers.get(place as usize) {
        Some(number) => *number,
        None => 0,
    }
}

/// The numbers at these places.
pub(crate) fn valued(alloc: Global, numbers: &[u32], places: &[u32]) -> Result<Vec<u32>, AllocError>
    ensures { IfOk result (λ found. found.items ≡ valued numbers.now places.now) }
{
    let mut found = Vec::with_capacity(alloc, places.len())?;
    for place in places {
        found.push(number_at(numbers, *place))?;
    }
    Ok(found)
}

/// The same in an array.
pub(crate) fn all_valued<const N: usize>(numbers: &[u32], places: &[u32; N]) -> [u32; N]
    ensures { result ≡ valued numbers.now places.now }
{
    let mut found = [0; N];
    for i in 0..N {
        found[i] = number_at(numbers, places[i]);
    }
    found
}

/// So many numbers from one on.
#[tactic(auto, using(raw_stream::proofs::Sums::range_push))]
pub fn numbers_from(alloc: Global, first: u32, many: u32) -> Result<Vec<u32>, AllocError>
    requires { first + many < 2 ^ 32 }
    ensures { IfOk result (λ numbers. numbers.items ≡ range_with_len first many) }
{
    let mut numbers = Vec::with_capacity(alloc, many as usize)?;
    for i in 0..many {
        numbers.push(first + i)?;
    }
    Ok(numbers)
}
