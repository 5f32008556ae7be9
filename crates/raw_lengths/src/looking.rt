//! The terms on which a run branches, as nodes over counters.
ghost use Rattle.std.specs.Prelude.{◌≡◌, ℕ, ◌<◌, [], true, false, length, slice_index, slice_get, Some, IfOk, IfSome};
ghost use Rattle.raw_flow.specs.Flows.{values_from};
ghost use Rattle.raw_lengths.specs.Looks.{ArePlaces, AreSome};

use std::alloc::{AllocError, Global};

// Where a number stands in a list.
fn place_of(numbers: &[u32], number: u32) -> Option<u32>
    ensures { IfSome result (λ place. slice_get numbers.now place ≡ Some number) }
{
    for place in 0..numbers.len() {
        if numbers[place] == number {
            return u32::try_from(place).ok();
        }
    }
    None
}

/// The places of terms in a list of numbers, each once. None where one of them does not stand there.
pub(crate) fn places_of(
    alloc: Global,
    numbers: &[u32],
    terms: &[u32],
) -> Result<Option<Vec<u32>>, AllocError>
    ensures { IfOk result (λ found. IfSome found (λ places. ArePlaces numbers.now places.items terms.now)) }
{
    let mut places = Vec::new(alloc);
    for term in terms {
        let Some(place) = place_of(numbers, *term) else {
            return Ok(None);
        };
        if place_of(&places, place).is_none() {
            places.push(place)?;
        }
    }
    Ok(Some(places))
}

/// Whether the words at these places of a list are not 0.
pub(crate) fn are_some(words: &[u32], places: &[u32]) -> bool
    ensures { result ≡ true → AreSome words.now places.now }
{
    for place in places {
        match words.get(*place as usize) {
            Some(0) | None => return false,
            Some(_) => {}
        }
    }
    true
}
