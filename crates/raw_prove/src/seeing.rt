//! What is seen of a machine with terms at the places of a claim.
ghost use Rattle.std.specs.Prelude.{◌≡◌, Some, map, slice_get, slice_index, IfOk};
ghost use Rattle.raw_model.specs.Parts.{got_of, memory_of};
ghost use Rattle.raw_term.specs.Seen.{claimed_of, miscount_of, miscount_from, miscount, word_seen, terms_seen};
ghost use Rattle.raw_prove.specs.Units.{local_of, state_of};

use crate::machine::Machine;
use crate::unit::Unit;
use raw_grid::ProcId;
use raw_model::limits::MEMORY_WORDS;
use raw_term::{Place, claimed_of};
use std::alloc::{AllocError, Global};

// The terms that a processor has received, none where it is no sink.
fn got_of(unit: &Unit) -> &[u32]
    ensures { result.now ≡ got_of (Some (local_of unit.now)) }
{
    match unit {
        Unit::Sink(port) => &port.got,
        Unit::Tile(_) | Unit::Switch(_) | Unit::Source(_) => &[],
    }
}

// The terms in the memory of a processor, none where it is no tile.
fn memory_of(unit: &Unit) -> &[u32]
    ensures { result.now ≡ memory_of (Some (local_of unit.now)) }
{
    match unit {
        Unit::Tile(tile) => &tile.tile.memory,
        Unit::Switch(_) | Unit::Source(_) | Unit::Sink(_) => &[],
    }
}

// The term with this number; that of the word 0 where there is none.
fn term_at(terms: &[u32], number: u32) -> u32
    ensures { result ≡ slice_index terms.now number }
{
    terms.get(number as usize).copied().unwrap_or(0)
}

// How many terms a sink has received and how many are claimed of it, where these numbers differ.
fn miscount_of(unit: &Unit, places: &[Place], p: usize) -> Option<(usize, usize)>
    ensures { result ≡ miscount_of (local_of unit.now) (claimed_of places.now p) }
{
    let Unit::Sink(port) = unit else {
        return None;
    };
    let claimed = claimed_of(places, p);
    if port.got.len() == claimed {
        None
    } else {
        Some((port.got.len(), claimed))
    }
}

impl Machine {
    /// The terms that a processor has received, none where there is no such sink.
    pub(crate) fn got_at(&self, p: usize) -> &[u32]
        ensures { result.now ≡ got_of (slice_get (map local_of self.now.units.items) p) }
    {
        match self.units.get(p) {
            Some(unit) => got_of(unit),
            None => &[],
        }
    }

    // The terms in the memory of a processor, none where there is no such tile.
    fn memory_at(&self, p: ProcId) -> &[u32]
        ensures { result.now ≡ memory_of (slice_get (map local_of self.now.units.items) p.0) }
    {
        match self.units.get(p.0 as usize) {
            Some(unit) => memory_of(unit),
            None => &[],
        }
    }

    // The term at a place.
    fn term_seen(&self, place: Place) -> u32
        ensures { result ≡ word_seen slice_index (map local_of self.now.units.items) place }
    {
        match place {
            Place::Received { sink, number } => term_at(self.got_at(sink.0 as usize), number),
            Place::Memory { tile, number } => {
                if number < MEMORY_WORDS {
                    term_at(self.memory_at(tile), number)
                } else {
                    0
                }
            }
        }
    }

    // The terms at these places.
    fn each_seen(&self, alloc: Global, places: &[Place]) -> Result<Vec<u32>, AllocError>
        ensures { IfOk result (λ terms. terms.items ≡ map (word_seen slice_index (map local_of self.now.units.items)) places.now) }
    {
        let mut terms = Vec::new(alloc);
        for place in places {
            terms.push(self.term_seen(*place))?;
        }
        Ok(terms)
    }

    /// The numbers of the terms at the places of a claim.
    pub(crate) fn seen(&self, alloc: Global, places: &[Place]) -> Result<Vec<u32>, AllocError>
        ensures { IfOk result (λ terms. terms.items ≡ terms_seen places.now (state_of self.now).state) }
    {
        if places.is_empty() {
            self.received(alloc)
        } else {
            self.each_seen(alloc, places)
        }
    }

    // The counts of the first sink that has received another number of terms than are claimed of it.
    fn first_miscount(&self, places: &[Place]) -> Option<(usize, usize)>
        ensures { result ≡ miscount_from places.now 0 (map local_of self.now.units.items) }
    {
        for p in 0..self.units.len() {
            let counts = miscount_of(&self.units[p], places, p);
            if counts.is_some() {
                return counts;
            }
        }
        None
    }

    /// How many terms the first sink has received of which another number is claimed, and this number.
    pub(crate) fn miscount(&self, places: &[Place]) -> Option<(usize, usize)>
        ensures { result ≡ miscount places.now (state_of self.now).state.locals }
    {
        if places.is_empty() {
            None
        } else {
            self.first_miscount(places)
        }
    }
}
