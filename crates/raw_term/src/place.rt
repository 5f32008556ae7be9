//! Where the words are to be found of which something is claimed.
ghost use Rattle.std.specs.Prelude.{◌≡◌};
ghost use Rattle.raw_term.specs.Seen.{is_of, claimed_of};

use raw_grid::ProcId;

/// Where the word of an out is to be found, once a set is at rest.
///
/// A claim names a place for each of its outs, and then each sink has to receive as many words as there are places of it;
/// or it names none, and then its outs are claimed of the words that all sinks receive, those of the first port first.
#[derive(Clone, Copy, PartialEq, Eq)]
pub enum Place {
    /// Among the words that a sink has received: their number, counted from 0.
    Received { sink: ProcId, number: u32 },
    /// In the memory of a tile: the number of the memory word, a quarter of its address.
    Memory { tile: ProcId, number: u32 },
}

// Whether a place is of the sink with this number.
fn is_of(sink: usize, place: Place) -> bool
    ensures { result ≡ is_of sink place }
{
    match place {
        Place::Received { sink: named, .. } => named.0 as usize == sink,
        Place::Memory { .. } => false,
    }
}

/// How many of the places are of the sink with this number.
pub fn claimed_of(places: &[Place], sink: usize) -> usize
    ensures { result ≡ claimed_of places.now sink }
{
    let mut count = 0;
    for place in places {
        if is_of(sink, *place) {
            count += 1;
        }
    }
    count
}
