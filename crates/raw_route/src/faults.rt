//! What is wrong with hauls.
ghost use Rattle.std.specs.Prelude.{◌≡◌, ◌<◌, ◌^◌, nat_lt, length};
ghost use Rattle.std.specs.List.{list_all};
ghost use Rattle.raw_route.specs.Refusals.{is_inside, has_twice, fault_of, first_fault};

use crate::haul::{Haul, is_among};

/// The first thing that is wrong with a haul.
#[derive(Clone, Copy, PartialEq, Eq)]
pub enum HaulFault {
    /// A tile number is not on the grid.
    OffGrid,
    /// There is no target.
    NoTarget,
    /// A target is named twice.
    Twice,
}

// Whether these are all tiles of a grid of so many.
fn are_inside(tiles: u32, to: &[u32]) -> bool
    ensures { result ≡ list_all (λ tile. nat_lt tile tiles) to.now }
{
    to.iter().all(|tile| *tile < tiles)
}

// Whether all tiles of a haul are on a grid of so many.
fn is_inside(tiles: u32, haul: &Haul) -> bool
    ensures { result ≡ is_inside tiles haul.now }
{
    haul.from < tiles && are_inside(tiles, &haul.to)
}

// Whether a tile stands twice in a list.
fn has_twice(tiles: &[u32]) -> bool
    ensures { result ≡ has_twice tiles.now }
{
    for i in 0..tiles.len() {
        if is_among(&tiles[i + 1..], tiles[i]) {
            return true;
        }
    }
    false
}

// The first thing that is wrong with a haul on a grid of so many tiles.
fn fault_of(tiles: u32, haul: &Haul) -> Option<HaulFault>
    ensures { result ≡ fault_of tiles haul.now }
{
    if !is_inside(tiles, haul) {
        Some(HaulFault::OffGrid)
    } else if haul.to.is_empty() {
        Some(HaulFault::NoTarget)
    } else if has_twice(&haul.to) {
        Some(HaulFault::Twice)
    } else {
        None
    }
}

/// The place of the first faulty haul, and the first thing that is wrong with it.
pub(crate) fn first_fault(tiles: u32, hauls: &[Haul]) -> Option<(u32, HaulFault)>
    requires { length hauls.now < 2 ^ 32 }
    ensures { result ≡ first_fault tiles 0 hauls.now }
{
    for i in 0..hauls.len() {
        if let Some(fault) = fault_of(tiles, &hauls[i]) {
            return Some((i as u32, fault));
        }
    }
    None
}
