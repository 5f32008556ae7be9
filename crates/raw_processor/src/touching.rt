//! What the touches of a tile cost.
ghost use Rattle.std.specs.Prelude.{◌≡◌, ℕ, ◌+◌, ◌<◌, ◌≤◌, ◌^◌, List, ◌++◌, IfSome};
ghost use Rattle.std.specs.Option.{option_to_list};
ghost use Rattle.raw_grid.specs.Topology.{tile_count};
ghost use Rattle.raw_model.specs.Cache.{StandsFor, misses, stream_of};
ghost use Rattle.raw_processor.specs.Touching.{owed_after};

use crate::processor::TileUnit;
use crate::stream::owed_at;
use raw_model::Set;
use raw_model::limits::MAX_STEPS;

/// The miss stream of a tile.
pub fn stream_of(set: &Set, tile: usize) -> &[u8]
    requires { tile < tile_count set.now.topo }
    ensures { result.now ≡ stream_of set.now tile }
{
    let program = &set.tiles[tile];
    &program.misses
}

/// Touches the address of a step of a tile, if it has one: a miss is counted, and the tile then owes the stall turns
/// of that miss. It owes none before. `p` is the tile's number; its miss stream is read only where there is a miss.
pub fn touch(tile: &mut TileUnit, touched: Option<u32>, set: &Set, p: usize)
    requires tile { p < tile_count set.now.topo }
    requires inside { IfSome touched (λ address. address < 2 ^ 16) }
    requires few { tile.old.misses < MAX_STEPS }
    requires free { tile.old.owed ≡ 0 }
    ensures state { tile.new.state ≡ tile.old.state }
    ensures code { tile.new.code ≡ tile.old.code }
    ensures stands { (earlier : List ℕ) → StandsFor tile.old.cache earlier →
        StandsFor tile.new.cache (earlier ++ option_to_list touched) }
    ensures missed { (earlier : List ℕ) → StandsFor tile.old.cache earlier →
        misses (earlier ++ option_to_list touched) + tile.old.misses ≡ misses earlier + tile.new.misses }
    ensures owed { tile.new.owed ≡ owed_after (stream_of set.now p) tile.old.misses tile.new.misses }
    ensures few { tile.new.misses ≤ tile.old.misses + 1 }
{
    let Some(address) = touched else {
        return;
    };
    if !tile.cache.touch(address) {
        return;
    }
    tile.owed = owed_at(stream_of(set, p), tile.misses);
    tile.misses += 1;
}
