//! The tiles of an image.
ghost use Rattle.std.specs.Prelude.{◌≡◌, ◌≤◌, ℕ, IfOk, length};
ghost use Rattle.raw_grid.specs.Topology.{Topology};
ghost use Rattle.raw_image.specs.Fields.{Gives};
ghost use Rattle.raw_model.specs.Wired.{AreWired};
ghost use Rattle.raw_image.specs.Reading.{room_after, tile_at, tiles_at};

use crate::fields::number_between;
use crate::programs::{cells_at, code_at, misses_at, switch_at};
use crate::refused::Refusal;
use crate::version::Version;
use raw_grid::{Ends, Topo};
use raw_model::limits::{
    MAX_ALL_CELLS, MAX_ALL_CODE, MAX_ALL_MISSES, MAX_ALL_SWITCH_CODE, MEMORY_WORDS,
};
use raw_model::{TileProg, wired_ends};
use raw_switch_isa::MAX_SWITCH_CODE;
use raw_tile_isa::MAX_TILE_CODE;
use std::alloc::Global;

/// How much more the tiles of a set may be given together.
#[derive(Clone, Copy)]
pub(crate) struct Room {
    /// Instructions of tiles.
    pub(crate) code: u32,
    /// Instructions of switches.
    pub(crate) switch: u32,
    /// Words in memories.
    pub(crate) cells: u32,
    /// Numbers of miss streams.
    pub(crate) misses: u32,
}

impl Room {
    // What is left behind a tile.
    fn behind(self, tile: &TileProg) -> Room
        requires code { length tile.now.code ≤ self.code }
        requires switch { length tile.now.switch ≤ self.switch }
        requires cells { length tile.now.cells ≤ self.cells }
        requires misses { length tile.now.misses ≤ self.misses }
        ensures { result ≡ room_after self tile.now }
    {
        Room {
            code: self.code - tile.code.len() as u32,
            switch: self.switch - tile.switch.len() as u32,
            cells: self.cells - tile.cells.len() as u32,
            misses: self.misses - tile.misses.len() as u32,
        }
    }
}

// What a tile is given, where the ends of its switch that have a wire are these.
#[tactic(auto, unfolding(crate::specs::Reading::tile_at))]
fn tile_at(
    alloc: Global,
    version: Version,
    wired: Ends,
    room: Room,
    bytes: &[u8],
) -> Result<(TileProg, &[u8]), Refusal>
    ensures read { (topo : Topology) (p : ℕ) → AreWired topo p wired →
        Gives (λ x. (x.0, x.1.now)) result (tile_at version topo p room bytes.now) }
    ensures code { IfOk result (λ x. length x.0.code ≤ room.code) }
    ensures switch { IfOk result (λ x. length x.0.switch ≤ room.switch) }
    ensures cells { IfOk result (λ x. length x.0.cells ≤ room.cells) }
    ensures misses { IfOk result (λ x. length x.0.misses ≤ room.misses) }
{
    let (count, rest) = number_between(bytes, 0, (MAX_TILE_CODE as u32).min(room.code))?;
    let (code, rest) = code_at(alloc, count, rest)?;
    let (count, rest) = number_between(rest, 0, (MAX_SWITCH_CODE as u32).min(room.switch))?;
    let (switch, rest) = switch_at(alloc, wired, count, rest)?;
    let (count, rest) = number_between(rest, 0, MEMORY_WORDS.min(room.cells))?;
    let (cells, rest) = cells_at(alloc, count, rest)?;
    let (misses, rest) = misses_at(alloc, version, room.misses, rest)?;
    let tile = TileProg {
        code,
        switch,
        cells,
        misses,
    };
    Ok((tile, rest))
}

/// All tiles of a grid.
#[tactic(auto, unfolding(crate::specs::Reading::tiles_at))]
pub(crate) fn tiles_at<'a>(
    alloc: Global,
    version: Version,
    topo: &Topo,
    bytes: &'a [u8],
) -> Result<(Vec<TileProg>, &'a [u8]), Refusal>
    ensures { Gives (λ x. (x.0.items, x.1.now)) result (tiles_at version topo.now bytes.now) }
{
    let mut tiles = Vec::new(alloc);
    let mut rest = bytes;
    let mut room = Room {
        code: MAX_ALL_CODE,
        switch: MAX_ALL_SWITCH_CODE,
        cells: MAX_ALL_CELLS,
        misses: MAX_ALL_MISSES,
    };
    for tile in 0..topo.tiles() {
        let wired = wired_ends(topo, tile);
        let (given, after) = tile_at(alloc, version, wired, room, rest)?;
        room = room.behind(&given);
        tiles.push(given)?;
        rest = after;
    }
    Ok((tiles, rest))
}
