//! The type of a program set.

use raw_grid::Topo;
use raw_switch_isa::SwitchIns;
use raw_tile_isa::TileIns;
use std::marker::Model;

/// A word that stands in a tile's memory at the start.
#[derive(Clone, Copy, PartialEq, Eq)]
pub struct DataWord {
    /// Its address in bytes, a multiple of 4 below 65,536.
    pub address: u32,
    pub word: u32,
}

/// What one tile is given.
#[derive(Drop)]
pub struct TileProg {
    /// The tile's program; instruction `i` stands at pc `i`. At most 16,384 instructions.
    pub code: Vec<TileIns>,
    /// The program of the switch beside the tile. At most 8,192 instructions.
    pub switch: Vec<SwitchIns>,
    /// The words in the tile's memory at the start, by rising address; all other bytes are 0.
    pub cells: Vec<DataWord>,
    /// The tile's miss stream: after its n-th miss the tile owes as many stall turns as the n-th of these
    /// says, and 0 past the end.
    pub misses: Vec<u8>,
}

impl Model for TileProg {
    ghost use Rattle.raw_model.specs.Program.{TileProgram};

    ghost Value = { TileProgram };

    ghost view = { λ tile. record { code = tile.code.items; switch = tile.switch.items; cells = tile.cells.items; misses = tile.misses.items } };
}

/// What one port is given.
#[derive(Drop)]
pub struct PortProg {
    /// The words that a source puts in, in order; a sink has none.
    pub words: Vec<u32>,
    /// How many words a sink holds at most, up to 1,000,000; 0 for a source.
    pub capacity: u32,
}

impl Model for PortProg {
    ghost use Rattle.raw_model.specs.Program.{PortProgram};

    ghost Value = { PortProgram };

    ghost view = { λ port. record { words = port.words.items; capacity = port.capacity } };
}

/// Words of a tile's memory that the report shows.
#[derive(Clone, Copy, PartialEq, Eq)]
pub struct Show {
    /// The number of the tile.
    pub tile: u32,
    /// The address of the first word in bytes, a multiple of 4.
    pub address: u32,
    /// How many words, at least 1. They end within the memory.
    pub words: u32,
}

/// A program set: a grid, how far each processor may go, and what each tile and each port is given.
///
/// Its type keeps the rules and limits of `IsSet`.
#[derive(Drop)]
pub struct Set {
    /// The grid.
    pub topo: Topo,
    /// How many instructions a tile or a switch executes at most, 1 to 10,000,000.
    pub limit: u32,
    /// How many values a wire holds at most, 1 to 7.
    pub depth: u8,
    /// One entry a port, in the order of the ports' numbers.
    pub ports: Vec<PortProg>,
    /// One entry a tile, in the order of the tiles' numbers.
    pub tiles: Vec<TileProg>,
    /// What the report shows of memories, in its order. At most 1,000 entries and 65,536 words.
    pub shows: Vec<Show>,
}

impl Model for Set {
    ghost use Rattle.raw_model.specs.Program.{ProgramSet, IsSet};

    ghost Value = { ProgramSet };

    ghost view = { λ set. record { topo = set.topo; limit = set.limit; depth = set.depth; ports = set.ports.items; tiles = set.tiles.items; shows = set.shows.items } };

    ghost invariant = { λ set. IsSet (record { topo = set.topo; limit = set.limit; depth = set.depth; ports = set.ports.items; tiles = set.tiles.items; shows = set.shows.items }) };
}
