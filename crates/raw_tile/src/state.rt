//! The local state of a tile.
ghost use Rattle.std.specs.Prelude.{◌≡◌};

use crate::memory::TileMemory;
use raw_model::Mark;
use std::marker::Model;

/// The local state of a tile.
#[derive(Drop)]
pub struct TileState {
    /// The registers. Register 0 reads 0; 24 and 25 stand for the networks and store nothing.
    pub regs: [u32; 32],
    /// The number of the next instruction.
    pub pc: u32,
    /// How many instructions the tile has executed.
    pub count: u64,
    /// Whether it goes on.
    pub mark: Mark,
    /// Its memory.
    pub memory: TileMemory,
}

impl Model for TileState {
    ghost use Rattle.raw_model.specs.Local.{TileLocal};

    ghost Value = { TileLocal };

    ghost view = { λ tile. record { regs = tile.regs; pc = tile.pc; count = tile.count; mark = tile.mark; memory = tile.memory } };
}

impl TileState {
    /// Makes the state that of another tile. This takes no memory.
    pub fn copy_from(&mut self, other: &TileState)
        ensures { self.new ≡ other.now }
    {
        self.memory.copy_from(&other.memory);
        self.regs = other.regs;
        self.pc = other.pc;
        self.count = other.count;
        self.mark = other.mark;
    }
}
