//! What has to be done before an operand can be read.
use crate::finding::OperandFound;
use crate::state::Issue;
use crate::tile::HalfConstant;
use raw_frame::{Held, Register, TileId, ValueId};
use raw_grid::Net;
use raw_selection::{Cell, copy, load, store};
use raw_tile_isa::li;
use std::alloc::AllocError;

/// With so few registers left, values go to memory that are not needed at once.
pub(crate) const FEW: usize = 2;

impl Issue<'_> {
    // Whether a value is the last operand of an operation at a tile.
    fn is_urgent(&self, tile: TileId, value: ValueId) -> bool {
        for user in self.task.graph.users(value) {
            if self.task.homes.at(*user) == tile && self.missing.at(*user) == 0 {
                return true;
            }
        }
        false
    }

    /// Takes a word from a network.
    pub(crate) fn take(&mut self, tile: TileId, net: Net) {
        let wire = self.wires.to_tile(tile, net);
        self.wires.take(wire);
    }

    // Receives a value into memory.
    fn receive_to_memory(
        &mut self,
        tile: TileId,
        net: Net,
        value: ValueId,
    ) -> Result<bool, AllocError> {
        let Some(cell) = self.tile_mut(tile).take_cell() else {
            return Ok(false);
        };
        self.take(tile, net);
        self.emit(tile, store(Register::of_network(net), cell))?;
        let mut local = self.local(tile, value);
        local.cell = Some(cell);
        self.set_local(tile, value, local);
        Ok(true)
    }

    // From now on a register of a tile holds a value.
    fn keep(&mut self, tile: TileId, value: ValueId, register: Register) {
        self.tile_mut(tile)
            .registers
            .put(register, Held::Value(value));
        self.set_register(tile, value, Some(register));
    }

    /// Receives the value at the front of a network. False where there is none, or no place for it.
    pub(crate) fn receive(
        &mut self,
        tile: TileId,
        net: Net,
        kept: Option<Register>,
    ) -> Result<bool, AllocError> {
        let wire = self.wires.to_tile(tile, net);
        let Some(word) = self.wires.word(wire, 0) else {
            return Ok(false);
        };
        let Some(value) = word.value else {
            return Ok(false);
        };
        if self.tile(tile).registers.room() <= FEW
            && !self.is_urgent(tile, value)
            && self.receive_to_memory(tile, net, value)?
        {
            return Ok(true);
        }
        let Some(register) = self.free_register(tile, [kept, None]) else {
            return self.receive_to_memory(tile, net, value);
        };
        self.take(tile, net);
        self.emit(tile, copy(register, Register::of_network(net)))?;
        self.keep(tile, value, register);
        Ok(true)
    }

    // Loads a value from its cell, or makes room for it.
    fn load(
        &mut self,
        tile: TileId,
        value: ValueId,
        cell: Cell,
        kept: Option<Register>,
    ) -> Result<bool, AllocError> {
        let Some(register) = self.free_register(tile, [kept, None]) else {
            return self.spill(tile, [kept, None]);
        };
        self.emit(tile, load(register, cell))?;
        self.keep(tile, value, register);
        Ok(true)
    }

    /// Loads a constant or its upper half, or makes room for it.
    pub(crate) fn load_word(
        &mut self,
        tile: TileId,
        word: u32,
        kept: Option<Register>,
    ) -> Result<bool, AllocError> {
        let Some(register) = self.free_register(tile, [kept, None]) else {
            return self.spill(tile, [kept, None]);
        };
        let (first, second) = li(register.field(), word);
        self.emit(tile, first)?;
        let at = self.tile_mut(tile);
        if second.is_some() {
            at.registers.put(register, Held::Half(word));
            at.half = Some(HalfConstant { register, word });
        } else {
            at.registers.put(register, Held::Word(word));
        }
        Ok(true)
    }

    /// Receives or loads an operand, or makes room for it.
    pub(crate) fn fetch(
        &mut self,
        tile: TileId,
        found: OperandFound,
        kept: Option<Register>,
    ) -> Result<bool, AllocError> {
        match found {
            OperandFound::OnNetwork(net) => self.receive(tile, net, kept),
            OperandFound::InMemory { value, cell } => self.load(tile, value, cell, kept),
            OperandFound::Constant(word) => self.load_word(tile, word, kept),
            OperandFound::At(_) | OperandFound::Nowhere => Ok(false),
        }
    }

    /// Loads the lower half of a constant.
    pub(crate) fn finish_word(
        &mut self,
        tile: TileId,
        half: HalfConstant,
    ) -> Result<bool, AllocError> {
        let (_, second) = li(half.register.field(), half.word);
        if let Some(second) = second {
            self.emit(tile, second)?;
        }
        let at = self.tile_mut(tile);
        at.registers.put(half.register, Held::Word(half.word));
        at.half = None;
        Ok(true)
    }
}
