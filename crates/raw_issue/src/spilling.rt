//! Registers for new values, and memory where there is none.
use crate::state::{Issue, Kept};
use crate::tile::ValuePlace;
use raw_frame::{Held, Rank, Register, Registers, TileId, ValueId};
use raw_selection::store;
use std::alloc::AllocError;

impl Issue<'_> {
    // The register whose value is needed last, of those that hold values; of those with a copy in memory alone, where
    // that is asked for.
    fn needed_last(
        &self,
        tile: TileId,
        kept: Kept,
        in_memory: bool,
    ) -> Option<(Register, ValueId)> {
        let mut best = None;
        let mut most = Rank::FIRST;
        for number in Registers::NUMBERS {
            let register = Register(number);
            if let Held::Value(value) = self.tile(tile).registers.at(register) {
                let fits = !in_memory || self.local(tile, value).cell.is_some();
                let need = self.need(tile, value);
                if fits && !kept.contains(&Some(register)) && (need > most || best.is_none()) {
                    most = need;
                    best = Some((register, value));
                }
            }
        }
        best
    }

    // A register whose value has a copy in memory.
    fn copied_register(&mut self, tile: TileId, kept: Kept) -> Option<Register> {
        let (register, value) = self.needed_last(tile, kept, true)?;
        self.set_register(tile, value, None);
        Some(register)
    }

    /// A register that is free, or is made free by what can be loaded again: a constant, or a value with a copy in
    /// memory. Registers that are kept are no such ones.
    pub(crate) fn free_register(&mut self, tile: TileId, kept: Kept) -> Option<Register> {
        if let Some(register) = self.tile(tile).registers.that_holds(Held::Nothing) {
            return Some(register);
        }
        let register = match self.tile(tile).registers.with_word(kept) {
            Some(register) => register,
            None => self.copied_register(tile, kept)?,
        };
        self.tile_mut(tile).registers.put(register, Held::Nothing);
        Some(register)
    }

    /// Stores the value that is needed last. False where there is none, or no memory for it.
    pub(crate) fn spill(&mut self, tile: TileId, kept: Kept) -> Result<bool, AllocError> {
        let Some((register, value)) = self.needed_last(tile, kept, false) else {
            return Ok(false);
        };
        let Some(cell) = self.tile_mut(tile).take_cell() else {
            return Ok(false);
        };
        self.emit(tile, store(register, cell))?;
        let mut local = self.local(tile, value);
        local.register = None;
        local.cell = Some(cell);
        self.set_local(tile, value, local);
        self.tile_mut(tile).registers.put(register, Held::Nothing);
        Ok(true)
    }

    /// A value has been used at a tile. Where that was the last use, its register and its cell are free.
    pub(crate) fn used(&mut self, tile: TileId, value: ValueId) -> Result<(), AllocError> {
        let mut local = self.local(tile, value);
        local.uses = local.uses.saturating_sub(1);
        if local.uses == 0 {
            let at = self.tile_mut(tile);
            if let Some(register) = local.register {
                at.registers.put(register, Held::Nothing);
            }
            if let Some(cell) = local.cell {
                at.free_cell(cell)?;
            }
            local = ValuePlace::NONE;
        }
        self.set_local(tile, value, local);
        Ok(())
    }
}
