//! What a tile does.
use crate::making::{Destination, Move, ReadyOperation};
use crate::state::{Issue, OperandPlace};
use raw_frame::{Arrival, Held, OutId, Rank, Register, TileId, TileSet, ValueId, Word};
use raw_graph::Operand;
use raw_grid::Net;
use raw_selection::{copy, load};
use std::alloc::AllocError;

impl Issue<'_> {
    // Takes what an operand is from its network.
    fn take_source(&mut self, tile: TileId, source: OperandPlace) {
        if let OperandPlace::Network(net) = source {
            self.take(tile, net);
        }
    }

    // An operand has been read.
    fn operand_used(&mut self, tile: TileId, operand: Operand) -> Result<(), AllocError> {
        match operand {
            Operand::Value(value) => self.used(tile, value),
            Operand::Word(word) => {
                self.tile_mut(tile).constant_used(word);
                Ok(())
            }
        }
    }

    // The operands of an operation have been read. An immediate is no constant that was loaded.
    fn operands_used(&mut self, tile: TileId, making: ReadyOperation) -> Result<(), AllocError> {
        let first = making.step.first();
        match making.step.second() {
            Some(second) if second == first => self.operand_used(tile, first),
            Some(second) => {
                self.operand_used(tile, first)?;
                self.operand_used(tile, second)
            }
            None => self.operand_used(tile, first),
        }
    }

    /// A word that goes to all tiles that need a value.
    pub(crate) fn word_of(&self, value: ValueId) -> Word {
        Word {
            value: Some(value),
            tiles: self.task.needers.at(value),
            out: None,
            rank: self.task.sends.at(value),
        }
    }

    /// Sends the next out.
    pub(crate) fn send_next_out(&mut self, tile: TileId) {
        let word = Word {
            value: None,
            tiles: TileSet::NONE,
            out: Some(self.next_out),
            rank: Rank::FIRST,
        };
        let wire = self.wires.from_tile(tile, Net::One);
        self.wires.send(wire, word);
        self.next_out = OutId(self.next_out.0.saturating_add(1));
    }

    // A value that was made is put where it goes; the register that is written.
    fn put(&mut self, tile: TileId, making: ReadyOperation) -> Result<Register, AllocError> {
        match making.goal {
            Destination::Network(net) => {
                let word = self.word_of(making.value);
                let wire = self.wires.from_tile(tile, net);
                self.wires.send(wire, word);
                Ok(Register::of_network(net))
            }
            Destination::Sink => {
                self.send_next_out(tile);
                Ok(Register::of_network(Net::One))
            }
            Destination::Register => self.put_in_register(tile, making.value),
        }
    }

    // The same of a value that is kept in a register.
    fn put_in_register(&mut self, tile: TileId, value: ValueId) -> Result<Register, AllocError> {
        let register = self.free_register(tile, [None, None]);
        let to = register.unwrap_or(Register::ZERO);
        self.tile_mut(tile).registers.put(to, Held::Value(value));
        self.set_register(tile, value, register);
        self.made.push(Arrival { tile, value })?;
        Ok(to)
    }

    // Whether there will be a register for what is made.
    fn has_place(&mut self, tile: TileId, making: ReadyOperation) -> bool {
        if making.goal != Destination::Register || self.frees(tile, making.step) {
            return true;
        }
        let kept = [making.first.kept(), making.second.kept()];
        self.free_register(tile, kept).is_some()
    }

    // Does an operation, or makes room for what it makes.
    fn make(&mut self, tile: TileId, making: ReadyOperation) -> Result<bool, AllocError> {
        if !self.has_place(tile, making) {
            let kept = [making.first.kept(), making.second.kept()];
            return self.spill(tile, kept);
        }
        self.take_source(tile, making.first);
        self.take_source(tile, making.second);
        self.operands_used(tile, making)?;
        let to = self.put(tile, making)?;
        let (first, second) = (making.first.register(), making.second.register());
        self.emit(tile, making.step.instruction(to, first, second))?;
        self.set_issued(tile, making.value);
        Ok(true)
    }

    /// Does what was planned, or makes room for it. False where nothing could be done.
    pub(crate) fn do_plan(&mut self, tile: TileId, plan: Move) -> Result<bool, AllocError> {
        match plan {
            Move::Make(making) => self.make(tile, making),
            Move::Fetch { found, kept } => self.fetch(tile, found, kept),
        }
    }

    /// Sends a value that has been made to the tiles that need it.
    pub(crate) fn send_value(
        &mut self,
        tile: TileId,
        value: ValueId,
        net: Net,
    ) -> Result<bool, AllocError> {
        let local = self.local(tile, value);
        let to = Register::of_network(net);
        match (local.register, local.cell) {
            (Some(register), _) => self.emit(tile, copy(to, register))?,
            (None, Some(cell)) => self.emit(tile, load(to, cell))?,
            (None, None) => return Ok(false),
        }
        let word = self.word_of(value);
        let wire = self.wires.from_tile(tile, net);
        self.wires.send(wire, word);
        let waiting = self.sending(value);
        self.tile_mut(tile).sends.remove(waiting);
        self.used(tile, value)?;
        Ok(true)
    }
}
