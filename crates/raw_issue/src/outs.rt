//! The outs, which are sent in their order.
use crate::state::Issue;
use raw_frame::{Held, Register, TileId, ValueId};
use raw_graph::Operand;
use raw_grid::Net;
use raw_selection::{copy, load};
use raw_tile_isa::{NETWORK_1, li};
use std::alloc::AllocError;

/// The register that stands for the network of the sink.
const TO_SINK: Register = Register(NETWORK_1);

impl Issue<'_> {
    // Whether an out is at the tile that sends it.
    fn is_here(&self, tile: TileId, out: Operand) -> bool {
        match out {
            Operand::Word(_) => true,
            Operand::Value(value) => {
                self.local(tile, value).is_kept() || self.on_network(tile, value).is_some()
            }
        }
    }

    // Whether the next out can be sent in this cycle.
    fn can_send(&self, tile: TileId, out: Operand) -> bool {
        let at = self.tile(tile);
        !at.is_busy
            && at.half.is_none()
            && self.wires.has_room(self.wires.from_tile(tile, Net::One))
            && self.is_here(tile, out)
    }

    // Sends a constant, or loads it first.
    fn send_word(&mut self, tile: TileId, word: u32) -> Result<bool, AllocError> {
        let held = self.tile(tile).registers.that_holds(Held::Word(word));
        let (first, second) = li(NETWORK_1, word);
        match held {
            Some(register) => self.emit(tile, copy(TO_SINK, register))?,
            None if second.is_none() => self.emit(tile, first)?,
            None => return self.load_word(tile, word, None),
        }
        self.tile_mut(tile).constant_used(word);
        self.send_next_out(tile);
        Ok(true)
    }

    // Sends a value that comes from a network, or receives what is before it.
    fn send_from_network(&mut self, tile: TileId, value: ValueId) -> Result<bool, AllocError> {
        let Some((net, place)) = self.on_network(tile, value) else {
            return Ok(false);
        };
        if place > 0 || self.local(tile, value).uses != 1 {
            return self.receive(tile, net, None);
        }
        self.take(tile, net);
        self.emit(tile, copy(TO_SINK, Register::of_network(net)))?;
        self.used(tile, value)?;
        self.send_next_out(tile);
        Ok(true)
    }

    // Sends a value from its register or from memory.
    fn send_kept(&mut self, tile: TileId, value: ValueId) -> Result<bool, AllocError> {
        let local = self.local(tile, value);
        match (local.register, local.cell) {
            (Some(register), _) => self.emit(tile, copy(TO_SINK, register))?,
            (None, Some(cell)) => self.emit(tile, load(TO_SINK, cell))?,
            (None, None) => return self.send_from_network(tile, value),
        }
        self.used(tile, value)?;
        self.send_next_out(tile);
        Ok(true)
    }

    // Sends the next out, if it can be; whether the one behind it may follow.
    fn send_out(&mut self) -> Result<bool, AllocError> {
        let before = self.next_out;
        let Some(out) = self.task.out(before) else {
            return Ok(false);
        };
        let tile = self.task.holder(before);
        if !self.can_send(tile, out) {
            return Ok(false);
        }
        let has_acted = match out {
            Operand::Word(word) => self.send_word(tile, word)?,
            Operand::Value(value) => self.send_kept(tile, value)?,
        };
        self.tile_mut(tile).is_busy = has_acted;
        Ok(self.next_out != before)
    }

    /// Sends the outs whose turn it is in this cycle, at most one a tile.
    pub(crate) fn send_outs(&mut self) -> Result<(), AllocError> {
        for _ in 0..self.task.part.tiles() {
            if !self.send_out()? {
                break;
            }
        }
        Ok(())
    }
}
