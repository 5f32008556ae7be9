//! Where an operand is.
use crate::state::{Issue, OperandPlace};
use raw_frame::{Held, Rank, Register, TileId, ValueId};
use raw_graph::Operand;
use raw_grid::Net;
use raw_selection::Cell;

/// Where an operand can be read.
#[derive(Clone, Copy)]
pub(crate) struct Reading {
    pub(crate) source: OperandPlace,
    /// How many words stand before it on its network.
    pub(crate) behind: usize,
}

impl Reading {
    // From a register.
    fn register(register: Register) -> Reading {
        Reading {
            source: OperandPlace::Register(register),
            behind: 0,
        }
    }
}

/// Where an operand is, or what has to be done first.
#[derive(Clone, Copy)]
pub(crate) enum OperandFound {
    At(Reading),
    /// A word has to be received from a network.
    OnNetwork(Net),
    /// It has to be loaded from memory.
    InMemory { value: ValueId, cell: Cell },
    /// A constant that has to be loaded.
    Constant(u32),
    /// It has not come.
    Nowhere,
}

impl OperandFound {
    /// The register that has to keep what it holds.
    pub(crate) fn kept(self) -> Option<Register> {
        match self {
            OperandFound::At(reading) => reading.source.kept(),
            _ => None,
        }
    }
}

impl Issue<'_> {
    // The place of a value on the wire from a network to a tile.
    fn place_on(&self, tile: TileId, net: Net, value: ValueId) -> Option<usize> {
        let wire = self.wires.to_tile(tile, net);
        for place in 0..4 {
            if self.wires.word(wire, place)?.value == Some(value) {
                return Some(place);
            }
        }
        None
    }

    /// The network from which a value comes to a tile, and behind how many words.
    pub(crate) fn on_network(&self, tile: TileId, value: ValueId) -> Option<(Net, usize)> {
        if let Some(place) = self.place_on(tile, Net::One, value) {
            return Some((Net::One, place));
        }
        let place = self.place_on(tile, Net::Two, value)?;
        Some((Net::Two, place))
    }

    // Where a constant is.
    fn find_word(&self, tile: TileId, word: u32) -> OperandFound {
        if word == 0 {
            return OperandFound::At(Reading::register(Register::ZERO));
        }
        match self.tile(tile).registers.that_holds(Held::Word(word)) {
            Some(register) => OperandFound::At(Reading::register(register)),
            None => OperandFound::Constant(word),
        }
    }

    // Where a value is.
    fn find_value(&self, tile: TileId, value: ValueId) -> OperandFound {
        let local = self.local(tile, value);
        if let Some(register) = local.register {
            return OperandFound::At(Reading::register(register));
        }
        if let Some(cell) = local.cell {
            return OperandFound::InMemory { value, cell };
        }
        match self.on_network(tile, value) {
            Some((net, behind)) if behind < 2 && local.uses == 1 => OperandFound::At(Reading {
                source: OperandPlace::Network(net),
                behind,
            }),
            Some((net, _)) => OperandFound::OnNetwork(net),
            None => OperandFound::Nowhere,
        }
    }

    /// Where an operand is at a tile.
    pub(crate) fn find(&self, tile: TileId, operand: Operand) -> OperandFound {
        match operand {
            Operand::Word(word) => self.find_word(tile, word),
            Operand::Value(value) => self.find_value(tile, value),
        }
    }

    /// The least rank of what still needs a value at a tile.
    pub(crate) fn need(&self, tile: TileId, value: ValueId) -> Rank {
        let mut least = Rank::LAST;
        for user in self.task.graph.users(value) {
            if self.task.homes.at(*user) == tile && !self.issued.at(*user) {
                least = self.task.ranks.at(*user).min(least);
            }
        }
        if self.tile(tile).sends.has(self.sending(value)) {
            self.task.sends.at(value).min(least)
        } else {
            least
        }
    }
}
