//! What a tile can do for an operation.
use crate::finding::{OperandFound, Reading};
use crate::state::{Issue, OperandPlace};
use raw_frame::{Register, TileId, ValueId};
use raw_graph::Operand;
use raw_grid::Net;
use raw_selection::Operation;

/// Where a value goes that is made.
#[derive(Clone, Copy, PartialEq, Eq)]
pub(crate) enum Destination {
    Register,
    /// To other tiles alone.
    Network(Net),
    /// To the sink alone.
    Sink,
}

/// An operation that can be done now.
#[derive(Clone, Copy)]
pub(crate) struct ReadyOperation {
    pub(crate) value: ValueId,
    pub(crate) step: Operation,
    pub(crate) first: OperandPlace,
    pub(crate) second: OperandPlace,
    pub(crate) goal: Destination,
}

/// What a tile can do for an operation.
#[derive(Clone, Copy)]
pub(crate) enum Move {
    Make(ReadyOperation),
    /// An operand has to be received or loaded first, while a register keeps what it holds.
    Fetch {
        found: OperandFound,
        kept: Option<Register>,
    },
}

// Whether an operand has to be received or loaded, and its turn then: words on networks come first.
fn turn_of(found: OperandFound) -> Option<u8> {
    match found {
        OperandFound::OnNetwork(_) => Some(0),
        OperandFound::InMemory { .. } => Some(1),
        OperandFound::Constant(_) => Some(2),
        OperandFound::At(_) | OperandFound::Nowhere => None,
    }
}

// What has to be done first, of two operands.
fn to_fetch(first: OperandFound, second: OperandFound) -> Option<Move> {
    let (found, kept) = match (turn_of(first), turn_of(second)) {
        (Some(one), Some(two)) if two < one => (second, first.kept()),
        (Some(_), _) => (first, second.kept()),
        (None, Some(_)) => (second, first.kept()),
        (None, None) => return None,
    };
    Some(Move::Fetch { found, kept })
}

// The network from which a word has to be received so that one operand comes to its front.
fn behind(reading: Reading) -> Option<Net> {
    match reading.source {
        OperandPlace::Network(net) if reading.behind > 0 => Some(net),
        _ => None,
    }
}

// The same of two operands. Where both come from one network, they have to be different words, in the order in which
// they are read.
fn in_the_way(step: Operation, first: Reading, second: Reading) -> Option<Net> {
    match (first.source, second.source) {
        (OperandPlace::Network(one), OperandPlace::Network(two)) if one == two => {
            match (first.behind, second.behind) {
                (0, 1) => None,
                (1, 0) if step.commutes() => None,
                _ => Some(one),
            }
        }
        _ => behind(first).or(behind(second)),
    }
}

impl Issue<'_> {
    /// Whether a value is in a register that its next use frees.
    fn is_freed(&self, tile: TileId, operand: Operand) -> bool {
        match operand {
            Operand::Value(value) => {
                let local = self.local(tile, value);
                local.register.is_some() && local.uses == 1
            }
            Operand::Word(_) => false,
        }
    }

    /// Whether an operation frees a register.
    pub(crate) fn frees(&self, tile: TileId, step: Operation) -> bool {
        let second = match step.second() {
            Some(second) => self.is_freed(tile, second),
            None => false,
        };
        second || self.is_freed(tile, step.first())
    }

    /// The network on which a value is sent: the second, if it is not much fuller than the first.
    pub(crate) fn pick(&self, tile: TileId) -> Option<Net> {
        let one = self.wires.from_tile(tile, Net::One);
        let two = self.wires.from_tile(tile, Net::Two);
        let is_fuller = self.wires.held(two) > self.wires.held(one).saturating_add(1);
        if self.wires.has_room(two) && !is_fuller {
            Some(Net::Two)
        } else if self.wires.has_room(one) {
            Some(Net::One)
        } else if self.wires.has_room(two) {
            Some(Net::Two)
        } else {
            None
        }
    }

    // Where a value goes; none where it has to wait.
    fn goal(&self, tile: TileId, value: ValueId) -> Option<Destination> {
        let outs = self.task.graph.outs_of(value);
        let is_brought = !self.task.needers.at(value).is_empty();
        if self.task.local_uses.at(value) > 0 {
            return Some(Destination::Register);
        }
        if is_brought && outs.is_empty() {
            let net = self.pick(tile)?;
            return Some(Destination::Network(net));
        }
        let is_next = outs.len() == 1 && outs.first() == Some(&self.next_out);
        let has_room = self.wires.has_room(self.wires.from_tile(tile, Net::One));
        if !is_brought && is_next && has_room {
            Some(Destination::Sink)
        } else {
            Some(Destination::Register)
        }
    }

    // The operation, or what has to be received first.
    fn plan_making(
        &self,
        tile: TileId,
        value: ValueId,
        step: Operation,
        first: Reading,
        second: Reading,
    ) -> Option<Move> {
        if let Some(net) = in_the_way(step, first, second) {
            let kept = first.source.kept().or(second.source.kept());
            let found = OperandFound::OnNetwork(net);
            return Some(Move::Fetch { found, kept });
        }
        let goal = self.goal(tile, value)?;
        Some(Move::Make(ReadyOperation {
            value,
            step,
            first: first.source,
            second: second.source,
            goal,
        }))
    }

    // Where the second operand is; register 0 stands for none.
    fn find_second(&self, tile: TileId, step: Operation) -> OperandFound {
        self.find(tile, step.second().unwrap_or(Operand::Word(0)))
    }

    /// What a tile can do for a value, if anything.
    pub(crate) fn plan(&self, tile: TileId, value: ValueId) -> Option<Move> {
        let step = self.task.step(value)?;
        let first = self.find(tile, step.first());
        let second = self.find_second(tile, step);
        if let Some(plan) = to_fetch(first, second) {
            return Some(plan);
        }
        match (first, second) {
            (OperandFound::At(first), OperandFound::At(second)) => {
                self.plan_making(tile, value, step, first, second)
            }
            _ => None,
        }
    }
}
