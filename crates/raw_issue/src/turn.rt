//! What a tile does in a cycle.
use crate::fetching::FEW;
use crate::making::{Destination, Move};
use crate::state::Issue;
use raw_frame::{Rank, TileId, ValueId};
use raw_grid::Net;
use std::alloc::AllocError;

/// How many operations are looked at for one that can be done.
const LOOKED_AT: usize = 12;

/// The same where few registers are left.
const LOOKED_AT_IN_NEED: usize = 48;

impl Issue<'_> {
    // Whether a plan leaves no register less than before.
    fn keeps_room(&self, tile: TileId, plan: Move) -> bool {
        match plan {
            Move::Make(making) => making.goal != Destination::Register
                || self.frees(tile, making.step),
            _ => false,
        }
    }

    // The plan for the operation at a place of those that are ready.
    fn plan_at(&self, tile: TileId, place: usize) -> Option<(Rank, Option<Move>)> {
        let waiting = self.tile(tile).ready.at(place)?;
        Some((waiting.rank, self.plan(tile, waiting.value)))
    }

    // The best that a tile can do for an operation, with the rank of that.
    fn best_plan(&self, tile: TileId) -> Option<(Rank, Move)> {
        let is_tight = self.tile(tile).registers.room() <= FEW;
        let looked_at = if is_tight {
            LOOKED_AT_IN_NEED
        } else {
            LOOKED_AT
        };
        let mut first = None;
        for place in 0..looked_at {
            let Some((rank, plan)) = self.plan_at(tile, place) else {
                break;
            };
            if let Some(plan) = plan {
                if !is_tight || self.keeps_room(tile, plan) {
                    return Some((rank, plan));
                }
                first = first.or(Some((rank, plan)));
            }
        }
        first
    }

    // The value that a tile sends in place of what it could do at a rank.
    fn value_to_send(&self, tile: TileId, best: Option<(Rank, Move)>) -> Option<ValueId> {
        let waiting = self.tile(tile).sends.at(0)?;
        let is_first = match best {
            Some((rank, _)) => waiting.rank <= rank || self.tile(tile).registers.room() <= FEW,
            None => true,
        };
        if is_first { Some(waiting.value) } else { None }
    }

    // Sends a value, if that has its turn.
    fn try_to_send(
        &mut self,
        tile: TileId,
        best: Option<(Rank, Move)>,
    ) -> Result<bool, AllocError> {
        let Some(value) = self.value_to_send(tile, best) else {
            return Ok(false);
        };
        match self.pick(tile) {
            Some(net) => self.send_value(tile, value, net),
            None => Ok(false),
        }
    }

    // Receives from a network that is full.
    fn receive_full(&mut self, tile: TileId) -> Result<bool, AllocError> {
        for net in [Net::One, Net::Two] {
            let is_full = self.wires.held(self.wires.to_tile(tile, net)) >= 4;
            if is_full && self.receive(tile, net, None)? {
                return Ok(true);
            }
        }
        Ok(false)
    }

    // Receives from the network on which more words wait.
    fn receive_any(&mut self, tile: TileId) -> Result<bool, AllocError> {
        let one = self.wires.held(self.wires.to_tile(tile, Net::One));
        let two = self.wires.held(self.wires.to_tile(tile, Net::Two));
        let net = if one >= two { Net::One } else { Net::Two };
        self.receive(tile, net, None)
    }

    // What a tile does that has nothing half done.
    fn act(&mut self, tile: TileId) -> Result<bool, AllocError> {
        let best = self.best_plan(tile);
        if self.try_to_send(tile, best)? {
            return Ok(true);
        }
        let is_making = matches!(&best, Some((_, Move::Make(_))));
        if !is_making && self.receive_full(tile)? {
            return Ok(true);
        }
        if let Some((_, plan)) = best {
            if self.do_plan(tile, plan)? {
                return Ok(true);
            }
        }
        self.receive_any(tile)
    }

    /// A tile has its turn, unless it has sent an out.
    pub(crate) fn take_turn(&mut self, tile: TileId) -> Result<(), AllocError> {
        if self.tile(tile).is_busy {
            return Ok(());
        }
        match self.tile(tile).half {
            Some(half) => self.finish_word(tile, half)?,
            None => self.act(tile)?,
        };
        Ok(())
    }
}
