//! The state of a schedule.
use crate::board::Board;
use crate::queues::Queues;
use crate::receiving::Coming;
use crate::sending::Message;
use crate::task::{LocalId, OperandId, Task};
use raw_body::SourceId;
use raw_frame::{Numbered, Table, TileId, ValueId, net_index};
use raw_grid::{Dir, Net};
use std::alloc::{AllocError, Global};

/// What has its time at an interval, and what is taken by that.
#[derive(Drop)]
pub struct Schedule<'a> {
    pub(crate) task: &'a Task<'a>,
    /// How many cycles a row is behind the one before.
    pub interval: usize,
    /// So many cycles before its use a word is loaded at most.
    pub(crate) reach: usize,
    /// The cycles of tiles.
    pub(crate) tiles: Board<TileId>,
    /// The outputs of switches.
    pub(crate) links: Board<Link>,
    /// The inputs of switches from their tiles, by networks.
    pub(crate) leaving: Board<Lane>,
    /// The sources.
    pub(crate) sources: Board<SourceId>,
    /// The queues to tiles, by networks.
    pub(crate) inward: Queues,
    /// The queues from tiles.
    pub(crate) outward: Queues,
    /// When each value is made, or leaves its source.
    pub made: Table<ValueId, Option<usize>>,
    /// When each value is sent by an instruction of its own.
    pub sent: Table<ValueId, Option<usize>>,
    /// How each value goes to other tiles, to its sink or back.
    pub messages: Table<ValueId, Option<Message>>,
    /// How each local comes.
    pub comings: Table<LocalId, Option<Coming>>,
    /// When each local is stored.
    pub stored: Table<LocalId, Option<usize>>,
    /// When the constant of each value is loaded.
    pub constants: Table<ValueId, Option<usize>>,
    /// When each operand is loaded from memory.
    pub loaded: Table<OperandId, Option<usize>>,
    /// How many hops there are on each network.
    pub(crate) traffic: [usize; 2],
    /// How many tries are left.
    pub(crate) left: usize,
}

/// A lane or a queue of a tile on a network.
#[derive(Clone, Copy)]
pub(crate) struct Lane(pub(crate) usize);

/// An output of a switch.
#[derive(Clone, Copy)]
pub(crate) struct Link(usize);

impl Numbered for Lane {
    fn number(self) -> usize {
        self.0
    }
}

impl Numbered for Link {
    fn number(self) -> usize {
        self.0
    }
}

impl Lane {
    /// That of a tile on a network.
    pub(crate) fn of(tile: TileId, net: Net) -> Lane {
        Lane(tile.0.saturating_mul(2).saturating_add(net_index(net)))
    }
}

impl Link {
    /// That of the switch beside a tile in a direction.
    pub(crate) fn of(tile: TileId, net: Net, dir: Dir) -> Link {
        let first = Lane::of(tile, net).0.saturating_mul(5);
        Link(first.saturating_add(usize::from(dir.index())))
    }
}

impl<'a> Schedule<'a> {
    /// Nothing has its time.
    pub(crate) fn new(
        alloc: Global,
        task: &'a Task<'a>,
        interval: usize,
        reach: usize,
        left: usize,
    ) -> Result<Schedule<'a>, AllocError> {
        let tiles = task.site.part.tiles();
        let lanes = tiles.saturating_mul(2);
        let (count, locals) = (task.body.count(), task.locals.size());
        Ok(Schedule {
            task,
            interval,
            reach,
            tiles: Board::new(alloc, tiles, interval)?,
            links: Board::new(alloc, lanes.saturating_mul(5), interval)?,
            leaving: Board::new(alloc, lanes, interval)?,
            sources: Board::new(alloc, task.site.sources.len(), interval)?,
            inward: Queues::new(alloc, lanes, interval)?,
            outward: Queues::new(alloc, lanes, interval)?,
            made: Table::new(alloc, count, None)?,
            sent: Table::new(alloc, count, None)?,
            messages: Table::new(alloc, count, None)?,
            comings: Table::new(alloc, locals, None)?,
            stored: Table::new(alloc, locals, None)?,
            constants: Table::new(alloc, count, None)?,
            loaded: Table::new(alloc, count.saturating_mul(2), None)?,
            traffic: [0, 0],
            left,
        })
    }

    // The last free cycle of a tile before one, not before a least one and not too long before. It is taken.
    pub(crate) fn take_before(&mut self, tile: TileId, time: usize, least: usize) -> Option<usize> {
        for step in 1..self.reach {
            let at = time.checked_sub(step)?;
            if at < least {
                return None;
            }
            if self.tiles.is_free(tile, at) {
                self.tiles.put(tile, at, true);
                return Some(at);
            }
        }
        None
    }

    // The first free cycle of a tile behind one. It is taken.
    pub(crate) fn take_behind(&mut self, tile: TileId, time: usize) -> Option<usize> {
        for step in 1..self.interval {
            let at = time.saturating_add(step);
            if self.tiles.is_free(tile, at) {
                self.tiles.put(tile, at, true);
                return Some(at);
            }
        }
        None
    }

    // A cycle of a tile is free again.
    pub(crate) fn give_back(&mut self, tile: TileId, time: Option<usize>) {
        if let Some(time) = time {
            self.tiles.put(tile, time, false);
        }
    }
}
