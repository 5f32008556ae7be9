//! What is to be scheduled, and what is known of it from the start.
use raw_frame::{OutId, Part, Rank, Table, TileId, TileSet, ValueId};
use raw_graph::{Graph, Operand};
use raw_grid::{Dir, Net};
use raw_selection::{Operation, step_of};
use std::alloc::{AllocError, Global};

/// A graph on a part of a grid, with the tile and the rank of each value.
#[derive(Drop)]
pub(crate) struct Task<'a> {
    pub(crate) graph: &'a Graph,
    pub(crate) part: Part,
    /// The tile at which each value is made.
    pub(crate) homes: &'a Table<ValueId, TileId>,
    pub(crate) ranks: &'a Table<ValueId, Rank>,
    /// The rank of each value on its way to others: the least of its users.
    pub(crate) sends: Table<ValueId, Rank>,
    /// The tiles to which each value is brought.
    pub(crate) needers: Table<ValueId, TileSet>,
    /// How many operations use each value at the tile where it is made.
    pub(crate) local_uses: Table<ValueId, usize>,
    /// The outs that pass each switch, in their order.
    passing: Vec<Vec<OutId>>,
    /// The tiles that lie in each direction of each tile.
    towards: Table<usize, TileSet>,
}

// The tiles that lie in each direction of each tile.
fn towards(alloc: Global, part: Part) -> Result<Table<usize, TileSet>, AllocError> {
    let mut towards = Table::new(alloc, 0, TileSet::NONE)?;
    for tile in (0..part.tiles()).map(TileId) {
        for dir in Dir::ALL {
            towards.push(part.tiles_towards(tile, dir))?;
        }
    }
    Ok(towards)
}

// Lists for so many tiles.
fn lists(alloc: Global, tiles: usize) -> Result<Vec<Vec<OutId>>, AllocError> {
    let mut lists = Vec::new(alloc);
    for _ in 0..tiles {
        lists.push(Vec::new(alloc))?;
    }
    Ok(lists)
}

impl<'a> Task<'a> {
    /// The task of a graph with these homes and ranks.
    pub(crate) fn new(
        alloc: Global,
        graph: &'a Graph,
        part: Part,
        homes: &'a Table<ValueId, TileId>,
        ranks: &'a Table<ValueId, Rank>,
    ) -> Result<Task<'a>, AllocError> {
        let count = graph.count();
        let mut task = Task {
            graph,
            part,
            homes,
            ranks,
            sends: Table::new(alloc, count, Rank::LAST)?,
            needers: Table::new(alloc, count, TileSet::NONE)?,
            local_uses: Table::new(alloc, count, 0)?,
            passing: lists(alloc, part.tiles())?,
            towards: towards(alloc, part)?,
        };
        for value in (0..count).map(ValueId) {
            task.note_value(value);
        }
        for out in (0..graph.outs().len()).map(OutId) {
            task.note_out(out)?;
        }
        Ok(task)
    }

    // A value is needed at a tile that it has to be brought to.
    fn add_needer(&mut self, value: ValueId, tile: TileId) {
        let tiles = self.needers.at(value).with(tile);
        self.needers.put(value, tiles);
    }

    // A value is used by another.
    fn note_use(&mut self, value: ValueId, user: ValueId, is_input: bool) {
        let rank = self.sends.at(value).min(self.ranks.at(user));
        self.sends.put(value, rank);
        if is_input || self.homes.at(user) != self.homes.at(value) {
            self.add_needer(value, self.homes.at(user));
        } else {
            let uses = self.local_uses.at(value).saturating_add(1);
            self.local_uses.put(value, uses);
        }
    }

    // What is known of a value.
    fn note_value(&mut self, value: ValueId) {
        let graph = self.graph;
        let is_input = graph.origin(value).is_input();
        for user in graph.users(value) {
            self.note_use(value, *user, is_input);
        }
        if is_input && !graph.outs_of(value).is_empty() {
            self.add_needer(value, self.homes.at(value));
        }
    }

    // The switches that an out passes.
    fn note_out(&mut self, out: OutId) -> Result<(), AllocError> {
        let mut at = Some(self.holder(out));
        for _ in 0..16 {
            let Some(tile) = at else {
                break;
            };
            if let Some(list) = self.passing.get_mut(tile.0) {
                list.push(out)?;
            }
            at = self.part.next_homewards(tile);
        }
        Ok(())
    }

    /// The instruction that makes a value.
    pub(crate) fn step(&self, value: ValueId) -> Option<Operation> {
        step_of(self.graph.origin(value))
    }

    /// An out.
    pub(crate) fn out(&self, out: OutId) -> Option<Operand> {
        self.graph.outs().get(out.0).copied()
    }

    /// The tile that sends an out.
    pub(crate) fn holder(&self, out: OutId) -> TileId {
        match self.out(out) {
            Some(Operand::Value(value)) => self.homes.at(value),
            Some(Operand::Word(_)) | None => TileId::CORNER,
        }
    }

    /// The out that passes a switch behind so many others.
    pub(crate) fn passing(&self, tile: TileId, place: usize) -> Option<OutId> {
        self.passing.get(tile.0)?.get(place).copied()
    }

    // The tiles in a direction.
    fn tiles_towards(&self, tile: TileId, dir: Dir) -> TileSet {
        let place = tile
            .0
            .saturating_mul(5)
            .saturating_add(usize::from(dir.index()));
        self.towards.at(place)
    }

    /// Of the tiles to which a word goes, those that it goes on to in a direction: on network 1 by columns first, on
    /// network 2 by rows first.
    pub(crate) fn share(&self, tile: TileId, net: Net, dir: Dir, tiles: TileSet) -> TileSet {
        let tiles = tiles.and(self.tiles_towards(tile, dir));
        let (one, two) = match (net, dir) {
            (Net::One, Dir::N | Dir::S) => (Dir::E, Dir::W),
            (Net::Two, Dir::E | Dir::W) => (Dir::N, Dir::S),
            _ => return tiles,
        };
        tiles
            .without(self.tiles_towards(tile, one))
            .without(self.tiles_towards(tile, two))
    }
}
