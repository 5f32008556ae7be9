//! The search for the tile of a value.
use crate::paths::Paths;
use crate::placing::Style;
use raw_frame::{Part, Slots, Table, TileId, ValueId};
use raw_graph::{Graph, Origin};
use std::alloc::{AllocError, Global};

/// How many values of a path are looked at for what it needs from elsewhere.
const LOOKED_AT: usize = 31;

/// What is known of the values that have been placed.
#[derive(Drop)]
pub(crate) struct Search<'a> {
    graph: &'a Graph,
    part: Part,
    style: Style,
    paths: Paths,
    homes: Table<ValueId, TileId>,
    placed: Table<ValueId, bool>,
    /// When each value has been made.
    ends: Table<ValueId, usize>,
    /// How many cycles each tile has to do.
    loads: Table<TileId, usize>,
    slots: Slots,
    /// When each value has come to each tile.
    copies: Table<usize, Option<usize>>,
    /// Whether each value has been sent.
    sent: Table<ValueId, bool>,
    /// The values that a path needs from elsewhere.
    needed: Vec<ValueId>,
}

impl<'a> Search<'a> {
    /// Nothing is placed yet.
    pub(crate) fn new(
        alloc: Global,
        graph: &'a Graph,
        part: Part,
        style: Style,
        paths: Paths,
    ) -> Result<Search<'a>, AllocError> {
        let count = graph.count();
        let tiles = part.tiles();
        Ok(Search {
            graph,
            part,
            style,
            paths,
            homes: Table::new(alloc, count, TileId::CORNER)?,
            placed: Table::new(alloc, count, false)?,
            ends: Table::new(alloc, count, 0)?,
            loads: Table::new(alloc, tiles, 0)?,
            slots: Slots::new(alloc, tiles)?,
            copies: Table::new(alloc, count.saturating_mul(tiles), None)?,
            sent: Table::new(alloc, count, false)?,
            needed: Vec::new(alloc),
        })
    }

    /// The tile of each value.
    pub(crate) fn into_homes(self) -> Table<ValueId, TileId> {
        self.homes
    }

    // The place of a value at a tile among the copies.
    fn copy_place(&self, value: ValueId, tile: TileId) -> usize {
        value
            .0
            .saturating_mul(self.part.tiles())
            .saturating_add(tile.0)
    }

    // When a value has come to a tile.
    fn copy(&self, value: ValueId, tile: TileId) -> Option<usize> {
        self.copies.at(self.copy_place(value, tile))
    }

    // Whether a value is used more than once: then it is sent and received by instructions of their own.
    fn is_shared(&self, value: ValueId) -> bool {
        self.graph.users(value).len() > 1
    }

    // Whether a value is made at a tile.
    fn is_here(&self, value: ValueId, tile: TileId) -> bool {
        !self.graph.origin(value).is_input() && self.homes.at(value) == tile
    }

    // When a value can be used at a tile.
    fn arrival(&self, value: ValueId, tile: TileId) -> usize {
        if let Some(time) = self.copy(value, tile) {
            return time;
        }
        let shared = usize::from(self.is_shared(value));
        match self.graph.origin(value) {
            Origin::Input(input) => {
                let way = self.part.distance(TileId::CORNER, tile).saturating_add(2);
                input.0.saturating_add(way).saturating_add(shared)
            }
            Origin::Made { .. } => self.arrival_of_made(value, tile, shared),
        }
    }

    // The same of a value that is made.
    fn arrival_of_made(&self, value: ValueId, tile: TileId, shared: usize) -> usize {
        let end = self.ends.at(value);
        let home = self.homes.at(value);
        if home == tile {
            return end;
        }
        let way = self.part.distance(home, tile).saturating_add(1);
        end.saturating_add(way)
            .saturating_add(2_usize.saturating_mul(shared))
    }

    // The first free cycle at a tile in which a value can be made there.
    fn earliest(&self, value: ValueId, tile: TileId) -> usize {
        let mut ready = 0;
        for operand in self.graph.origin(value).values() {
            if let Some(operand) = operand {
                ready = self.arrival(operand, tile).max(ready);
            }
        }
        self.slots.free_from(tile, ready)
    }

    // How many values the rest of a path has, from a value on.
    fn path_length(&self, value: ValueId) -> usize {
        let mut length: usize = 1;
        let mut at = value;
        for _ in 0..self.graph.count() {
            match self.next(at) {
                Some(next) => at = next,
                None => break,
            }
            length = length.saturating_add(1);
        }
        length
    }

    // The next value of a path, where paths stay together.
    fn next(&self, value: ValueId) -> Option<ValueId> {
        if self.style.along_paths {
            self.paths.next.at(value)
        } else {
            None
        }
    }

    // Adds to what a tile has to do.
    fn add_load(&mut self, tile: TileId, cycles: usize) {
        let load = self.loads.at(tile).saturating_add(cycles);
        self.loads.put(tile, load);
    }

    // A tile at which a value can be made earlier than at the tile of its path, by more than the slack.
    fn earlier_tile(&self, value: ValueId, home: TileId) -> TileId {
        let mut best = home;
        let mut least = self.earliest(value, home);
        for tile in (0..self.part.tiles()).map(TileId) {
            let time = self.earliest(value, tile);
            if time.saturating_add(self.style.slack) < least {
                least = time;
                best = tile;
            }
        }
        best
    }

    // The tile of a value whose path has begun.
    fn follow(&mut self, value: ValueId, home: TileId) -> TileId {
        let tile = self.earlier_tile(value, home);
        if tile != home {
            let length = self.path_length(value);
            let load = self.loads.at(home).saturating_sub(length);
            self.loads.put(home, load);
            self.add_load(tile, length);
        }
        tile
    }

    // Lists what a value needs from elsewhere.
    fn list_needed(&mut self, value: ValueId) -> Result<(), AllocError> {
        for operand in self.graph.origin(value).values() {
            if let Some(operand) = operand {
                if self.placed.at(operand) {
                    self.needed.push(operand)?;
                }
            }
        }
        Ok(())
    }

    // Lists what a path needs from elsewhere.
    fn list_all_needed(&mut self, value: ValueId) -> Result<(), AllocError> {
        self.needed.clear();
        let mut at = value;
        for _ in 0..LOOKED_AT {
            self.list_needed(at)?;
            match self.next(at) {
                Some(next) => at = next,
                None => break,
            }
        }
        Ok(())
    }

    // What it costs to bring what is needed to a tile, in hundredths of a word.
    fn cost_of_needed(&self, tile: TileId) -> usize {
        let mut cost: usize = 0;
        for value in &self.needed {
            let home = self.homes.at(*value);
            if home != tile && self.copy(*value, tile).is_none() {
                let way = self.part.distance(home, tile).saturating_mul(25);
                cost = cost.saturating_add(way).saturating_add(100);
            }
        }
        cost
    }

    // What it costs to begin a path at a tile, in hundredths of a cycle.
    fn cost(&self, value: ValueId, tile: TileId) -> usize {
        let time = self.earliest(value, tile).max(self.loads.at(tile));
        let brought = self.cost_of_needed(tile).saturating_mul(self.style.weight);
        time.saturating_mul(100)
            .saturating_add(brought)
            .saturating_add(self.part.distance(TileId::CORNER, tile))
    }

    // The tile of the first value of a path.
    fn begin(&mut self, value: ValueId) -> Result<TileId, AllocError> {
        self.list_all_needed(value)?;
        let mut best = TileId::CORNER;
        let mut least = usize::MAX;
        for tile in (0..self.part.tiles()).map(TileId) {
            let cost = self.cost(value, tile);
            if cost < least {
                least = cost;
                best = tile;
            }
        }
        let length = self.path_length(value);
        self.add_load(best, length);
        Ok(best)
    }

    // Its tile sends a value that is used more than once.
    fn send(&mut self, value: ValueId) {
        if !self.graph.origin(value).is_input() && self.is_shared(value) && !self.sent.at(value) {
            self.sent.put(value, true);
            let home = self.homes.at(value);
            self.slots.take_from(home, self.ends.at(value));
            self.add_load(home, 1);
        }
    }

    // A value is brought to a tile.
    fn bring(&mut self, value: ValueId, tile: TileId) {
        if self.is_here(value, tile) || self.copy(value, tile).is_some() {
            return;
        }
        let time = self.arrival(value, tile);
        self.send(value);
        if self.is_shared(value) {
            self.slots.take_from(tile, time.saturating_sub(1));
            self.add_load(tile, 1);
        }
        let place = self.copy_place(value, tile);
        self.copies.put(place, Some(time));
    }

    // A value is made at a tile.
    fn settle(&mut self, value: ValueId, tile: TileId) {
        for operand in self.graph.origin(value).values() {
            if let Some(operand) = operand {
                self.bring(operand, tile);
            }
        }
        let ready = self.earliest(value, tile);
        let cycle = self.slots.take_from(tile, ready);
        self.ends.put(value, cycle.saturating_add(1));
        self.homes.put(value, tile);
        self.placed.put(value, true);
    }

    // The tile of the path on which a value is, if it has begun.
    fn tile_of_path(&self, value: ValueId) -> Option<TileId> {
        if !self.style.along_paths {
            return None;
        }
        let before = self.paths.before.at(value)?;
        if self.placed.at(before) {
            Some(self.homes.at(before))
        } else {
            None
        }
    }

    /// Places a value that is made.
    pub(crate) fn place(&mut self, value: ValueId) -> Result<(), AllocError> {
        let tile = match self.tile_of_path(value) {
            Some(home) => self.follow(value, home),
            None => self.begin(value)?,
        };
        self.settle(value, tile);
        Ok(())
    }
}
