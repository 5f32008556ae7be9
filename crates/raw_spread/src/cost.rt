//! What it costs where values are.
use raw_body::{Body, Components, Site};
use raw_frame::{Table, TileId, ValueId};
use std::alloc::{AllocError, Global};

/// What a value that is made adds to the load of its tile. Loads are counted in hundredths of an instruction.
const MADE: usize = 100;

/// What a constant adds that needs a register.
const CONSTANT: usize = 2;

/// What a word adds to the load of a tile at which it is used once, and taken where it is used.
const TAKEN: usize = 10;

/// What it adds where it is used more often, and has to be received.
const RECEIVED: usize = 100;

/// What a word adds that is used once at home too, and comes back.
const COMES_BACK: usize = 20;

/// What one adds that is used more often at home, and is sent by an instruction of its own.
const SENT: usize = 100;

/// The tiles of values, and what they cost.
#[derive(Drop)]
pub(crate) struct Cost<'a> {
    pub(crate) body: &'a Body,
    pub(crate) components: &'a Components,
    pub(crate) site: Site<'a>,
    /// The values whose constants need registers.
    constants: &'a Table<ValueId, bool>,
    pub(crate) homes: Table<ValueId, TileId>,
    loads: Table<TileId, usize>,
    /// How many links all words pass.
    distance: usize,
    /// How often a value is used at each tile, while that is looked at.
    counts: Table<TileId, usize>,
}

impl<'a> Cost<'a> {
    /// What it costs where values are there.
    pub(crate) fn new(
        alloc: Global,
        body: &'a Body,
        components: &'a Components,
        site: Site<'a>,
        constants: &'a Table<ValueId, bool>,
        homes: Table<ValueId, TileId>,
    ) -> Result<Cost<'a>, AllocError> {
        let tiles = site.part.tiles();
        let mut cost = Cost {
            body,
            components,
            site,
            constants,
            homes,
            loads: Table::new(alloc, tiles, 0)?,
            distance: 0,
            counts: Table::new(alloc, tiles, 0)?,
        };
        for value in (0..body.count()).map(ValueId) {
            cost.note(value, true);
        }
        Ok(cost)
    }

    // Adds to the load of a tile, or takes away.
    fn load(&mut self, tile: TileId, load: usize, is_added: bool) {
        let old = self.loads.at(tile);
        let new = if is_added {
            old.saturating_add(load)
        } else {
            old.saturating_sub(load)
        };
        self.loads.put(tile, new);
    }

    // Adds to the distance, or takes away.
    fn go(&mut self, from: TileId, to: TileId, is_added: bool) {
        let links = self.site.part.distance(from, to);
        self.distance = if is_added {
            self.distance.saturating_add(links)
        } else {
            self.distance.saturating_sub(links)
        };
    }

    /// The tile at which a value is made, or put in.
    pub(crate) fn root(&self, value: ValueId) -> TileId {
        match self.body.origin(value).source() {
            Some(source) => self.site.source_tile(source),
            None => self.homes.at(value),
        }
    }

    // Counts the uses of a value at each tile.
    fn count_uses(&mut self, value: ValueId) {
        let body = self.body;
        for used in body.uses(value) {
            let tile = self.homes.at(used.user);
            self.counts
                .put(tile, self.counts.at(tile).saturating_add(1));
        }
    }

    // The uses of a value at a tile to which it is brought; whether there are any.
    fn note_uses(&mut self, value: ValueId, tile: TileId, is_added: bool) -> bool {
        let count = self.counts.at(tile);
        self.counts.put(tile, 0);
        if count == 0 {
            return false;
        }
        let load = if count > 1 { RECEIVED } else { TAKEN };
        self.load(tile, load, is_added);
        self.go(self.root(value), tile, is_added);
        true
    }

    // The uses of a value at all tiles to which it is brought; whether there are any.
    fn note_all_uses(&mut self, value: ValueId, is_added: bool) -> bool {
        let body = self.body;
        let mut is_brought = false;
        for used in body.uses(value) {
            let tile = self.homes.at(used.user);
            is_brought |= self.note_uses(value, tile, is_added);
        }
        is_brought
    }

    // What a value that is made costs at its own tile, where it is used there so often.
    fn note_home(&mut self, value: ValueId, local: usize, is_brought: bool, is_added: bool) {
        let home = self.homes.at(value);
        self.load(home, MADE, is_added);
        if self.constants.at(value) {
            self.load(home, CONSTANT, is_added);
        }
        if is_brought && local > 0 {
            let comes_back = local == 1 && !self.components.is_on_circle(value);
            let load = if comes_back { COMES_BACK } else { SENT };
            self.load(home, load, is_added);
        }
    }

    // The way of a value to its sink.
    fn note_out(&mut self, value: ValueId, is_added: bool) {
        let body = self.body;
        if let Some(sink) = body.sink_of(value) {
            let site = self.site;
            let home = self.homes.at(value);
            self.go(home, site.sink_tile(sink), is_added);
        }
    }

    /// Adds what a value costs, or takes it away.
    pub(crate) fn note(&mut self, value: ValueId, is_added: bool) {
        self.count_uses(value);
        if self.body.origin(value).is_input() {
            self.note_all_uses(value, is_added);
            return;
        }
        let home = self.homes.at(value);
        let local = self.counts.at(home);
        self.counts.put(home, 0);
        let is_brought = self.note_all_uses(value, is_added);
        self.note_home(value, local, is_brought, is_added);
        self.note_out(value, is_added);
    }

    /// All costs, where a tile is to have this load, and a link is worth so much.
    pub(crate) fn total(&self, target: usize, weight: usize) -> usize {
        let mut most = 0;
        let mut over: usize = 0;
        for tile in (0..self.loads.size()).map(TileId) {
            let load = self.loads.at(tile);
            let more = load.saturating_sub(target);
            most = load.max(most);
            over = over.saturating_add(more.saturating_mul(more));
        }
        let loads = over
            .saturating_mul(4)
            .saturating_add(most.saturating_mul(600));
        loads.saturating_add(self.distance.saturating_mul(weight))
    }
}
