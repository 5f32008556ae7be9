//! The search for programs of a stream.
use crate::attempt::{Pipeline, Spread, Style, attempt, most};
use crate::plan::Rows;
use crate::regions::regions;
use raw_body::{Body, Components, GroupId, Order, Site, body_of};
use raw_frame::{Part, Table, TileId, ValueId};
use raw_modulo::{Rule, needed_constant};
use raw_spread::{Aim, spread};
use raw_stream::StreamFlow;
use std::alloc::{AllocError, Global};

/// So many places of words are looked at in all.
const MOST_TRIES: usize = 300_000_000;

/// So many of them for one spread and one rule.
const MOST_OF_ONE: usize = 30_000_000;

/// So many values are made at most where each row is on tiles of its own.
const MOST_MADE: usize = 8_192;

/// So many moves are tried when values are spread.
const MOVES: usize = 60_000;

/// What is searched, and the best so far.
#[derive(Drop)]
struct Search<'a> {
    body: &'a Body,
    site: Site<'a>,
    rows: Rows,
    /// How many values are made in a row.
    made: usize,
    /// How many cycles a row takes at least by its ports and circles.
    bound: usize,
    /// How many values the largest circle has.
    circle: usize,
    best: Option<Pipeline>,
    /// What a row takes by the best so far, in thousandths of a cycle.
    cap: usize,
    left: usize,
}

// How many values the largest circle has, or 1.
fn circle_of(components: &Components) -> usize {
    let mut most = 1;
    for group in (0..components.count()).map(GroupId) {
        most = components.members(group).len().max(most);
    }
    most
}

// How many words the port with the most gives or takes.
fn port_bound(alloc: Global, body: &Body, site: Site<'_>) -> Result<usize, AllocError> {
    let given = body.given(alloc, site.sources.len())?;
    let gotten = body.gotten(alloc, site.sinks.len())?;
    Ok(most(&given).max(most(&gotten)).max(1))
}

// Of each value whether a constant of it needs a register.
fn constants_of(alloc: Global, body: &Body) -> Result<Table<ValueId, bool>, AllocError> {
    let mut constants = Table::new(alloc, body.count(), false)?;
    for value in (0..body.count()).map(ValueId) {
        constants.put(value, needed_constant(body.origin(value)).is_some());
    }
    Ok(constants)
}

// The tile with the least load.
fn least_loaded(tiles: &[TileId], loads: &Table<TileId, usize>) -> TileId {
    let mut least = usize::MAX;
    let mut best = TileId::CORNER;
    for tile in tiles {
        if loads.at(*tile) < least {
            least = loads.at(*tile);
            best = *tile;
        }
    }
    best
}

// A value is at a tile.
fn settle(
    homes: &mut Table<ValueId, TileId>,
    loads: &mut Table<TileId, usize>,
    value: ValueId,
    tile: TileId,
) {
    homes.put(value, tile);
    loads.put(tile, loads.at(tile).saturating_add(1));
}

// Homes of values: each row on tiles of its own; what is on a circle goes to the tile with the least load.
fn homes_by_rows(
    alloc: Global,
    body: &Body,
    components: &Components,
    tiles: &[TileId],
    all: usize,
) -> Result<Table<ValueId, TileId>, AllocError> {
    let mut homes = Table::new(alloc, body.count(), TileId::CORNER)?;
    let mut loads = Table::new(alloc, all, 0)?;
    for value in (0..body.count()).map(ValueId) {
        let place = body.row_of(value).saturating_mul(tiles.len());
        let place = place.checked_div(body.rows).unwrap_or(0);
        let tile = tiles.get(place).copied().unwrap_or(TileId::CORNER);
        if !components.is_on_circle(value) {
            settle(&mut homes, &mut loads, value, tile);
        }
    }
    for group in (0..components.count()).map(GroupId) {
        let members = components.members(group);
        if members.len() > 1 {
            let tile = least_loaded(tiles, &loads);
            for value in members {
                settle(&mut homes, &mut loads, *value, tile);
            }
        }
    }
    Ok(homes)
}

impl Search<'_> {
    // Keeps what is better than the best so far.
    fn keep(&mut self, found: Option<Pipeline>) {
        if let Some(pipeline) = found {
            if pipeline.cost < self.cap {
                self.cap = pipeline.cost;
                self.best = Some(pipeline);
            }
        }
    }

    // What a row takes at least on so many tiles, and a twentieth more, in thousandths of a cycle.
    fn least_cost(&self, tiles: usize) -> usize {
        let by_tiles = self
            .made
            .saturating_mul(1_000)
            .checked_div(tiles)
            .unwrap_or(0);
        let least = by_tiles.max(self.bound.saturating_mul(1_000));
        least.saturating_add(least / 20)
    }

    // Whether so many rows at once may be tried on so many tiles.
    fn may_try(&self, rows: usize, tiles: usize) -> bool {
        let is_long = rows == 1 || self.rows.count >= rows.saturating_mul(4);
        is_long && self.left > 0 && self.least_cost(tiles) < self.cap
    }

    // Tries some rules for a body with homes.
    fn try_homes(
        &mut self,
        alloc: Global,
        body: &Body,
        components: &Components,
        homes: &Table<ValueId, TileId>,
        rules: &[Rule],
        is_even: bool,
    ) -> Result<(), AllocError> {
        let order = Order::of(alloc, body)?;
        for rule in rules {
            let spread = Spread {
                body,
                components,
                order: &order,
                site: self.site,
                homes,
                rows: self.rows,
            };
            let style = Style {
                rule: *rule,
                is_even,
            };
            let tries = self.left.min(MOST_OF_ONE);
            let mut left = tries;
            let found = attempt(alloc, spread, style, self.cap, &mut left)?;
            self.left = self.left.saturating_sub(tries.saturating_sub(left));
            self.keep(found);
        }
        Ok(())
    }

    // Tries one tile.
    fn try_one(&mut self, alloc: Global, tile: TileId) -> Result<(), AllocError> {
        if !self.may_try(1, 1) {
            return Ok(());
        }
        let body = self.body;
        let components = Components::of(alloc, body)?;
        let homes = Table::new(alloc, body.count(), tile)?;
        let rules = [Rule::OutByOut, Rule::Earliest, Rule::Highest, Rule::Loose];
        self.try_homes(alloc, body, &components, &homes, &rules, false)
    }

    // Whether so many rows, each on tiles of its own, are not too many, and a row is not mostly a circle: that is on one
    // tile for all rows.
    fn may_split(&self, rows: usize) -> bool {
        let made = self.made.saturating_mul(rows);
        let is_circle = self.circle > 1 && self.circle.saturating_mul(2) > self.made;
        rows > 1 && made <= MOST_MADE && !is_circle
    }

    // Tries so many rows at once, each on tiles of its own.
    fn try_rows(&mut self, alloc: Global, tiles: &[TileId], rows: usize) -> Result<(), AllocError> {
        if !self.may_split(rows) || !self.may_try(rows, tiles.len()) {
            return Ok(());
        }
        let body = self.body.widened(alloc, rows)?;
        let components = Components::of(alloc, &body)?;
        let all = self.site.part.tiles();
        let homes = homes_by_rows(alloc, &body, &components, tiles, all)?;
        let rules = [Rule::OutByOut, Rule::Earliest];
        self.try_homes(alloc, &body, &components, &homes, &rules, true)?;
        if components.count() < body.count() {
            return Ok(());
        }
        self.try_homes(alloc, &body, &components, &homes, &rules, false)
    }

    // What is aimed at where so many rows are spread over so many tiles.
    fn aim(&self, tiles: usize, rows: usize) -> Aim {
        let made = self.made.saturating_mul(rows).saturating_mul(115);
        let load = made.checked_div(tiles).unwrap_or(0);
        let bound = self.bound.saturating_mul(rows).saturating_mul(100);
        Aim {
            load: load.max(bound),
            weight: 3_000,
            moves: MOVES,
        }
    }

    // Whether so many rows are not too many to be spread over so many tiles.
    fn is_small(&self, rows: usize, tiles: usize) -> bool {
        let made = self.made.saturating_mul(rows);
        made <= 2_500 && (rows == 1 || made <= tiles.saturating_mul(40) || self.made <= 40)
    }

    // Tries so many rows at once, their values spread over tiles.
    fn try_spread(
        &mut self,
        alloc: Global,
        tiles: &[TileId],
        rows: usize,
    ) -> Result<(), AllocError> {
        if !self.is_small(rows, tiles.len()) || !self.may_try(rows, tiles.len()) {
            return Ok(());
        }
        let aim = self.aim(tiles.len(), rows);
        if aim.load.saturating_mul(10).checked_div(rows).unwrap_or(0) >= self.cap {
            return Ok(());
        }
        let body = self.body.widened(alloc, rows)?;
        let components = Components::of(alloc, &body)?;
        let constants = constants_of(alloc, &body)?;
        let homes = spread(alloc, &body, &components, self.site, tiles, &constants, aim)?;
        let rules = [Rule::OutByOut, Rule::Earliest];
        self.try_homes(alloc, &body, &components, &homes, &rules, false)
    }

    // Tries some tiles.
    fn try_region(&mut self, alloc: Global, tiles: &[TileId]) -> Result<(), AllocError> {
        if tiles.len() < 2 {
            return self.try_one(alloc, tiles.first().copied().unwrap_or(TileId::CORNER));
        }
        self.try_rows(alloc, tiles, tiles.len())?;
        self.try_rows(alloc, tiles, tiles.len() / 2)?;
        self.try_spread(alloc, tiles, 1)?;
        self.try_spread(alloc, tiles, 2)
    }
}

/// The best programs for a stream that are found: for its number of rows, or, where that is asked for, for rows without
/// end. They do something on so many tiles of its grid at most.
pub fn find_pipeline(
    alloc: Global,
    stream: &StreamFlow,
    is_endless: bool,
    most_tiles: usize,
) -> Result<Option<Pipeline>, AllocError> {
    let Some(body) = body_of(alloc, stream)? else {
        return Ok(None);
    };
    let part = Part {
        cols: usize::from(stream.cols),
        rows: usize::from(stream.rows),
    };
    let site = Site {
        part,
        sources: stream.sources.as_slice(),
        sinks: stream.sinks.as_slice(),
    };
    let components = Components::of(alloc, &body)?;
    let circle = circle_of(&components);
    let mut search = Search {
        body: &body,
        site,
        rows: Rows::new(stream.count, is_endless),
        made: body.made_count(),
        bound: port_bound(alloc, &body, site)?.max(circle),
        circle,
        best: None,
        cap: usize::MAX,
        left: MOST_TRIES,
    };
    for tiles in regions(alloc, site)?.iter().rev() {
        if tiles.len() <= most_tiles {
            search.try_region(alloc, tiles)?;
        }
    }
    Ok(search.best)
}
