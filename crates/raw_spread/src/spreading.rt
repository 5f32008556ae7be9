//! The search for the tiles of values.
use crate::chance::Chance;
use crate::cost::Cost;
use raw_body::{Body, Components, GroupId, Position, Site};
use raw_frame::{Table, TileId, ValueId};
use std::alloc::{AllocError, Global};

/// What is aimed at.
#[derive(Clone, Copy)]
pub struct Aim {
    /// The load that a tile is to have, in hundredths of an instruction.
    pub load: usize,
    /// What a link is worth that a word passes; 10,000 is a unit.
    pub weight: usize,
    /// How many moves are tried.
    pub moves: usize,
}

/// At the start a move may cost so much more.
const WARM: usize = 200_000;

/// So much it may at the end.
const COLD: usize = 100;

/// A search that has come so far.
#[derive(Drop)]
struct Search<'a> {
    cost: Cost<'a>,
    /// The tiles on which values may be made.
    tiles: &'a [TileId],
    aim: Aim,
    chance: Chance,
    /// The groups of values that are moved together.
    groups: Vec<GroupId>,
    /// The values that a move is felt by.
    touched: Vec<ValueId>,
    now: usize,
    least: usize,
    best: Table<ValueId, TileId>,
}

// The groups of values that are made.
fn groups(alloc: Global, body: &Body, components: &Components) -> Result<Vec<GroupId>, AllocError> {
    let mut groups = Vec::new(alloc);
    for group in (0..components.count()).map(GroupId) {
        if let Some(value) = components.members(group).first() {
            if !body.origin(*value).is_input() {
                groups.push(group)?;
            }
        }
    }
    Ok(groups)
}

// Homes of values in the order of their numbers, so many on each tile; groups stay together.
fn first_homes(
    alloc: Global,
    body: &Body,
    components: &Components,
    tiles: &[TileId],
) -> Result<Table<ValueId, TileId>, AllocError> {
    let count = body.count();
    let mut homes = Table::new(alloc, count, TileId::CORNER)?;
    for value in (0..count).map(ValueId) {
        let first = match components.members(components.group(value)).first() {
            Some(first) => *first,
            None => value,
        };
        let place = first.0.saturating_mul(tiles.len());
        let place = place.checked_div(count).unwrap_or(0);
        homes.put(value, tiles.get(place).copied().unwrap_or(TileId::CORNER));
    }
    Ok(homes)
}

// How much more a move may cost, where so many of all have been tried: it falls with the square of what is left.
fn warmth(tried: usize, all: usize) -> usize {
    let left = all.saturating_sub(tried).saturating_mul(1_000);
    let left = left.checked_div(all).unwrap_or(0);
    let square = left.saturating_mul(left);
    let warmth = (WARM / 1_000).saturating_mul(square) / 1_000;
    warmth.saturating_add(COLD)
}

impl<'a> Search<'a> {
    // One of the tiles.
    fn any_tile(&mut self) -> TileId {
        let place = self.chance.below(self.tiles.len());
        self.tiles.get(place).copied().unwrap_or(TileId::CORNER)
    }

    // A tile of a value that is used by a value, or uses it.
    fn near_value(&mut self, value: ValueId) -> Option<TileId> {
        let body = self.cost.body;
        let uses = body.uses(value);
        let place = self.chance.below(uses.len().saturating_add(2));
        if let Some(used) = uses.get(place) {
            return Some(self.cost.homes.at(used.user));
        }
        let place = place.saturating_sub(uses.len());
        let position = Position::BOTH.get(place).copied()?;
        let operand = body.origin(value).value(position)?;
        Some(self.cost.root(operand.value))
    }

    // The tile beside a tile.
    fn beside(&mut self, tile: TileId) -> TileId {
        let part = self.cost.site.part;
        let (x, y) = (part.column(tile), part.row(tile));
        let (x, y) = match self.chance.below(4) {
            0 => (x.saturating_add(1).min(part.cols.saturating_sub(1)), y),
            1 => (x.saturating_sub(1), y),
            2 => (x, y.saturating_add(1).min(part.rows.saturating_sub(1))),
            _ => (x, y.saturating_sub(1)),
        };
        part.tile_at(x, y)
    }

    // A tile to which a value may go: that of a neighbour, one beside it, or any.
    fn tile_for(&mut self, value: ValueId) -> TileId {
        if self.chance.below(3) == 0 {
            return self.any_tile();
        }
        let near = match self.near_value(value) {
            Some(tile) => tile,
            None => return self.any_tile(),
        };
        let tile = if self.chance.below(2) == 0 {
            near
        } else {
            self.beside(near)
        };
        if self.tiles.contains(&tile) {
            tile
        } else {
            self.any_tile()
        }
    }

    // Notes a value that a move is felt by.
    fn touch(&mut self, value: ValueId) -> Result<(), AllocError> {
        if !self.touched.contains(&value) {
            self.touched.push(value)?;
        }
        Ok(())
    }

    // Notes a value and its operands.
    fn touch_all(&mut self, value: ValueId) -> Result<(), AllocError> {
        self.touch(value)?;
        for position in Position::BOTH {
            if let Some(operand) = self.cost.body.origin(value).value(position) {
                self.touch(operand.value)?;
            }
        }
        Ok(())
    }

    // Adds or takes away what all values cost that a move is felt by.
    fn note_touched(&mut self, is_added: bool) {
        for value in &self.touched {
            self.cost.note(*value, is_added);
        }
    }

    // The values of a group go to a tile.
    fn put(&mut self, group: GroupId, tile: TileId) {
        self.note_touched(false);
        let components = self.cost.components;
        for value in components.members(group) {
            self.cost.homes.put(*value, tile);
        }
        self.note_touched(true);
    }

    // The values that the move of a group is felt by.
    fn touch_group(&mut self, group: GroupId) -> Result<(), AllocError> {
        self.touched.clear();
        let components = self.cost.components;
        for value in components.members(group) {
            self.touch_all(*value)?;
        }
        Ok(())
    }

    // Keeps where all values are, where that is the best so far.
    fn keep(&mut self, count: usize) {
        if self.now < self.least {
            self.least = self.now;
            for value in (0..count).map(ValueId) {
                self.best.put(value, self.cost.homes.at(value));
            }
        }
    }

    // Whether a move to this cost is made.
    fn is_taken(&mut self, cost: usize, warmth: usize) -> bool {
        let more = cost.saturating_sub(self.now) as u64;
        if more == 0 {
            return true;
        }
        // 45,426 of 65,536 is the logarithm of 2
        let patience = self.chance.patience().saturating_mul(45_426) >> 16;
        more <= (warmth as u64).saturating_mul(patience) >> 16
    }

    // Moves a group to a tile, if the costs are such.
    fn try_move(&mut self, group: GroupId, tile: TileId, warmth: usize) -> Result<(), AllocError> {
        let Some(value) = self.cost.components.members(group).first() else {
            return Ok(());
        };
        let home = self.cost.homes.at(*value);
        if home == tile {
            return Ok(());
        }
        self.touch_group(group)?;
        self.put(group, tile);
        let cost = self.cost.total(self.aim.load, self.aim.weight);
        if self.is_taken(cost, warmth) {
            self.now = cost;
            self.keep(self.cost.body.count());
        } else {
            self.put(group, home);
        }
        Ok(())
    }

    // A move of some group to some tile.
    fn step(&mut self, warmth: usize) -> Result<(), AllocError> {
        let place = self.chance.below(self.groups.len());
        let group = self.groups.get(place).copied().unwrap_or(GroupId(0));
        let members = self.cost.components.members(group);
        let place = self.chance.below(members.len());
        let value = members.get(place).copied().unwrap_or(ValueId(0));
        let tile = self.tile_for(value);
        self.try_move(group, tile, warmth)
    }

    // All moves.
    fn run(&mut self) -> Result<(), AllocError> {
        if self.groups.is_empty() {
            return Ok(());
        }
        for tried in 0..self.aim.moves {
            self.step(warmth(tried, self.aim.moves))?;
        }
        Ok(())
    }
}

/// For each value of a body a tile of these at which it is made; values that need one another share one. `constants`
/// says of each value whether a constant of it needs a register.
pub fn spread(
    alloc: Global,
    body: &Body,
    components: &Components,
    site: Site<'_>,
    tiles: &[TileId],
    constants: &Table<ValueId, bool>,
    aim: Aim,
) -> Result<Table<ValueId, TileId>, AllocError> {
    let homes = first_homes(alloc, body, components, tiles)?;
    let best = first_homes(alloc, body, components, tiles)?;
    let cost = Cost::new(alloc, body, components, site, constants, homes)?;
    let now = cost.total(aim.load, aim.weight);
    let mut search = Search {
        cost,
        tiles,
        aim,
        chance: Chance::new(),
        groups: groups(alloc, body, components)?,
        touched: Vec::new(alloc),
        now,
        least: now,
        best,
    };
    search.run()?;
    Ok(search.best)
}
