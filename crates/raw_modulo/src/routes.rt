//! The ways of words.
use raw_body::Site;
use raw_frame::{Part, TileId};
use raw_grid::{Dir, Side};
use std::alloc::{AllocError, Global};
use std::cmp::Ordering;

/// A word passes a switch.
#[derive(Clone, Copy, PartialEq, Eq)]
pub struct Hop {
    pub tile: TileId,
    pub from: Dir,
    pub to: Dir,
    /// How many cycles after its first hop.
    pub after: usize,
}

/// How a word comes to other rows and columns.
#[derive(Clone, Copy, PartialEq, Eq)]
pub enum Shape {
    /// Along its row first.
    RowFirst,
    /// Along its column first.
    ColumnFirst,
}

/// The way of a word from one tile or port to all that need it. It goes on without stop.
#[derive(Drop)]
pub struct Route {
    pub(crate) hops: Vec<Hop>,
    /// How many cycles after its first hop it comes to each of the tiles, in their order.
    pub(crate) delays: Vec<usize>,
    /// The same of the sink.
    pub(crate) out_delay: usize,
}

impl Route {
    /// Where the word passes.
    pub fn hops(&self) -> &[Hop] {
        self.hops.as_slice()
    }
}

/// From where a word starts: a tile and the direction from which its switch takes it.
#[derive(Clone, Copy)]
pub(crate) struct Root {
    pub(crate) tile: TileId,
    pub(crate) from: Dir,
}

/// Where it goes: a tile and the direction in which its switch sends it.
#[derive(Clone, Copy)]
pub(crate) struct Goal {
    pub(crate) tile: TileId,
    pub(crate) to: Dir,
}

// The side to which a word goes on along its row.
fn along_row(part: Part, at: TileId, goal: TileId) -> Option<Side> {
    match part.column(at).cmp(&part.column(goal)) {
        Ordering::Less => Some(Side::E),
        Ordering::Greater => Some(Side::W),
        Ordering::Equal => None,
    }
}

// The same along its column.
fn along_column(part: Part, at: TileId, goal: TileId) -> Option<Side> {
    match part.row(at).cmp(&part.row(goal)) {
        Ordering::Less => Some(Side::S),
        Ordering::Greater => Some(Side::N),
        Ordering::Equal => None,
    }
}

// The side to which a word goes on.
fn side_towards(part: Part, at: TileId, goal: TileId, shape: Shape) -> Option<Side> {
    match shape {
        Shape::RowFirst => along_row(part, at, goal).or(along_column(part, at, goal)),
        Shape::ColumnFirst => along_column(part, at, goal).or(along_row(part, at, goal)),
    }
}

impl Route {
    // A hop more, if the word does not pass there already.
    fn hop(&mut self, hop: Hop) -> Result<(), AllocError> {
        if !self.hops.contains(&hop) {
            self.hops.push(hop)?;
        }
        Ok(())
    }

    // The way to a goal; how many cycles it takes after the first hop.
    fn walk(
        &mut self,
        part: Part,
        root: Root,
        goal: Goal,
        shape: Shape,
    ) -> Result<usize, AllocError> {
        let Root { mut tile, mut from } = root;
        let mut after: usize = 0;
        for _ in 0..part.cols.saturating_add(part.rows) {
            let Some(side) = side_towards(part, tile, goal.tile, shape) else {
                break;
            };
            let to = Dir::from(side);
            self.hop(Hop {
                tile,
                from,
                to,
                after,
            })?;
            tile = part.neighbour(tile, side).unwrap_or(tile);
            from = Dir::from(side.opposite());
            after = after.saturating_add(1);
        }
        let to = goal.to;
        self.hop(Hop {
            tile,
            from,
            to,
            after,
        })?;
        Ok(after)
    }

    /// The way from a root to these tiles and to a sink.
    pub(crate) fn new(
        alloc: Global,
        site: Site<'_>,
        root: Root,
        tiles: &[TileId],
        sink: Option<Goal>,
        shape: Shape,
    ) -> Result<Route, AllocError> {
        let mut route = Route {
            hops: Vec::new(alloc),
            delays: Vec::new(alloc),
            out_delay: 0,
        };
        for tile in tiles {
            let goal = Goal {
                tile: *tile,
                to: Dir::P,
            };
            let delay = route.walk(site.part, root, goal, shape)?;
            route.delays.push(delay)?;
        }
        if let Some(goal) = sink {
            route.out_delay = route.walk(site.part, root, goal, shape)?;
        }
        Ok(route)
    }

    /// Whether two ways are one.
    pub(crate) fn is_same(&self, other: &Route) -> bool {
        let hops = self.hops.as_slice();
        hops.len() == other.hops.len() && hops.iter().all(|hop| other.hops.contains(hop))
    }
}
