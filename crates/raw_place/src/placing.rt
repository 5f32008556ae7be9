//! Placement by earliest finish.
use crate::paths::Paths;
use crate::searching::Search;
use crate::urgency::{starts, urgencies};
use raw_frame::{Part, Rank, Table, TileId, ValueId, Waiting};
use raw_graph::Graph;
use std::alloc::{AllocError, Global};

/// How values are placed.
#[derive(Clone, Copy, PartialEq, Eq)]
pub struct Style {
    /// What a word that has to be brought costs, in cycles.
    pub weight: usize,
    /// By how many cycles another tile has to be earlier for a path to change its tile.
    pub slack: usize,
    /// Whether the values of a path stay together.
    pub along_paths: bool,
}

/// Values from the most urgent one on, those of one urgency by their numbers.
pub(crate) fn by_urgency(
    alloc: Global,
    graph: &Graph,
    urgencies: &Table<ValueId, usize>,
) -> Result<Vec<Waiting>, AllocError> {
    let mut order = Vec::new(alloc);
    for value in (0..graph.count()).map(ValueId) {
        order.push(Waiting {
            rank: Rank(usize::MAX.saturating_sub(urgencies.at(value))),
            value,
        })?;
    }
    order.sort()?;
    Ok(order)
}

// The least of the tiles at which a value is used, if it is used.
fn least_home(graph: &Graph, homes: &Table<ValueId, TileId>, value: ValueId) -> Option<TileId> {
    let mut least = None;
    for user in graph.users(value) {
        let home = homes.at(*user);
        least = Some(home.min(least.unwrap_or(home)));
    }
    least
}

// An input that is an out is brought to a tile at which it is used.
fn place_inputs(graph: &Graph, homes: &mut Table<ValueId, TileId>) {
    for value in (0..graph.count()).map(ValueId) {
        if graph.origin(value).is_input() {
            let home = if graph.outs_of(value).is_empty() {
                None
            } else {
                least_home(graph, homes, value)
            };
            homes.put(value, home.unwrap_or(TileId::CORNER));
        }
    }
}

/// For each value the tile at which it is made, on a part of a grid.
pub fn place(
    alloc: Global,
    graph: &Graph,
    part: Part,
    style: Style,
) -> Result<Table<ValueId, TileId>, AllocError> {
    let together = Table::new(alloc, 0, TileId::CORNER)?;
    let urgencies = urgencies(alloc, graph, part, &together)?;
    let starts = starts(alloc, graph)?;
    let paths = Paths::of(alloc, graph, &urgencies, &starts)?;
    let order = by_urgency(alloc, graph, &urgencies)?;
    let mut search = Search::new(alloc, graph, part, style, paths)?;
    for waiting in &order {
        if !graph.origin(waiting.value).is_input() {
            search.place(waiting.value)?;
        }
    }
    let mut homes = search.into_homes();
    place_inputs(graph, &mut homes);
    Ok(homes)
}
