//! Paths of values, each the most urgent user of the one before it.
use raw_frame::{Table, ValueId};
use raw_graph::Graph;
use std::alloc::{AllocError, Global};

/// The paths through a graph: each operation is on one.
#[derive(Drop)]
pub(crate) struct Paths {
    pub(crate) next: Table<ValueId, Option<ValueId>>,
    pub(crate) before: Table<ValueId, Option<ValueId>>,
}

// The most urgent user of a value.
fn most_urgent(
    graph: &Graph,
    urgencies: &Table<ValueId, usize>,
    value: ValueId,
) -> Option<ValueId> {
    let mut best = None;
    let mut most = 0;
    for user in graph.users(value) {
        if urgencies.at(*user) > most {
            most = urgencies.at(*user);
            best = Some(*user);
        }
    }
    best
}

// Of the operations of which a value is made, the one that is there last.
fn latest(graph: &Graph, starts: &Table<ValueId, usize>, value: ValueId) -> Option<ValueId> {
    let mut best = None;
    let mut most = (0, false);
    for operand in graph.origin(value).values() {
        if let Some(operand) = operand {
            let time = (starts.at(operand), graph.users(operand).len() == 1);
            let later = time.0 > most.0 || time.0 == most.0 && (time.1 || !most.1);
            if later && !graph.origin(operand).is_input() {
                most = time;
                best = Some(operand);
            }
        }
    }
    best
}

impl Paths {
    // Whether a value can go on with its most urgent user: whose path has not begun, and which waits for it longest.
    fn next_of(
        &self,
        graph: &Graph,
        urgencies: &Table<ValueId, usize>,
        starts: &Table<ValueId, usize>,
        value: ValueId,
    ) -> Option<ValueId> {
        if graph.origin(value).is_input() {
            return None;
        }
        let user = most_urgent(graph, urgencies, value)?;
        if self.before.at(user).is_some() || latest(graph, starts, user) != Some(value) {
            return None;
        }
        Some(user)
    }

    /// The paths by these urgencies and starts.
    pub(crate) fn of(
        alloc: Global,
        graph: &Graph,
        urgencies: &Table<ValueId, usize>,
        starts: &Table<ValueId, usize>,
    ) -> Result<Paths, AllocError> {
        let mut paths = Paths {
            next: Table::new(alloc, graph.count(), None)?,
            before: Table::new(alloc, graph.count(), None)?,
        };
        for value in (0..graph.count()).map(ValueId) {
            if let Some(user) = paths.next_of(graph, urgencies, starts, value) {
                paths.next.put(value, Some(user));
                paths.before.put(user, Some(value));
            }
        }
        Ok(paths)
    }
}
