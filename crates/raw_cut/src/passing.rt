//! The terms of rows that a run passes.
ghost use Rattle.std.specs.Prelude.{◌≡◌, ℕ, map, IfOk, IfSome};
ghost use Rattle.raw_row_terms.specs.RowTerms.{row_terms};

use crate::nodes::{are_nodes, carried_out};
use raw_flow::Node;
use raw_row_terms::{place_row, plain_nodes};
use raw_stream::StreamFlow;
use raw_term::{TermRefusal, TermTable};
use std::alloc::{AllocError, Global};

/// What rows leave: the terms that are carried out of them, and those of the nodes of each.
#[derive(Drop)]
pub(crate) struct Passed {
    pub(crate) carried: Vec<u32>,
    pub(crate) values: Vec<Vec<u32>>,
}

/// The terms of rows whose words have these numbers, where these are the terms of what is carried into the first. None
/// where a node names no earlier one, or the table has no room.
pub(crate) fn pass_rows(
    alloc: Global,
    table: &mut TermTable,
    stream: &StreamFlow,
    first: Vec<u32>,
    rows: &[Vec<u32>],
) -> Result<Option<Passed>, AllocError>
    ensures { IfOk result (λ found. IfSome found (λ passed.
        row_terms stream.now table.old first.items (map (λ row. row.items) rows.now)
        ≡ record { nodes = table.new; carried = passed.carried.items; values = map (λ row. row.items) passed.values.items })) }
{
    let nodes = plain_nodes(alloc, &stream.nodes)?;
    if !are_nodes(&nodes) {
        return Ok(None);
    }
    let mut carried = first;
    let mut values = Vec::with_capacity(alloc, rows.len())?;
    for row in rows {
        match place_row(alloc, table, &stream.nodes, &nodes, &carried, row) {
            Ok(numbers) => {
                carried = carried_out(alloc, &stream.nodes, &numbers)?;
                values.push(numbers)?;
            }
            Err(TermRefusal::TooMany) => return Ok(None),
            Err(TermRefusal::Memory) => return Err(AllocError),
        }
    }
    Ok(Some(Passed { carried, values }))
}
