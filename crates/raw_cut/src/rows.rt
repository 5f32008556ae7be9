//! The numbers of the words of rows.
ghost use Rattle.std.specs.Prelude.{◌≡◌, ℕ, ◌+◌, ◌*◌, ◌^◌, ◌<◌, ◌≤◌, ◌++◌, length, map, sum_by, IfOk};
ghost use Rattle.std.specs.List.{filter_map};
ghost use Rattle.raw_stream.specs.Streams.{first_of};
ghost use Rattle.raw_rows.specs.Given.{takes_words};
ghost use Rattle.raw_rows.specs.Kernels.{input_rows, joined};
ghost use Rattle.raw_cut.specs.Parts.{carried_by};

use crate::numbers::numbers_from;
use raw_stream::RowNode;
use std::alloc::{AllocError, Global};

// How many words a node takes.
fn takes_words(node: RowNode) -> usize
    ensures { result ≡ takes_words node }
{
    match node {
        RowNode::Input { .. } => 1,
        RowNode::Const { .. } => 0,
        RowNode::Apply { .. } => 0,
        RowNode::Pre { .. } => 0,
    }
}

/// How many words a row has.
pub(crate) fn row_width(row: &[RowNode]) -> usize
    ensures value { result ≡ sum_by takes_words row.now }
    ensures few { result ≤ length row.now }
{
    let mut count = 0;
    for place in 0..row.len() {
        count += takes_words(row[place]);
    }
    count
}

// Whether a node takes what is carried.
fn takes_carried(node: RowNode) -> usize
    ensures { result ≡ carried_by node }
{
    match node {
        RowNode::Input { .. } => 0,
        RowNode::Const { .. } => 0,
        RowNode::Apply { .. } => 0,
        RowNode::Pre { .. } => 1,
    }
}

/// How many words are carried into a row.
pub fn carried_count(row: &[RowNode]) -> usize
    ensures value { result ≡ length (filter_map first_of row.now) }
    ensures few { result ≤ length row.now }
{
    let mut count = 0;
    for place in 0..row.len() {
        count += takes_carried(row[place]);
    }
    count
}

/// The numbers of inputs, from one on, as so many rows of so many words.
pub(crate) fn input_rows(
    alloc: Global,
    first: u32,
    width: u32,
    many: u32,
) -> Result<Vec<Vec<u32>>, AllocError>
    requires { first + many * width < 2 ^ 32 }
    ensures { IfOk result (λ rows. map (λ row. row.items) rows.items ≡ input_rows first width many) }
{
    let mut rows = Vec::with_capacity(alloc, many as usize)?;
    let mut next = first;
    for _r in 0..many {
        rows.push(numbers_from(alloc, next, width)?)?;
        next += width;
    }
    Ok(rows)
}

/// All words of rows, behind others.
pub(crate) fn push_joined(all: &mut Vec<u32>, rows: &[Vec<u32>]) -> Result<(), AllocError>
    ensures { IfOk result (λ done. all.new.items ≡ all.old.items ++ joined (map (λ row. row.items) rows.now)) }
{
    for row in rows {
        all.extend_from_slice(row)?;
    }
    Ok(())
}
