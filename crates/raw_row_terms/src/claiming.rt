//! The terms of all rows of a stream.
ghost use Rattle.std.specs.Prelude.{◌≡◌, ℕ, ◌++◌, ◌<◌, ◌≤◌, ◌^◌, length, map, IfOk, Err};
ghost use Rattle.std.specs.List.{All, filter_map, flat_map};
ghost use Rattle.raw_model.specs.declared.limits.TheConstants.{MAX_ALL_WORDS};
ghost use Rattle.raw_flow.specs.declared.node.Node.{Node};
ghost use Rattle.raw_flow.specs.declared.node.Node.TheVariants as node;
ghost use Rattle.raw_flow.specs.Flows.{AreNodes};
ghost use Rattle.raw_stream.specs.Streams.{plain, valued, first_of, next_of, due_of};
ghost use Rattle.raw_stream.specs.Unrolled.{word_count};
ghost use Rattle.raw_term.specs.Terms.{Overflows};
ghost use Rattle.raw_row_terms.specs.RowClaims.{HasRows, terms_from, all_terms, due_in};
ghost use Rattle.raw_row_terms.specs.WordRuns.{runs_from, number_in};
ghost use Rattle.raw_row_terms.specs.OutTerms.{outs_in, outs_of_rows};

use crate::row::{place_row, plain_nodes};
use crate::runs::{WordRun, numbers_of, word_runs};
use crate::terms::{number_at, place};
use raw_flow::Node;
use raw_stream::{RowNode, StreamFlow, StreamOut};
use raw_term::{TermRefusal, TermTable};
use std::alloc::{AllocError, Global};

// What is carried into the first row, as nodes of a flow.
fn first_nodes(alloc: Global, row: &[RowNode]) -> Result<Vec<Node>, AllocError>
    ensures { IfOk result (λ nodes. nodes.items ≡ map (λ word. node.Const word) (filter_map first_of row.now)) }
{
    let mut nodes = Vec::new(alloc);
    for node in row {
        if let RowNode::Pre { word, .. } = *node {
            nodes.push(Node::Const { word })?;
        }
    }
    Ok(nodes)
}

// The terms that are carried out of a row whose nodes have these.
fn carried_out(alloc: Global, row: &[RowNode], numbers: &[u32]) -> Result<Vec<u32>, AllocError>
    ensures { IfOk result (λ carried. carried.items ≡ valued numbers.now (filter_map next_of row.now)) }
{
    let mut carried = Vec::new(alloc);
    for node in row {
        if let RowNode::Pre { a, .. } = *node {
            carried.push(number_at(numbers, a as usize))?;
        }
    }
    Ok(carried)
}

// The terms of the outs of a row whose nodes have these, behind those of earlier rows.
fn push_outs(
    outs: &[StreamOut],
    numbers: &[u32],
    all: &mut Vec<StreamOut>,
) -> Result<(), AllocError>
    ensures { IfOk result (λ done. all.new.items ≡ all.old.items ++ outs_in outs.now numbers.now) }
{
    for out in outs {
        all.push(StreamOut {
            port: out.port,
            node: number_at(numbers, out.node as usize),
        })?;
    }
    Ok(())
}

// The terms of the outs of all rows, row by row, where these are carried into the first.
fn outs_from(
    alloc: Global,
    table: &mut TermTable,
    stream: &StreamFlow,
    runs: &[WordRun],
    nodes: &[Node],
    first: Vec<u32>,
) -> Result<Vec<StreamOut>, TermRefusal>
    requires plain { nodes.now ≡ map plain stream.now.nodes }
    requires nodes { AreNodes nodes.now }
    requires runs { runs.now ≡ runs_from stream.now 0 stream.now.nodes }
    requires few { (r : ℕ) → r < stream.now.count → All (λ run. number_in r run < 2 ^ 32) runs.now }
    ensures table { IfOk result (λ outs. table.new ≡ (terms_from stream.now 0 table.old first.items).nodes) }
    ensures outs { IfOk result (λ outs.
        outs.items ≡ outs_of_rows stream.now (terms_from stream.now 0 table.old first.items).values) }
    ensures too_many { result ≡ Err TermRefusal.TooMany →
        Overflows (terms_from stream.now 0 table.old first.items).nodes }
{
    let mut carried = first;
    let mut outs = Vec::new(alloc);
    for row in 0..stream.count {
        let words = numbers_of(alloc, runs, row)?;
        let numbers = place_row(alloc, table, &stream.nodes, nodes, &carried, &words)?;
        push_outs(&stream.outs, &numbers, &mut outs)?;
        carried = carried_out(alloc, &stream.nodes, &numbers)?;
    }
    Ok(outs)
}

// The terms of the outs of all rows, row by row.
fn all_outs(
    alloc: Global,
    table: &mut TermTable,
    stream: &StreamFlow,
) -> Result<Vec<StreamOut>, TermRefusal>
    requires rows { HasRows stream.now }
    requires few { word_count stream.now ≤ MAX_ALL_WORDS }
    ensures table { IfOk result (λ outs. table.new ≡ (all_terms stream.now table.old).nodes) }
    ensures outs { IfOk result (λ outs. outs.items ≡ outs_of_rows stream.now (all_terms stream.now table.old).values) }
    ensures too_many { result ≡ Err TermRefusal.TooMany → Overflows (all_terms stream.now table.old).nodes }
{
    let runs = word_runs(alloc, stream)?;
    let nodes = plain_nodes(alloc, &stream.nodes)?;
    let firsts = first_nodes(alloc, &stream.nodes)?;
    let carried = place(alloc, table, &[], &firsts)?;
    outs_from(alloc, table, stream, &runs, &nodes, carried)
}

// The terms that go to a port, behind others.
fn push_due(outs: &[StreamOut], port: u32, due: &mut Vec<u32>) -> Result<(), AllocError>
    ensures { IfOk result (λ done. due.new.items ≡ due.old.items ++ filter_map (due_of port) outs.now) }
{
    for out in outs {
        if out.port == port {
            due.push(out.node)?;
        }
    }
    Ok(())
}

// The terms that go to these ports, one port behind the other.
fn by_port(alloc: Global, outs: &[StreamOut], order: &[u32]) -> Result<Vec<u32>, AllocError>
    ensures { IfOk result (λ due. due.items ≡ flat_map (λ q. filter_map (due_of q) outs.now) order.now) }
{
    let mut due = Vec::new(alloc);
    for port in order {
        push_due(outs, *port, &mut due)?;
    }
    Ok(due)
}

/// The numbers of the terms that these ports are due of all rows of a stream, one port behind the other, made in a table
/// in which the k-th word of all sources has the number 1 + k. Beside the table the call takes memory for what all ports
/// are due, twice.
pub fn claim_rows(
    alloc: Global,
    table: &mut TermTable,
    stream: &StreamFlow,
    order: &[u32],
) -> Result<Vec<u32>, TermRefusal>
    requires rows { HasRows stream.now }
    requires few { word_count stream.now ≤ MAX_ALL_WORDS }
    ensures table { IfOk result (λ due. table.new ≡ (all_terms stream.now table.old).nodes) }
    ensures due { IfOk result (λ due. due.items ≡ due_in stream.now order.now (all_terms stream.now table.old).values) }
    ensures too_many { result ≡ Err TermRefusal.TooMany → Overflows (all_terms stream.now table.old).nodes }
{
    let outs = all_outs(alloc, table, stream)?;
    let due = by_port(alloc, &outs, order)?;
    Ok(due)
}
