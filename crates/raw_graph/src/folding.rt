//! What each node of a flow means: a word that is known, or a value. It is by the normal form of terms, so that what is
//! left out or done in another way here is seen when the schedule is proved.
use crate::graph::{InputId, Operand, Origin};
use raw_flow::{Flow, FlowOp, Node};
use raw_frame::{Table, ValueId};
use raw_term::{TermRefusal, TermTable};
use std::alloc::{AllocError, Global};

/// The values of a flow, and what each of its nodes means by them.
#[derive(Drop)]
pub(crate) struct Folded {
    pub(crate) origins: Table<ValueId, Origin>,
    /// By the numbers of the nodes.
    pub(crate) meanings: Table<usize, Operand>,
}

// How many inputs a flow has.
fn input_count(flow: &Flow) -> u32 {
    let mut count = 0_u32;
    for node in &flow.nodes {
        if let Node::Input = *node {
            count = count.saturating_add(1);
        }
    }
    count
}

// The terms of the nodes of a flow. Those of its inputs follow the word 0, which is the first.
fn terms(
    alloc: Global,
    table: &mut TermTable,
    flow: &Flow,
) -> Result<Table<usize, u32>, TermRefusal> {
    let mut terms = Table::new(alloc, 0, 0)?;
    let mut input = 0_u32;
    for node in &flow.nodes {
        let term = match *node {
            Node::Input => {
                input = input.saturating_add(1);
                input
            }
            Node::Const { .. } => table.number_of(*node)?,
            Node::Apply { op, a, b } => {
                table.make(op, terms.at(a as usize), terms.at(b as usize))?
            }
        };
        terms.push(term)?;
    }
    Ok(terms)
}

// An operation. A complement is `nor` of a value with itself, which loads no word.
fn made(op: FlowOp, a: Operand, b: Operand) -> Origin {
    match (op, b) {
        (FlowOp::Xor, Operand::Word(u32::MAX)) => Origin::Made {
            op: FlowOp::Nor,
            a,
            b: a,
        },
        _ => Origin::Made { op, a, b },
    }
}

// Where the value of a term comes from; none for a word.
fn origin(node: Node, term: u32, known: &Table<usize, Operand>) -> Option<Origin> {
    match node {
        Node::Input => Some(Origin::Input(InputId((term as usize).saturating_sub(1)))),
        Node::Const { .. } => None,
        Node::Apply { op, a, b } => Some(made(op, known.at(a as usize), known.at(b as usize))),
    }
}

/// The values of some terms, and what each term means by them.
type Values = (Table<ValueId, Origin>, Table<usize, Operand>);

// What the terms of a table are, each made of earlier ones.
fn values(alloc: Global, table: &TermTable) -> Result<Values, AllocError> {
    let mut origins = Table::new(alloc, 0, Origin::Input(InputId(0)))?;
    let mut known = Table::new(alloc, 0, Operand::Word(0))?;
    for term in 0..table.len() {
        let node = table.node(term).unwrap_or(Node::Const { word: 0 });
        match origin(node, term, &known) {
            Some(origin) => {
                known.push(Operand::Value(ValueId(origins.size())))?;
                origins.push(origin)?;
            }
            None => known.push(Operand::Word(table.word(term).unwrap_or(0)))?,
        }
    }
    Ok((origins, known))
}

/// What the nodes of a flow mean.
pub(crate) fn fold(alloc: Global, flow: &Flow) -> Result<Folded, TermRefusal> {
    let mut table = TermTable::open(alloc, input_count(flow))?;
    let terms = terms(alloc, &mut table, flow)?;
    let (origins, known) = values(alloc, &table)?;
    let mut meanings = Table::new(alloc, 0, Operand::Word(0))?;
    for node in 0..terms.size() {
        meanings.push(known.at(terms.at(node) as usize))?;
    }
    Ok(Folded { origins, meanings })
}
