//! The terms that some outs need.

use crate::values::{is_set, place, set_flag, value_at};
use raw_flow::{FlowOp, Node};
use std::alloc::{AllocError, Global};

/// Two terms that should have one value, by their places.
#[derive(Clone, Copy)]
pub(crate) struct Pair {
    pub(crate) received: u32,
    pub(crate) claimed: u32,
}

// The pairs of terms that stand at the same place of two lists.
fn paired(alloc: Global, received: &[u32], claimed: &[u32]) -> Result<Vec<Pair>, AllocError> {
    let mut pairs = Vec::new(alloc);
    for (received, claimed) in received.iter().zip(claimed) {
        pairs.push(Pair {
            received: *received,
            claimed: *claimed,
        })?;
    }
    Ok(pairs)
}

/// A term of a cone. The places of its operands are lower than its own.
#[derive(Clone, Copy)]
pub(crate) enum Part {
    /// The input of this number, from 0.
    Input(u32),
    Word(u32),
    Apply { op: FlowOp, a: u32, b: u32 },
}

/// The terms that pairs of terms are made of, lowest first, and the places of these pairs.
#[derive(Drop)]
pub(crate) struct Cone {
    pub(crate) parts: Vec<Part>,
    pub(crate) pairs: Vec<Pair>,
}

// Which of these nodes the pairs are made of.
fn needed(alloc: Global, nodes: &[Node], pairs: &[Pair]) -> Result<Vec<bool>, AllocError> {
    let mut flags = Vec::new(alloc);
    flags.resize(nodes.len(), false)?;
    for pair in pairs {
        set_flag(&mut flags, pair.received);
        set_flag(&mut flags, pair.claimed);
    }
    for (at, node) in nodes.iter().enumerate().rev() {
        if let Node::Apply { a, b, .. } = *node {
            if is_set(&flags, place(at)) {
                set_flag(&mut flags, a);
                set_flag(&mut flags, b);
            }
        }
    }
    Ok(flags)
}

// A node as a term of a cone, where so many inputs stand before it and nodes have these places.
fn part_of(node: Node, inputs: u32, places: &[u32]) -> Part {
    match node {
        Node::Input => Part::Input(inputs),
        Node::Const { word } => Part::Word(word),
        Node::Apply { op, a, b } => Part::Apply {
            op,
            a: value_at(places, a),
            b: value_at(places, b),
        },
    }
}

impl Cone {
    /// The cone of the pairs of terms at the same place of two lists, by their numbers among the nodes.
    pub(crate) fn new(
        alloc: Global,
        nodes: &[Node],
        received: &[u32],
        claimed: &[u32],
    ) -> Result<Cone, AllocError> {
        let mut pairs = paired(alloc, received, claimed)?;
        let flags = needed(alloc, nodes, &pairs)?;
        let mut places = Vec::new(alloc);
        let mut parts = Vec::new(alloc);
        let mut inputs: u32 = 0;
        for (at, node) in nodes.iter().enumerate() {
            places.push(place(parts.len()))?;
            if is_set(&flags, place(at)) {
                parts.push(part_of(*node, inputs, &places))?;
            }
            if *node == Node::Input {
                inputs = inputs.wrapping_add(1);
            }
        }
        for pair in pairs.iter_mut() {
            pair.received = value_at(&places, pair.received);
            pair.claimed = value_at(&places, pair.claimed);
        }
        Ok(Cone { parts, pairs })
    }

    /// Finds the values of all terms under these words for the inputs.
    pub(crate) fn evaluate(&self, words: &[u32], values: &mut [u32]) {
        for (at, part) in self.parts.iter().enumerate() {
            let value = match *part {
                Part::Input(input) => value_at(words, input),
                Part::Word(word) => word,
                Part::Apply { op, a, b } => op.apply(value_at(values, a), value_at(values, b)),
            };
            if let Some(found) = values.get_mut(at) {
                *found = value;
            }
        }
    }

    /// Whether the values of a pair differ.
    pub(crate) fn differs(&self, values: &[u32]) -> bool {
        for pair in &self.pairs {
            if value_at(values, pair.received) != value_at(values, pair.claimed) {
                return true;
            }
        }
        false
    }

    /// The term at a place; the word 0 past the end.
    pub(crate) fn part(&self, place: u32) -> Part {
        match self.parts.get(place as usize) {
            Some(part) => *part,
            None => Part::Word(0),
        }
    }
}
