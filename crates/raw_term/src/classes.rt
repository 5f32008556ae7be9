//! Classes: for each term of a table one that has the same value, so that what is made of terms that are the same is
//! seen to be the same.
ghost use Rattle.std.specs.Prelude.{◌≡◌, ◌<◌, ◌∷◌, ◌++◌, [], true, List, length, slice_index, IfOk};
ghost use Rattle.raw_flow.specs.declared.node.Node.{Node};
ghost use Rattle.raw_term.specs.Same.{is_same};
ghost use Rattle.raw_term.specs.Classes.{AreClasses};

use crate::refusal::TermRefusal;
use crate::table::TermTable;
use raw_flow::Node;
use raw_tile_isa::law_words;
use std::alloc::{AllocError, Global};
use std::collections::HashMap;

// How many words may be looked at while terms are compared.
const MOST_LOOKS: u64 = 1_000_000_000;

// The values of a term under four lists of words for the inputs.
type Samples = [u32; 4];

// The k-th word of a list.
fn sample(k: u32, list: u32) -> u32 {
    let x = k
        .wrapping_mul(4)
        .wrapping_add(list)
        .wrapping_mul(0x9e37_79b1);
    let y = (x ^ (x >> 15)).wrapping_mul(0x85eb_ca77);
    let z = (y ^ (y >> 13)).wrapping_mul(0xc2b2_ae3d);
    z ^ (z >> 16)
}

// What is known of the terms of a table so far: the samples of each, and the first class with these samples.
#[derive(Drop)]
struct Known {
    samples: Vec<Samples>,
    first: HashMap<(u64, u64), u32>,
    inputs: u32,
    looks: u64,
}

impl Known {
    fn new(alloc: Global) -> Known {
        Known {
            samples: Vec::new(alloc),
            first: HashMap::new(alloc),
            inputs: 0,
            looks: 0,
        }
    }

    fn samples_at(&self, number: u32) -> Samples {
        match self.samples.get(number as usize) {
            Some(samples) => *samples,
            None => [0; 4],
        }
    }

    // The samples of a term.
    fn samples_of(&self, node: Node) -> Samples {
        match node {
            Node::Input => [
                sample(self.inputs, 0),
                sample(self.inputs, 1),
                sample(self.inputs, 2),
                sample(self.inputs, 3),
            ],
            Node::Const { word } => [word; 4],
            Node::Apply { op, a, b } => {
                let x = self.samples_at(a);
                let y = self.samples_at(b);
                [
                    op.apply(x[0], y[0]),
                    op.apply(x[1], y[1]),
                    op.apply(x[2], y[2]),
                    op.apply(x[3], y[3]),
                ]
            }
        }
    }

    // Reads the terms that it does not know yet.
    fn read(&mut self, table: &TermTable) -> Result<(), AllocError> {
        for number in self.samples.len()..table.len() as usize {
            let node = table.node(number as u32).unwrap_or(Node::Input);
            let samples = self.samples_of(node);
            self.samples.push(samples)?;
            if let Node::Input = node {
                self.inputs = self.inputs.wrapping_add(1);
            }
        }
        Ok(())
    }

    // The first class with the samples of a term, or else that term, which is then the first.
    fn first_like(&mut self, number: u32) -> Result<u32, TermRefusal> {
        let [a, b, c, d] = self.samples_at(number);
        let key = (
            u64::from(a) << 32 | u64::from(b),
            u64::from(c) << 32 | u64::from(d),
        );
        match self.first.get(&key) {
            Some(first) => Ok(*first),
            None => {
                self.first.insert(key, number)?;
                Ok(number)
            }
        }
    }

    // A term of a table that is seen to be the same as one.
    fn class(&mut self, alloc: Global, table: &TermTable, number: u32) -> Result<u32, TermRefusal>
        ensures { IfOk result (λ class. is_same table.now class number ≡ true) }
    {
        self.read(table)?;
        let first = self.first_like(number)?;
        if first == number || self.looks >= MOST_LOOKS {
            return Ok(number);
        }
        self.looks += 64 * u64::from(table.len());
        if table.is_same(alloc, first, number)? {
            return Ok(first);
        }
        Ok(number)
    }
}

// The class of a term, behind those of the terms before it.
fn class_of(
    alloc: Global,
    table: &mut TermTable,
    known: &mut Known,
    classes: &[u32],
    number: u32,
) -> Result<u32, TermRefusal>
    requires next { number ≡ length classes.now }
    ensures { IfOk result (λ class. (nodes : List Node) → length classes.now < length nodes →
        AreClasses nodes table.old classes.now → AreClasses nodes table.new (classes.now ++ class ∷ [])) }
{
    law_words();
    match table.node(number) {
        Some(Node::Apply { op, a, b }) => {
            let made = table.make(op, class_at(classes, a), class_at(classes, b))?;
            known.class(alloc, table, made)
        }
        _ => known.class(alloc, table, number),
    }
}

/// The class of a term.
pub fn class_at(classes: &[u32], number: u32) -> u32
    ensures { result ≡ slice_index classes.now number }
{
    match classes.get(number as usize) {
        Some(class) => *class,
        None => 0,
    }
}

/// A class for each term of a table, which grows. A refusal leaves the terms that were made.
pub fn term_classes(alloc: Global, table: &mut TermTable) -> Result<Vec<u32>, TermRefusal>
    ensures classes { IfOk result (λ classes. AreClasses table.old table.new classes.items) }
    ensures each { IfOk result (λ classes. length classes.items ≡ length table.old) }
{
    let mut known = Known::new(alloc);
    let mut classes = Vec::new(alloc);
    for number in 0..table.len() {
        let class = class_of(alloc, table, &mut known, &classes, number)?;
        classes.push(class)?;
    }
    Ok(classes)
}
