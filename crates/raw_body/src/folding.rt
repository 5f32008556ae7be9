//! What the nodes of a row mean: terms in their normal form, where inputs and what is kept from the row before are
//! unknown.
use crate::body::SourceId;
use raw_flow::Node;
use raw_frame::Table;
use raw_stream::{RowNode, StreamFlow};
use raw_term::{TermRefusal, TermTable};
use std::alloc::{AllocError, Global};

/// What an unknown term stands for.
#[derive(Clone, Copy, PartialEq, Eq)]
pub(crate) enum Unknown {
    /// The next word of the source.
    Source(SourceId),
    /// In the first row this word, and in each later one the value of a node in the row before.
    Before { node: usize, word: u32 },
}

/// The terms of a row.
#[derive(Drop)]
pub(crate) struct Folded {
    pub(crate) table: TermTable,
    unknowns: Table<usize, Unknown>,
    /// By the numbers of the nodes.
    terms: Table<usize, u32>,
    /// Whether each term is one of those that are themselves some rows before, with nothing else between: of each circle
    /// of them the one with the least number.
    roots: Table<usize, bool>,
}

/// A term as it was some rows before: `words` are what it is taken for in the rows below the first, the earliest first,
/// and as many as the rows.
#[derive(Drop)]
pub(crate) struct Earlier {
    pub(crate) term: u32,
    pub(crate) words: Vec<u32>,
}

// What a node stands for where it is unknown.
fn unknown_of(node: RowNode) -> Option<Unknown> {
    match node {
        RowNode::Input { port } => Some(Unknown::Source(SourceId(port as usize))),
        RowNode::Pre { a, word } => Some(Unknown::Before {
            node: a as usize,
            word,
        }),
        RowNode::Const { .. } => None,
        RowNode::Apply { .. } => None,
    }
}

// How many nodes of a stream are unknown, at most.
fn unknown_count(stream: &StreamFlow) -> u32 {
    let mut count = 0_u32;
    for node in &stream.nodes {
        if unknown_of(*node).is_some() {
            count = count.saturating_add(1);
        }
    }
    count
}

impl Folded {
    // The place of what is kept from the row before, if it is known.
    fn place_of(&self, unknown: Unknown) -> Option<usize> {
        for place in 0..self.unknowns.size() {
            if self.unknowns.at(place) == unknown {
                return Some(place);
            }
        }
        None
    }

    // The term of what is unknown: equal ones are one, but for inputs.
    fn unknown_term(&mut self, unknown: Unknown) -> Result<u32, AllocError> {
        let known = match unknown {
            Unknown::Source(_) => None,
            Unknown::Before { .. } => self.place_of(unknown),
        };
        let place = match known {
            Some(place) => place,
            None => {
                self.unknowns.push(unknown)?;
                self.unknowns.size().saturating_sub(1)
            }
        };
        Ok(place.saturating_add(1).min(u32::MAX as usize) as u32)
    }

    // The term of a node.
    fn term_of(&mut self, node: RowNode) -> Result<u32, TermRefusal> {
        match node {
            RowNode::Const { word } => self.table.number_of(Node::Const { word }),
            RowNode::Apply { op, a, b } => {
                let (a, b) = (self.terms.at(a as usize), self.terms.at(b as usize));
                self.table.make(op, a, b)
            }
            RowNode::Input { port } => {
                Ok(self.unknown_term(Unknown::Source(SourceId(port as usize)))?)
            }
            RowNode::Pre { a, word } => {
                let node = a as usize;
                Ok(self.unknown_term(Unknown::Before { node, word })?)
            }
        }
    }

    /// The term of a node, by its number.
    pub(crate) fn term(&self, node: usize) -> u32 {
        self.terms.at(node)
    }

    /// The source of which a term is a word.
    pub(crate) fn source(&self, term: u32) -> Option<SourceId> {
        let place = (term as usize).checked_sub(1)?;
        if place >= self.unknowns.size() {
            return None;
        }
        match self.unknowns.at(place) {
            Unknown::Source(source) => Some(source),
            Unknown::Before { .. } => None,
        }
    }

    // What a term is in the row before, where it is that.
    fn before(&self, term: u32) -> Option<(u32, u32)> {
        let place = (term as usize).checked_sub(1)?;
        if place >= self.unknowns.size() {
            return None;
        }
        match self.unknowns.at(place) {
            Unknown::Source(_) => None,
            Unknown::Before { node, word } => Some((self.terms.at(node), word)),
        }
    }

    // The term on a circle to which a term comes, going back; none where it comes to none.
    fn end(&self, term: u32) -> Option<u32> {
        let mut at = term;
        for _ in 0..self.unknowns.size().saturating_add(1) {
            match self.before(at) {
                Some((term, _)) => at = term,
                None => return None,
            }
        }
        Some(at)
    }

    // The least of the terms on the circle of a term.
    fn least_around(&self, term: u32) -> u32 {
        let mut least = term;
        let mut at = term;
        for _ in 0..self.unknowns.size() {
            if let Some((term, _)) = self.before(at) {
                at = term;
                least = at.min(least);
            }
        }
        least
    }

    // Finds the terms that are themselves some rows before.
    fn find_roots(&mut self) {
        for term in 0..self.table.len() {
            if let Some(term) = self.end(term) {
                let root = self.least_around(term);
                self.roots.put(root as usize, true);
            }
        }
    }

    /// Whether a term stands for those that are themselves some rows before.
    pub(crate) fn is_root(&self, term: u32) -> bool {
        self.roots.at(term as usize)
    }

    // Goes on from a term to what it is some rows before; `words` are those of the rows that were gone back.
    fn go_back(&self, term: u32, mut words: Vec<u32>) -> Result<Earlier, AllocError> {
        let mut at = term;
        for _ in 0..self.unknowns.size() {
            if self.is_root(at) {
                break;
            }
            match self.before(at) {
                Some((term, word)) => {
                    words.push(word)?;
                    at = term;
                }
                None => break,
            }
        }
        Ok(Earlier { term: at, words })
    }

    /// Which term a term is, some rows before.
    pub(crate) fn earlier(&self, alloc: Global, term: u32) -> Result<Earlier, AllocError> {
        self.go_back(term, Vec::new(alloc))
    }

    /// The same of a root, which is itself some rows before.
    pub(crate) fn around(&self, alloc: Global, root: u32) -> Result<Earlier, AllocError> {
        let mut words = Vec::new(alloc);
        match self.before(root) {
            Some((term, word)) => {
                words.push(word)?;
                self.go_back(term, words)
            }
            None => self.go_back(root, words),
        }
    }
}

/// The terms of the nodes of a stream.
pub(crate) fn fold(alloc: Global, stream: &StreamFlow) -> Result<Folded, TermRefusal> {
    let mut folded = Folded {
        table: TermTable::open(alloc, unknown_count(stream))?,
        unknowns: Table::new(alloc, 0, Unknown::Source(SourceId(0)))?,
        terms: Table::new(alloc, 0, 0)?,
        roots: Table::new(alloc, 0, false)?,
    };
    for node in &stream.nodes {
        let term = folded.term_of(*node)?;
        folded.terms.push(term)?;
    }
    folded.roots = Table::new(alloc, folded.table.len() as usize, false)?;
    folded.find_roots();
    Ok(folded)
}
