//! The nodes of the flow that a stream is, made row by row.
ghost use Rattle.std.specs.Prelude.{◌≡◌, ◌+◌, ◌-◌, ◌<◌, ◌≤◌, ◌^◌, length, Some, slice_get, slice_index, IfOk, OnOk};
ghost use Rattle.raw_stream.specs.Unrolled.{place};
ghost use Rattle.raw_unroll.specs.Known.{Fits, IsUnrolled, Takes, IsNext, AreThere, pre_place, node_of};

use crate::counts::{first_places, word_count};
use raw_flow::Node;
use raw_stream::{RowNode, StreamFlow};
use std::alloc::{AllocError, Global};

/// A stream of which some nodes are unrolled.
#[derive(Drop)]
pub struct Unrolling {
    /// Of each source the place of the word that its next input takes.
    pub(crate) next: Vec<u32>,
    /// Where the value of each node of each row is found, row by row.
    pub(crate) places: Vec<u32>,
    /// The nodes of the flow.
    pub(crate) nodes: Vec<Node>,
}

impl Unrolling {
    // A stream of which the words are there, and no row yet.
    fn new(alloc: Global, stream: &StreamFlow) -> Result<Unrolling, AllocError>
        requires { Fits stream.now }
        ensures { IfOk result (λ unrolling. IsUnrolled unrolling stream.now 0 0) }
    {
        let next = first_places(alloc, stream)?;
        let mut nodes = Vec::new(alloc);
        nodes.resize(word_count(stream) as usize, Node::Input)?;
        Ok(Unrolling {
            next,
            places: Vec::new(alloc),
            nodes,
        })
    }

    // The place of the next word of a source.
    fn take_word(&mut self, port: usize) -> u32
        requires within { port < length self.old.next.items }
        requires room { slice_index self.old.next.items port < 2 ^ 32 - 1 }
        ensures value { result ≡ slice_index self.old.next.items port }
        ensures takes { Takes self.old self.new port }
    {
        let place = self.next[port];
        self.next[port] = place + 1;
        place
    }

    // Where the value of a `pre` of node `a` is found, in a row whose first node has its place at `begin`.
    fn pre_place(&self, stream: &StreamFlow, row: usize, begin: usize, a: usize) -> u32
        requires before { 0 < row → length stream.now.nodes ≤ begin }
        requires there { begin ≤ length self.now.places.items }
        requires node { a < length stream.now.nodes }
        requires few { length self.now.nodes.items < 2 ^ 32 }
        ensures { result ≡ pre_place self.now (length stream.now.nodes) row begin a }
    {
        if row == 0 {
            self.nodes.len() as u32
        } else {
            self.places[begin - stream.nodes.len() + a]
        }
    }

    // Where the value of node `v` of a row is found, when those before it are unrolled. The word of an input is taken.
    fn take_place(&mut self, stream: &StreamFlow, row: usize, v: usize, node: RowNode) -> u32
        requires unrolled { IsUnrolled self.old stream.now row v }
        requires row { row < stream.now.count }
        requires node { slice_get stream.now.nodes v ≡ Some node }
        ensures value { result ≡ place stream.now row v }
        ensures next { IsNext self.old self.new stream.now row v }
    {
        let begin = self.places.len() - v;
        match node {
            RowNode::Input { port } => self.take_word(port as usize),
            RowNode::Const { .. } => self.nodes.len() as u32,
            RowNode::Apply { .. } => self.nodes.len() as u32,
            RowNode::Pre { a, .. } => self.pre_place(stream, row, begin, a as usize),
        }
    }

    // The node that stands for one of a row, whose first node has its place at `begin`.
    fn node_of(&self, begin: usize, node: RowNode) -> Node
        requires { AreThere begin (length self.now.places.items) node }
        ensures { result ≡ node_of self.now.places.items begin node }
    {
        match node {
            RowNode::Input { .. } => Node::Const { word: 0 },
            RowNode::Const { word } => Node::Const { word },
            RowNode::Apply { op, a, b } => Node::Apply {
                op,
                a: self.places[begin + a as usize],
                b: self.places[begin + b as usize],
            },
            RowNode::Pre { word, .. } => Node::Const { word },
        }
    }

    // Unrolls node `v` of a row, when those before it are.
    fn add_node(&mut self, stream: &StreamFlow, row: usize, v: usize) -> Result<(), AllocError>
        requires unrolled { IsUnrolled self.old stream.now row v }
        requires row { row < stream.now.count }
        requires node { v < length stream.now.nodes }
        ensures { OnOk result (IsUnrolled self.new stream.now row (v + 1)) }
    {
        let node = stream.nodes[v];
        let made = self.node_of(self.places.len() - v, node);
        let place = self.take_place(stream, row, v, node);
        self.places.push(place)?;
        self.nodes.push(made)?;
        Ok(())
    }

    // Unrolls a row, when those before it are.
    fn add_row(&mut self, stream: &StreamFlow, row: usize) -> Result<(), AllocError>
        requires unrolled { IsUnrolled self.old stream.now row 0 }
        requires row { row < stream.now.count }
        ensures { OnOk result (IsUnrolled self.new stream.now (row + 1) 0) }
    {
        for v in 0..stream.nodes.len() {
            self.add_node(stream, row, v)?;
        }
        Ok(())
    }

    /// All rows of a stream, unrolled.
    pub(crate) fn of_all(alloc: Global, stream: &StreamFlow) -> Result<Unrolling, AllocError>
        requires { Fits stream.now }
        ensures { IfOk result (λ unrolling. IsUnrolled unrolling stream.now stream.now.count 0) }
    {
        let mut unrolling = Unrolling::new(alloc, stream)?;
        for row in 0..stream.count as usize {
            unrolling.add_row(stream, row)?;
        }
        Ok(unrolling)
    }
}
