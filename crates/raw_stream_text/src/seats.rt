//! Edges at which there are ports, each once, by the order in which they are first named.
ghost use Rattle.std.specs.Prelude.{◌≡◌, [], ◌∷◌, length, IfOk, OnOk, All};
ghost use Rattle.raw_stream_text.specs.Edges.{key_of, edge_number, with_edge, places_of};
ghost use Rattle.raw_stream_text.specs.Seated.{IsNear};

use raw_grid::{PortKind, PortPlace};
use raw_set_text::Edge;
use std::alloc::{AllocError, Global};
use std::collections::HashMap;
use std::marker::Model;

/// Four numbers that tell an edge from others: its network, column, row and side.
type Key = (u8, u32, u32, u8);

/// Edges by their numbers, which need not be on the grid. A contract sees them as their list.
#[derive(Drop)]
pub struct Seats {
    edges: Vec<Edge>,
    // The number of each edge.
    numbers: HashMap<Key, u32>,
}

impl Model for Seats {
    ghost use Rattle.std.specs.Prelude.{List};
    ghost use Rattle.raw_set_text.specs.declared.declaration.Edge.{Edge};
    ghost use Rattle.raw_stream_text.specs.Seated.{AreSeats};

    ghost Value = { List Edge };

    ghost view = { λ s. s.edges.items };

    ghost invariant = { λ s. AreSeats s.edges.items s.numbers };
}

// The key of an edge.
fn key_of(edge: Edge) -> Key
    ensures { result ≡ key_of edge }
{
    (
        edge.net.number(),
        edge.tile.x,
        edge.tile.y,
        edge.side.number(),
    )
}

// The place of a port of this kind at an edge near the grid.
fn place_of(kind: PortKind, edge: Edge) -> PortPlace
    requires { IsNear edge }
    ensures { places_of kind (edge ∷ []) ≡ result ∷ [] }
{
    PortPlace {
        kind,
        net: edge.net,
        x: edge.tile.x as u8,
        y: edge.tile.y as u8,
        side: edge.side,
    }
}

impl Seats {
    /// No edges.
    pub(crate) fn new(alloc: Global) -> Seats
        ensures { result ≡ [] }
    {
        Seats {
            edges: Vec::new(alloc),
            numbers: HashMap::new(alloc),
        }
    }

    /// How many edges there are.
    pub(crate) fn len(&self) -> usize
        ensures { result ≡ length self.now }
    {
        self.edges.len()
    }

    /// The number of an edge.
    pub(crate) fn find(&self, edge: Edge) -> Option<u32>
        ensures { result ≡ edge_number self.now edge }
    {
        self.numbers.get(&key_of(edge)).copied()
    }

    /// Adds an edge, where it is not there. For want of memory nothing is added. More edges than can be numbered are that.
    pub(crate) fn add(&mut self, edge: Edge) -> Result<(), AllocError>
        ensures added { OnOk result (self.new ≡ with_edge self.old edge) }
    {
        if self.find(edge).is_some() {
            return Ok(());
        }
        let key = key_of(edge);
        let number = self.edges.len();
        if number > u32::MAX as usize {
            return Err(AllocError);
        }
        self.edges.push(edge)?;
        match self.numbers.insert(key, number as u32) {
            Ok(_) => Ok(()),
            Err(_) => {
                self.edges.truncate(number);
                Err(AllocError)
            }
        }
    }

    /// The places of ports of this kind at the edges.
    pub(crate) fn places(&self, alloc: Global, kind: PortKind) -> Result<Vec<PortPlace>, AllocError>
        requires { All IsNear self.now }
        ensures { IfOk result (λ places. places.items ≡ places_of kind self.now) }
    {
        let mut places = Vec::new(alloc);
        for number in 0..self.edges.len() {
            places.push(place_of(kind, self.edges[number]))?;
        }
        Ok(places)
    }
}
