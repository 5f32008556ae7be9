//! Words on their way.
use crate::numbers::{OutId, TileId, ValueId};
use crate::part::{Part, net_index};
use crate::tiles::TileSet;
use crate::waiting::Rank;
use raw_grid::{Dir, End, Net, Side};
use raw_model::limits::DEFAULT_DEPTH;
use std::alloc::{AllocError, Global};

/// A word on its way.
#[derive(Clone, Copy, PartialEq, Eq)]
pub struct Word {
    /// The value that it is; an input that nobody needs has none.
    pub value: Option<ValueId>,
    /// The tiles that still need it.
    pub tiles: TileSet,
    /// Which of the outs it is, if it goes to the sink.
    pub out: Option<OutId>,
    pub rank: Rank,
}

/// A value that comes to a tile.
#[derive(Clone, Copy, PartialEq, Eq)]
pub struct Arrival {
    pub tile: TileId,
    pub value: ValueId,
}

/// The place of a wire among those of a part.
#[derive(Clone, Copy)]
pub struct WirePlace(usize);

#[derive(Drop)]
struct Wire {
    words: Vec<Word>,
    // How many there were when the cycle began.
    held: usize,
    // What is sent in this cycle.
    coming: Option<Word>,
}

impl Wire {
    fn settle(&mut self) -> Result<Option<Word>, AllocError> {
        let coming = self.coming;
        if let Some(word) = coming {
            self.words.push(word)?;
        }
        self.coming = None;
        self.held = self.words.len();
        Ok(coming)
    }
}

/// The wires of a part of a grid, with a source and a sink on network 1 at the west of its corner. In a cycle each wire
/// is seen as it was when the cycle began; what is sent comes when the cycle ends.
#[derive(Drop)]
pub struct Wires {
    part: Part,
    wires: Vec<Wire>,
}

/// How many wires have their places by each tile: those that leave its switch, by their ends, and then those from it.
const OF_TILE: usize = 12;

// The place of the first wire by a tile.
fn first_of(tile: TileId) -> usize {
    tile.0.saturating_mul(OF_TILE)
}

// The wire that leaves a switch at an end.
fn leaving(tile: TileId, output: End) -> WirePlace {
    WirePlace(first_of(tile).saturating_add(usize::from(output.index())))
}

// The side of a direction that is none of the tile itself.
fn side_of(dir: Dir) -> Option<Side> {
    match dir {
        Dir::N => Some(Side::N),
        Dir::E => Some(Side::E),
        Dir::S => Some(Side::S),
        Dir::W => Some(Side::W),
        Dir::P => None,
    }
}

impl Wires {
    /// Those of a part of a grid, all empty.
    pub fn new(alloc: Global, part: Part) -> Result<Wires, AllocError> {
        let mut wires = Vec::new(alloc);
        for _ in 0..part.tiles().saturating_mul(OF_TILE).saturating_add(2) {
            wires.push(Wire {
                words: Vec::new(alloc),
                held: 0,
                coming: None,
            })?;
        }
        Ok(Wires { part, wires })
    }

    /// The wire from a switch to its tile.
    pub fn to_tile(&self, tile: TileId, net: Net) -> WirePlace {
        leaving(tile, End { net, dir: Dir::P })
    }

    /// The wire from a tile to its switch.
    pub fn from_tile(&self, tile: TileId, net: Net) -> WirePlace {
        let first = first_of(tile).saturating_add(10);
        WirePlace(first.saturating_add(net_index(net)))
    }

    /// The wire of the source.
    pub fn source(&self) -> WirePlace {
        WirePlace(self.part.tiles().saturating_mul(OF_TILE))
    }

    /// The wire of the sink.
    pub fn sink(&self) -> WirePlace {
        WirePlace(self.part.tiles().saturating_mul(OF_TILE).saturating_add(1))
    }

    // Whether a port stands there.
    fn has_port(&self, tile: TileId, end: End) -> bool {
        tile == TileId::CORNER && end.net == Net::One && end.dir == Dir::W
    }

    /// The wire that leaves a switch at an end.
    pub fn output(&self, tile: TileId, output: End) -> Option<WirePlace> {
        let Some(side) = side_of(output.dir) else {
            return Some(leaving(tile, output));
        };
        if self.part.neighbour(tile, side).is_some() {
            Some(leaving(tile, output))
        } else if self.has_port(tile, output) {
            Some(self.sink())
        } else {
            None
        }
    }

    /// The wire that comes to a switch at an end.
    pub fn input(&self, tile: TileId, input: End) -> Option<WirePlace> {
        let Some(side) = side_of(input.dir) else {
            return Some(self.from_tile(tile, input.net));
        };
        if let Some(other) = self.part.neighbour(tile, side) {
            let dir = Dir::from(side.opposite());
            Some(leaving(other, End { dir, ..input }))
        } else if self.has_port(tile, input) {
            Some(self.source())
        } else {
            None
        }
    }

    /// The word at a place of a wire, from its front, of those that have not been taken.
    pub fn word(&self, wire: WirePlace, place: usize) -> Option<Word> {
        self.wires.get(wire.0)?.words.get(place).copied()
    }

    /// How many words a wire held when the cycle began.
    pub fn held(&self, wire: WirePlace) -> usize {
        match self.wires.get(wire.0) {
            Some(wire) => wire.held,
            None => 0,
        }
    }

    /// Whether a word may be sent on a wire in this cycle.
    pub fn has_room(&self, wire: WirePlace) -> bool {
        match self.wires.get(wire.0) {
            Some(wire) => wire.held < usize::from(DEFAULT_DEPTH) && wire.coming.is_none(),
            None => false,
        }
    }

    /// Takes the word at the front of a wire.
    pub fn take(&mut self, wire: WirePlace) -> Option<Word> {
        let wire = self.wires.get_mut(wire.0)?;
        if wire.words.is_empty() {
            None
        } else {
            Some(wire.words.remove(0))
        }
    }

    /// Sends a word on a wire.
    pub fn send(&mut self, wire: WirePlace, word: Word) {
        if let Some(wire) = self.wires.get_mut(wire.0) {
            wire.coming = Some(word);
        }
    }

    // What was sent on a wire comes.
    fn settle(&mut self, wire: WirePlace) -> Result<Option<Word>, AllocError> {
        match self.wires.get_mut(wire.0) {
            Some(wire) => wire.settle(),
            None => Ok(None),
        }
    }

    // What was sent to a tile comes.
    fn settle_tile(&mut self, tile: TileId, arrivals: &mut Vec<Arrival>) -> Result<(), AllocError> {
        for net in [Net::One, Net::Two] {
            let wire = self.to_tile(tile, net);
            if let Some(word) = self.settle(wire)? {
                if let Some(value) = word.value {
                    arrivals.push(Arrival { tile, value })?;
                }
            }
        }
        Ok(())
    }

    /// The end of a cycle: what was sent comes. What has come to tiles goes into a list.
    pub fn settle_all(&mut self, arrivals: &mut Vec<Arrival>) -> Result<(), AllocError> {
        for tile in (0..self.part.tiles()).map(TileId) {
            self.settle_tile(tile, arrivals)?;
        }
        for wire in (0..self.wires.len()).map(WirePlace) {
            self.settle(wire)?;
        }
        Ok(())
    }

    /// Whether all wires are empty.
    pub fn are_empty(&self) -> bool {
        self.wires.iter().all(|wire| wire.held == 0)
    }
}
