//! A processor of a machine: a tile, a switch or a port.
ghost use Rattle.std.specs.Prelude.{◌≡◌};
ghost use Rattle.raw_model.specs.Local.{steps_of};
ghost use Rattle.raw_model.specs.Machine.{is_stopped};
ghost use Rattle.raw_model.specs.Start.{IsFit};
ghost use Rattle.raw_processor.specs.Processor.{local_of, local_mark, CanBe, IsCopy};

use crate::cache::Cache;
use crate::port_state::PortState;
use crate::ports::{capacity_of, sink_stopped, source_stopped, words_of};
use crate::switches::switch_stopped;
use crate::tiles::tile_stopped;
use raw_grid::ProcId;
use raw_model::{Mark, Set};
use raw_switch::{SwitchState, SwitchStep};
use raw_tile::{TileState, TileStep};

/// A tile of a machine.
#[derive(Drop)]
pub struct TileUnit {
    /// Its program, made for stepping. No step changes it.
    pub code: Vec<TileStep>,
    /// Its local state.
    pub state: TileState,
    /// What its cache holds.
    pub cache: Cache,
    /// How often it missed.
    pub misses: u64,
    /// How many stall turns it owes.
    pub owed: u8,
}

/// A switch of a machine.
#[derive(Drop)]
pub struct SwitchUnit {
    /// Its program, made for stepping. No step changes it.
    pub code: Vec<SwitchStep>,
    /// Its local state.
    pub state: SwitchState,
}

/// A processor of a machine.
#[derive(Drop)]
pub enum Processor {
    Tile(TileUnit),
    Switch(SwitchUnit),
    Source(PortState),
    Sink(PortState),
}

impl TileUnit {
    /// Makes the tile as another one, its program apart.
    fn copy_from(&mut self, other: &TileUnit)
        ensures code { self.new.code ≡ self.old.code }
        ensures state { self.new.state ≡ other.now.state }
        ensures cache { self.new.cache ≡ other.now.cache }
        ensures misses { self.new.misses ≡ other.now.misses }
        ensures owed { self.new.owed ≡ other.now.owed }
    {
        self.state.copy_from(&other.state);
        self.cache.copy_from(&other.cache);
        self.misses = other.misses;
        self.owed = other.owed;
    }
}

impl Processor {
    /// Makes it as another processor of its kind: its local state and what stands beside that. It keeps its program
    /// and its room. This takes no memory: a port has room for the words of the other.
    pub fn copy_from(&mut self, other: &Processor)
        requires { CanBe self.old other.now }
        ensures { IsCopy self.old other.now self.new }
    {
        match (self, other) {
            (Processor::Tile(tile), Processor::Tile(other)) => tile.copy_from(other),
            (Processor::Switch(switch), Processor::Switch(other)) => switch.state = other.state,
            (Processor::Source(port), Processor::Source(other)) => port.copy_from(other),
            (Processor::Sink(port), Processor::Sink(other)) => port.copy_from(other),
            // Processors of two kinds are never given.
            _ => {}
        }
    }

    /// Whether it takes no more steps: a tile or a switch that is halted or trapped or has executed as many
    /// instructions as the limit says, a source that has sent all its words, a sink that is full. It is
    /// the processor with this number of the set.
    pub fn is_stopped(&self, set: &Set, p: ProcId) -> bool
        requires { IsFit set.now p.0 (local_of self.now) }
        ensures { result ≡ is_stopped set.now p.0 (local_of self.now) }
    {
        match self {
            Processor::Tile(tile) => tile_stopped(&tile.state, set.limit),
            Processor::Switch(switch) => switch_stopped(&switch.state, set.limit),
            Processor::Source(port) => {
                let words = words_of(set, p);
                source_stopped(port, words.len())
            }
            Processor::Sink(port) => sink_stopped(port, capacity_of(set, p)),
        }
    }

    /// How many steps it has taken: the instructions that a tile or a switch has executed, the words that
    /// a port has put in or taken out.
    pub fn count(&self) -> u64
        ensures { result ≡ steps_of (local_of self.now) }
    {
        match self {
            Processor::Tile(tile) => tile.state.count,
            Processor::Switch(switch) => switch.state.count,
            Processor::Source(port) | Processor::Sink(port) => port.done,
        }
    }

    /// Its mark. A port is never halted or trapped, so it has the mark of one that goes on.
    pub fn mark(&self) -> Mark
        ensures { result ≡ local_mark (local_of self.now) }
    {
        match self {
            Processor::Tile(tile) => tile.state.mark,
            Processor::Switch(switch) => switch.state.mark,
            Processor::Source(_) | Processor::Sink(_) => Mark::Going,
        }
    }
}
