//! Building a set, entry by entry.
ghost use Rattle.std.specs.Prelude.{◌≡◌, ◌≤◌, ◌<◌, ◌%◌, ℕ, List, [], ◌∷◌, Ok, Err, length, IfOk, OnOk, OnErr};
ghost use Rattle.raw_set_text.specs.Entry.{Entry, entry_of, place_of};
ghost use Rattle.raw_set_text.specs.Entry.Entry.{Grid, Limit, Depth, Port, Feed, Data, Misses, Show as ShowEntry, Tile, Switch};
ghost use Rattle.raw_set_text.specs.Faults.{entry_fault};
ghost use Rattle.raw_model.specs.declared.limits.TheConstants.{MAX_ALL_SHOWN, MAX_STEPS};
ghost use Rattle.raw_model.specs.Program.{IsSet};
ghost use Rattle.raw_set_text.specs.Entries.{sizes_of, set_of};
ghost use Rattle.raw_set_text.specs.Sections.{wired_at};
ghost use Rattle.raw_set_text.specs.Answers.{Answers};
ghost use Rattle.raw_grid.specs.Topology.{tile_count};

use crate::declaration::{Declaration, Edge, Position};
use crate::kind::{SetKind, SetRefusal};
use crate::ports::Ports;
use crate::refused::LineRefusal;
use crate::tiles::Tiles;
use raw_grid::{Ends, MAX_SIZE, PortKind};
use raw_model::limits::{
    DEFAULT_DEPTH, MAX_ALL_SHOWN, MAX_DEPTH, MAX_SHOWS, MAX_STEPS, MEMORY_SIZE,
};
use raw_model::{Set, Show};
use std::alloc::{AllocError, Global};

/// A set that is being built from its lines, behind its grid and its limit.
#[derive(Drop)]
pub(crate) struct Builder {
    pub(crate) ports: Ports,
    pub(crate) tiles: Tiles,
    pub(crate) limit: u32,
    /// What a `depth` line said, where there was one.
    pub(crate) depth: Option<u8>,
    pub(crate) shows: Vec<Show>,
    /// How many words the report shows.
    pub(crate) shown: u32,
    ghost each_tile: { length tiles.parts.items ≡ tile_count ports.topo },
    ghost some_steps: { 1 ≤ limit },
    ghost few_steps: { limit ≤ MAX_STEPS },
    ghost few_shown: { shown ≤ MAX_ALL_SHOWN },
}

impl Builder {
    ghost use Rattle.raw_set_text.specs.Building.{PortsStand};
    ghost use Rattle.raw_set_text.specs.Tiling.{HasNoCode, HasNoSwitch};
    ghost use Rattle.raw_set_text.specs.Reading.{BuilderStands, Adds, IsNumbered, IsAligned};

    /// A set of a grid that is given nothing yet, and of a limit.
    pub(crate) fn new(alloc: Global, ports: Ports, limit: u32) -> Result<Builder, AllocError>
        requires some { 1 ≤ limit }
        requires few { limit ≤ MAX_STEPS }
        ensures { IfOk result (λ builder. (columns rows : ℕ) → PortsStand ports (Grid columns rows ∷ [])
            → BuilderStands builder (Grid columns rows ∷ Limit limit ∷ [])) }
    {
        let count = ports.topo.tiles();
        Ok(Builder {
            tiles: Tiles::new(alloc, count)?,
            ports,
            limit,
            depth: None,
            shows: Vec::new(alloc),
            shown: 0,
        })
    }

    /// Adds what a line declares.
    pub(crate) fn add(&mut self, declaration: &Declaration) -> Result<(), LineRefusal>
        requires { IsAligned (entry_of declaration.now) }
        ensures { Adds self.old self.new result (entry_of declaration.now) }
    {
        match declaration {
            Declaration::Grid(columns, rows) => later_grid(*columns, *rows),
            Declaration::Limit(_) => Err(LineRefusal::Fault(SetKind::Repeated)),
            Declaration::Depth(depth) => self.set_depth(*depth),
            Declaration::Source(edge) => self.add_port(PortKind::Source, *edge, 0),
            Declaration::Sink(edge, capacity) => self.add_port(PortKind::Sink, *edge, *capacity),
            Declaration::Feed(edge, words) => self.feed(*edge, words),
            Declaration::Data(tile, address, words) => self.add_data(*tile, *address, words),
            Declaration::Misses(tile, turns) => self.add_misses(*tile, turns),
            Declaration::Show(tile, address, words) => self.add_show(*tile, *address, *words),
        }
    }

    // The depth of wires, which is said once.
    fn set_depth(&mut self, depth: u32) -> Result<(), LineRefusal>
        ensures { Adds self.old self.new result (Depth depth) }
    {
        if self.depth.is_some() {
            return Err(LineRefusal::Fault(SetKind::Repeated));
        }
        if !(1..=u32::from(MAX_DEPTH)).contains(&depth) {
            return Err(LineRefusal::Fault(SetKind::OverLimit));
        }
        self.depth = Some(depth as u8);
        Ok(())
    }

    fn add_port(&mut self, kind: PortKind, edge: Edge, capacity: u32) -> Result<(), LineRefusal>
        ensures { Adds self.old self.new result (Port (place_of kind edge) capacity) }
    {
        self.ports.add(kind, edge, capacity)
    }

    fn feed(&mut self, edge: Edge, words: &[u32]) -> Result<(), LineRefusal>
        ensures { Adds self.old self.new result (Feed (place_of PortKind.Source edge) words.now) }
    {
        self.ports.feed(edge, words)
    }

    // The number of a tile of the grid.
    fn tile_number(&self, tile: Position) -> Result<u32, LineRefusal>
        ensures numbered { (entries : List Entry) → BuilderStands self.now entries → IsNumbered entries tile result }
        ensures there { IfOk result (λ t. t < length self.now.tiles.parts.items) }
    {
        let columns = u32::from(self.ports.topo.cols());
        let rows = u32::from(self.ports.topo.rows());
        if tile.x >= columns || tile.y >= rows {
            return Err(LineRefusal::Fault(SetKind::OffGrid));
        }
        Ok(self.ports.topo.tile_at(tile.x as u8, tile.y as u8))
    }

    fn add_data(&mut self, tile: Position, address: u32, words: &[u32]) -> Result<(), LineRefusal>
        requires { address % 4 ≡ 0 }
        ensures { Adds self.old self.new result (Data tile address words.now) }
    {
        let number = self.tile_number(tile)?;
        self.tiles.add_data(number, address, words)
    }

    fn add_misses(&mut self, tile: Position, turns: &[u32]) -> Result<(), LineRefusal>
        ensures { Adds self.old self.new result (Misses tile turns.now) }
    {
        let number = self.tile_number(tile)?;
        self.tiles.add_misses(number, turns)
    }

    fn add_show(&mut self, tile: Position, address: u32, words: u32) -> Result<(), LineRefusal>
        ensures { Adds self.old self.new result (ShowEntry tile address words) }
    {
        let number = self.tile_number(tile)?;
        let shown = u64::from(self.shown) + u64::from(words);
        if u64::from(address) + 4 * u64::from(words) > u64::from(MEMORY_SIZE)
            || self.shows.len() + 1 > MAX_SHOWS as usize
            || shown > u64::from(MAX_ALL_SHOWN)
        {
            return Err(LineRefusal::Fault(SetKind::OverLimit));
        }
        self.shows.push(Show {
            tile: number,
            address,
            words,
        })?;
        self.shown = shown as u32;
        Ok(())
    }

    /// Whether a tile's program may begin: its number, where it is on the grid and has none yet.
    pub(crate) fn tile_head(&self, tile: Position) -> Result<u32, LineRefusal>
        ensures fault { (entries : List Entry) → BuilderStands self.now entries → Answers result (entry_fault entries (Tile tile [])) }
        ensures numbered { (entries : List Entry) → BuilderStands self.now entries → IfOk result (λ t. IsNumbered entries tile (Ok t)) }
        ensures there { IfOk result (λ t. t < length self.now.tiles.parts.items) }
        ensures free { IfOk result (HasNoCode self.now.tiles) }
    {
        let number = self.tile_number(tile)?;
        if self.tiles.has_code(number) {
            return Err(LineRefusal::Fault(SetKind::Repeated));
        }
        Ok(number)
    }

    /// The same for the program of a switch.
    pub(crate) fn switch_head(&self, tile: Position) -> Result<u32, LineRefusal>
        ensures fault { (entries : List Entry) → BuilderStands self.now entries → Answers result (entry_fault entries (Switch tile [])) }
        ensures numbered { (entries : List Entry) → BuilderStands self.now entries → IfOk result (λ t. IsNumbered entries tile (Ok t)) }
        ensures there { IfOk result (λ t. t < length self.now.tiles.parts.items) }
        ensures free { IfOk result (HasNoSwitch self.now.tiles) }
    {
        let number = self.tile_number(tile)?;
        if self.tiles.has_switch(number) {
            return Err(LineRefusal::Fault(SetKind::Repeated));
        }
        Ok(number)
    }

    /// The ends of the switch of a tile that have a wire.
    pub(crate) fn wired(&self, tile: Position) -> Ends
        requires column { tile.x < self.now.ports.topo.cols }
        requires row { tile.y < self.now.ports.topo.rows }
        ensures { result ≡ wired_at self.now.ports.topo tile }
    {
        prove!(tile.x < u32::from(self.ports.topo.cols()));
        prove!(tile.y < u32::from(self.ports.topo.rows()));
        self.ports.topo.ends_of(tile.x as u8, tile.y as u8)
    }

    /// The set that was built.
    pub(crate) fn finish(self, alloc: Global) -> Result<Set, SetRefusal>
        requires { (entries : List Entry) × BuilderStands self entries × IsSet (set_of entries) }
        ensures set { (entries : List Entry) → BuilderStands self entries → IfOk result (λ set. set ≡ set_of entries) }
        ensures memory { OnErr result (result ≡ Err SetRefusal.Memory) }
    {
        let depth = self.depth.unwrap_or(DEFAULT_DEPTH);
        let tiles = self.tiles.programs(alloc)?;
        let Ports { topo, programs, .. } = self.ports;
        Ok(Set {
            topo,
            limit: self.limit,
            depth,
            ports: programs,
            tiles,
            shows: self.shows,
        })
    }
}

// A second grid: its size is looked at before that.
fn later_grid(columns: u32, rows: u32) -> Result<(), LineRefusal>
    ensures fault { (entries : List Entry) → 0 < length (sizes_of entries) → Answers result (entry_fault entries (Grid columns rows)) }
    ensures never { OnOk result ⊥ }
{
    let sizes = 1..=u32::from(MAX_SIZE);
    if sizes.contains(&columns) && sizes.contains(&rows) {
        Err(LineRefusal::Fault(SetKind::Repeated))
    } else {
        Err(LineRefusal::Fault(SetKind::BadSize))
    }
}
