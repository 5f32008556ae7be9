//! The state of a run.
use crate::task::Task;
use crate::tile::{Tile, ValuePlace};
use raw_frame::{Arrival, OutId, Register, Table, TileId, ValueId, Waiting, Wires};
use raw_graph::Operand;
use raw_grid::Net;
use raw_model::TileProg;
use raw_tile_isa::TileIns;
use std::alloc::{AllocError, Global};

/// A run of a task: what stands where in the cycle that has been come to, and what has been written down.
#[derive(Drop)]
pub(crate) struct Issue<'a> {
    pub(crate) task: Task<'a>,
    pub(crate) wires: Wires,
    tiles: Vec<Tile>,
    /// What stands for the tiles past them.
    other: Tile,
    pub(crate) programs: Vec<TileProg>,
    /// Where each value is at each tile.
    locals: Table<usize, ValuePlace>,
    /// How many operands of each value have not come yet.
    pub(crate) missing: Table<ValueId, usize>,
    /// Whether each value has been made.
    pub(crate) issued: Table<ValueId, bool>,
    /// How many values are still to be made.
    pub(crate) left: usize,
    /// The next out that is sent.
    pub(crate) next_out: OutId,
    /// How many outs have passed each switch.
    pub(crate) passed: Table<TileId, usize>,
    /// What has come to tiles, or was made there, in this cycle.
    pub(crate) arrivals: Vec<Arrival>,
    /// Values that were made into registers in this cycle.
    pub(crate) made: Vec<Arrival>,
    /// Whether anything was done in this cycle.
    pub(crate) has_acted: bool,
}

/// The registers that have to keep what they hold.
pub(crate) type Kept = [Option<Register>; 2];

/// Where an operand is read.
#[derive(Clone, Copy)]
pub(crate) enum OperandPlace {
    Register(Register),
    Network(Net),
}

impl OperandPlace {
    /// The register that is read.
    pub(crate) fn register(self) -> Register {
        match self {
            OperandPlace::Register(register) => register,
            OperandPlace::Network(net) => Register::of_network(net),
        }
    }

    /// The register that has to keep what it holds.
    pub(crate) fn kept(self) -> Option<Register> {
        match self {
            OperandPlace::Register(register) => Some(register),
            OperandPlace::Network(_) => None,
        }
    }
}

// Empty programs, and tiles that have done nothing.
fn blank(alloc: Global, count: usize) -> Result<(Vec<Tile>, Vec<TileProg>), AllocError> {
    let mut tiles = Vec::new(alloc);
    let mut programs = Vec::new(alloc);
    for _ in 0..count {
        tiles.push(Tile::new(alloc))?;
        programs.push(TileProg {
            code: Vec::new(alloc),
            switch: Vec::new(alloc),
            cells: Vec::new(alloc),
            misses: Vec::new(alloc),
        })?;
    }
    Ok((tiles, programs))
}

impl<'a> Issue<'a> {
    /// The run before its first cycle.
    pub(crate) fn new(alloc: Global, task: Task<'a>) -> Result<Issue<'a>, AllocError> {
        let count = task.graph.count();
        let part = task.part;
        let (tiles, programs) = blank(alloc, part.tiles())?;
        let mut issue = Issue {
            task,
            wires: Wires::new(alloc, part)?,
            tiles,
            other: Tile::new(alloc),
            programs,
            locals: Table::new(alloc, count.saturating_mul(part.tiles()), ValuePlace::NONE)?,
            missing: Table::new(alloc, count, 0)?,
            issued: Table::new(alloc, count, false)?,
            left: 0,
            next_out: OutId(0),
            passed: Table::new(alloc, part.tiles(), 0)?,
            arrivals: Vec::new(alloc),
            made: Vec::new(alloc),
            has_acted: false,
        };
        issue.begin()?;
        Ok(issue)
    }

    // The place of a value at a tile.
    fn place(&self, tile: TileId, value: ValueId) -> usize {
        let count = self.task.graph.count();
        tile.0.saturating_mul(count).saturating_add(value.0)
    }

    /// Where a value is at a tile.
    pub(crate) fn local(&self, tile: TileId, value: ValueId) -> ValuePlace {
        self.locals.at(self.place(tile, value))
    }

    /// From now on a value is there.
    pub(crate) fn set_local(&mut self, tile: TileId, value: ValueId, local: ValuePlace) {
        let place = self.place(tile, value);
        self.locals.put(place, local);
    }

    /// From now on a value is in this register of a tile, or in none.
    pub(crate) fn set_register(
        &mut self,
        tile: TileId,
        value: ValueId,
        register: Option<Register>,
    ) {
        let mut local = self.local(tile, value);
        local.register = register;
        self.set_local(tile, value, local);
    }

    /// A tile.
    pub(crate) fn tile(&self, tile: TileId) -> &Tile {
        match self.tiles.get(tile.0) {
            Some(tile) => tile,
            None => &self.other,
        }
    }

    /// The same, so that it can be changed.
    pub(crate) fn tile_mut(&mut self, tile: TileId) -> &mut Tile {
        match self.tiles.get_mut(tile.0) {
            Some(tile) => tile,
            None => &mut self.other,
        }
    }

    /// A value has been made.
    pub(crate) fn set_issued(&mut self, tile: TileId, value: ValueId) {
        self.issued.put(value, true);
        self.left = self.left.saturating_sub(1);
        let rank = self.task.ranks.at(value);
        self.tile_mut(tile).ready.remove(Waiting { rank, value });
    }

    /// A value on its way to others.
    pub(crate) fn sending(&self, value: ValueId) -> Waiting {
        let rank = self.task.sends.at(value);
        Waiting { rank, value }
    }

    /// A tile executes an instruction.
    pub(crate) fn emit(&mut self, tile: TileId, ins: TileIns) -> Result<(), AllocError> {
        self.has_acted = true;
        if let Some(program) = self.programs.get_mut(tile.0) {
            program.code.push(ins)?;
        }
        Ok(())
    }

    // One use more of a value at a tile.
    fn add_use(&mut self, tile: TileId, value: ValueId) {
        let mut local = self.local(tile, value);
        local.uses = local.uses.saturating_add(1);
        self.set_local(tile, value, local);
    }

    // How often a value is used by operations at each tile.
    fn count_users(&mut self, value: ValueId) {
        let graph = self.task.graph;
        for user in graph.users(value) {
            let home = self.task.homes.at(*user);
            self.add_use(home, value);
        }
    }

    // How often a value is used at each tile: by operations, as outs, and by being sent.
    fn count_uses(&mut self, value: ValueId) {
        self.count_users(value);
        let home = self.task.homes.at(value);
        for _ in 0..self.task.graph.outs_of(value).len() {
            self.add_use(home, value);
        }
        let is_input = self.task.graph.origin(value).is_input();
        if !is_input && !self.task.needers.at(value).is_empty() {
            self.add_use(home, value);
        }
    }

    // How many operands have to come.
    fn count_missing(&mut self, value: ValueId) {
        for operand in self.task.graph.origin(value).values() {
            if operand.is_some() {
                let missing = self.missing.at(value).saturating_add(1);
                self.missing.put(value, missing);
            }
        }
    }

    // The constants that a value needs at its tile.
    fn want_constants(&mut self, value: ValueId) -> Result<(), AllocError> {
        let tile = self.task.homes.at(value);
        if let Some(step) = self.task.step(value) {
            if let (Operand::Word(word), Some(_)) = (step.first(), step.second()) {
                self.tile_mut(tile).want(word)?;
            }
            if let Some(Operand::Word(word)) = step.second() {
                self.tile_mut(tile).want(word)?;
            }
        }
        Ok(())
    }

    // What is known of a value before the first cycle.
    fn begin_value(&mut self, value: ValueId) -> Result<(), AllocError> {
        self.count_uses(value);
        if self.task.graph.origin(value).is_input() {
            return Ok(());
        }
        self.left = self.left.saturating_add(1);
        self.count_missing(value);
        self.want_constants(value)
    }

    // The constants that are outs.
    fn want_outs(&mut self) -> Result<(), AllocError> {
        for out in (0..self.task.graph.outs().len()).map(OutId) {
            if let Some(Operand::Word(word)) = self.task.out(out) {
                self.tile_mut(TileId::CORNER).want(word)?;
            }
        }
        Ok(())
    }

    // What is known of all values before the first cycle.
    fn begin(&mut self) -> Result<(), AllocError> {
        for value in (0..self.task.graph.count()).map(ValueId) {
            self.begin_value(value)?;
        }
        self.want_outs()
    }

    // One operand of a value has come.
    fn operand_came(&mut self, tile: TileId, value: ValueId) -> Result<(), AllocError> {
        let missing = self.missing.at(value).saturating_sub(1);
        self.missing.put(value, missing);
        if missing == 0 {
            let rank = self.task.ranks.at(value);
            self.tile_mut(tile).ready.add(Waiting { rank, value })?;
        }
        Ok(())
    }

    /// A value has come to a tile: its users there have one operand more.
    pub(crate) fn came(&mut self, arrival: Arrival) -> Result<(), AllocError> {
        let graph = self.task.graph;
        for user in graph.users(arrival.value) {
            if self.task.homes.at(*user) == arrival.tile {
                self.operand_came(arrival.tile, *user)?;
            }
        }
        Ok(())
    }
}
