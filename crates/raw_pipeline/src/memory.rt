//! What stands in the memory of a tile: constants, and values of some rows.
use crate::plan::Plan;
use raw_codegen::WORDS_IN_REACH;
use raw_frame::{Table, TileId, ValueId};
use raw_modulo::LocalId;
use raw_selection::Cell;
use raw_tile_isa::is_one;
use std::alloc::{AllocError, Global};

/// The cells of a tile.
#[derive(Drop)]
pub(crate) struct Memory {
    /// The words of the first cells.
    words: Vec<u32>,
    /// The first cell of each local that has some.
    cells: Table<LocalId, Option<usize>>,
    /// How many cells are used.
    used: usize,
    /// How many cells a local has, one for each row of a loop.
    rows: usize,
}

impl Memory {
    // The cell of a constant, if it is there.
    fn place_of(&self, word: u32) -> Option<usize> {
        self.words.iter().position(|other| *other == word)
    }

    // A constant that two instructions would load.
    fn add_word(&mut self, word: u32) -> Result<(), AllocError> {
        if self.place_of(word).is_none() {
            self.words.push(word)?;
            self.used = self.used.saturating_add(1);
        }
        Ok(())
    }

    // The constants of a tile.
    fn add_words(&mut self, plan: &Plan<'_>, tile: TileId) -> Result<(), AllocError> {
        for value in (0..plan.task.body.count()).map(ValueId) {
            if plan.task.homes.at(value) == tile {
                if let Some(word) = plan.task.loaded_constant(value) {
                    if !is_one(word) {
                        self.add_word(word)?;
                    }
                }
            }
        }
        Ok(())
    }

    // The cells of the locals of a tile.
    fn add_locals(&mut self, plan: &Plan<'_>, tile: TileId) {
        for local in (0..plan.task.locals.size()).map(LocalId) {
            if plan.task.locals.at(local).tile == tile && plan.task.in_memory.at(local) {
                self.cells.put(local, Some(self.used));
                self.used = self.used.saturating_add(self.rows);
            }
        }
    }

    /// The memory of a tile.
    pub(crate) fn new(alloc: Global, plan: &Plan<'_>, tile: TileId) -> Result<Memory, AllocError> {
        let mut memory = Memory {
            words: Vec::new(alloc),
            cells: Table::new(alloc, plan.task.locals.size(), None)?,
            used: 0,
            rows: plan.registers.rows,
        };
        memory.add_words(plan, tile)?;
        memory.add_locals(plan, tile);
        Ok(memory)
    }

    /// Whether all cells are in reach.
    pub(crate) fn fits(&self) -> bool {
        self.used <= WORDS_IN_REACH
    }

    /// The constants, by their cells.
    pub(crate) fn words(&self) -> &[u32] {
        self.words.as_slice()
    }

    /// The cell of a constant, where that is in memory.
    pub(crate) fn of_word(&self, word: u32) -> Option<Cell> {
        Some(as_cell(self.place_of(word)?))
    }

    /// The cell of a local in a step, where it is in memory.
    pub(crate) fn of_local(&self, local: LocalId, step: usize) -> Option<Cell> {
        let first = self.cells.at(local)?;
        let row = step.checked_rem(self.rows).unwrap_or(0);
        Some(as_cell(first.saturating_add(row)))
    }
}

/// The cell with a number; past those in reach the first behind them.
pub(crate) fn as_cell(number: usize) -> Cell {
    Cell(number.min(WORDS_IN_REACH) as u16)
}
