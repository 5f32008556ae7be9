//! What is known of one tile.
use raw_codegen::WORDS_IN_REACH;
use raw_frame::{Held, ReadyList, Register, Registers};
use raw_selection::Cell;
use std::alloc::{AllocError, Global};

/// A constant that a tile needs, and how often yet.
#[derive(Clone, Copy)]
pub(crate) struct Wanted {
    pub(crate) word: u32,
    pub(crate) uses: usize,
}

/// A register with the upper half of a constant, whose lower half is to come.
#[derive(Clone, Copy)]
pub(crate) struct HalfConstant {
    pub(crate) register: Register,
    pub(crate) word: u32,
}

/// Where a value is at a tile, and how often it is still used there.
#[derive(Clone, Copy)]
pub(crate) struct ValuePlace {
    pub(crate) register: Option<Register>,
    pub(crate) cell: Option<Cell>,
    pub(crate) uses: u16,
}

impl ValuePlace {
    /// Nowhere, and not used.
    pub(crate) const NONE: ValuePlace = ValuePlace {
        register: None,
        cell: None,
        uses: 0,
    };

    /// Whether it is in a register or in memory.
    pub(crate) fn is_kept(self) -> bool {
        self.register.is_some() || self.cell.is_some()
    }
}

/// What is known of one tile.
#[derive(Drop)]
pub(crate) struct Tile {
    pub(crate) registers: Registers,
    /// The operations whose operands have come.
    pub(crate) ready: ReadyList,
    /// The values that have been made, and are to be sent.
    pub(crate) sends: ReadyList,
    /// Cells that are free again.
    cells: Vec<Cell>,
    /// How many cells have been used.
    top: u16,
    constants: Vec<Wanted>,
    pub(crate) half: Option<HalfConstant>,
    /// Whether it has done something in this cycle.
    pub(crate) is_busy: bool,
}

impl Tile {
    /// A tile that has done nothing.
    pub(crate) fn new(alloc: Global) -> Tile {
        Tile {
            registers: Registers::new(),
            ready: ReadyList::new(alloc),
            sends: ReadyList::new(alloc),
            cells: Vec::new(alloc),
            top: 0,
            constants: Vec::new(alloc),
            half: None,
            is_busy: false,
        }
    }

    /// A cell that is free; none where all in reach are taken.
    pub(crate) fn take_cell(&mut self) -> Option<Cell> {
        if let Some(cell) = self.cells.pop() {
            return Some(cell);
        }
        if usize::from(self.top) >= WORDS_IN_REACH {
            return None;
        }
        let cell = Cell(self.top);
        self.top = self.top.saturating_add(1);
        Some(cell)
    }

    /// A cell is free again.
    pub(crate) fn free_cell(&mut self, cell: Cell) -> Result<(), AllocError> {
        self.cells.push(cell)?;
        Ok(())
    }

    // The place of a constant among those that are needed.
    fn place_of(&self, word: u32) -> Option<usize> {
        self.constants.iter().position(|wanted| wanted.word == word)
    }

    /// A constant is needed once more; register 0 holds 0.
    pub(crate) fn want(&mut self, word: u32) -> Result<(), AllocError> {
        match self.place_of(word) {
            _ if word == 0 => {}
            Some(place) => {
                if let Some(wanted) = self.constants.get_mut(place) {
                    wanted.uses = wanted.uses.saturating_add(1);
                }
            }
            None => self.constants.push(Wanted { word, uses: 1 })?,
        }
        Ok(())
    }

    // A constant is needed once less; how often yet.
    fn use_constant(&mut self, word: u32) -> usize {
        let Some(place) = self.place_of(word) else {
            return 0;
        };
        match self.constants.get_mut(place) {
            Some(wanted) => {
                wanted.uses = wanted.uses.saturating_sub(1);
                wanted.uses
            }
            None => 0,
        }
    }

    /// A constant has been used. Its register is free where it is not needed any more.
    pub(crate) fn constant_used(&mut self, word: u32) {
        if self.use_constant(word) == 0 {
            if let Some(register) = self.registers.that_holds(Held::Word(word)) {
                self.registers.put(register, Held::Nothing);
            }
        }
    }
}
