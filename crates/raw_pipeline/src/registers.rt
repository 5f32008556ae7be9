//! The registers of tiles.
use crate::coloring::{Arc, Colored, LifeId, colored_arcs};
use crate::lives::{Held, Life, last_use};
use raw_frame::{Numbered, Register, Table, TileId};
use raw_modulo::{ConstantId, LocalId, Schedule, Task};
use std::alloc::{AllocError, Global};

/// The registers that hold values and constants. Registers 1 and 2 hold what is used at once, and 3 counts.
const FREE: [u8; 26] = [
    4, 5, 6, 7, 8, 9, 10, 11, 12, 13, 14, 15, 16, 17, 18, 19, 20, 21, 22, 23, 26, 27, 28, 29, 30,
    31,
];

/// A loop is to have so many cycles at least.
const SHORT_ROUND: usize = 96;

/// So many rows of a body go through a loop at most.
const MOST_ROWS: usize = 128;

/// Which registers hold what, where each loop has some rows of the body.
#[derive(Drop)]
pub(crate) struct Registers {
    /// How many rows of the body a loop has.
    pub(crate) rows: usize,
    /// How many locals there are, and how many values.
    locals: usize,
    values: usize,
    /// The register of each thing that is held, in each of these rows.
    held: Table<usize, Option<Register>>,
    /// The register of each constant that is kept.
    pub(crate) constants: Table<ConstantId, Option<Register>>,
}

// The register at a place of those that hold values and constants.
fn free_register(place: usize) -> Option<Register> {
    match FREE.get(place) {
        Some(number) => Some(Register(*number)),
        None => None,
    }
}

/// A tile that has too few registers, and how many too few.
#[derive(Clone, Copy)]
pub(crate) struct Crowded {
    pub(crate) tile: TileId,
    pub(crate) over: usize,
}

impl Registers {
    // The place of what is held in a row: locals come first, then constants of values, then operands.
    fn place(&self, held: Held, row: usize) -> usize {
        let number = match held {
            Held::Local(local) => local.0,
            Held::Constant(value) => self.locals.saturating_add(value.0),
            Held::Operand(operand) => self
                .locals
                .saturating_add(self.values)
                .saturating_add(operand.number()),
        };
        let row = row.checked_rem(self.rows).unwrap_or(0);
        number.saturating_mul(self.rows).saturating_add(row)
    }

    /// The register that holds something of a row. Where none does, it is register 0, which forgets what is written.
    pub(crate) fn at(&self, held: Held, row: usize) -> Register {
        let register = self.held.at(self.place(held, row));
        register.unwrap_or(Register::ZERO)
    }

    // No register holds anything.
    fn new(alloc: Global, task: &Task<'_>, rows: usize) -> Result<Registers, AllocError> {
        let (locals, values) = (task.locals.size(), task.body.count());
        let count = values.saturating_mul(3).saturating_add(locals);
        Ok(Registers {
            rows,
            locals,
            values,
            held: Table::new(alloc, count.saturating_mul(rows), None)?,
            constants: Table::new(alloc, task.constants.size(), None)?,
        })
    }

    // The registers of arcs, behind so many that are taken.
    fn put_colored(&mut self, colored: &[Colored], lives: &[Life], taken: usize) {
        for one in colored {
            if let Some(life) = lives.get(one.arc.life.0) {
                let register = free_register(taken.saturating_add(one.color));
                let place = self.place(life.held, one.arc.row);
                self.held.put(place, register);
            }
        }
    }

    // The registers of the constants of a tile; how many there are.
    fn put_constants(&mut self, task: &Task<'_>, tile: TileId) -> usize {
        let mut taken: usize = 0;
        for number in (0..task.constants.size()).map(ConstantId) {
            let constant = task.constants.at(number);
            if constant.tile == tile && constant.is_kept {
                self.constants.put(number, free_register(taken));
                taken = taken.saturating_add(1);
            }
        }
        taken
    }

    // The registers of a tile; how many are too few.
    fn put_tile(
        &mut self,
        alloc: Global,
        task: &Task<'_>,
        lives: &[Life],
        tile: TileId,
        interval: usize,
    ) -> Result<usize, AllocError> {
        let taken = self.put_constants(task, tile);
        let round = Round {
            rows: self.rows,
            interval,
        };
        let arcs = arcs_of(alloc, lives, tile, round)?;
        let (colored, count) = colored_arcs(alloc, &arcs, round.cycles())?;
        self.put_colored(&colored, lives, taken);
        Ok(taken.saturating_add(count).saturating_sub(FREE.len()))
    }
}

/// The rows of the body that go through a loop, each so many cycles behind the one before.
#[derive(Clone, Copy)]
struct Round {
    rows: usize,
    interval: usize,
}

impl Round {
    // How many cycles it has.
    fn cycles(self) -> usize {
        self.rows.saturating_mul(self.interval)
    }
}

// What is held at a tile, in each row of a loop.
fn arcs_of(
    alloc: Global,
    lives: &[Life],
    tile: TileId,
    round: Round,
) -> Result<Vec<Arc>, AllocError> {
    let mut arcs = Vec::new(alloc);
    for (number, life) in lives.iter().enumerate() {
        if life.tile == tile {
            add_arcs(&mut arcs, *life, LifeId(number), round)?;
        }
    }
    arcs.sort()?;
    Ok(arcs)
}

// The arcs of a life.
fn add_arcs(
    arcs: &mut Vec<Arc>,
    life: Life,
    number: LifeId,
    round: Round,
) -> Result<(), AllocError> {
    for row in 0..round.rows {
        let start = life.from.saturating_add(1);
        let start = start.saturating_add(row.saturating_mul(round.interval));
        arcs.push(Arc {
            start: start.checked_rem(round.cycles()).unwrap_or(0),
            shortness: usize::MAX.saturating_sub(life.length()),
            life: number,
            row,
        })?;
    }
    Ok(())
}

// How many rows pass from the store of a local to its last use.
fn rows_stored(task: &Task<'_>, schedule: &Schedule<'_>, number: LocalId) -> usize {
    match schedule.stored.at(number) {
        Some(stored) => {
            let last = last_use(task, schedule, task.locals.at(number), stored);
            let cycles = last.saturating_sub(stored);
            let rows = cycles.checked_div(schedule.interval).unwrap_or(0);
            rows.saturating_add(2)
        }
        None => 0,
    }
}

// How many cycles a round has to have so that nothing is held longer.
fn least_round(task: &Task<'_>, schedule: &Schedule<'_>, lives: &[Life]) -> usize {
    let mut round = 0;
    for life in lives {
        round = life.length().max(round);
    }
    for number in (0..task.locals.size()).map(LocalId) {
        let rows = rows_stored(task, schedule, number);
        round = rows.saturating_mul(schedule.interval).max(round);
    }
    round
}

/// How many rows of the body a loop has: a power of two, where all rows are so many; none where that would be too many.
fn rows_of_loop(interval: usize, round: usize, all: usize) -> Option<usize> {
    let mut rows: usize = 1;
    for _ in 0..8 {
        let cycles = rows.saturating_mul(interval);
        let is_short = cycles < SHORT_ROUND && rows < 16 && rows.saturating_mul(4) < all;
        if cycles >= round && !is_short {
            return Some(rows);
        }
        rows = rows.saturating_mul(2).min(MOST_ROWS);
    }
    None
}

/// What came of a search for registers.
#[derive(Drop)]
pub(crate) enum Allotted {
    All(Registers),
    /// Some tiles have too few.
    Crowded(Vec<Crowded>),
    /// Something is held too long.
    TooLong,
}

/// Registers for what tiles hold, where all rows of the body are so many.
pub(crate) fn allot(
    alloc: Global,
    task: &Task<'_>,
    schedule: &Schedule<'_>,
    lives: &[Life],
    all: usize,
) -> Result<Allotted, AllocError> {
    let interval = schedule.interval;
    let round = least_round(task, schedule, lives);
    let Some(rows) = rows_of_loop(interval, round, all) else {
        return Ok(Allotted::TooLong);
    };
    let mut registers = Registers::new(alloc, task, rows)?;
    let mut crowded = Vec::new(alloc);
    for tile in (0..task.site.part.tiles()).map(TileId) {
        let over = registers.put_tile(alloc, task, lives, tile, interval)?;
        if over > 0 {
            crowded.push(Crowded { tile, over })?;
        }
    }
    if crowded.is_empty() {
        Ok(Allotted::All(registers))
    } else {
        Ok(Allotted::Crowded(crowded))
    }
}
