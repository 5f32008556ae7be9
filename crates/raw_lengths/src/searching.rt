//! Where the control of a run stands as before, while words that it counts fall.
ghost use Rattle.std.specs.Prelude.{◌≡◌, length};
ghost use Rattle.raw_grid.specs.Wires.{wires_of};
ghost use Rattle.raw_cut.specs.Kept.{IsKept};

use raw_cut::{Moment, moment_of, sweep};
use raw_model::Set;
use raw_prove::{Machine, Unit};
use raw_term::TermTable;
use std::alloc::{AllocError, Global};
use std::mem::replace;

/// The most sweeps that a search makes before it gives up.
const MOST_SWEEPS: u32 = 200_000;

/// So many registers a tile and a switch have.
const TILE_REGISTERS: usize = 32;

const SWITCH_REGISTERS: usize = 4;

/// A register whose word falls by the same from one time that the control stands so to the next.
#[derive(Clone, Copy)]
pub(crate) struct Slot {
    /// The number of its processor.
    pub(crate) unit: usize,
    pub(crate) register: usize,
    /// What it holds the last time, and by how much that is less than the time before.
    pub(crate) word: u32,
    pub(crate) step: u32,
}

/// A place of a run where the control stood as it does now twice before, each time so many rows earlier.
#[derive(Drop)]
pub(crate) struct Recurrence {
    /// How many steps were taken up to here, and up to the time before.
    pub(crate) steps: usize,
    pub(crate) before: usize,
    pub(crate) rows: u32,
    /// How many whole rows all ports have done, and in how many rows some have put in or taken out words.
    pub(crate) whole: u64,
    pub(crate) begun: u64,
    pub(crate) slots: Vec<Slot>,
}

// Where a run was, and the words that its registers held.
#[derive(Drop)]
struct Sight {
    moment: Moment,
    words: Vec<Option<u32>>,
}

/// A run in which the control should recur.
#[derive(Drop)]
pub(crate) struct Search {
    widths: Vec<u64>,
    /// The steps that were taken.
    pub(crate) steps: Vec<u32>,
    last: Sight,
    // The time before, where the control was the same then, so many rows earlier.
    older: Option<Sight>,
    rows: u32,
    // How many times words fell from there to here.
    times: u32,
    pub(crate) found: Vec<Recurrence>,
}

// The words that registers hold, where they are known.
fn push_words(
    table: &TermTable,
    numbers: &[u32],
    words: &mut Vec<Option<u32>>,
) -> Result<(), AllocError> {
    for number in numbers {
        words.push(table.word(*number))?;
    }
    Ok(())
}

// The words that the registers of a machine hold, of all tiles and then of all switches.
fn words_of(alloc: Global, machine: &Machine) -> Result<Vec<Option<u32>>, AllocError> {
    let mut words = Vec::new(alloc);
    for unit in &machine.units {
        match unit {
            Unit::Tile(unit) => push_words(&machine.table, &unit.tile.state.regs, &mut words)?,
            Unit::Switch(unit) => push_words(&machine.table, &unit.state.regs, &mut words)?,
            Unit::Source(_) | Unit::Sink(_) => {}
        }
    }
    Ok(words)
}

// By how much a word fell from the first of three times to the second, and as much to the third. None where it did not, or
// was known at some of them alone; 0 where it is known at none.
fn fall(first: Option<u32>, second: Option<u32>, third: Option<u32>) -> Option<u32> {
    match (first, second, third) {
        (None, None, None) => Some(0),
        (Some(first), Some(second), Some(third)) => {
            let step = first.wrapping_sub(second);
            if second.wrapping_sub(third) == step {
                Some(step)
            } else {
                None
            }
        }
        _ => None,
    }
}

// The processor and the register that stand at this place among the registers of all tiles and switches.
fn register_at(place: usize, tiles: usize) -> (usize, usize) {
    let tile = place / TILE_REGISTERS;
    if tile < tiles {
        return (tile, place % TILE_REGISTERS);
    }
    let behind = place.saturating_sub(tiles.saturating_mul(TILE_REGISTERS));
    (
        tiles.saturating_add(behind / SWITCH_REGISTERS),
        behind % SWITCH_REGISTERS,
    )
}

// The registers whose words fell by the same between three times. None where one changed in another way.
fn falling(
    alloc: Global,
    tiles: usize,
    first: &[Option<u32>],
    second: &[Option<u32>],
    third: &[Option<u32>],
) -> Result<Option<Vec<Slot>>, AllocError> {
    let mut slots = Vec::new(alloc);
    for place in 0..third.len() {
        let before = first.get(place).copied().unwrap_or(None);
        let then = second.get(place).copied().unwrap_or(None);
        let Some(step) = fall(before, then, third[place]) else {
            return Ok(None);
        };
        if step == 0 {
            continue;
        }
        if let Some(word) = third[place] {
            let (unit, register) = register_at(place, tiles);
            slots.push(Slot {
                unit,
                register,
                word,
                step,
            })?;
        }
    }
    Ok(Some(slots))
}

impl Search {
    /// A search that begins where a machine stands.
    pub(crate) fn begin(
        alloc: Global,
        set: &Set,
        machine: &Machine,
        widths: Vec<u64>,
    ) -> Result<Search, AllocError>
        requires { length machine.now.wires ≡ length (wires_of set.now.topo) }
    {
        let last = Sight {
            moment: moment_of(alloc, set, machine, 0, false)?,
            words: words_of(alloc, machine)?,
        };
        Ok(Search {
            widths,
            steps: Vec::new(alloc),
            last,
            older: None,
            rows: 0,
            times: 0,
            found: Vec::new(alloc),
        })
    }

    // Notes that the control stands as at the last two times, where the words of registers fell by the same between them.
    fn note(
        &mut self,
        alloc: Global,
        tiles: usize,
        now: &Sight,
        rows: u32,
    ) -> Result<(), AllocError> {
        let slots = match &self.older {
            Some(older) if self.rows == rows => {
                falling(alloc, tiles, &older.words, &self.last.words, &now.words)?
            }
            _ => None,
        };
        let Some(slots) = slots else {
            return Ok(());
        };
        self.times = self.times.saturating_add(1);
        if self.times.is_power_of_two() {
            let (whole, begun) = now.moment.rows_done(&self.widths);
            self.found.push(Recurrence {
                steps: now.moment.steps,
                before: self.last.moment.steps,
                rows,
                whole,
                begun,
                slots,
            })?;
        }
        Ok(())
    }

    // Looks at where a machine stands after so many sweeps.
    fn look(
        &mut self,
        alloc: Global,
        set: &Set,
        machine: &Machine,
        count: u32,
    ) -> Result<(), AllocError>
        requires { length machine.now.wires ≡ length (wires_of set.now.topo) }
    {
        let moment = moment_of(alloc, set, machine, self.steps.len(), false)?;
        let since = moment.rows_since(&self.last.moment, &self.widths);
        let rows = u32::try_from(since).unwrap_or(0);
        if rows == 0 && !count.is_power_of_two() {
            return Ok(());
        }
        let words = words_of(alloc, machine)?;
        let now = Sight { moment, words };
        if rows > 0 {
            self.note(alloc, set.topo.tiles() as usize, &now, rows)?;
            self.older = Some(replace(&mut self.last, now));
            self.rows = rows;
        } else {
            self.older = None;
            self.last = now;
        }
        Ok(())
    }

    /// Runs a machine to rest, and looks at where it stands after each sweep.
    pub(crate) fn recur(
        &mut self,
        alloc: Global,
        set: &Set,
        mut machine: Machine,
    ) -> Result<(), AllocError>
        requires { IsKept set.now machine }
    {
        for count in 1..MOST_SWEEPS {
            match sweep(set, &mut machine, &mut self.steps)? {
                Some(true) => self.look(alloc, set, &machine, count)?,
                _ => return Ok(()),
            }
        }
        Ok(())
    }
}
