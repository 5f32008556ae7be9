//! What tiles with too few registers give up.
use crate::lives::{Held, Life};
use crate::registers::Crowded;
use raw_frame::TileId;
use raw_modulo::{ConstantId, LocalId, Task};
use std::alloc::{AllocError, Global};

/// What is not held in a register any more.
#[derive(Clone, Copy, PartialEq, Eq, PartialOrd, Ord)]
pub(crate) enum GivenUp {
    /// A local, which goes to memory.
    Local(LocalId),
    /// A constant, which is loaded where it is used.
    Constant(ConstantId),
}

/// Something that may be given up.
#[derive(Clone, Copy, PartialEq, Eq, PartialOrd, Ord)]
struct Choice {
    /// From the top: the best come first.
    badness: usize,
    /// How many registers that frees, in thousandths.
    relief: usize,
    what: GivenUp,
}

// How many registers a life takes in a cycle modulo the interval.
fn cover(life: Life, slot: usize, interval: usize) -> usize {
    let start = life
        .from
        .saturating_add(1)
        .checked_rem(interval)
        .unwrap_or(0);
    let first = slot.saturating_add(interval).saturating_sub(start);
    let first = first.checked_rem(interval).unwrap_or(0);
    if first >= life.length() {
        return 0;
    }
    let rest = life.length().saturating_sub(first).saturating_sub(1);
    rest.checked_div(interval).unwrap_or(0).saturating_add(1)
}

// How many registers all lives of a tile take in a cycle.
fn covered(lives: &[Life], tile: TileId, slot: usize, interval: usize) -> usize {
    let mut count: usize = 0;
    for life in lives {
        if life.tile == tile {
            count = count.saturating_add(cover(*life, slot, interval));
        }
    }
    count
}

// The cycle in which a tile takes most registers.
fn peak(lives: &[Life], tile: TileId, interval: usize) -> usize {
    let mut peak = 0;
    let mut most = 0;
    for slot in 0..interval {
        let count = covered(lives, tile, slot, interval);
        if count >= most {
            most = count;
            peak = slot;
        }
    }
    peak
}

// A local that may go to memory: what that is worth is how many registers it frees for each instruction more.
fn choice_of(task: &Task<'_>, life: Life, slot: usize, interval: usize) -> Option<Choice> {
    let Held::Local(number) = life.held else {
        return None;
    };
    let value = task.locals.at(number).value;
    let freed = cover(life, slot, interval);
    if task.in_memory.at(number) || task.is_on_circle(value) || freed == 0 || life.length() < 4 {
        return None;
    }
    let stores = usize::from(!life.is_received);
    let cost = life
        .uses
        .saturating_add(stores)
        .saturating_mul(20)
        .saturating_add(1);
    let worth = freed.saturating_mul(20_000).checked_div(cost).unwrap_or(0);
    let rows = life.length().saturating_mul(1_000);
    let rows = rows.checked_div(interval).unwrap_or(0).min(2_000);
    let worth = worth.saturating_add(rows / 20);
    Some(Choice {
        badness: usize::MAX.saturating_sub(worth),
        relief: freed.saturating_mul(1_000),
        what: GivenUp::Local(number),
    })
}

// A constant that may be loaded where it is used.
fn choice_of_constant(task: &Task<'_>, number: ConstantId) -> Choice {
    let uses = task.constants.at(number).uses;
    Choice {
        badness: usize::MAX.saturating_sub(950_usize.checked_div(uses).unwrap_or(0)),
        relief: 1_000,
        what: GivenUp::Constant(number),
    }
}

// What a tile may give up, the best first.
fn choices(
    alloc: Global,
    task: &Task<'_>,
    lives: &[Life],
    tile: TileId,
    interval: usize,
) -> Result<Vec<Choice>, AllocError> {
    let slot = peak(lives, tile, interval);
    let mut choices = Vec::new(alloc);
    for life in lives {
        if life.tile == tile {
            if let Some(choice) = choice_of(task, *life, slot, interval) {
                choices.push(choice)?;
            }
        }
    }
    for number in (0..task.constants.size()).map(ConstantId) {
        let constant = task.constants.at(number);
        if constant.tile == tile && constant.is_kept {
            choices.push(choice_of_constant(task, number))?;
        }
    }
    choices.sort()?;
    Ok(choices)
}

/// What tiles with too few registers give up.
pub(crate) fn given_up(
    alloc: Global,
    task: &Task<'_>,
    lives: &[Life],
    crowded: &[Crowded],
    interval: usize,
) -> Result<Vec<GivenUp>, AllocError> {
    let mut given_up = Vec::new(alloc);
    for one in crowded {
        let mut over = one.over.saturating_mul(1_000);
        for choice in &choices(alloc, task, lives, one.tile, interval)? {
            if over > 0 {
                given_up.push(choice.what)?;
                over = over.saturating_sub(choice.relief);
            }
        }
    }
    Ok(given_up)
}
