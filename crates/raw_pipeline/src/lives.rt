//! How long registers hold what.
use raw_body::Position;
use raw_frame::{TileId, ValueId};
use raw_modulo::{Local, LocalId, OperandId, Schedule, Task};
use std::alloc::{AllocError, Global};

/// What a register holds for some time of each row.
#[derive(Clone, Copy, PartialEq, Eq, PartialOrd, Ord)]
pub(crate) enum Held {
    Local(LocalId),
    /// The constant that was loaded for this value.
    Constant(ValueId),
    /// An operand that was loaded from memory.
    Operand(OperandId),
}

/// A register of a tile holds something from the cycle in which it is written to the one in which it is read last.
#[derive(Clone, Copy, PartialEq, Eq)]
pub(crate) struct Life {
    pub(crate) held: Held,
    pub(crate) tile: TileId,
    pub(crate) from: usize,
    pub(crate) until: usize,
    /// How many operations read it.
    pub(crate) uses: usize,
    /// Whether it was received.
    pub(crate) is_received: bool,
}

impl Life {
    /// How many cycles it is held.
    pub(crate) fn length(self) -> usize {
        self.until.saturating_sub(self.from)
    }
}

/// When a local is used last at its tile, but not before a time.
pub(crate) fn last_use(
    task: &Task<'_>,
    schedule: &Schedule<'_>,
    local: Local,
    from: usize,
) -> usize {
    let mut last = from;
    let body = task.body;
    for used in body.uses(local.value) {
        if task.homes.at(used.user) == local.tile {
            let made = schedule.made.at(used.user).unwrap_or(0);
            let rows = used.back.saturating_mul(schedule.interval);
            last = made.saturating_add(rows).max(last);
        }
    }
    last
}

// How long a local is held that comes from the network.
fn life_received(task: &Task<'_>, schedule: &Schedule<'_>, number: LocalId) -> Option<Life> {
    let local = task.locals.at(number);
    let coming = schedule.comings.at(number)?;
    if coming.taken.is_some() || task.in_memory.at(number) {
        return None;
    }
    let from = coming.received;
    Some(Life {
        held: Held::Local(number),
        tile: local.tile,
        from,
        until: last_use(task, schedule, local, from.saturating_add(1)),
        uses: local.uses,
        is_received: true,
    })
}

// How long a local is held that is made at its tile.
fn life_made(task: &Task<'_>, schedule: &Schedule<'_>, number: LocalId) -> Option<Life> {
    let local = task.locals.at(number);
    let from = schedule.made.at(local.value)?;
    let used = match schedule.stored.at(number) {
        Some(stored) => stored,
        None => last_use(task, schedule, local, from),
    };
    let until = schedule.sent.at(local.value).unwrap_or(0).max(used);
    if until <= from {
        return None;
    }
    Some(Life {
        held: Held::Local(number),
        tile: local.tile,
        from,
        until,
        uses: local.uses,
        is_received: false,
    })
}

// How long what was loaded for an operation is held.
fn life_loaded(
    task: &Task<'_>,
    schedule: &Schedule<'_>,
    value: ValueId,
    held: Held,
    loaded: Option<usize>,
) -> Option<Life> {
    let from = loaded?;
    Some(Life {
        held,
        tile: task.homes.at(value),
        from,
        until: schedule.made.at(value)?,
        uses: 0,
        is_received: false,
    })
}

// Adds a life, if there is one.
fn add(lives: &mut Vec<Life>, life: Option<Life>) -> Result<(), AllocError> {
    if let Some(life) = life {
        lives.push(life)?;
    }
    Ok(())
}

// How long what is loaded for a value is held.
fn add_loaded(
    lives: &mut Vec<Life>,
    task: &Task<'_>,
    schedule: &Schedule<'_>,
    value: ValueId,
) -> Result<(), AllocError> {
    let loaded = schedule.constants.at(value);
    add(
        lives,
        life_loaded(task, schedule, value, Held::Constant(value), loaded),
    )?;
    for position in Position::BOTH {
        let held = Held::Operand(OperandId::of(value, position));
        let loaded = schedule.loaded.at(OperandId::of(value, position));
        add(lives, life_loaded(task, schedule, value, held, loaded))?;
    }
    Ok(())
}

/// How long registers hold what.
pub(crate) fn lives_of(
    alloc: Global,
    task: &Task<'_>,
    schedule: &Schedule<'_>,
) -> Result<Vec<Life>, AllocError> {
    let mut lives = Vec::new(alloc);
    for number in (0..task.locals.size()).map(LocalId) {
        let life = if task.locals.at(number).comes {
            life_received(task, schedule, number)
        } else {
            life_made(task, schedule, number)
        };
        add(&mut lives, life)?;
    }
    for value in (0..task.body.count()).map(ValueId) {
        add_loaded(&mut lives, task, schedule, value)?;
    }
    Ok(lives)
}
