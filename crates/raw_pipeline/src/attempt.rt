//! The least interval at which a body goes on its tiles.
use crate::lives::lives_of;
use crate::plan::{Plan, Rows};
use crate::registers::{Allotted, allot};
use crate::relieving::{GivenUp, given_up};
use crate::switch_code::{passings, switch_program};
use crate::tile_code::tile_program;
use raw_body::{Body, Components, Order, Site};
use raw_frame::{Numbered, Table, TileId, ValueId};
use raw_model::TileProg;
use raw_modulo::{Rule, Task, find_schedule};
use std::alloc::{AllocError, Global};

/// Programs that were found.
#[derive(Drop)]
pub struct Pipeline {
    /// How many thousandths of a cycle a row takes, as the search expects.
    pub cost: usize,
    /// For each tile of the grid, in the order of their numbers, its program and that of its switch. `halt` is not yet
    /// behind them.
    pub programs: Vec<TileProg>,
}

/// How a schedule is searched for.
#[derive(Clone, Copy)]
pub(crate) struct Style {
    pub(crate) rule: Rule,
    /// Whether the inputs are spread over the interval.
    pub(crate) is_even: bool,
}

/// A body with its tiles.
#[derive(Clone, Copy)]
pub(crate) struct Spread<'a> {
    pub(crate) body: &'a Body,
    pub(crate) components: &'a Components,
    pub(crate) order: &'a Order,
    pub(crate) site: Site<'a>,
    pub(crate) homes: &'a Table<ValueId, TileId>,
    pub(crate) rows: Rows,
}

impl<'a> Spread<'a> {
    // What is to be scheduled.
    fn task(self, alloc: Global) -> Result<Task<'a>, AllocError> {
        Task::new(
            alloc,
            self.body,
            self.components,
            self.order,
            self.site,
            self.homes,
        )
    }
}

/// What came of an interval.
#[derive(Drop)]
enum Outcome {
    /// There is no schedule.
    Nothing,
    /// Tiles have too few registers: what they give up.
    Crowded(Vec<GivenUp>),
    /// Something is held too long, or programs are too long.
    TooLong,
    Found(Pipeline),
}

/// So many intervals are tried.
const MOST_INTERVALS: usize = 60;

/// So often tiles give up something at one interval.
const MOST_RELIEFS: usize = 12;

/// How many thousandths of a cycle a row takes, where so many rows take an interval.
pub(crate) fn cost_of(interval: usize, rows: usize) -> usize {
    let cycles = interval.saturating_mul(1_000);
    cycles.checked_div(rows).unwrap_or(usize::MAX)
}

// The programs of a plan, if they are short enough.
fn programs(alloc: Global, plan: &Plan<'_>) -> Result<Option<Vec<TileProg>>, AllocError> {
    let mut programs = Vec::new(alloc);
    let lists = passings(alloc, plan)?;
    for (tile, list) in lists.iter().enumerate() {
        let Some(switch) = switch_program(alloc, plan, list)? else {
            return Ok(None);
        };
        let Some(code) = tile_program(alloc, plan, TileId(tile), switch.loops)? else {
            return Ok(None);
        };
        programs.push(TileProg {
            code,
            switch: switch.code,
            cells: Vec::new(alloc),
            misses: Vec::new(alloc),
        })?;
    }
    Ok(Some(programs))
}

// What comes of an interval.
fn try_interval(
    alloc: Global,
    task: &Task<'_>,
    rows: Rows,
    interval: usize,
    style: Style,
    left: &mut usize,
) -> Result<Outcome, AllocError> {
    let found = find_schedule(alloc, task, interval, style.rule, style.is_even, left)?;
    let Some(schedule) = found else {
        return Ok(Outcome::Nothing);
    };
    let lives = lives_of(alloc, task, &schedule)?;
    let all = rows.count.checked_div(task.body.rows).unwrap_or(0);
    let registers = match allot(alloc, task, &schedule, &lives, all)? {
        Allotted::All(registers) => registers,
        Allotted::TooLong => return Ok(Outcome::TooLong),
        Allotted::Crowded(crowded) => {
            let given_up = given_up(alloc, task, &lives, &crowded, interval)?;
            return Ok(Outcome::Crowded(given_up));
        }
    };
    let plan = Plan {
        task,
        schedule: &schedule,
        registers: &registers,
        rows,
        lead: task.body.most_back(),
    };
    let cost = plan.cost();
    match programs(alloc, &plan)? {
        Some(programs) => Ok(Outcome::Found(Pipeline { cost, programs })),
        None => Ok(Outcome::TooLong),
    }
}

/// The most of a table.
pub(crate) fn most<N: Numbered>(table: &Table<N, usize>) -> usize {
    let mut most = 0;
    for item in table.items() {
        most = (*item).max(most);
    }
    most
}

// The least interval that there may be: a tile does one operation in a cycle, and a port gives or takes one word.
fn least_interval(alloc: Global, spread: Spread<'_>) -> Result<usize, AllocError> {
    let body = spread.body;
    let mut loads = Table::new(alloc, spread.site.part.tiles(), 0_usize)?;
    for value in (0..body.count()).map(ValueId) {
        if !body.origin(value).is_input() {
            let tile = spread.homes.at(value);
            loads.put(tile, loads.at(tile).saturating_add(1));
        }
    }
    let given = body.given(alloc, spread.site.sources.len())?;
    let gotten = body.gotten(alloc, spread.site.sinks.len())?;
    let least = most(&loads).max(most(&given)).max(most(&gotten));
    Ok(least.max(1))
}

// From now on a task does without some things in registers.
fn give_up(task: &mut Task<'_>, given_up: &[GivenUp]) {
    for one in given_up {
        match *one {
            GivenUp::Local(local) => task.in_memory.put(local, true),
            GivenUp::Constant(number) => task.drop_constant(number),
        }
    }
}

/// Programs for a body on its tiles, at the least interval that is found, if a row takes less than so many thousandths
/// of a cycle.
pub(crate) fn attempt(
    alloc: Global,
    spread: Spread<'_>,
    style: Style,
    cap: usize,
    left: &mut usize,
) -> Result<Option<Pipeline>, AllocError> {
    let mut task = spread.task(alloc)?;
    let mut interval = least_interval(alloc, spread)?;
    let mut reliefs: usize = 0;
    for _ in 0..MOST_INTERVALS {
        if cost_of(interval, spread.body.rows) >= cap || *left == 0 {
            return Ok(None);
        }
        let more = match try_interval(alloc, &task, spread.rows, interval, style, left)? {
            Outcome::Found(pipeline) => return Ok(Some(pipeline)),
            Outcome::Nothing | Outcome::TooLong => 1 + interval / 40,
            Outcome::Crowded(list) => {
                reliefs = reliefs.saturating_add(1);
                if reliefs > MOST_RELIEFS || list.is_empty() {
                    reliefs = 0;
                    1
                } else {
                    give_up(&mut task, &list);
                    0
                }
            }
        };
        interval = interval.saturating_add(more);
    }
    Ok(None)
}
