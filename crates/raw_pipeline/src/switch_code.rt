//! The programs of switches.

use crate::plan::{Plan, Span, Times, first_step, with_time};
use raw_frame::ValueId;
use raw_grid::{Dir, End, Net};
use raw_switch_isa::{MAX_SWITCH_CODE, SwitchIns, SwitchSource, route_codes};
use std::alloc::{AllocError, Global};

/// In each step the word of a value passes a switch.
#[derive(Clone, Copy)]
pub(crate) struct Passing {
    time: usize,
    value: ValueId,
    net: Net,
    from: Dir,
    to: Dir,
}

/// A passing by its place among those of a switch.
#[derive(Clone, Copy, PartialEq, Eq, PartialOrd, Ord)]
struct PassingId(usize);

/// A passing in a cycle.
#[derive(Clone, Copy, PartialEq, Eq, PartialOrd, Ord)]
struct Event {
    time: usize,
    passing: PassingId,
}

/// The program of a switch, and what its tile has to send it first: how often it comes back to the start of its loop.
#[derive(Drop)]
pub(crate) struct SwitchProgram {
    pub(crate) code: Vec<SwitchIns>,
    pub(crate) loops: Option<usize>,
}

/// What passes each switch of a grid in each step.
pub(crate) fn passings(alloc: Global, plan: &Plan<'_>) -> Result<Vec<Vec<Passing>>, AllocError> {
    let mut lists = Vec::new(alloc);
    for _ in 0..plan.task.site.part.tiles() {
        lists.push(Vec::new(alloc))?;
    }
    for value in (0..plan.task.body.count()).map(ValueId) {
        add_passings(&mut lists, plan, value)?;
    }
    Ok(lists)
}

// The passings of a value.
fn add_passings(
    lists: &mut Vec<Vec<Passing>>,
    plan: &Plan<'_>,
    value: ValueId,
) -> Result<(), AllocError> {
    let Some(message) = plan.schedule.messages.at(value) else {
        return Ok(());
    };
    let Some(route) = plan.task.route(value, message.shape) else {
        return Ok(());
    };
    for hop in route.hops() {
        if let Some(list) = lists.get_mut(hop.tile.0) {
            list.push(Passing {
                time: message.first.saturating_add(hop.after),
                value,
                net: message.net,
                from: hop.from,
                to: hop.to,
            })?;
        }
    }
    Ok(())
}

// The first and the last cycle in which something passes in the first step.
fn span(passings: &[Passing]) -> Option<Span> {
    let mut span = None;
    for passing in passings {
        span = Some(with_time(span, passing.time));
    }
    span
}

// When a passing takes place from one time to another.
fn add_events(
    events: &mut Vec<Event>,
    plan: &Plan<'_>,
    passing: Passing,
    number: PassingId,
    times: Times,
) -> Result<(), AllocError> {
    let interval = plan.schedule.interval;
    let first = first_step(passing.time, times.from, interval);
    for step in first..plan.all() {
        let time = passing.time.saturating_add(step.saturating_mul(interval));
        if time >= times.until || !plan.is_there(passing.value, step.saturating_add(plan.lead)) {
            break;
        }
        events.push(Event {
            time,
            passing: number,
        })?;
    }
    Ok(())
}

// What passes from one time to another, in its order.
fn events(
    alloc: Global,
    plan: &Plan<'_>,
    passings: &[Passing],
    times: Times,
) -> Result<Vec<Event>, AllocError> {
    let mut events = Vec::new(alloc);
    for (number, passing) in passings.iter().enumerate() {
        add_events(&mut events, plan, *passing, PassingId(number), times)?;
    }
    events.sort()?;
    Ok(events)
}

// A route more.
fn add_route(routes: &mut [u8; 10], passing: Passing) {
    let output = End {
        net: passing.net,
        dir: passing.to,
    };
    if let Some(route) = routes.get_mut(usize::from(output.index())) {
        *route = 1 + passing.from.index();
    }
}

// The instructions of events, one a cycle.
fn instructions(
    alloc: Global,
    events: &[Event],
    passings: &[Passing],
) -> Result<Vec<[u8; 10]>, AllocError> {
    let mut list = Vec::new(alloc);
    let mut routes = [0_u8; 10];
    let mut time = None;
    for event in events {
        if time.is_some() && time != Some(event.time) {
            list.push(routes)?;
            routes = [0; 10];
        }
        time = Some(event.time);
        if let Some(passing) = passings.get(event.passing.0) {
            add_route(&mut routes, *passing);
        }
    }
    if time.is_some() {
        list.push(routes)?;
    }
    Ok(list)
}

/// A program of a switch in the making.
#[derive(Drop)]
struct SwitchCode<'a> {
    plan: &'a Plan<'a>,
    passings: &'a [Passing],
    code: Vec<SwitchIns>,
}

impl SwitchCode<'_> {
    // Adds an instruction with routes.
    fn push(&mut self, ins: SwitchIns, routes: &[u8; 10]) -> Result<(), AllocError> {
        self.code.push(ins.with_routes(route_codes(routes)))?;
        Ok(())
    }

    // What passes from one time to another.
    fn straight(&mut self, alloc: Global, times: Times) -> Result<(), AllocError> {
        let events = events(alloc, self.plan, self.passings, times)?;
        for routes in &instructions(alloc, &events, self.passings)? {
            self.push(SwitchIns::nop(), routes)?;
        }
        Ok(())
    }

    // An instruction of a turn of the loop: the last one goes back to its start.
    fn turn_ins(&self, is_last: bool, start: u16) -> SwitchIns {
        if !is_last {
            SwitchIns::nop()
        } else if self.plan.rows.are_endless {
            SwitchIns::jump(start)
        } else {
            SwitchIns::bnezd(0, start)
        }
    }

    // What passes in each turn of the loop, the first of which begins at a time.
    fn turn(&mut self, alloc: Global, from: usize) -> Result<(), AllocError> {
        let until = from.saturating_add(self.plan.schedule.interval);
        let events = events(alloc, self.plan, self.passings, Times { from, until })?;
        let list = instructions(alloc, &events, self.passings)?;
        let start = self.code.len().min(MAX_SWITCH_CODE) as u16;
        for (place, routes) in list.iter().enumerate() {
            let is_last = place.saturating_add(1) == list.len();
            let ins = self.turn_ins(is_last, start);
            self.push(ins, routes)?;
        }
        Ok(())
    }

    // All that passes; how often the loop is come back to, where there is one.
    fn all(&mut self, alloc: Global, span: Span) -> Result<Option<usize>, AllocError> {
        let Span { first, last } = span;
        let before = Times {
            from: first,
            until: last,
        };
        let plan = self.plan;
        let interval = plan.schedule.interval;
        let whole = first.saturating_add(plan.whole().saturating_mul(interval));
        let turns = whole
            .saturating_sub(last)
            .checked_div(interval)
            .unwrap_or(0);
        let all = plan.all().saturating_mul(interval);
        let until = last.saturating_add(all).saturating_add(1);
        if turns < 2 {
            self.straight(alloc, Times { until, ..before })?;
            return Ok(None);
        }
        if plan.rows.are_endless {
            self.straight(alloc, before)?;
            self.turn(alloc, last)?;
            return Ok(None);
        }
        self.code
            .push(SwitchIns::move_from(0, SwitchSource::Input(4)))?;
        self.straight(alloc, before)?;
        self.turn(alloc, last)?;
        let from = last.saturating_add(turns.saturating_mul(interval));
        self.straight(alloc, Times { from, until })?;
        Ok(Some(turns.saturating_sub(1)))
    }
}

/// The program of a switch; none where it is too long.
pub(crate) fn switch_program(
    alloc: Global,
    plan: &Plan<'_>,
    passings: &[Passing],
) -> Result<Option<SwitchProgram>, AllocError> {
    let mut program = SwitchCode {
        plan,
        passings,
        code: Vec::new(alloc),
    };
    let loops = match span(passings) {
        Some(span) => program.all(alloc, span)?,
        None => None,
    };
    let code = program.code;
    if code.len() >= MAX_SWITCH_CODE {
        return Ok(None);
    }
    Ok(Some(SwitchProgram { code, loops }))
}
