//! The programs of tiles.
use crate::lives::Held;
use crate::memory::{Memory, as_cell};
use crate::plan::{Plan, Span, Times, first_step, with_time};
use raw_body::Position;
use raw_frame::{Register, TileId, ValueId};
use raw_modulo::{ConstantId, LocalId, OperandId, RowLocal};
use raw_selection::{Cell, copy, load, store};
use raw_tile_isa::{MAX_TILE_CODE, NETWORK_1, NETWORK_2, TileIns, TileOp, is_one, li};
use std::alloc::{AllocError, Global};

/// What a tile does in each step.
#[derive(Clone, Copy)]
enum Deed {
    Make(ValueId),
    Receive(LocalId),
    Send(ValueId),
    /// Loads the constant of a value.
    LoadConstant(ValueId),
    /// Loads an operand of a value.
    LoadOperand { value: ValueId, position: Position },
    Store(LocalId),
}

/// A deed and its time in the first step.
#[derive(Clone, Copy)]
struct Timed {
    time: usize,
    deed: Deed,
}

/// A deed by its place among those of a tile.
#[derive(Clone, Copy, PartialEq, Eq, PartialOrd, Ord)]
struct DeedId(usize);

/// A deed in a cycle and a step.
#[derive(Clone, Copy, PartialEq, Eq, PartialOrd, Ord)]
struct Event {
    time: usize,
    deed: DeedId,
    step: usize,
}

/// A program of a tile in the making.
#[derive(Drop)]
pub(crate) struct TileCode<'a> {
    pub(crate) plan: &'a Plan<'a>,
    pub(crate) tile: TileId,
    pub(crate) memory: Memory,
    deeds: Vec<Timed>,
    code: Vec<TileIns>,
}

/// The registers for words that are used at once, one for each operand.
pub(crate) const SCRATCH: [Register; 2] = [Register(1), Register(2)];

/// The register that counts the turns of a loop.
const COUNTER: u8 = 3;

impl TileCode<'_> {
    /// Adds an instruction.
    pub(crate) fn push(&mut self, ins: TileIns) -> Result<(), AllocError> {
        self.code.push(ins)?;
        Ok(())
    }

    /// Loads a word into a register, or sends it on a network.
    pub(crate) fn load_word(&mut self, to: Register, word: u32) -> Result<(), AllocError> {
        let is_network = to.0 == NETWORK_1 || to.0 == NETWORK_2;
        let at = if is_network && !is_one(word) {
            SCRATCH[0]
        } else {
            to
        };
        let (first, second) = li(at.field(), word);
        self.push(first)?;
        if let Some(second) = second {
            self.push(second)?;
        }
        if at != to {
            self.push(copy(to, at))?;
        }
        Ok(())
    }

    // Adds a deed, if it has a time.
    fn add(&mut self, time: Option<usize>, deed: Deed) -> Result<(), AllocError> {
        if let Some(time) = time {
            self.deeds.push(Timed { time, deed })?;
        }
        Ok(())
    }

    // The deeds for a value that is made here.
    fn add_value(&mut self, value: ValueId) -> Result<(), AllocError> {
        let schedule = self.plan.schedule;
        if self.plan.task.body.origin(value).is_input() {
            return Ok(());
        }
        self.add(schedule.made.at(value), Deed::Make(value))?;
        self.add(schedule.sent.at(value), Deed::Send(value))?;
        self.add(schedule.constants.at(value), Deed::LoadConstant(value))?;
        for position in Position::BOTH {
            let time = schedule.loaded.at(OperandId::of(value, position));
            self.add(time, Deed::LoadOperand { value, position })?;
        }
        Ok(())
    }

    // The deeds for a local of this tile.
    fn add_local(&mut self, local: LocalId) -> Result<(), AllocError> {
        let schedule = self.plan.schedule;
        match schedule.comings.at(local) {
            Some(coming) if coming.taken.is_none() => {
                self.add(Some(coming.received), Deed::Receive(local))
            }
            Some(_) => Ok(()),
            None => self.add(schedule.stored.at(local), Deed::Store(local)),
        }
    }

    // All deeds.
    fn add_deeds(&mut self) -> Result<(), AllocError> {
        let task = self.plan.task;
        for value in (0..task.body.count()).map(ValueId) {
            if task.homes.at(value) == self.tile {
                self.add_value(value)?;
            }
        }
        for local in (0..task.locals.size()).map(LocalId) {
            if task.locals.at(local).tile == self.tile {
                self.add_local(local)?;
            }
        }
        Ok(())
    }

    // The first and the last cycle in which something is done in the first step.
    fn span(&self) -> Option<Span> {
        let mut span = None;
        for deed in &self.deeds {
            span = Some(with_time(span, deed.time));
        }
        span
    }

    // When a deed is done from one time to another.
    fn add_events(
        &self,
        events: &mut Vec<Event>,
        timed: Timed,
        deed: DeedId,
        times: Times,
    ) -> Result<(), AllocError> {
        let interval = self.plan.schedule.interval;
        for step in first_step(timed.time, times.from, interval)..self.plan.end() {
            let time = timed.time.saturating_add(step.saturating_mul(interval));
            if time >= times.until {
                break;
            }
            events.push(Event { time, deed, step })?;
        }
        Ok(())
    }

    // What is done from one time to another.
    fn straight(&mut self, alloc: Global, times: Times) -> Result<(), AllocError> {
        let mut events = Vec::new(alloc);
        for (deed, timed) in self.deeds.iter().enumerate() {
            self.add_events(&mut events, *timed, DeedId(deed), times)?;
        }
        events.sort()?;
        for event in &events {
            self.event(*event)?;
        }
        Ok(())
    }

    // A deed in a step.
    fn event(&mut self, event: Event) -> Result<(), AllocError> {
        let Some(timed) = self.deeds.get(event.deed.0) else {
            return Ok(());
        };
        let step = event.step;
        match timed.deed {
            Deed::Make(value) => self.make(value, step),
            Deed::Receive(local) => self.receive(local, step),
            Deed::Send(value) => self.send(value, step),
            Deed::LoadConstant(value) => self.load_constant(value, step),
            Deed::LoadOperand { value, position } => self.load_operand(value, position, step),
            Deed::Store(local) => self.store(local, step),
        }
    }

    /// The register of a local in a step.
    pub(crate) fn local_register(&self, local: LocalId, step: usize) -> Register {
        self.plan.registers.at(Held::Local(local), step)
    }

    // Takes a local for its first word, where a step is before the first row.
    fn take_first(&mut self, local: LocalId, step: usize) -> Result<(), AllocError> {
        if self.plan.task.in_memory.at(local) {
            return Ok(());
        }
        let to = self.local_register(local, step);
        match self.plan.first_of(local, step) {
            Some(word) => self.load_word(to, word),
            None => Ok(()),
        }
    }

    // Receives a local.
    fn receive(&mut self, local: LocalId, step: usize) -> Result<(), AllocError> {
        if step < self.plan.lead {
            return self.take_first(local, step);
        }
        let value = self.plan.task.locals.at(local).value;
        let Some(coming) = self.plan.schedule.comings.at(local) else {
            return Ok(());
        };
        if !self.plan.is_there(value, step) {
            return Ok(());
        }
        let from = Register::of_network(coming.net);
        match self.memory.of_local(local, step) {
            Some(cell) => self.push(store(from, cell)),
            None => self.push(copy(self.local_register(local, step), from)),
        }
    }

    // Sends a value from its register.
    fn send(&mut self, value: ValueId, step: usize) -> Result<(), AllocError> {
        let local = self.plan.task.first_local(value);
        let from = self.local_register(local, step);
        match self.plan.schedule.messages.at(value) {
            Some(message) if self.plan.is_there(value, step) => {
                self.push(copy(Register::of_network(message.net), from))
            }
            _ => Ok(()),
        }
    }

    // Loads the constant of a value.
    fn load_constant(&mut self, value: ValueId, step: usize) -> Result<(), AllocError> {
        if !self.plan.is_there(value, step) {
            return Ok(());
        }
        let word = self.plan.task.loaded_constant(value).unwrap_or(0);
        let to = self.plan.registers.at(Held::Constant(value), step);
        match self.memory.of_word(word) {
            Some(cell) => self.push(load(to, cell)),
            None => self.load_word(to, word),
        }
    }

    // Loads an operand of a value.
    fn load_operand(
        &mut self,
        value: ValueId,
        position: Position,
        step: usize,
    ) -> Result<(), AllocError> {
        if !self.plan.is_there(value, step) {
            return Ok(());
        }
        let Some(RowLocal { local, back }) = self.plan.task.operand(value, position) else {
            return Ok(());
        };
        let held = Held::Operand(OperandId::of(value, position));
        let to = self.plan.registers.at(held, step);
        match self.memory.of_local(local, step.saturating_sub(back)) {
            Some(cell) => self.push(load(to, cell)),
            None => Ok(()),
        }
    }

    // Stores a local that was made here.
    fn store(&mut self, local: LocalId, step: usize) -> Result<(), AllocError> {
        if !self
            .plan
            .is_there(self.plan.task.locals.at(local).value, step)
        {
            return Ok(());
        }
        let from = self.local_register(local, step);
        match self.memory.of_local(local, step) {
            Some(cell) => self.push(store(from, cell)),
            None => Ok(()),
        }
    }

    // Takes a local that is not in memory for its first word.
    pub(crate) fn take_made_first(
        &mut self,
        value: ValueId,
        step: usize,
    ) -> Result<(), AllocError> {
        let local = self.plan.task.first_local(value);
        if self.plan.task.locals.at(local).comes {
            return Ok(());
        }
        self.take_first(local, step)
    }

    // A word stands in a cell from the start on.
    fn set_cell(&mut self, cell: Cell, word: u32) -> Result<(), AllocError> {
        self.load_word(SCRATCH[0], word)?;
        self.push(store(SCRATCH[0], cell))
    }

    // The constants in memory.
    fn set_words(&mut self) -> Result<(), AllocError> {
        for place in 0..self.memory.words().len() {
            let word = self.memory.words().get(place).copied().unwrap_or(0);
            self.set_cell(as_cell(place), word)?;
        }
        Ok(())
    }

    // The first words of a local in memory.
    fn set_local(&mut self, local: LocalId) -> Result<(), AllocError> {
        let plan = self.plan;
        for step in 0..plan.lead {
            if let Some(word) = plan.first_of(local, step) {
                if let Some(cell) = self.memory.of_local(local, step) {
                    self.set_cell(cell, word)?;
                }
            }
        }
        Ok(())
    }

    // The first words of the locals in memory.
    fn set_locals(&mut self) -> Result<(), AllocError> {
        let plan = self.plan;
        for local in (0..plan.task.locals.size()).map(LocalId) {
            if plan.task.locals.at(local).tile == self.tile && plan.task.in_memory.at(local) {
                self.set_local(local)?;
            }
        }
        Ok(())
    }

    // The constants in registers.
    fn set_constants(&mut self) -> Result<(), AllocError> {
        let plan = self.plan;
        for number in (0..plan.task.constants.size()).map(ConstantId) {
            let constant = plan.task.constants.at(number);
            if constant.tile == self.tile && constant.is_kept {
                let to = plan.registers.constants.at(number);
                self.load_word(to.unwrap_or(Register::ZERO), constant.word)?;
            }
        }
        Ok(())
    }

    // Counts the turns of a loop down.
    fn count_turn(&mut self) -> Result<(), AllocError> {
        let minus_one = 0xffff;
        self.push(TileIns::immediate(TileOp::Addiu, COUNTER, COUNTER, minus_one))
    }

    // Goes back to the start of a loop, for as many turns as there are.
    fn close_loop(&mut self, start: usize) -> Result<(), AllocError> {
        let are_endless = self.plan.rows.are_endless;
        if !are_endless {
            self.count_turn()?;
        }
        let place = self.code.len();
        if place >= MAX_TILE_CODE || start >= MAX_TILE_CODE {
            return Ok(());
        }
        let (place, start) = (place as u32, start as u32);
        if are_endless {
            self.push(TileIns::branch(TileOp::Beq, 0, 0, place, start))
        } else {
            self.push(TileIns::branch(TileOp::Bne, COUNTER, 0, place, start))
        }
    }

    // What is before the loop, and the loop.
    fn turn(&mut self, alloc: Global, before: Times, round: usize) -> Result<(), AllocError> {
        self.straight(alloc, before)?;
        let place = self.code.len();
        let turn = Times {
            from: before.until,
            until: before.until.saturating_add(round),
        };
        self.straight(alloc, turn)?;
        self.close_loop(place)
    }

    // All that is done: before the loop, in it, and behind it.
    fn all(&mut self, alloc: Global, span: Span) -> Result<(), AllocError> {
        let Span { first, last } = span;
        let plan = self.plan;
        let interval = plan.schedule.interval;
        let lead = plan.lead.saturating_mul(interval);
        let round = plan.registers.rows.saturating_mul(interval);
        let start = last
            .saturating_add(lead.saturating_mul(2))
            .saturating_add(1);
        let whole = plan.whole().saturating_mul(interval).saturating_add(lead);
        let whole = first.saturating_add(whole);
        let turns = whole.saturating_sub(start).checked_div(round).unwrap_or(0);
        let end = plan.end().saturating_mul(interval);
        let until = last.saturating_add(end).saturating_add(1);
        let before = Times {
            from: first,
            until: start,
        };
        if turns < 2 {
            return self.straight(alloc, Times { until, ..before });
        }
        if plan.rows.are_endless {
            return self.turn(alloc, before, round);
        }
        self.load_word(Register(COUNTER), turns.min(u32::MAX as usize) as u32)?;
        self.turn(alloc, before, round)?;
        let from = start.saturating_add(turns.saturating_mul(round));
        self.straight(alloc, Times { from, until })
    }

    // What is done before all rows.
    fn begin(&mut self, loops: Option<usize>) -> Result<(), AllocError> {
        if let Some(loops) = loops {
            self.load_word(Register(NETWORK_1), loops.min(u32::MAX as usize) as u32)?;
        }
        self.set_words()?;
        self.set_locals()?;
        self.set_constants()
    }
}

/// The program of a tile whose switch is to be sent a word first, or is not; none where it is too long.
pub(crate) fn tile_program(
    alloc: Global,
    plan: &Plan<'_>,
    tile: TileId,
    loops: Option<usize>,
) -> Result<Option<Vec<TileIns>>, AllocError> {
    let mut program = TileCode {
        plan,
        tile,
        memory: Memory::new(alloc, plan, tile)?,
        deeds: Vec::new(alloc),
        code: Vec::new(alloc),
    };
    program.add_deeds()?;
    program.begin(loops)?;
    if let Some(span) = program.span() {
        program.all(alloc, span)?;
    }
    if program.memory.fits() && program.code.len() < MAX_TILE_CODE {
        Ok(Some(program.code))
    } else {
        Ok(None)
    }
}
