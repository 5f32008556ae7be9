//! Who is told what a step did.
//!
//! Whoever counts, traces or shows what steps do is told it by the step, and looks at no wire before it and behind it. The
//! turns have the one who listens as a type parameter: with `Silent` the compiler leaves nothing of it, so that a run costs
//! what it would cost without.
ghost use Rattle.std.specs.Prelude.{◌≡◌, ◌+◌, ◌<◌, ◌≤◌, [], ◌++◌, None, length};
ghost use Rattle.std.specs.Option.{option_to_list};
ghost use Rattle.raw_model.specs.SwitchTable.{routed};
ghost use Rattle.raw_model.specs.Machine.{sent_to};
ghost use Rattle.raw_processor.specs.Given.{taken_by, sent_out, wires_in, sent_at};
ghost use Rattle.raw_serial.specs.Told.{Told, told_in};

use arrayvec::ArrayVec;
use raw_processor::{EndWires, TileWires};
use raw_switch::{SwitchState, SwitchStep, next_end};
use raw_tile::TileOut;
use std::marker::Model;

/// How many values a step takes at most, and how many it sends.
const MOST: usize = 10;

/// Who is told what a step did.
pub trait Tells {
    /// It was told this of the last step.
    ghost has: { Self → Told → Type 0 };

    /// A tile or a port took from these wires and sent to those at its ends. `missed` has the stall turns that it owes for
    /// a miss.
    fn tell(&mut self, ends: &EndWires, wires: TileWires, out: &TileOut, missed: Option<u8>)
        ensures { has self.new (record {
          from = taken_by wires;
          sent = sent_out ends.now out.now;
          touched = out.now.touched;
          missed = missed;
        }) };

    /// A switch took from the wires at these of its inputs, and sent by the routes of an instruction. `given` has the
    /// values taken, by end index.
    fn tell_switch(
        &mut self,
        ends: &EndWires,
        inputs: u16,
        step: &SwitchStep,
        switch: &SwitchState,
        given: &[Option<u32>; 10],
    )
        ensures { has self.new (record {
          from = wires_in inputs ends.now.inputs;
          sent = sent_at ends.now.outputs (routed step.now switch.now.regs given.now);
          touched = None;
          missed = None;
        }) };
}

/// Nobody listens.
#[derive(Clone, Copy)]
pub struct Silent;

impl Tells for Silent {
    ghost has = { λ nobody told. Unit {0} };

    #[inline(always)]
    fn tell(&mut self, _ends: &EndWires, _wires: TileWires, _out: &TileOut, _missed: Option<u8>) {}

    #[inline(always)]
    fn tell_switch(
        &mut self,
        _ends: &EndWires,
        _inputs: u16,
        _step: &SwitchStep,
        _switch: &SwitchState,
        _given: &[Option<u32>; 10],
    ) {}
}

/// A value that is sent on a wire.
#[derive(Clone, Copy, PartialEq, Eq, Default)]
pub struct Sent {
    pub wire: u32,
    pub value: u32,
}

impl Model for Sent {
    ghost use Rattle.raw_network.specs.Network.{Sent as SentValue};

    ghost Value = { SentValue };

    ghost view = { λ m. record { wire = m.wire; value = m.value } };

    ghost inverse = { λ m. record { wire = m.wire; value = m.value } };
}

/// What a step did. It is made once in a run, and what it has before a step is of no account.
#[derive(Drop)]
pub struct Event {
    /// The wires that it took from, in order, a wire once for each value.
    pub taken: ArrayVec<u32, MOST>,
    /// The values that it sent, in order.
    pub sent: ArrayVec<Sent, MOST>,
    /// The address of its load or store, in bytes. One that traps touches none.
    pub touched: Option<u32>,
    /// The stall turns that the tile owes for it, where it missed its cache.
    pub missed: Option<u8>,
}

impl Event {
    /// Nothing yet.
    pub fn new() -> Event
        ensures { told_in result ≡ record { from = []; sent = []; touched = None; missed = None } }
    {
        Event {
            taken: ArrayVec::new(),
            sent: ArrayVec::new(),
            touched: None,
            missed: None,
        }
    }
}

impl Tells for Event {
    ghost has = { λ e told. told_in e ≡ told };

    fn tell(&mut self, ends: &EndWires, wires: TileWires, out: &TileOut, missed: Option<u8>) {
        self.taken.clear();
        push_taken(&mut self.taken, wires.first);
        push_taken(&mut self.taken, wires.second);
        self.sent.clear();
        push_sent(&mut self.sent, ends.outputs[4], out.sent1);
        push_sent(&mut self.sent, ends.outputs[9], out.sent2);
        self.touched = out.touched;
        self.missed = missed;
    }

    fn tell_switch(
        &mut self,
        ends: &EndWires,
        inputs: u16,
        step: &SwitchStep,
        switch: &SwitchState,
        given: &[Option<u32>; 10],
    ) {
        list_inputs(&mut self.taken, inputs, &ends.inputs);
        list_routes(&mut self.sent, step, switch, &ends.outputs, given);
        self.touched = None;
        self.missed = None;
    }
}

// Appends a wire, where it is there.
fn push_taken(list: &mut ArrayVec<u32, MOST>, wire: Option<u32>)
    requires { length list.old.items < MOST }
    ensures items { list.new.items ≡ list.old.items ++ option_to_list wire }
    ensures few { length list.new.items ≤ length list.old.items + 1 }
{
    if let Some(wire) = wire {
        list.push(wire);
    }
}

// Appends a value on its way to a wire, where both are there.
fn push_sent(list: &mut ArrayVec<Sent, MOST>, wire: Option<u32>, value: Option<u32>)
    requires { length list.old.items < MOST }
    ensures items { list.new.items ≡ list.old.items ++ sent_to wire value }
    ensures few { length list.new.items ≤ length list.old.items + 1 }
{
    if let Some(wire) = wire {
        if let Some(value) = value {
            list.push(Sent { wire, value });
        }
    }
}

// Lists the wires at the ends that a word has.
fn list_inputs(list: &mut ArrayVec<u32, MOST>, word: u16, wires: &[Option<u32>; 10])
    ensures { list.new.items ≡ wires_in word wires.now }
{
    list.clear();
    let mut end = next_end(word, 0);
    'ends: while end < 10 {
        push_taken(list, wires[end]);
        end = next_end(word, end + 1);
    }
}

// Lists what an instruction of a switch sends, as `put_routes` appends it.
fn list_routes(
    list: &mut ArrayVec<Sent, MOST>,
    step: &SwitchStep,
    switch: &SwitchState,
    wires: &[Option<u32>; 10],
    given: &[Option<u32>; 10],
)
    ensures { list.new.items ≡ sent_at wires.now (routed step.now switch.now.regs given.now) }
{
    list.clear();
    let word = step.outputs();
    let mut end = next_end(word, 0);
    'ends: while end < 10 {
        let value = switch.sent_from(step, end, given);
        push_sent(list, wires[end], value);
        end = next_end(word, end + 1);
    }
}
