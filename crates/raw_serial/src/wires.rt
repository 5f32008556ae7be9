//! The values on the wires of a machine.
ghost use Rattle.std.specs.Prelude.{◌≡◌, ℕ, ◌+◌, ◌<◌, ◌≤◌, List, [], ◌∷◌, ◌++◌, length, map, drop, replicate, is_some, slice_index, slice_set, IfOk, IfSome};
ghost use Rattle.std.specs.List.{All};
ghost use Rattle.std.specs.Option.{option_to_list};
ghost use Rattle.raw_network.specs.Network.{Sent, values_on, count_of, fronts, taken, appended, has_values, has_room};
ghost use Rattle.raw_network.specs.Runs.{sent_on};
ghost use Rattle.raw_model.specs.Machine.{sent_to};
ghost use Rattle.raw_tile.specs.Given.{values_of};
ghost use Rattle.raw_processor.specs.Given.{sent_out};

use arrayvec::ArrayVec;
use raw_processor::EndWires;
use raw_tile::{TileGiven, TileOut};
use std::alloc::{AllocError, Global};
use std::marker::Model;

/// How many values a wire has room for; it holds at most as many as its set's depth.
const ROOM: usize = 8;

/// The queue of each wire, by the wires' numbers, front first.
#[derive(Drop)]
pub struct Wires {
    pub(crate) queues: Vec<ArrayVec<u32, ROOM>>,
}

impl Model for Wires {
    ghost use Rattle.std.specs.Prelude.{ℕ, List, map};

    ghost Value = { List (List ℕ) };

    ghost view = { λ wires. map (λ queue. queue.items) wires.queues.items };
}

impl Wires {
    /// So many wires that hold nothing.
    pub fn open(alloc: Global, count: usize) -> Result<Wires, AllocError>
        ensures { IfOk result (λ wires. wires ≡ replicate count []) }
    {
        let mut queues = Vec::with_capacity(alloc, count)?;
        for _w in 0..count {
            queues.push(ArrayVec::new())?;
        }
        Ok(Wires { queues })
    }

    /// Wires that hold these values, front first. None where there is no room for those of a wire.
    pub fn with(alloc: Global, values: &[Vec<u32>]) -> Result<Option<Wires>, AllocError>
        ensures { IfOk result (λ found. IfSome found (λ wires. wires ≡ map (λ wire. wire.items) values.now)) }
    {
        let mut queues = Vec::with_capacity(alloc, values.len())?;
        for wire in values {
            let mut queue = ArrayVec::new();
            if queue.try_extend_from_slice(wire).is_err() {
                return Ok(None);
            }
            queues.push(queue)?;
        }
        Ok(Some(Wires { queues }))
    }

    /// Takes all values off all wires.
    pub(crate) fn clear(&mut self)
        ensures { self.new ≡ replicate (length self.old) [] }
    {
        for w in 0..self.queues.len() {
            self.empty(w);
        }
    }

    // Takes all values off a wire.
    fn empty(&mut self, w: usize)
        requires { w < length self.old }
        ensures { self.new ≡ slice_set self.old w [] }
    {
        self.queues[w].clear();
    }

    /// Puts the values of other wires, as many as these, in the place of all values. This takes no memory.
    pub(crate) fn copy_from(&mut self, other: &Wires)
        requires { length other.now ≡ length self.old }
        ensures { self.new ≡ other.now }
    {
        for w in 0..self.queues.len() {
            self.refill(w, &other.queues[w]);
        }
    }

    // Puts these values in the place of those of a wire.
    fn refill(&mut self, w: usize, values: &ArrayVec<u32, ROOM>)
        requires { w < length self.old }
        ensures { self.new ≡ slice_set self.old w values.now.items }
    {
        let queue = &mut self.queues[w];
        queue.clear();
        // There is room, so it does not fail.
        let _appended = queue.try_extend_from_slice(values);
    }

    /// How many values a wire holds.
    pub(crate) fn held(&self, w: u32) -> usize
        requires { w < length self.now }
        ensures { result ≡ length (values_on self.now w) }
    {
        self.queues[w as usize].len()
    }

    /// The values on a wire, front first.
    pub fn values(&self, w: u32) -> &[u32]
        requires { w < length self.now }
        ensures { result.now ≡ values_on self.now w }
    {
        &self.queues[w as usize]
    }

    // Takes the value at the front of a wire.
    fn take(&mut self, w: u32) -> u32
        requires { 0 < length (values_on self.old w) }
        ensures value { result ≡ slice_index (values_on self.old w) 0 }
        ensures rest { self.new ≡ slice_set self.old w (drop 1 (values_on self.old w)) }
    {
        self.queues[w as usize].remove(0)
    }

    // Appends a value to a wire.
    fn put(&mut self, w: u32, value: u32)
        requires there { w < length self.old }
        requires room { length (values_on self.old w) < 8 }
        ensures { self.new ≡ slice_set self.old w (values_on self.old w ++ value ∷ []) }
    {
        self.queues[w as usize].push(value);
    }

    /// Whether a value can be taken from the first of these wires, and then one from the second, where
    /// they are there.
    #[inline(always)]
    pub(crate) fn has_pair(&self, first: Option<u32>, second: Option<u32>) -> bool
        requires { All (λ w. w < length self.now) (option_to_list first ++ option_to_list second) }
        ensures { result ≡ has_values (option_to_list first ++ option_to_list second) self.now }
    {
        match first {
            Some(v) => self.has_after(v, second),
            None => self.has_one(second),
        }
    }

    // Whether a value can be taken from a wire, and then one from the second wire.
    fn has_after(&self, v: u32, second: Option<u32>) -> bool
        requires { All (λ w. w < length self.now) (v ∷ option_to_list second) }
        ensures { result ≡ has_values (v ∷ option_to_list second) self.now }
    {
        match second {
            Some(w) if v == w => self.held(v) >= 2,
            Some(w) => self.held(v) >= 1 && self.held(w) >= 1,
            None => self.held(v) >= 1,
        }
    }

    // Whether a value can be taken from a wire, where it is there.
    fn has_one(&self, wire: Option<u32>) -> bool
        requires { All (λ w. w < length self.now) (option_to_list wire) }
        ensures { result ≡ has_values (option_to_list wire) self.now }
    {
        match wire {
            Some(w) => self.held(w) >= 1,
            None => true,
        }
    }

    /// Whether a wire holds fewer values than `depth`, where it is there.
    #[inline(always)]
    pub(crate) fn has_place(&self, depth: usize, wire: Option<u32>) -> bool
        requires { All (λ w. w < length self.now) (option_to_list wire) }
        ensures { result ≡ has_room depth (option_to_list wire) self.now }
    {
        match wire {
            Some(w) => self.held(w) < depth,
            None => true,
        }
    }

    /// Takes the value at the front of a wire, where it is there.
    #[inline(always)]
    pub(crate) fn take_where(&mut self, wire: Option<u32>) -> Option<u32>
        requires { (w : ℕ) → count_of w (option_to_list wire) ≤ length (values_on self.old w) }
        ensures value { option_to_list result ≡ fronts (option_to_list wire) self.old }
        ensures some { is_some result ≡ is_some wire }
        ensures rest { self.new ≡ taken (option_to_list wire) self.old }
    {
        match wire {
            Some(w) => Some(self.take(w)),
            None => None,
        }
    }

    /// Takes a value from the first of these wires, and then one from the second, where they are there.
    #[inline(always)]
    pub(crate) fn take_pair(&mut self, first: Option<u32>, second: Option<u32>) -> TileGiven
        requires { (w : ℕ) →
            count_of w (option_to_list first ++ option_to_list second) ≤ length (values_on self.old w) }
        ensures values { values_of result ≡ fronts (option_to_list first ++ option_to_list second) self.old }
        ensures first { is_some result.a ≡ is_some first }
        ensures second { is_some result.b ≡ is_some second }
        ensures rest { self.new ≡ taken (option_to_list first ++ option_to_list second) self.old }
    {
        let a = self.take_where(first);
        let b = self.take_where(second);
        TileGiven { a, b }
    }

    /// Appends a value to a wire, where both are there.
    #[inline(always)]
    pub(crate) fn put_where(&mut self, wire: Option<u32>, value: Option<u32>)
        requires there { All (λ (m : Sent). m.wire < length self.old) (sent_to wire value) }
        requires room { (w : ℕ) → 0 < length (sent_on w (sent_to wire value)) →
            length (values_on self.old w) + length (sent_on w (sent_to wire value)) ≤ 8 }
        ensures { self.new ≡ appended (sent_to wire value) self.old }
    {
        if let Some(wire) = wire {
            if let Some(value) = value {
                self.put(wire, value);
            }
        }
    }

    /// Appends what a firing of a tile sends to the wires at its ends.
    #[inline(always)]
    pub fn put_out(&mut self, ends: &EndWires, out: &TileOut)
        requires there { All (λ (m : Sent). m.wire < length self.old) (sent_out ends.now out.now) }
        requires room { (w : ℕ) → 0 < length (sent_on w (sent_out ends.now out.now)) →
            length (values_on self.old w) + length (sent_on w (sent_out ends.now out.now)) ≤ 8 }
        ensures { self.new ≡ appended (sent_out ends.now out.now) self.old }
    {
        self.put_where(ends.outputs[4], out.sent1);
        self.put_where(ends.outputs[9], out.sent2);
    }
}
