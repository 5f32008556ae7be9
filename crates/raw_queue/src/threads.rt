//! What each of the two threads holds: its end of the queue, and the queue.
//!
//! A thread's end of a queue holds the queue too, `Sender` and `Receiver`. So no function has to ask that an end and a
//! queue belong together.
ghost use Rattle.std.specs.Prelude.{◌≡◌, [], ◌∷◌, ◌++◌, OnOk, OnErr, MatchOption};

use crate::ends::{PutEnd, TakeEnd};
use crate::item::Item;
use crate::queue::Queue;
use std::alloc::AllocError;
use std::marker::Model;
use std::sync::Wait;

/// The end of a queue at which items are put, with the queue that it belongs to. Contracts see it as they see the end.
#[derive(Drop)]
pub struct Sender<'q> {
    queue: &'q Queue,
    end: PutEnd,
}

impl<'q> Model for Sender<'q> {
    ghost use Rattle.std.specs.Prelude.{◌≡◌};
    ghost use Rattle.raw_queue.specs.Ends.{QueueEnd};

    ghost Value = { QueueEnd };

    ghost view = { λ s. s.end };

    ghost invariant = { λ s. s.end.queue ≡ s.queue.now };
}

/// The end of a queue at which items are taken, with the queue that it belongs to. Contracts see it as they see the end.
#[derive(Drop)]
pub struct Receiver<'q> {
    queue: &'q Queue,
    end: TakeEnd,
}

impl<'q> Model for Receiver<'q> {
    ghost use Rattle.std.specs.Prelude.{◌≡◌};
    ghost use Rattle.raw_queue.specs.Ends.{QueueEnd};

    ghost Value = { QueueEnd };

    ghost view = { λ r. r.end };

    ghost invariant = { λ r. r.end.queue ≡ r.queue.now };
}

impl<'q> Sender<'q> {
    /// An end with its queue.
    pub fn new(queue: &'q Queue, end: PutEnd) -> Self
        requires { end.queue ≡ queue.now }
        ensures { result ≡ end }
    {
        Sender { queue, end }
    }

    /// The end alone, as `Queue::close` takes it.
    pub fn into_end(self) -> PutEnd
        ensures { result ≡ self.entry }
    {
        self.end
    }

    /// Puts the item last, as `Queue::put` does.
    pub fn put<R: Wait>(&mut self, rt: &R, item: Item) -> Result<(), AllocError>
        ensures queue { self.new.queue ≡ self.old.queue }
        ensures ok { OnOk result (self.new.items ≡ self.old.items ++ item ∷ []) }
        ensures memory { OnErr result (self.new.items ≡ self.old.items) }
    {
        self.queue.put(rt, &mut self.end, item)
    }

    /// Tells the other end that nothing more is put, as `Queue::hang_up` does.
    pub fn hang_up(&self) {
        self.queue.hang_up(&self.end);
    }
}

impl<'q> Receiver<'q> {
    /// An end with its queue.
    pub fn new(queue: &'q Queue, end: TakeEnd) -> Self
        requires { end.queue ≡ queue.now }
        ensures { result ≡ end }
    {
        Receiver { queue, end }
    }

    /// The end alone, as `Queue::close` takes it.
    pub fn into_end(self) -> TakeEnd
        ensures { result ≡ self.entry }
    {
        self.end
    }

    /// Takes the item at the front, and waits for it where there is none, as `Queue::take_wait` does.
    pub fn take_wait<R: Wait>(&mut self, rt: &R) -> Option<Item>
        ensures queue { self.new.queue ≡ self.old.queue }
        ensures taken { MatchOption result (self.new.items ≡ self.old.items) (λ item. self.new.items ≡ self.old.items ++ item ∷ []) }
    {
        self.queue.take_wait(rt, &mut self.end)
    }
}
