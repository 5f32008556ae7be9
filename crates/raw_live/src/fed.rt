//! The words that come for the engine.
//!
//! What is put before what is taken is a condition of the call that takes. No contract compares two queues, or a queue
//! and a source, over time. So the engine takes words by `Fed::take_due` alone, which asks that all that is due of the
//! words so far was put. The reader asks its source by `ask` alone, which asks that the words of all whole lines were
//! put. Both loops have this as their invariant. `Fed` keeps its end of the queue to itself, so the engine has no other
//! way to take a word.
ghost use Rattle.std.specs.Prelude.{◌≡◌, [], ◌∷◌, ◌++◌, MatchOption};
ghost use Rattle.raw_live.specs.Running.{IsAllPut};

use crate::engine::Engine;
use raw_queue::{Item, Queue, Receiver, Sender, TakeEnd};
use std::marker::Model;
use std::sync::Wait;

/// The words that come for the engine. Contracts see them as they see the end of the queue from which they are taken.
///
/// The engine has no other way to take one than `take_due`.
#[derive(Drop)]
pub struct Fed<'q> {
    words: Receiver<'q>,
}

impl<'q> Model for Fed<'q> {
    ghost use Rattle.raw_queue.specs.Ends.{QueueEnd};

    ghost Value = { QueueEnd };

    ghost view = { λ f. f.words };
}

impl<'q> Fed<'q> {
    /// The words that are taken at an end, with its queue.
    pub fn new(queue: &'q Queue, end: TakeEnd) -> Self
        requires { end.queue ≡ queue.now }
        ensures { result ≡ end }
    {
        let words = Receiver::new(queue, end);
        Fed { words }
    }

    /// The end alone, as `Queue::close` takes it.
    pub fn into_end(self) -> TakeEnd
        ensures { result ≡ self.entry }
    {
        self.words.into_end()
    }

    /// Takes the next item, and waits for it where there is none, as `Receiver::take_wait` does: only once all that is due
    /// of the words before it was put.
    pub fn take_due<R: Wait>(&mut self, rt: &R, _put: &Sender<'_>, _engine: &Engine) -> Option<Item>
        requires due { IsAllPut _engine.now.set self.old.items _put.now.items }
        ensures queue { self.new.queue ≡ self.old.queue }
        ensures taken { MatchOption result (self.new.items ≡ self.old.items) (λ item. self.new.items ≡ self.old.items ++ item ∷ []) }
    {
        self.words.take_wait(rt)
    }
}
