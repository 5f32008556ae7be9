//! The queue itself.
//!
//! A taker looks for some microseconds before it sleeps, and gives up its core between the later looks (`Backoff` of
//! crossbeam_utils). In a stream of words each sleep and each waking is a call of the system. They took a quarter of
//! the time of such a run.
ghost use Rattle.std.specs.Prelude.{◌≡◌, [], ◌∷◌, ◌++◌, IfOk, OnOk, OnErr, MatchOption};
ghost use Rattle.raw_queue.specs.Ends.{Leaves};

use crate::ends::{PutEnd, TakeEnd};
use crate::item::Item;
use crate::rule::{InOrder, Put, Take, TwoEnds};
use crate::view::EndView;
use crossbeam_queue::RuledSegQueue;
use crossbeam_utils::Backoff;
use crossbeam_utils::sync::Parker;
use std::alloc::{AllocError, Global};
use std::marker::Model;
use std::sync::Wait;
use std::sync::atomic::{AtomicBool, Ordering};

type Segments = RuledSegQueue<Item, EndView, InOrder>;

/// The items between two threads, which both share. Contracts see which queue it is.
///
/// A queue has to be closed: it can't be dropped.
pub struct Queue {
    segments: Segments,
    // Whether nothing more is put.
    hung_up: AtomicBool,
}

impl Model for Queue {
    ghost use Rattle.raw_queue.specs.Ends.{QueueId};

    ghost Value = { QueueId };

    ghost view = { λ q. q.segments };
}

impl Queue {
    /// An empty queue, with its two ends.
    pub fn open(alloc: Global) -> Result<(Queue, PutEnd, TakeEnd), AllocError>
        ensures put_end { IfOk result (λ r. r.1 ≡ record { queue = r.0; items = [] }) }
        ensures take_end { IfOk result (λ r. r.2 ≡ record { queue = r.0; items = [] }) }
    {
        let sleeper = Parker::new(alloc)?;
        let waker = sleeper.unparker().clone()?;
        let (segments, mut putting) = Segments::with_rule(alloc)?;
        let taking = segments.another::<TwoEnds>(&mut putting);
        let queue = Queue {
            segments,
            hung_up: AtomicBool::new(false),
        };
        let put = PutEnd {
            pass: putting,
            waker,
        };
        let take = TakeEnd {
            pass: taking,
            sleeper,
        };
        Ok((queue, put, take))
    }

    /// Puts the item last, and wakes a taker that waits. An error changes nothing.
    ///
    /// After `hang_up` it is still lawful, and the item stands behind those before; but the taker may have been told
    /// that nothing comes.
    pub fn put<R: Wait>(&self, rt: &R, end: &mut PutEnd, item: Item) -> Result<(), AllocError>
        requires { end.old.queue ≡ self.now }
        ensures queue { end.new.queue ≡ end.old.queue }
        ensures ok { OnOk result (end.new.items ≡ end.old.items ++ item ∷ []) }
        ensures memory { OnErr result (end.new.items ≡ end.old.items) }
    {
        match self.segments.push_as::<Put, R>(rt, &mut end.pass, item) {
            Ok(()) => {
                end.waker.unpark();
                Ok(())
            }
            Err(_) => Err(AllocError),
        }
    }

    /// Tells the other end that nothing more is put, and wakes a taker that waits. It takes no memory.
    ///
    /// No clause sees what it does: the tests do.
    pub fn hang_up(&self, end: &PutEnd)
        requires { end.now.queue ≡ self.now }
    {
        self.hung_up.store(true, Ordering::SeqCst);
        end.waker.unpark();
    }

    /// Takes the item at the front, and waits for it where there is none.
    ///
    /// `None` changes nothing. It comes only once the other end hung up and all that it had put by then was taken. But it
    /// proves nothing of what was put, as `close` does: no clause says when `None` comes, and a body that answers it at
    /// once is refused by the tests alone.
    pub fn take_wait<R: Wait>(&self, rt: &R, end: &mut TakeEnd) -> Option<Item>
        requires { end.old.queue ≡ self.now }
        ensures queue { end.new.queue ≡ end.old.queue }
        ensures taken { MatchOption result (end.new.items ≡ end.old.items) (λ item. end.new.items ≡ end.old.items ++ item ∷ []) }
    {
        // An item that comes within microseconds is taken without a sleep: both threads would pay for that.
        let backoff = Backoff::new();
        for _ in rt.forever() {
            // Asked before the queue is: what was put before the other end hung up is then in the queue.
            let hung_up = self.hung_up.load(Ordering::SeqCst);
            if let Some(item) = self.segments.pop_as::<Take, R>(rt, &mut end.pass) {
                return Some(item);
            }
            if hung_up {
                return None;
            }
            if backoff.is_completed() {
                end.sleeper.park(rt);
            } else {
                backoff.snooze();
            }
        }
        unreachable!()
    }

    /// Ends the queue, and answers how many items were put and not taken, or 2^64 - 1 where there are more: what was
    /// taken is a prefix of what was put. These items are taken out and dropped. It takes no memory.
    pub fn close<R: Wait>(self, rt: &R, put: PutEnd, take: TakeEnd) -> u64
        requires { (put.queue ≡ self) × (take.queue ≡ self) }
        ensures { Leaves put.items take.items result }
    {
        let Queue {
            segments,
            hung_up: _,
        } = self;
        let PutEnd { mut pass, waker: _ } = put;
        let TakeEnd {
            pass: taking,
            sleeper: _,
        } = take;
        segments.absorb::<TwoEnds>(&mut pass, taking);
        let mut count = 0u64;
        for _ in rt.forever() {
            if segments.pop_as::<Take, R>(rt, &mut pass).is_none() {
                break;
            }
            count = count.saturating_add(1);
        }
        segments.destroy();
        count
    }
}
