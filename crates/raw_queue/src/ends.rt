//! The two ends of a queue.
use crate::item::Item;
use crate::view::EndView;
use crossbeam_queue::SegPass;
use crossbeam_utils::sync::{Parker, Unparker};
use std::marker::Model;

pub(crate) type Pass = SegPass<Item, EndView>;

/// The end of one queue at which items are put. Contracts see which queue it is, and the list of what was put.
#[derive(Drop)]
pub struct PutEnd {
    pub(crate) pass: Pass,
    // Wakes the thread at the other end.
    pub(crate) waker: Unparker,
}

impl Model for PutEnd {
    ghost use Rattle.raw_queue.specs.Ends.{QueueEnd};
    ghost use Rattle.raw_queue.specs.Passes.{queue_of, IsPutting};

    ghost Value = { QueueEnd };

    ghost view = { λ e. record { queue = queue_of e.pass; items = e.pass.me.view.client.put } };

    ghost invariant = { λ e. IsPutting e.pass };
}

/// The end of one queue at which items are taken. Contracts see which queue it is, and the list of what was taken.
#[derive(Drop)]
pub struct TakeEnd {
    pub(crate) pass: Pass,
    // What this thread sleeps on.
    pub(crate) sleeper: Parker,
}

impl Model for TakeEnd {
    ghost use Rattle.raw_queue.specs.Ends.{QueueEnd};
    ghost use Rattle.raw_queue.specs.Passes.{queue_of, IsTaking};

    ghost Value = { QueueEnd };

    ghost view = { λ e. record { queue = queue_of e.pass; items = e.pass.me.view.client.taken } };

    ghost invariant = { λ e. IsTaking e.pass };
}
