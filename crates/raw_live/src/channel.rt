//! A queue with its two ends.
ghost use Rattle.std.specs.Prelude.{◌≡◌};

use raw_queue::{PutEnd, Queue, TakeEnd};

/// A queue with its two ends.
pub(crate) struct Channel {
    pub(crate) queue: Queue,
    pub(crate) put: PutEnd,
    pub(crate) take: TakeEnd,
    ghost put_there: { put.queue ≡ queue },
    ghost taken_there: { take.queue ≡ queue },
}
