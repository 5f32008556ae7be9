//! The two queues between the three, each with its two ends.
ghost use Rattle.std.specs.Prelude.{IfOk};
ghost use Rattle.raw_queue.specs.Ends.{Leaves};
ghost use Rattle.raw_live.specs.Meeting.{IsFresh};

use crate::channel::Channel;
use raw_queue::Queue;
use std::alloc::{AllocError, Global};
use std::sync::Wait;

/// The queues between the reader, the engine and the writer.
pub(crate) struct Channels {
    /// From the reader to the engine.
    pub(crate) words_in: Channel,
    /// From the engine to the writer.
    pub(crate) words_out: Channel,
}

impl Channel {
    /// An empty queue with its two ends.
    fn open(alloc: Global) -> Result<Channel, AllocError>
        ensures { IfOk result IsFresh }
    {
        let (queue, put, take) = Queue::open(alloc)?;
        Ok(Channel { queue, put, take })
    }

    /// Ends the queue: what was taken is a prefix of what was put.
    pub(crate) fn close<R: Wait>(self, rt: &R) -> u64
        ensures { Leaves self.put.items self.take.items result }
    {
        let Channel { queue, put, take } = self;
        queue.close(rt, put, take)
    }
}

impl Channels {
    /// Two empty queues. Where there is memory for one alone, it is closed again.
    pub(crate) fn open<R: Wait>(rt: &R, alloc: Global) -> Result<Channels, AllocError>
        ensures { IfOk result (λ channels. IsFresh channels.words_in × IsFresh channels.words_out) }
    {
        let words_in = Channel::open(alloc)?;
        match Channel::open(alloc) {
            Ok(words_out) => Ok(Channels {
                words_in,
                words_out,
            }),
            Err(memory) => {
                words_in.close(rt);
                Err(memory)
            }
        }
    }
}
