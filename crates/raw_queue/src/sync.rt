//! What threads ask of a queue and its ends. The functions do nothing: that they are proved is what they say.
use crate::ends::{PutEnd, TakeEnd};
use crate::queue::Queue;
use crate::threads::{Receiver, Sender};

fn is_sync<T: Sync>(_value: &T) {}

fn is_send<T: Send>(_value: &T) {}

/// Threads may share a queue, and each end may go to another thread, alone or with its queue.
pub fn law_threads(
    queue: &Queue,
    put: &PutEnd,
    take: &TakeEnd,
    sender: &Sender<'_>,
    receiver: &Receiver<'_>,
) {
    is_sync(queue);
    is_send(put);
    is_send(take);
    is_send(sender);
    is_send(receiver);
}
