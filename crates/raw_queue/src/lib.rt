//! An unbounded queue of items between two threads. One end of it puts, and the other takes them in the same order and may
//! wait.
//!
//! A word that is put and taken, and the end, which is left (`raw_tests/src/queue.rt`):
//!
//! ```
//! let (queue, mut put, mut take) = Queue::open(rt.alloc())?;
//! let word = queue.put(&rt, &mut put, Item::Word { port: 3, word: 7 });
//! let end = queue.put(&rt, &mut put, Item::End);
//! let taken = queue.take_wait(&rt, &mut take);
//! let left = queue.close(&rt, put, take);
//! assert!(rt; word.is_ok() && end.is_ok() && left == 1);
//! assert!(rt; taken == Some(Item::Word { port: 3, word: 7 }));
//! ```
#![tactic(auto)]

mod ends;
mod item;
mod queue;
mod rule;
mod sync;
mod threads;
mod view;

pub use ends::{PutEnd, TakeEnd};
pub use item::Item;
pub use queue::Queue;
pub use sync::law_threads;
pub use threads::{Receiver, Sender};
