//! What passes through a queue.
//!
//! A taker gets None where the other end hung up, and an item `End` besides. A thread that has no memory for an item
//! can still hang up, since that takes none. So nobody waits for ever and nothing is tried again. `End` stays as an
//! item, since only what was put and taken is compared when a queue is closed: None proves nothing of what was put.

/// A word on its way from or to a port, or the end of them.
#[derive(Clone, Copy, PartialEq, Eq, Drop)]
pub enum Item {
    /// A word that comes from or goes to the port with this processor number.
    Word { port: u32, word: u32 },
    /// Nothing more comes.
    End,
}
