//! The local state of a port.
ghost use Rattle.std.specs.Prelude.{◌≡◌, ◌≤◌, length};

use std::marker::Model;

/// The local state of a port, and the room of its list of words.
#[derive(Drop)]
pub struct PortState {
    /// How many words it has put in or taken out.
    pub done: u64,
    /// The words that a sink has taken out, in order. It has its memory from the start.
    pub got: Vec<u32>,
}

impl Model for PortState {
    ghost use Rattle.std.specs.Prelude.{vec_capacity};
    ghost use Rattle.raw_processor.specs.Port.{Port};

    ghost Value = { Port };

    ghost view = { λ port. record { local = record { done = port.done; got = port.got.items }; room = vec_capacity port.got } };
}

impl PortState {
    /// Makes the state that of another port. This takes no memory: the list of words has room for those of the other.
    pub fn copy_from(&mut self, other: &PortState)
        requires { length other.now.local.got ≤ self.old.room }
        ensures local { self.new.local ≡ other.now.local }
        ensures room { self.old.room ≤ self.new.room }
    {
        self.done = other.done;
        self.got.clear();
        // There is room, so it does not fail.
        let _appended = self.got.extend_from_slice(&other.got);
    }
}
