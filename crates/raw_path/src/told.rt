//! What is told of a path.
ghost use Rattle.std.specs.Prelude.{◌≡◌, ◌+◌, ◌<◌, ◌^◌, [], ◌∷◌, ◌++◌, IfOk, OnOk, length};
ghost use Rattle.raw_grid.specs.Topology.{proc_count};
ghost use Rattle.raw_path.specs.Path.{one_value, one_room, all_turns};
ghost use Rattle.raw_path.specs.Known.{IsTold};

use crate::stretch::{Stretch, WaitedFor};
use raw_model::Set;
use std::alloc::{AllocError, Global};

/// What is told of a path.
#[derive(Drop)]
pub struct Told {
    /// How many of its turns are stall turns.
    pub stalled: u64,
    /// Its stretches, the last one first.
    pub stretches: Vec<Stretch>,
    /// How many of its turns each processor takes.
    pub turns: Vec<u64>,
    /// How many stretches begin behind a wait for a value.
    pub values: u64,
    /// How many begin behind a wait for room.
    pub room: u64,
}

// One where it was waited for a value.
fn one_value(wait: WaitedFor) -> u64
    ensures { result ≡ one_value wait }
{
    match wait {
        WaitedFor::Value(_) => 1,
        WaitedFor::Nothing | WaitedFor::Room(_) => 0,
    }
}

// One where it was waited for room.
fn one_room(wait: WaitedFor) -> u64
    ensures { result ≡ one_room wait }
{
    match wait {
        WaitedFor::Room(_) => 1,
        WaitedFor::Nothing | WaitedFor::Value(_) => 0,
    }
}

impl Told {
    /// What is told of no stretches, with so many stall turns.
    pub(crate) fn new(alloc: Global, set: &Set, stalled: u64) -> Result<Told, AllocError>
        ensures { IfOk result (IsTold (proc_count set.now.topo) stalled []) }
    {
        Ok(Told {
            stalled,
            stretches: Vec::new(alloc),
            turns: vec![in alloc; 0; set.topo.procs() as usize]?,
            values: 0,
            room: 0,
        })
    }

    /// Tells one stretch more.
    pub(crate) fn add(&mut self, stretch: Stretch) -> Result<(), AllocError>
        requires told { IsTold (length self.old.turns.items) self.old.stalled self.old.stretches.items self.old }
        requires there { stretch.p < length self.old.turns.items }
        requires few { all_turns self.old.stretches.items + stretch.turns < 2 ^ 62 }
        requires waits { self.old.values + self.old.room < 2 ^ 62 }
        ensures { OnOk result (IsTold (length self.old.turns.items) self.old.stalled
            (self.old.stretches.items ++ stretch ∷ []) self.new) }
    {
        self.stretches.push(stretch)?;
        self.turns[stretch.p as usize] += stretch.turns;
        self.values += one_value(stretch.wait);
        self.room += one_room(stretch.wait);
        Ok(())
    }
}
