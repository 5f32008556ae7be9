//! What was sent on a wire: how many values, and the last of them.
ghost use Rattle.std.specs.Prelude.{ℕ, ◌+◌, ◌<◌, ◌≤◌, ◌^◌, [], ◌++◌, List};
ghost use Rattle.std.specs.Option.{option_to_list};
ghost use Rattle.raw_debug.specs.Sending.{IsSent};

use arrayvec::ArrayVec;

/// How many of the last values are kept.
const LAST: usize = 8;

/// How many values were sent on a wire, and the last of them, the latest last.
#[derive(Drop)]
pub(crate) struct Sent {
    pub(crate) count: u64,
    pub(crate) last: ArrayVec<u32, LAST>,
}

impl Sent {
    /// Nothing yet.
    pub(crate) fn new() -> Sent
        ensures { IsSent result [] }
    {
        Sent {
            count: 0,
            last: ArrayVec::new(),
        }
    }

    /// One value more, if one was sent.
    pub(crate) fn note(&mut self, value: Option<u32>)
        requires { self.old.count + 1 < 2 ^ 64 }
        ensures sent { (values : List ℕ) → IsSent self.old values → IsSent self.new (values ++ option_to_list value) }
        ensures few { self.new.count ≤ self.old.count + 1 }
    {
        let Some(value) = value else {
            return;
        };
        if self.last.is_full() {
            self.last.remove(0);
        }
        self.last.push(value);
        self.count += 1;
    }
}
