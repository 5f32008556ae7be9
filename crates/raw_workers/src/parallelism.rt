//! By how many workers a machine is run.
//!
//! Whether workers help depends on the set and on what else the machine does. They may where tiles compute long between
//! two words and each thread has a core. On a fine pipeline, or where other programs use the cores, they are slower,
//! without bound. No rule foresees that, so where nobody asks for a number the program measures it (`Pace`).
ghost use Rattle.std.specs.Prelude.{◌≡◌, ℕ, None, Some};
ghost use Rattle.raw_workers.specs.declared.parallelism.Parallelism.TheVariants.{Exactly, AtMost};

use raw_fabric::Workers;

/// How many workers run a machine at most where nobody says how many.
pub const DEFAULT_WORKERS: u32 = 4;

/// By how many workers a machine is run. What it comes to does not depend on it.
#[derive(Clone, Copy, PartialEq, Eq)]
pub enum Parallelism {
    /// By so many workers in each round, each in a thread of its own where one can be made. One worker is the serial
    /// machine on the thread of the caller.
    Exactly(Workers),
    /// By as many workers as help, and at most so many: by serial steps first, and then by rounds of workers where and as
    /// long as these are faster, by the clock.
    AtMost(Workers),
}

impl Parallelism {
    /// Exactly as many workers as somebody asks for; where nobody does, as many as help, at most `DEFAULT_WORKERS`.
    pub fn of(said: Option<Workers>) -> Parallelism
        ensures said { (workers : ℕ) → said ≡ Some workers → result ≡ Exactly workers }
        ensures default { said ≡ None → result ≡ AtMost DEFAULT_WORKERS }
    {
        match said {
            Some(workers) => Parallelism::Exactly(workers),
            None => match Workers::new(DEFAULT_WORKERS) {
                Some(most) => Parallelism::AtMost(most),
                None => unreachable!(),
            },
        }
    }
}
