//! The law of lists that machines take. The function does nothing: its contract is the law.
ghost use Rattle.std.specs.Prelude.{List, ℕ, [], ◌++◌};
ghost use Rattle.raw_serial.specs.Running.{Running};
ghost use Rattle.raw_serial.specs.Leading.{HasTaken};

/// A machine that took one list of steps and then another took both.
pub fn law_taken()
    ensures none { (m : Running) → HasTaken m m [] }
    ensures both { (first second third : Running) (steps more : List ℕ) →
        HasTaken first second steps → HasTaken second third more → HasTaken first third (steps ++ more) }
{}
