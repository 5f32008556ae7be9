//! The commands of a script.
ghost use Rattle.std.specs.Prelude.{◌≡◌, ℕ, List, true};
ghost use Rattle.raw_debug.specs.Commands.{led_to, led_by, meant};
ghost use Rattle.raw_debug.specs.Stops.{IsLocal};

use raw_grid::{ProcId, WireId};

/// What a step is to do for a script to stop right after it.
#[derive(Clone, Copy)]
pub(crate) enum Aim {
    /// It leaves its processor, a tile or a switch, at this pc.
    Pc { pc: u32 },
    /// It sends this value on this wire, which comes from its processor.
    Sends { wire: WireId, value: u32 },
    /// It sends a value on this wire.
    SendsAny { wire: WireId },
    /// It makes the word at this address of its tile's memory this one, which it was not.
    Stores { address: u32, word: u32 },
    /// It makes that word another one.
    StoresAny { address: u32 },
    /// It makes what this register of its tile or switch holds this value, which it was not.
    Sets { register: u32, value: u32 },
    /// It makes it another one.
    SetsAny { register: u32 },
}

/// A step of a processor that does something.
#[derive(Clone, Copy)]
pub(crate) struct Goal {
    pub(crate) proc: ProcId,
    pub(crate) aim: Aim,
}

/// A command of a script.
#[derive(Clone, Copy)]
pub(crate) enum Command {
    /// Goes to the state right after so many steps of a processor, which is the current one from then on. A
    /// processor that never takes so many ends the script.
    At { proc: ProcId, steps: u32 },
    /// The same, but where the processor never takes so many it stays.
    Count { proc: ProcId, steps: u32 },
    /// Goes back by so many steps of the current processor, or to the start where it has taken fewer.
    Back { steps: u32 },
    /// Goes on by so many steps of the current processor.
    Forth { steps: u32 },
    /// Goes on until right after the next step of a processor that does something, which is the current one from then on.
    Until { proc: ProcId, aim: Aim },
    /// Goes back to right after the latest such step, at the moment or before; the processor is the current one from then on.
    Last { proc: ProcId, aim: Aim },
    /// Goes on until right after the last step of the current processor.
    Finish,
    /// Goes to the end of the serial order, and shows how the machine came to rest.
    Rest,
    /// Shows where the script stands, and the instruction of the current processor that is next.
    Where,
    /// Shows where the script stands with each processor.
    All,
    /// Shows the registers of the current tile or switch, or how many words the current port has sent or got.
    Registers,
    /// Shows so many words of the current tile's memory, from an address on.
    Memory { address: u32, words: u32 },
    /// Shows the values on the wires.
    Wires,
    /// Shows what each processor waits for.
    Waits,
    /// Shows the instructions of the current processor's program up to so far from its pc.
    Code { around: u32 },
    /// Shows how many values were sent on a wire, and the last of them.
    Passed { wire: WireId },
}

/// What a line of a script says.
#[derive(Clone, Copy)]
pub(crate) enum Reading {
    /// It has no tokens.
    Blank,
    /// It is a command.
    Says(Command),
    /// The tokens behind its first one are to be written.
    Echoes,
    /// It is no command.
    Outside,
}

impl Aim {
    /// Whether what is to be seen of it stays where another processor takes a step. What is on a wire does not.
    #[inline(always)]
    pub(crate) fn is_local(self) -> bool
        ensures { result ≡ true → IsLocal self }
    {
        match self {
            Aim::Sends { .. } | Aim::SendsAny { .. } => false,
            Aim::Pc { .. }
            | Aim::Stores { .. }
            | Aim::StoresAny { .. }
            | Aim::Sets { .. }
            | Aim::SetsAny { .. } => true,
        }
    }
}

impl Command {
    /// The current processor behind a command.
    pub(crate) fn led_to(self, current: ProcId) -> ProcId
        ensures { result ≡ led_to current self }
    {
        match self {
            Command::At { proc, .. }
            | Command::Count { proc, .. }
            | Command::Until { proc, .. }
            | Command::Last { proc, .. } => proc,
            Command::Back { .. }
            | Command::Forth { .. }
            | Command::Finish
            | Command::Rest
            | Command::Where
            | Command::All
            | Command::Registers
            | Command::Memory { .. }
            | Command::Wires
            | Command::Waits
            | Command::Code { .. }
            | Command::Passed { .. } => current,
        }
    }
}

impl Reading {
    /// The current processor behind a line.
    pub(crate) fn led_by(self, current: ProcId) -> ProcId
        ensures { (tokens : List (List ℕ)) → result ≡ led_by current (meant self tokens) }
    {
        match self {
            Reading::Says(command) => command.led_to(current),
            Reading::Blank | Reading::Echoes | Reading::Outside => current,
        }
    }
}
