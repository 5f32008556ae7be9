//! Whether a processor goes on, and why it was trapped.
ghost use Rattle.std.specs.Prelude.{◌≡◌};
ghost use Rattle.raw_model.specs.TileTable.{mark_at};

/// Why a tile or a switch was trapped.
#[derive(Clone, Copy, PartialEq, Eq)]
pub enum Cause {
    /// The address of a load or a store is no multiple of the access size.
    Misaligned,
    /// A load or a store reaches past byte 65,535 of the tile's memory.
    PastMemory,
    /// The next pc is not below the length of the program.
    Pc,
}

/// Whether a tile or a switch goes on.
#[derive(Clone, Copy, PartialEq, Eq)]
pub enum Mark {
    /// It takes its next step when that is enabled.
    Going,
    /// It did `halt`, or its program is empty.
    Halted,
    /// It stopped at a fault of its own program.
    Trapped(Cause),
}

impl Mark {
    /// The mark of a processor that goes on at this pc of a program of this size, in instructions.
    pub fn at(size: usize, pc: u32) -> Mark
        ensures { result ≡ mark_at size pc }
    {
        if (pc as usize) < size {
            Mark::Going
        } else {
            Mark::Trapped(Cause::Pc)
        }
    }
}
