//! The registers of a tile.
ghost use Rattle.std.specs.Prelude.{◌<◌};

use crate::numbers::ValueId;
use raw_grid::Net;
use raw_tile_isa::{NETWORK_1, NETWORK_2};

/// A register of a tile by its number. Numbers of 32 and more are those of no register.
#[derive(Clone, Copy, PartialEq, Eq)]
pub struct Register(pub u8);

impl Register {
    /// The register that is always 0.
    pub const ZERO: Register = Register(0);

    /// The register that stands for a network.
    pub fn of_network(net: Net) -> Register {
        match net {
            Net::One => Register(NETWORK_1),
            Net::Two => Register(NETWORK_2),
        }
    }

    /// Its number as instructions have it.
    pub fn field(self) -> u8
        ensures { result < 32 }
    {
        self.0 & 31
    }
}

/// What a register holds.
#[derive(Clone, Copy, PartialEq, Eq)]
pub enum Held {
    /// Nothing that is needed.
    Nothing,
    Value(ValueId),
    /// A constant.
    Word(u32),
    /// The upper half of a constant, whose lower half is to come.
    Half(u32),
}

/// The registers of a tile that keep what is written: all but register 0 and those of the networks.
#[derive(Drop)]
pub struct Registers {
    held: [Held; 32],
}

impl Registers {
    /// Their numbers.
    pub const NUMBERS: [u8; 29] = [
        1, 2, 3, 4, 5, 6, 7, 8, 9, 10, 11, 12, 13, 14, 15, 16, 17, 18, 19, 20, 21, 22, 23, 26, 27,
        28, 29, 30, 31,
    ];

    /// Those of a tile that has done nothing.
    pub fn new() -> Registers {
        Registers {
            held: [Held::Nothing; 32],
        }
    }

    /// What a register holds.
    pub fn at(&self, register: Register) -> Held {
        match self.held.get(usize::from(register.0)) {
            Some(held) => *held,
            None => Held::Nothing,
        }
    }

    /// From now on a register holds this.
    pub fn put(&mut self, register: Register, held: Held) {
        if let Some(place) = self.held.get_mut(usize::from(register.0)) {
            *place = held;
        }
    }

    /// The first register that holds this.
    pub fn that_holds(&self, held: Held) -> Option<Register> {
        for number in Registers::NUMBERS {
            let register = Register(number);
            if self.at(register) == held {
                return Some(register);
            }
        }
        None
    }

    /// The first register that holds a constant, but for some.
    pub fn with_word(&self, kept: [Option<Register>; 2]) -> Option<Register> {
        for number in Registers::NUMBERS {
            let register = Register(number);
            if let Held::Word(_) = self.at(register) {
                if !kept.contains(&Some(register)) {
                    return Some(register);
                }
            }
        }
        None
    }

    /// How many registers hold nothing that is needed, or constants, which can be loaded again.
    pub fn room(&self) -> usize {
        let mut room: usize = 0;
        for number in Registers::NUMBERS {
            let register = Register(number);
            if let Held::Nothing | Held::Word(_) = self.at(register) {
                room = room.saturating_add(1);
            }
        }
        room
    }
}
