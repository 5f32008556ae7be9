//! What an instruction takes from the networks and sends to them.
ghost use Rattle.std.specs.Prelude.{◌≡◌, ℕ};
ghost use Rattle.raw_tile_isa.specs.Instruction.{reads_rt, destination_register};
ghost use Rattle.raw_tile_isa.specs.Networks.{taken_from, sends_to};
ghost use Rattle.raw_tile_isa.specs.declared.networks.TheConstants.{NETWORK_1, NETWORK_2};

use crate::instruction::TileIns;
use crate::table::{Destination, TileOp};

/// The register that stands for network 1: to read it takes a value, to write it sends one.
pub const NETWORK_1: u8 = 24;

/// The register that stands for network 2.
pub const NETWORK_2: u8 = 25;

/// The register in which a call keeps the number of the next instruction.
pub const LINK: u8 = 31;

/// What an instruction takes and sends, also where its address turns out to be unlawful.
#[derive(Clone, Copy, PartialEq, Eq)]
pub struct TileNeeds {
    /// How many values it takes from network 1, 0 to 2.
    pub in1: u8,
    /// How many values it takes from network 2, 0 to 2.
    pub in2: u8,
    /// Whether it sends a value on network 1.
    pub out1: bool,
    /// Whether it sends a value on network 2.
    pub out2: bool,
}

impl TileOp {
    /// Whether it reads the register in the field rt: the field is used, and not that of the
    /// destination.
    pub fn reads_rt(self) -> bool
        ensures { result ≡ reads_rt self }
    {
        self.destination() != Destination::InRt && self.uses_rt()
    }
}

impl TileIns {
    /// The register that it writes. A write to register 0 is dropped by the tile.
    pub fn destination_register(&self) -> Option<u8>
        ensures { result ≡ destination_register self.now }
    {
        match self.op.destination() {
            Destination::Nowhere => None,
            Destination::InRd => Some(self.rd),
            Destination::InRt => Some(self.rt),
            Destination::Link => Some(LINK),
        }
    }

    // How many values it takes from a network's register. Most instructions name none, so the
    // table is looked at last.
    fn taken_from(&self, network: u8) -> u8
        ensures { result ≡ taken_from network self.now }
    {
        let by_rs = self.rs == network && self.op.uses_rs();
        let by_rt = self.rt == network && self.op.reads_rt();
        u8::from(by_rs) + u8::from(by_rt)
    }

    // Whether it sends its result to a network's register.
    fn sends_to(&self, network: u8) -> bool
        ensures { result ≡ sends_to network self.now }
    {
        self.destination_register() == Some(network)
    }
}

/// How many values an instruction takes from each network, and whether it sends one.
pub fn needs(ins: &TileIns) -> TileNeeds
    ensures in1 { result.in1 ≡ taken_from NETWORK_1 ins.now }
    ensures in2 { result.in2 ≡ taken_from NETWORK_2 ins.now }
    ensures out1 { result.out1 ≡ sends_to NETWORK_1 ins.now }
    ensures out2 { result.out2 ≡ sends_to NETWORK_2 ins.now }
{
    TileNeeds {
        in1: ins.taken_from(NETWORK_1),
        in2: ins.taken_from(NETWORK_2),
        out1: ins.sends_to(NETWORK_1),
        out2: ins.sends_to(NETWORK_2),
    }
}
