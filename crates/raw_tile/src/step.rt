//! Instructions made for stepping.
ghost use Rattle.std.specs.Prelude.{◌≡◌};
ghost use Rattle.raw_tile_isa.specs.Instruction.{uses, is_rs, reads_rt, destination_register};
ghost use Rattle.raw_tile.specs.Step.{register_via, via_where, via_of, are_within, is_within};

use raw_tile_isa::{NETWORK_1, NETWORK_2, TileIns};
use std::marker::Model;

/// What an operand comes from, or what a result goes to.
#[derive(Clone, Copy, PartialEq, Eq)]
pub enum Via {
    /// The tile itself: a register, or nothing at all.
    Tile,
    /// Network 1.
    Network1,
    /// Network 2.
    Network2,
}

/// An instruction with what it takes from the networks and sends to them. A contract sees the
/// instruction alone.
#[derive(Drop)]
pub struct TileStep {
    pub(crate) ins: TileIns,
    // Where the operand at rs comes from.
    first: Via,
    // Where the operand at rt comes from.
    second: Via,
    // Where the result goes.
    sent: Via,
    // Whether no network is named.
    within: bool,
}

impl Model for TileStep {
    ghost use Rattle.raw_tile_isa.specs.Instruction.{Instruction};

    ghost Value = { Instruction };

    ghost use Rattle.raw_tile.specs.Step.{AreItsVias};

    ghost view = { λ step. step.ins };

    ghost invariant = { λ step. AreItsVias step.ins step.first step.second step.sent step.within };
}

impl TileStep {
    /// An instruction made for stepping.
    pub fn new(ins: TileIns) -> Self
        ensures { result ≡ ins }
    {
        let first = via_where(ins.op.uses_rs(), ins.rs);
        let second = via_where(ins.op.reads_rt(), ins.rt);
        let sent = via_of(ins.destination_register());
        let within = are_within(first, second, sent);
        TileStep {
            ins,
            first,
            second,
            sent,
            within,
        }
    }

    /// Where the operand at rs comes from. It is taken before that at rt.
    pub fn first(&self) -> Via
        ensures { result ≡ via_where (uses is_rs self.now.op) self.now.rs }
    {
        self.first
    }

    /// Where the operand at rt comes from.
    pub fn second(&self) -> Via
        ensures { result ≡ via_where (reads_rt self.now.op) self.now.rt }
    {
        self.second
    }

    /// Where the result goes.
    pub fn sent(&self) -> Via
        ensures { result ≡ via_of (destination_register self.now) }
    {
        self.sent
    }

    /// Whether it takes nothing from the networks, and sends nothing to them.
    pub fn is_within(&self) -> bool
        ensures { result ≡ is_within self.now }
    {
        self.within
    }
}

// What a register stands for.
fn register_via(register: u8) -> Via
    ensures { result ≡ register_via register }
{
    match register {
        NETWORK_1 => Via::Network1,
        NETWORK_2 => Via::Network2,
        _ => Via::Tile,
    }
}

// What a register stands for, where it is used.
fn via_where(used: bool, register: u8) -> Via
    ensures { result ≡ via_where used register }
{
    if used {
        register_via(register)
    } else {
        Via::Tile
    }
}

// What a register stands for, if there is one.
fn via_of(register: Option<u8>) -> Via
    ensures { result ≡ via_of register }
{
    match register {
        Some(register) => register_via(register),
        None => Via::Tile,
    }
}

// Whether none of these is a network.
fn are_within(first: Via, second: Via, sent: Via) -> bool
    ensures { result ≡ are_within first second sent }
{
    first == Via::Tile && second == Via::Tile && sent == Via::Tile
}
