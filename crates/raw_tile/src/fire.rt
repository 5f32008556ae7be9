//! One firing of a tile: it takes its operands and does its row.
ghost use Rattle.std.specs.Prelude.{◌≡◌, ◌^◌, ◌<◌, length, Some, IfSome, unwrap_or, slice_index};
ghost use Rattle.raw_model.specs.TileTable.{next_instruction};
ghost use Rattle.raw_model.specs.Machine.{tile_effect};
ghost use Rattle.raw_tile.specs.Given.{IsGivenFor, values_of, out_of};

use crate::state::TileState;
use crate::step::TileStep;
use raw_model::Mark;
use raw_model::limits::MAX_STEPS;
use raw_tile_isa::TileIns;

/// The values that a firing takes from the networks.
///
/// One is given for each operand position whose register stands for a network, also where both
/// stand for the same one, and none for any other.
#[derive(Clone, Copy, PartialEq, Eq)]
pub struct TileGiven {
    /// The value for the position `rs`, which is taken before that for `rt`.
    pub a: Option<u32>,
    /// The value for the position `rt`.
    pub b: Option<u32>,
}

impl TileGiven {
    /// The value that was taken first; 0 where none is given.
    pub fn front(self) -> u32
        ensures { result ≡ slice_index (values_of self) 0 }
    {
        match self.a {
            Some(value) => value,
            None => self.b.unwrap_or(0),
        }
    }
}

/// What a firing sends and touches.
#[derive(Clone, Copy, PartialEq, Eq)]
pub struct TileOut {
    /// The value sent on network 1: the result of an instruction whose destination is register 24.
    pub sent1: Option<u32>,
    /// The value sent on network 2, by register 25.
    pub sent2: Option<u32>,
    /// The address of a load or a store, in bytes. One that traps touches none.
    pub touched: Option<u32>,
}

impl TileOut {
    /// The answer of a row that sends and touches nothing.
    pub const NOTHING: TileOut = TileOut {
        sent1: None,
        sent2: None,
        touched: None,
    };
}

/// Fires the instruction at the tile's pc: it does its row of the table, with operands from the
/// registers and the values given, and the count of executed instructions rises by 1.
///
/// An address that is no multiple of the access size traps as `Misaligned`, and otherwise an access
/// that reaches past byte 65,535 as `PastMemory`: then nothing but the count and the mark changes,
/// and nothing is sent. Where the next pc is not below the length of `code`, the row is done in full
/// and the tile is trapped as `Pc`.
#[inline(always)]
pub fn tile_fire(state: &mut TileState, code: &[TileStep], given: TileGiven) -> TileOut
    requires going { state.old.mark ≡ Mark.Going }
    requires inside { state.old.pc < length code.now }
    requires count { state.old.count < MAX_STEPS }
    requires given { IsGivenFor (next_instruction code.now state.old) given }
    ensures next { state.new ≡ (tile_effect code.now state.old (values_of given)).next }
    ensures out { result ≡ out_of (tile_effect code.now state.old (values_of given)) }
    ensures touched { IfSome result.touched (λ address. address < 2 ^ 16) }
{
    let ins = state.instruction(code);
    let a = state.operand_at_rs(ins, given.a);
    let b = state.operand_at_rt(ins, given.b);
    state.do_row(code.len(), ins, a, b)
}

impl TileState {
    // The instruction at the pc.
    #[inline(always)]
    fn instruction<'c>(&self, code: &'c [TileStep]) -> &'c TileIns
        requires { self.now.pc < length code.now }
        ensures { next_instruction code.now self.now ≡ Some result.now }
    {
        let step = &code[self.pc as usize];
        &step.ins
    }

    // The operand at rs: the value given, or else what the register holds.
    #[inline(always)]
    fn operand_at_rs(&self, ins: &TileIns, given: Option<u32>) -> u32
        ensures { result ≡ unwrap_or given (slice_index self.now.regs ins.now.rs) }
    {
        given.unwrap_or(self.regs[ins.rs as usize])
    }

    // The operand at rt, likewise.
    #[inline(always)]
    fn operand_at_rt(&self, ins: &TileIns, given: Option<u32>) -> u32
        ensures { result ≡ unwrap_or given (slice_index self.now.regs ins.now.rt) }
    {
        given.unwrap_or(self.regs[ins.rt as usize])
    }
}
