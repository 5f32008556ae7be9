//! The rows of the table of tile instructions: what each does to the tile, sends and touches.
ghost use Rattle.std.specs.Prelude.{◌≡◌, ◌<◌};
ghost use Rattle.raw_model.specs.TileTable.{row_effect, goes, gives, gives_at, branches, stops, following, moved, address_of, is_below_zero, is_above_zero};
ghost use Rattle.raw_tile.specs.Given.{MayStep, out_of};

use crate::fire::TileOut;
use crate::state::TileState;
use raw_model::limits::MAX_STEPS;
use raw_model::{Cause, Mark};
use raw_tile_isa::{
    LINK, NETWORK_1, NETWORK_2, TileIns, TileOp, add, leading_zeros, less, less_unsigned, mul_high,
    mul_high_unsigned, mul_low, ones, shift_left, shift_right, shift_right_signed, sign_extended,
    sub,
};

impl TileState {
    // The row of an instruction, in a program of this size: `a` is the operand at rs and `b` that
    // at rt. The arms stand in the order of the table. It is the one that is always inlined, and not what it calls: with that
    // it would be so large that the compiler drops the attribute.
    #[inline(always)]
    pub(crate) fn do_row(&mut self, size: usize, ins: &TileIns, a: u32, b: u32) -> TileOut
        requires { MayStep self.old }
        ensures next { self.new ≡ (row_effect ins.now.op size self.old ins.now a b).next }
        ensures out { result ≡ out_of (row_effect ins.now.op size self.old ins.now a b) }
    {
        match ins.op {
            TileOp::Sll => self.give(size, ins.rd, shift_left(b, u32::from(ins.sh))),
            TileOp::Srl => self.give(size, ins.rd, shift_right(b, u32::from(ins.sh))),
            TileOp::Sra => self.give(size, ins.rd, shift_right_signed(b, u32::from(ins.sh))),
            TileOp::Sllv => self.give(size, ins.rd, shift_left(b, a)),
            TileOp::Srlv => self.give(size, ins.rd, shift_right(b, a)),
            TileOp::Srav => self.give(size, ins.rd, shift_right_signed(b, a)),
            TileOp::Jr => self.go(size, a),
            TileOp::Jalr => self.give_at(size, ins.rd, self.following(), a, None),
            TileOp::Addu => self.give(size, ins.rd, add(a, b)),
            TileOp::Subu => self.give(size, ins.rd, sub(a, b)),
            TileOp::And => self.give(size, ins.rd, a & b),
            TileOp::Or => self.give(size, ins.rd, a | b),
            TileOp::Xor => self.give(size, ins.rd, a ^ b),
            TileOp::Nor => self.give(size, ins.rd, !(a | b)),
            TileOp::Slt => self.give(size, ins.rd, less(a, b)),
            TileOp::Sltu => self.give(size, ins.rd, less_unsigned(a, b)),
            TileOp::Mul => self.give(size, ins.rd, mul_low(a, b)),
            TileOp::Mulhi => self.give(size, ins.rd, mul_high(a, b)),
            TileOp::Mulhu => self.give(size, ins.rd, mul_high_unsigned(a, b)),
            TileOp::Clz => self.give(size, ins.rd, leading_zeros(a)),
            TileOp::Popc => self.give(size, ins.rd, ones(a)),
            TileOp::Halt => self.stop(Mark::Halted),
            TileOp::Bltz => self.branch(size, ins, is_below_zero(a)),
            TileOp::Bgez => self.branch(size, ins, !is_below_zero(a)),
            TileOp::Beq => self.branch(size, ins, a == b),
            TileOp::Bne => self.branch(size, ins, a != b),
            TileOp::Blez => self.branch(size, ins, !is_above_zero(a)),
            TileOp::Bgtz => self.branch(size, ins, is_above_zero(a)),
            TileOp::Addiu => self.give(size, ins.rt, add(a, sign_extended(ins.imm))),
            TileOp::Slti => self.give(size, ins.rt, less(a, sign_extended(ins.imm))),
            TileOp::Sltiu => self.give(size, ins.rt, less_unsigned(a, sign_extended(ins.imm))),
            TileOp::Andi => self.give(size, ins.rt, a & u32::from(ins.imm)),
            TileOp::Ori => self.give(size, ins.rt, a | u32::from(ins.imm)),
            TileOp::Xori => self.give(size, ins.rt, a ^ u32::from(ins.imm)),
            TileOp::Lui => self.give(size, ins.rt, u32::from(ins.imm) << 16),
            TileOp::Lb => self.load(size, ins, a, self.signed_byte_at(address_of(ins, a))),
            TileOp::Lh => self.load(size, ins, a, self.signed_half_at(address_of(ins, a))),
            TileOp::Lw => self.load(size, ins, a, self.word_at(address_of(ins, a))),
            TileOp::Lbu => self.load(size, ins, a, self.byte_at(address_of(ins, a))),
            TileOp::Lhu => self.load(size, ins, a, self.half_at(address_of(ins, a))),
            TileOp::Sb => self.store(size, ins, a, &[(b & 0xff) as u8]),
            TileOp::Sh => self.store(size, ins, a, &((b & 0xffff) as u16).to_be_bytes()),
            TileOp::Sw => self.store(size, ins, a, &b.to_be_bytes()),
            TileOp::J => self.go(size, ins.target),
            TileOp::Jal => self.give_at(size, LINK, self.following(), ins.target, None),
        }
    }

    /// The number of the instruction that follows: that of the next one plus 1, modulo 2^32.
    pub fn following(&self) -> u32
        ensures { result ≡ following self.now }
    {
        self.pc.wrapping_add(1)
    }

    /// The tile goes on at a pc, in a program of so many instructions: the count rises by 1. Where the pc is past the
    /// program, the tile is trapped as `Pc`.
    pub fn move_to(&mut self, size: usize, pc: u32)
        requires going { self.old.mark ≡ Mark.Going }
        requires count { self.old.count < MAX_STEPS }
        ensures { self.new ≡ moved size self.old pc }
    {
        self.pc = pc;
        self.count += 1;
        if pc as usize >= size {
            self.mark = Mark::Trapped(Cause::Pc);
        }
    }

    // The tile goes on at a pc, and does nothing else.
    fn go(&mut self, size: usize, pc: u32) -> TileOut
        requires { MayStep self.old }
        ensures next { self.new ≡ (goes size self.old pc).next }
        ensures out { result ≡ out_of (goes size self.old pc) }
    {
        self.move_to(size, pc);
        TileOut::NOTHING
    }

    // A branch, which is taken where the test holds.
    fn branch(&mut self, size: usize, ins: &TileIns, test: bool) -> TileOut
        requires { MayStep self.old }
        ensures next { self.new ≡ (branches size self.old ins.now test).next }
        ensures out { result ≡ out_of (branches size self.old ins.now test) }
    {
        let following = self.following();
        if test {
            self.go(size, add(following, sign_extended(ins.imm)))
        } else {
            self.go(size, following)
        }
    }

    /// A value goes to a register, and the tile goes on at a pc, as by `move_to`. Register 0 stores nothing; the value
    /// for 24 or 25 is sent on its network and not stored. `touched` is handed on.
    pub fn give_at(
        &mut self,
        size: usize,
        register: u8,
        value: u32,
        pc: u32,
        touched: Option<u32>,
    ) -> TileOut
        requires register { register < 32 }
        requires going { self.old.mark ≡ Mark.Going }
        requires count { self.old.count < MAX_STEPS }
        ensures next { self.new ≡ (gives_at size self.old register value pc touched).next }
        ensures out { result ≡ out_of (gives_at size self.old register value pc touched) }
    {
        self.move_to(size, pc);
        match register {
            NETWORK_1 => TileOut {
                sent1: Some(value),
                sent2: None,
                touched,
            },
            NETWORK_2 => TileOut {
                sent1: None,
                sent2: Some(value),
                touched,
            },
            _ => {
                if register != 0 {
                    self.regs[register as usize] = value;
                }
                TileOut {
                    sent1: None,
                    sent2: None,
                    touched,
                }
            }
        }
    }

    // A value for a register.
    fn give(&mut self, size: usize, register: u8, value: u32) -> TileOut
        requires register { register < 32 }
        requires may { MayStep self.old }
        ensures next { self.new ≡ (gives size self.old register value).next }
        ensures out { result ≡ out_of (gives size self.old register value) }
    {
        self.give_at(size, register, value, self.following(), None)
    }

    /// The tile stops with a mark: only the count rises, by 1.
    pub fn stop(&mut self, mark: Mark) -> TileOut
        requires { self.old.count < MAX_STEPS }
        ensures next { self.new ≡ (stops self.old mark).next }
        ensures out { result ≡ out_of (stops self.old mark) }
    {
        self.count += 1;
        self.mark = mark;
        TileOut::NOTHING
    }
}

/// The address of a load or a store, in bytes: the operand at rs plus the immediate with its sign, modulo 2^32.
pub fn address_of(ins: &TileIns, a: u32) -> u32
    ensures { result ≡ address_of ins.now a }
{
    add(a, sign_extended(ins.imm))
}

/// Whether a word that is read as signed is below 0.
pub fn is_below_zero(word: u32) -> bool
    ensures { result ≡ is_below_zero word }
{
    word.cast_signed() < 0
}

/// Whether a word that is read as signed is above 0.
pub fn is_above_zero(word: u32) -> bool
    ensures { result ≡ is_above_zero word }
{
    word.cast_signed() > 0
}
