//! An instruction with its operands, its word, and back.
ghost use Rattle.std.specs.Prelude.{◌≡◌, ℕ, ◌^◌, ◌<◌, Some, IfSome};
ghost use Rattle.raw_tile_isa.specs.Instruction.{Instruction, TileCode, code_of, uses, is_rs, is_rt, is_rd, is_sh, is_imm, is_target, key_at, key_word, bits_where, fields_of, decode_of};

use crate::table::{Opcode, Operand, TileOp};
use std::marker::Model;

/// A tile's instruction. Registers are 0 to 31, of which 24 and 25 stand for the networks 1 and 2.
///
/// A field in which no operand of the instruction stands is 0, also `rt` of `bgez`, in whose word
/// the opcode stands there. `rs`, `rt`, `rd` and `sh` are below 32, and `target` is below 2^26.
#[derive(Clone, Copy, PartialEq, Eq)]
pub struct TileIns {
    pub op: TileOp,
    /// The first register that is read.
    pub rs: u8,
    /// The second register that is read; of a load or an operation with an immediate, the register
    /// that is written.
    pub rt: u8,
    /// The register that is written.
    pub rd: u8,
    /// The amount of a shift.
    pub sh: u8,
    /// The immediate, or the low 16 bits of one with a sign.
    pub imm: u16,
    /// The instruction to which a jump goes, counted in instructions.
    pub target: u32,
}

impl Model for TileIns {
    ghost use Rattle.raw_tile_isa.specs.Instruction.{Instruction, IsTileIns};

    ghost Value = { Instruction };

    ghost view = { λ i. record {
      op = i.op;
      rs = i.rs;
      rt = i.rt;
      rd = i.rd;
      sh = i.sh;
      imm = i.imm;
      target = i.target;
    } };

    ghost invariant = { λ i. IsTileIns (record {
      op = i.op;
      rs = i.rs;
      rt = i.rt;
      rd = i.rd;
      sh = i.sh;
      imm = i.imm;
      target = i.target;
    }) };

    ghost inverse = { λ i. record {
      op = i.op;
      rs = i.rs;
      rt = i.rt;
      rd = i.rd;
      sh = i.sh;
      imm = i.imm;
      target = i.target;
    } };
}

impl Operand {
    fn is_rs(self) -> bool
        ensures { result ≡ is_rs self }
    {
        matches!(self, Operand::Rs | Operand::Memory)
    }

    fn is_rt(self) -> bool
        ensures { result ≡ is_rt self }
    {
        matches!(self, Operand::Rt)
    }

    fn is_rd(self) -> bool
        ensures { result ≡ is_rd self }
    {
        matches!(self, Operand::Rd)
    }

    fn is_sh(self) -> bool
        ensures { result ≡ is_sh self }
    {
        matches!(self, Operand::Shift)
    }

    fn is_imm(self) -> bool
        ensures { result ≡ is_imm self }
    {
        matches!(
            self,
            Operand::Signed | Operand::Unsigned | Operand::Branch | Operand::Memory
        )
    }

    fn is_target(self) -> bool
        ensures { result ≡ is_target self }
    {
        matches!(self, Operand::Jump)
    }
}

impl TileOp {
    /// Whether it reads the register in the field rs: such a register is never a destination.
    pub fn uses_rs(self) -> bool
        ensures { result ≡ uses is_rs self }
    {
        self.operands().iter().any(|operand| operand.is_rs())
    }

    // Whether the field rt is that of an operand, be it read or written.
    pub(crate) fn uses_rt(self) -> bool
        ensures { result ≡ uses is_rt self }
    {
        self.operands().iter().any(|operand| operand.is_rt())
    }

    fn uses_rd(self) -> bool
        ensures { result ≡ uses is_rd self }
    {
        self.operands().iter().any(|operand| operand.is_rd())
    }

    fn uses_sh(self) -> bool
        ensures { result ≡ uses is_sh self }
    {
        self.operands().iter().any(|operand| operand.is_sh())
    }

    fn uses_imm(self) -> bool
        ensures { result ≡ uses is_imm self }
    {
        self.operands().iter().any(|operand| operand.is_imm())
    }

    fn uses_target(self) -> bool
        ensures { result ≡ uses is_target self }
    {
        self.operands().iter().any(|operand| operand.is_target())
    }
}

// The opcode's numbers at their places in the word.
fn key_word(key: Opcode) -> u32
    requires { key_word key < 2 ^ 32 }
    ensures { result ≡ key_word key }
{
    match key {
        Opcode::Special(function) => u32::from(function),
        Opcode::Special2(function) => (28 << 26) + u32::from(function),
        Opcode::RegImm(rt) => (1 << 26) + u32::from(rt) * (1 << 16),
        Opcode::Plain(op) => u32::from(op) * (1 << 26),
    }
}

// The opcode that a word shows.
fn key_at(word: u32) -> Opcode
    ensures { result ≡ key_at word }
{
    let function = (word & 63) as u8;
    match (word >> 26) as u8 {
        0 => Opcode::Special(function),
        28 => Opcode::Special2(function),
        1 => Opcode::RegImm((word >> 16 & 31) as u8),
        op => Opcode::Plain(op),
    }
}

// Five bits of a word from a place on, or 0 where no operand stands there.
fn register_where(used: bool, word: u32, place: u32) -> u8
    requires { place < 32 }
    ensures value { result ≡ bits_where used word place 32 }
    ensures small { result < 32 }
{
    if used { (word >> place & 31) as u8 } else { 0 }
}

// The low half of a word, or 0 where no operand stands there.
fn half_where(used: bool, word: u32) -> u16
    ensures { result ≡ bits_where used word 0 (2 ^ 16) }
{
    if used { (word & 0xffff) as u16 } else { 0 }
}

// The low 26 bits of a word, or 0 where no operand stands there.
fn target_where(used: bool, word: u32) -> u32
    ensures { result ≡ bits_where used word 0 (2 ^ 26) }
{
    if used { word & 0x3ff_ffff } else { 0 }
}

// The instruction with the operands that a word shows.
fn fields_of(op: TileOp, word: u32) -> TileIns
    ensures { result ≡ fields_of op word }
{
    TileIns {
        op,
        rs: register_where(op.uses_rs(), word, 21),
        rt: register_where(op.uses_rt(), word, 16),
        rd: register_where(op.uses_rd(), word, 11),
        sh: register_where(op.uses_sh(), word, 6),
        imm: half_where(op.uses_imm(), word),
        target: target_where(op.uses_target(), word),
    }
}

#[tactic(auto, unfolding(crate::specs::Instruction::decode_of))]
fn instruction_of(word: u32) -> Option<TileIns>
    ensures { result ≡ decode_of word }
{
    let op = TileOp::with_key(key_at(word))?;
    let ins = fields_of(op, word);
    if encode(ins) == word { Some(ins) } else { None }
}

/// The word of an instruction.
///
/// From the highest bit down a word has op 6 bits, rs 5, rt 5, rd 5, sh 5, fn 6; with an immediate
/// op 6, rs 5, rt 5, imm 16; as a jump op 6, target 26. This encoding is the project's own, near
/// to that of MIPS32.
pub fn encode(ins: TileIns) -> u32
    ensures { TileCode ins result }
{
    key_word(ins.op.key())
        + (u32::from(ins.rs) << 21)
        + (u32::from(ins.rt) << 16)
        + (u32::from(ins.rd) << 11)
        + (u32::from(ins.sh) << 6)
        + u32::from(ins.imm)
        + ins.target
}

/// The instruction of a word. It is `None` where the word is none's: where its opcode is in no row
/// of the table, or a field that its row does not use is not 0.
pub fn decode(word: u32) -> Option<TileIns>
    // What is decoded encodes so.
    ensures found { IfSome result (λ ins. TileCode ins word) }
    // What encodes so is decoded: no instruction does where the answer is none, and no two do.
    ensures only { (ins : Instruction) → TileCode ins word → result ≡ Some ins }
    ensures value { result ≡ decode_of word }
{
    instruction_of(word)
}
