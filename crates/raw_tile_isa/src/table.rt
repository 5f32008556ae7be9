//! The table of a tile's instructions: the name, the opcode, the operands and the destination of each.
ghost use Rattle.std.specs.Prelude.{◌≡◌};
ghost use Rattle.raw_tile_isa.specs.Table.{row_of, same_key, op_with, op_named};

use self::Destination::{InRd, InRt, Link, Nowhere};
use self::Opcode::{Plain, RegImm, Special, Special2};
use self::Operand::{Branch, Jump, Memory, Rd, Rs, Rt, Shift, Signed, Unsigned};

/// A tile's instruction without its operands. The variants stand in the order of the table: the
/// words of opcode SPECIAL, those of SPECIAL2, those with an immediate, the jumps.
#[derive(Clone, Copy, PartialEq, Eq)]
pub enum TileOp {
    /// `sll $d, $t, n`: rt shifted left by n.
    Sll,
    /// `srl $d, $t, n`: rt shifted right by n, zeros in.
    Srl,
    /// `sra $d, $t, n`: rt shifted right by n, its sign in.
    Sra,
    /// `sllv $d, $t, $s`: rt shifted left by rs modulo 32.
    Sllv,
    /// `srlv $d, $t, $s`: rt shifted right by rs modulo 32, zeros in.
    Srlv,
    /// `srav $d, $t, $s`: rt shifted right by rs modulo 32, its sign in.
    Srav,
    /// `jr $s`: goes to the instruction numbered rs.
    Jr,
    /// `jalr $d, $s`: the number of the next instruction; goes to the instruction numbered rs.
    Jalr,
    /// `addu $d, $s, $t`: rs + rt.
    Addu,
    /// `subu $d, $s, $t`: rs - rt.
    Subu,
    /// `and $d, $s, $t`: bitwise and.
    And,
    /// `or $d, $s, $t`: bitwise or.
    Or,
    /// `xor $d, $s, $t`: bitwise exclusive or.
    Xor,
    /// `nor $d, $s, $t`: the complement of bitwise or.
    Nor,
    /// `slt $d, $s, $t`: 1 where rs is less than rt as signed, else 0.
    Slt,
    /// `sltu $d, $s, $t`: 1 where rs is less than rt as unsigned, else 0.
    Sltu,
    /// `mul $d, $s, $t`: the low 32 bits of the product.
    Mul,
    /// `mulhi $d, $s, $t`: the high 32 bits of the signed 64-bit product.
    Mulhi,
    /// `mulhu $d, $s, $t`: the high 32 bits of the unsigned 64-bit product.
    Mulhu,
    /// `clz $d, $s`: how many zero bits lead in rs, 32 for 0.
    Clz,
    /// `popc $d, $s`: how many bits of rs are 1.
    Popc,
    /// `halt`: the tile stops.
    Halt,
    /// `bltz $s, T`: branches where rs is below 0 as signed.
    Bltz,
    /// `bgez $s, T`: branches where rs is at least 0 as signed.
    Bgez,
    /// `beq $s, $t, T`: branches where rs equals rt.
    Beq,
    /// `bne $s, $t, T`: branches where rs differs from rt.
    Bne,
    /// `blez $s, T`: branches where rs is at most 0 as signed.
    Blez,
    /// `bgtz $s, T`: branches where rs is above 0 as signed.
    Bgtz,
    /// `addiu $t, $s, I`: rs + I.
    Addiu,
    /// `slti $t, $s, I`: 1 where rs is less than I as signed, else 0.
    Slti,
    /// `sltiu $t, $s, I`: 1 where rs is less than the word of I as unsigned, else 0.
    Sltiu,
    /// `andi $t, $s, Z`: bitwise and with Z.
    Andi,
    /// `ori $t, $s, Z`: bitwise or with Z.
    Ori,
    /// `xori $t, $s, Z`: bitwise exclusive or with Z.
    Xori,
    /// `lui $t, Z`: Z times 65,536.
    Lui,
    /// `lb $t, I($s)`: the byte at rs + I, with its sign.
    Lb,
    /// `lh $t, I($s)`: the 2 bytes at rs + I, with their sign.
    Lh,
    /// `lw $t, I($s)`: the 4 bytes at rs + I.
    Lw,
    /// `lbu $t, I($s)`: the byte at rs + I.
    Lbu,
    /// `lhu $t, I($s)`: the 2 bytes at rs + I.
    Lhu,
    /// `sb $t, I($s)`: stores the low byte of rt at rs + I.
    Sb,
    /// `sh $t, I($s)`: stores the low 2 bytes of rt at rs + I.
    Sh,
    /// `sw $t, I($s)`: stores rt in the 4 bytes at rs + I.
    Sw,
    /// `j T`: goes to the instruction numbered T.
    J,
    /// `jal T`: the number of the next instruction; goes to the instruction numbered T.
    Jal,
}

/// What stands at an operand's place in the text of an instruction, and so in which field of the
/// word.
#[derive(Clone, Copy, PartialEq, Eq)]
pub enum Operand {
    /// `$d`, a register in the field rd.
    Rd,
    /// `$s`, a register in the field rs.
    Rs,
    /// `$t`, a register in the field rt.
    Rt,
    /// `n`, the amount of a shift, 0 to 31, in the field sh.
    Shift,
    /// `I`, a number from -32,768 to 32,767 in the field imm, as its low 16 bits.
    Signed,
    /// `Z`, a number from 0 to 65,535 in the field imm.
    Unsigned,
    /// `T` of a branch: in the field imm, the distance from the next instruction, as its low 16 bits.
    Branch,
    /// `T` of a jump: the number of an instruction, below 2^26, in the field target.
    Jump,
    /// `I($s)`, an address: a register in the field rs and an offset in the field imm.
    Memory,
}

/// The numbers by which a word's instruction is known, by the opcodes of the MIPS32 manual.
#[derive(Clone, Copy, PartialEq, Eq)]
pub enum Opcode {
    /// SPECIAL, op 0: the instruction is known by fn, the low 6 bits.
    Special(u8),
    /// SPECIAL2, op 28: the instruction is known by fn, the low 6 bits.
    Special2(u8),
    /// REGIMM, op 1: the instruction is known by the number in the field rt.
    RegImm(u8),
    /// Any other op, the high 6 bits, by which alone the instruction is known.
    Plain(u8),
}

/// Where an instruction's result goes.
#[derive(Clone, Copy, PartialEq, Eq)]
pub enum Destination {
    /// It has none.
    Nowhere,
    /// To the register in the field rd.
    InRd,
    /// To the register in the field rt.
    InRt,
    /// To register 31, the return address of a call.
    Link,
}

// A row of the table: what an instruction is in text and in its word.
#[derive(Clone, Copy)]
struct Row {
    // The name in text.
    name: &'static str,
    // The numbers by which its words are known.
    key: Opcode,
    // The operands, in the order of the text.
    operands: &'static [Operand],
    // Where its result goes.
    destination: Destination,
}

impl Row {
    const fn of(
        name: &'static str,
        key: Opcode,
        operands: &'static [Operand],
        destination: Destination,
    ) -> Row
        ensures name { result.name.now ≡ name.now }
        ensures key { result.key ≡ key }
        ensures operands { result.operands.now ≡ operands.now }
        ensures destination { result.destination ≡ destination }
    {
        Row {
            name,
            key,
            operands,
            destination,
        }
    }
}

impl TileOp {
    /// All instructions, in the order of the table.
    pub const ALL: [TileOp; 45] = [
        TileOp::Sll,
        TileOp::Srl,
        TileOp::Sra,
        TileOp::Sllv,
        TileOp::Srlv,
        TileOp::Srav,
        TileOp::Jr,
        TileOp::Jalr,
        TileOp::Addu,
        TileOp::Subu,
        TileOp::And,
        TileOp::Or,
        TileOp::Xor,
        TileOp::Nor,
        TileOp::Slt,
        TileOp::Sltu,
        TileOp::Mul,
        TileOp::Mulhi,
        TileOp::Mulhu,
        TileOp::Clz,
        TileOp::Popc,
        TileOp::Halt,
        TileOp::Bltz,
        TileOp::Bgez,
        TileOp::Beq,
        TileOp::Bne,
        TileOp::Blez,
        TileOp::Bgtz,
        TileOp::Addiu,
        TileOp::Slti,
        TileOp::Sltiu,
        TileOp::Andi,
        TileOp::Ori,
        TileOp::Xori,
        TileOp::Lui,
        TileOp::Lb,
        TileOp::Lh,
        TileOp::Lw,
        TileOp::Lbu,
        TileOp::Lhu,
        TileOp::Sb,
        TileOp::Sh,
        TileOp::Sw,
        TileOp::J,
        TileOp::Jal,
    ];

    // The instruction's row.
    fn row(self) -> Row
        ensures name { result.name.now ≡ (row_of self).name }
        ensures key { result.key ≡ (row_of self).key }
        ensures operands { result.operands.now ≡ (row_of self).operands }
        ensures destination { result.destination ≡ (row_of self).destination }
    {
        match self {
            TileOp::Sll => Row::of("sll", Special(0), &[Rd, Rt, Shift], InRd),
            TileOp::Srl => Row::of("srl", Special(2), &[Rd, Rt, Shift], InRd),
            TileOp::Sra => Row::of("sra", Special(3), &[Rd, Rt, Shift], InRd),
            TileOp::Sllv => Row::of("sllv", Special(4), &[Rd, Rt, Rs], InRd),
            TileOp::Srlv => Row::of("srlv", Special(6), &[Rd, Rt, Rs], InRd),
            TileOp::Srav => Row::of("srav", Special(7), &[Rd, Rt, Rs], InRd),
            TileOp::Jr => Row::of("jr", Special(8), &[Rs], Nowhere),
            TileOp::Jalr => Row::of("jalr", Special(9), &[Rd, Rs], InRd),
            TileOp::Addu => Row::of("addu", Special(33), &[Rd, Rs, Rt], InRd),
            TileOp::Subu => Row::of("subu", Special(35), &[Rd, Rs, Rt], InRd),
            TileOp::And => Row::of("and", Special(36), &[Rd, Rs, Rt], InRd),
            TileOp::Or => Row::of("or", Special(37), &[Rd, Rs, Rt], InRd),
            TileOp::Xor => Row::of("xor", Special(38), &[Rd, Rs, Rt], InRd),
            TileOp::Nor => Row::of("nor", Special(39), &[Rd, Rs, Rt], InRd),
            TileOp::Slt => Row::of("slt", Special(42), &[Rd, Rs, Rt], InRd),
            TileOp::Sltu => Row::of("sltu", Special(43), &[Rd, Rs, Rt], InRd),
            TileOp::Mul => Row::of("mul", Special2(2), &[Rd, Rs, Rt], InRd),
            TileOp::Mulhi => Row::of("mulhi", Special2(3), &[Rd, Rs, Rt], InRd),
            TileOp::Mulhu => Row::of("mulhu", Special2(4), &[Rd, Rs, Rt], InRd),
            TileOp::Clz => Row::of("clz", Special2(32), &[Rd, Rs], InRd),
            TileOp::Popc => Row::of("popc", Special2(34), &[Rd, Rs], InRd),
            TileOp::Halt => Row::of("halt", Special2(63), &[], Nowhere),
            TileOp::Bltz => Row::of("bltz", RegImm(0), &[Rs, Branch], Nowhere),
            TileOp::Bgez => Row::of("bgez", RegImm(1), &[Rs, Branch], Nowhere),
            TileOp::Beq => Row::of("beq", Plain(4), &[Rs, Rt, Branch], Nowhere),
            TileOp::Bne => Row::of("bne", Plain(5), &[Rs, Rt, Branch], Nowhere),
            TileOp::Blez => Row::of("blez", Plain(6), &[Rs, Branch], Nowhere),
            TileOp::Bgtz => Row::of("bgtz", Plain(7), &[Rs, Branch], Nowhere),
            TileOp::Addiu => Row::of("addiu", Plain(9), &[Rt, Rs, Signed], InRt),
            TileOp::Slti => Row::of("slti", Plain(10), &[Rt, Rs, Signed], InRt),
            TileOp::Sltiu => Row::of("sltiu", Plain(11), &[Rt, Rs, Signed], InRt),
            TileOp::Andi => Row::of("andi", Plain(12), &[Rt, Rs, Unsigned], InRt),
            TileOp::Ori => Row::of("ori", Plain(13), &[Rt, Rs, Unsigned], InRt),
            TileOp::Xori => Row::of("xori", Plain(14), &[Rt, Rs, Unsigned], InRt),
            TileOp::Lui => Row::of("lui", Plain(15), &[Rt, Unsigned], InRt),
            TileOp::Lb => Row::of("lb", Plain(32), &[Rt, Memory], InRt),
            TileOp::Lh => Row::of("lh", Plain(33), &[Rt, Memory], InRt),
            TileOp::Lw => Row::of("lw", Plain(35), &[Rt, Memory], InRt),
            TileOp::Lbu => Row::of("lbu", Plain(36), &[Rt, Memory], InRt),
            TileOp::Lhu => Row::of("lhu", Plain(37), &[Rt, Memory], InRt),
            TileOp::Sb => Row::of("sb", Plain(40), &[Rt, Memory], Nowhere),
            TileOp::Sh => Row::of("sh", Plain(41), &[Rt, Memory], Nowhere),
            TileOp::Sw => Row::of("sw", Plain(43), &[Rt, Memory], Nowhere),
            TileOp::J => Row::of("j", Plain(2), &[Jump], Nowhere),
            TileOp::Jal => Row::of("jal", Plain(3), &[Jump], Link),
        }
    }

    /// The instruction's name in text.
    pub fn name(self) -> &'static str
        ensures { result.now ≡ (row_of self).name }
    {
        self.row().name
    }

    /// The numbers by which its words are known.
    pub fn key(self) -> Opcode
        ensures { result ≡ (row_of self).key }
    {
        self.row().key
    }

    /// Its operands, in the order of its text.
    pub fn operands(self) -> &'static [Operand]
        ensures { result.now ≡ (row_of self).operands }
    {
        self.row().operands
    }

    /// Where its result goes.
    pub fn destination(self) -> Destination
        ensures { result ≡ (row_of self).destination }
    {
        self.row().destination
    }

    // Whether its words are known by these numbers.
    fn has_key(self, key: Opcode) -> bool
        ensures { result ≡ same_key (row_of self).key key }
    {
        self.key() == key
    }

    /// The instruction whose words are known by these numbers.
    #[tactic(auto, unfolding(crate::specs::Table::op_with))]
    pub fn with_key(key: Opcode) -> Option<TileOp>
        ensures { result ≡ op_with key }
    {
        TileOp::ALL.iter().copied().find(|op| op.has_key(key))
    }

    /// The instruction of this name.
    #[tactic(auto, unfolding(crate::specs::Table::op_named))]
    pub fn with_name(name: &[u8]) -> Option<TileOp>
        ensures { result ≡ op_named name.now }
    {
        TileOp::ALL
            .iter()
            .copied()
            .find(|op| op.name().as_bytes() == name)
    }
}
