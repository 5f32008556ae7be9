//! Instructions from their operations and operands, for those who write programs.
ghost use Rattle.std.specs.Prelude.{◌≡◌, ◌<◌, ◌≤◌};
ghost use Rattle.raw_tile_isa.specs.Instruction.{IsTileIns};
ghost use Rattle.raw_tile_isa.specs.Made.{registers, shift, immediate, branch, jump, halt};

use crate::instruction::TileIns;
use crate::limits::MAX_TILE_CODE;
use crate::table::TileOp;

impl TileIns {
    /// An operation on registers, such as `addu $d, $s, $t`. Where its text lacks one of the three, that
    /// is 0 here.
    pub fn registers(op: TileOp, rd: u8, rs: u8, rt: u8) -> TileIns
        requires { IsTileIns (registers op rd rs rt) }
        ensures { result ≡ registers op rd rs rt }
    {
        TileIns {
            op,
            rs,
            rt,
            rd,
            sh: 0,
            imm: 0,
            target: 0,
        }
    }

    /// A shift by an amount, 0 to 31, such as `sll $d, $t, n`.
    pub fn shift(op: TileOp, rd: u8, rt: u8, amount: u8) -> TileIns
        requires { IsTileIns (shift op rd rt amount) }
        ensures { result ≡ shift op rd rt amount }
    {
        TileIns {
            op,
            rs: 0,
            rt,
            rd,
            sh: amount,
            imm: 0,
            target: 0,
        }
    }

    /// An operation with an immediate, such as `addiu $t, $s, I`, or a load or a store, such as
    /// `lw $t, I($s)`. A negative number stands in the immediate as its low 16 bits.
    pub fn immediate(op: TileOp, rt: u8, rs: u8, imm: u16) -> TileIns
        requires { IsTileIns (immediate op rt rs imm) }
        ensures { result ≡ immediate op rt rs imm }
    {
        TileIns {
            op,
            rs,
            rt,
            rd: 0,
            sh: 0,
            imm,
            target: 0,
        }
    }

    /// A branch at a place of a program to another place, such as `bne $s, $t, THERE`. Where its text has
    /// one register, rt is 0.
    pub fn branch(op: TileOp, rs: u8, rt: u8, place: u32, there: u32) -> TileIns
        requires form { IsTileIns (branch op rs rt place there) }
        requires place { place < MAX_TILE_CODE }
        requires there { there ≤ MAX_TILE_CODE }
        ensures { result ≡ branch op rs rt place there }
    {
        let distance = there.wrapping_sub(place + 1);
        TileIns::immediate(op, rt, rs, (distance & 0xffff) as u16)
    }

    /// A jump to an instruction, counted from the start of the program: `j TARGET` or `jal TARGET`.
    pub fn jump(op: TileOp, target: u32) -> TileIns
        requires { IsTileIns (jump op target) }
        ensures { result ≡ jump op target }
    {
        TileIns {
            op,
            rs: 0,
            rt: 0,
            rd: 0,
            sh: 0,
            imm: 0,
            target,
        }
    }

    /// `halt`.
    pub fn halt() -> TileIns
        ensures { result ≡ halt }
    {
        TileIns::registers(TileOp::Halt, 0, 0, 0)
    }
}
