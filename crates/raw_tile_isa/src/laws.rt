//! Laws of the definitions. Each function does nothing: its contract is the law.
ghost use Rattle.std.specs.Prelude.{◌≡◌, ℕ, ◌^◌, ◌<◌, Some, IfSome};
ghost use Rattle.raw_tile_isa.specs.declared.table.TileOp.{TileOp};
ghost use Rattle.raw_tile_isa.specs.Table.{row_of, op_with, op_named};
ghost use Rattle.raw_tile_isa.specs.Instruction.{Instruction, IsTileIns, TileCode, code_of, decode_of};
ghost use Rattle.raw_tile_isa.specs.Words.{EachGivesWords, ExtendToWords};
ghost use Rattle.raw_tile_isa.specs.Load.{EachLoads};

use crate::networks::{LINK, NETWORK_1, NETWORK_2};

/// The numbers of the registers that are more than registers.
pub fn law_numbers()
    ensures network_1 { NETWORK_1 ≡ 24 }
    ensures network_2 { NETWORK_2 ≡ 25 }
    ensures link { LINK ≡ 31 }
{}

/// No two rows of the table have one name or one opcode.
pub fn law_table()
    ensures names { (op : TileOp) → op_named (row_of op).name ≡ Some op }
    ensures keys { (op : TileOp) → op_with (row_of op).key ≡ Some op }
{}

/// Each instruction has one word, of 32 bits, and no word has two instructions.
pub fn law_codes()
    ensures word { (ins : Instruction) → IsTileIns ins → code_of ins < 2 ^ 32 }
    ensures decodes { (ins : Instruction) (word : ℕ) → TileCode ins word → decode_of word ≡ Some ins }
    ensures encodes { (word : ℕ) → IfSome (decode_of word) (λ ins. TileCode ins word) }
    ensures one { (a b : Instruction) (word : ℕ) → TileCode a word → TileCode b word → a ≡ b }
{}

/// What the operations make of words are words.
pub fn law_words()
    ensures operations { EachGivesWords }
    ensures extensions { ExtendToWords }
{}

/// The instructions that load a word into a register keep their rows' rules, write no other register, and
/// read that one and register 0 alone. One instruction makes the word for every register, and sends it where
/// the register is a network's; two leave it in a register that keeps what is written to it, which registers
/// 0, 24 and 25 do not.
pub fn law_load()
    ensures { EachLoads }
{}
