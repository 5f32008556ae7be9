//! Loading a word into a register.
ghost use Rattle.std.specs.Prelude.{◌≡◌, ◌<◌, ◌∷◌, is_none};
ghost use Rattle.std.specs.Option.{option_to_list};
ghost use Rattle.raw_tile_isa.specs.Load.{is_short, is_one, load};

use crate::instruction::TileIns;
use crate::table::TileOp;

/// Whether a word as a signed number is -32,768 to 32,767.
pub fn is_short(word: u32) -> bool
    ensures { result ≡ is_short word }
{
    word < 1 << 15 || word >= 0xffff_8000
}

/// Whether one instruction loads a word: whether `li` gives one.
pub fn is_one(word: u32) -> bool
    ensures { result ≡ is_one word }
{
    is_short(word) || word < 1 << 16 || word & 0xffff == 0
}

/// The instructions that load a word into a register, as `li $d, W` of an assembler for MIPS gives them:
/// `addiu` or `ori` of the low half, `lui` of the high half, or `lui` and then `ori`. The `ori` reads what
/// the `lui` wrote, so two instructions load nothing into register 0 or the register of a network.
pub fn li(register: u8, word: u32) -> (TileIns, Option<TileIns>)
    requires { register < 32 }
    ensures code { result.0 ∷ option_to_list result.1 ≡ load register word }
    ensures one { is_none result.1 ≡ is_one word }
{
    let low = (word & 0xffff) as u16;
    let high = (word >> 16) as u16;
    if is_short(word) {
        return (TileIns::immediate(TileOp::Addiu, register, 0, low), None);
    }
    if word < 1 << 16 {
        return (TileIns::immediate(TileOp::Ori, register, 0, low), None);
    }
    let upper = TileIns::immediate(TileOp::Lui, register, 0, high);
    if low == 0 {
        return (upper, None);
    }
    let lower = TileIns::immediate(TileOp::Ori, register, register, low);
    (upper, Some(lower))
}
