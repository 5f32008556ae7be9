//! Instructions to words and back.
ghost use Rattle.std.specs.Prelude.{◌≡◌, ℕ, ◌^◌, ◌<◌, Some, IfSome, All, length, slice_index};
ghost use Rattle.raw_switch_isa.specs.Instruction.{SwitchInstruction};
ghost use Rattle.raw_switch_isa.specs.Code.{SwitchCode, routes_word, route_at, bits_where};

use crate::instruction::SwitchIns;
use crate::table::SwitchOp;

// The lowest bit of each field, from the left of the word to its right.
const OP_PLACE: u32 = 60;

const RD_PLACE: u32 = 58;

const SRC_PLACE: u32 = 54;

const TARGET_PLACE: u32 = 38;

const RSEL_PLACE: u32 = 36;

const FIRST_ROUTE_PLACE: usize = 33;

const LAST_ROUTE_PLACE: u32 = 6;

// How many bits a route code has.
const ROUTE_BITS: usize = 3;

// The route codes in their places.
fn routes_word(routes: &[u8; 10]) -> u64
    requires { All (λ code. code < 8) routes.now }
    ensures word { result ≡ routes_word routes.now }
    ensures small { result < 2 ^ 36 }
{
    let mut word = 0;
    for code in routes {
        word = (word << ROUTE_BITS) + u64::from(*code);
    }
    word << LAST_ROUTE_PLACE
}

/// The word of an instruction.
///
/// From the highest bit down a word has op 4 bits, rd 2, src 4, target 16, rsel 2, the ten route
/// codes 3 each, those of the outputs N, E, S, W, P of network 1 and then of network 2, and 6 bits
/// that are 0. This encoding is the project's own.
pub fn encode(ins: SwitchIns) -> u64
    ensures { SwitchCode ins result }
{
    (ins.op.number() << OP_PLACE)
        + (u64::from(ins.rd) << RD_PLACE)
        + (u64::from(ins.src) << SRC_PLACE)
        + (u64::from(ins.target) << TARGET_PLACE)
        + (u64::from(ins.rsel) << RSEL_PLACE)
        + routes_word(&ins.routes)
}

// The route codes that stand in a word.
fn routes_of(word: u64) -> [u8; 10]
    ensures ten { length result ≡ 10 }
    ensures codes { (k : ℕ) → k < 10 → slice_index result k ≡ route_at word k }
{
    let mut routes = [0; 10];
    for output in 0..10 {
        routes[output] = (word >> (FIRST_ROUTE_PLACE - ROUTE_BITS * output) & 7) as u8;
    }
    routes
}

// A field that stands in a word from a place on, where it is used.
fn bits_where(used: bool, word: u64, place: u32, limit: u64) -> u64
    requires place { place < 64 }
    requires limit { 0 < limit }
    ensures value { result ≡ bits_where used word place limit }
    ensures small { result < limit }
{
    if used { (word >> place) % limit } else { 0 }
}

// The instruction with this operation whose fields stand in a word, if the fields keep the rules.
fn fields_of(op: SwitchOp, word: u64) -> Option<SwitchIns>
    ensures { (ins : SwitchInstruction) → SwitchCode ins word → ins.op ≡ op → result ≡ Some ins }
{
    let src = bits_where(op.uses_src(), word, SRC_PLACE, 16) as u8;
    if src > 13 {
        return None;
    }
    let routes = routes_of(word);
    if routes.contains(&7) {
        return None;
    }
    Some(SwitchIns {
        op,
        rd: bits_where(op.uses_rd(), word, RD_PLACE, 4) as u8,
        src,
        target: bits_where(op.uses_target(), word, TARGET_PLACE, 1 << 16) as u16,
        rsel: bits_where(routes.contains(&6), word, RSEL_PLACE, 4) as u8,
        routes,
    })
}

/// The instruction of a word. It is `None` where the word is none's: where op is 7 to 15, src 14 or
/// 15 or a route code 7, or where a field that is not used or one of the low 6 bits is not 0.
pub fn decode(word: u64) -> Option<SwitchIns>
    // What is decoded encodes so.
    ensures found { IfSome result (λ ins. SwitchCode ins word) }
    // What encodes so is decoded: no instruction does where the answer is none, and no two do.
    ensures only { (ins : SwitchInstruction) → SwitchCode ins word → result ≡ Some ins }
{
    let op = SwitchOp::with_number(word >> OP_PLACE)?;
    let ins = fields_of(op, word)?;
    if encode(ins) == word { Some(ins) } else { None }
}
