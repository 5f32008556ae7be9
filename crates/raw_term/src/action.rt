//! What the row of a tile's instruction does where its operands are terms.
ghost use Rattle.std.specs.Prelude.{◌≡◌, ◌%◌, ◌^◌, [], ◌∷◌, Some, IfSome};
ghost use Rattle.std.specs.Int.{w16, to_be_bytes};
ghost use Rattle.raw_term.specs.TermRows.{action_of, branch};
ghost use Rattle.raw_term.specs.TermRows.{byte_in, half_in, word_with, part_action, part_bytes, on_part};
ghost use Rattle.raw_term.specs.Tiles.{HasRegister, IsInside};

use raw_flow::FlowOp;
use raw_model::Mark;
use raw_tile::{access_fault, address_of, is_above_zero, is_below_zero};
use raw_tile_isa as word;
use raw_tile_isa::{LINK, TileIns, TileOp};

/// An operand of an operation.
#[derive(Clone, Copy, PartialEq, Eq)]
pub enum Operand {
    /// The term at rs.
    Rs,
    /// The term at rt.
    Rt,
    /// A word of the instruction.
    Immediate(u32),
}

/// What a row does.
#[derive(Clone, Copy, PartialEq, Eq)]
pub enum Action {
    /// The term of an operation goes to a register, and the instruction that follows is next.
    Make {
        op: FlowOp,
        first: Operand,
        second: Operand,
        register: u8,
    },
    /// A word goes to a register, and the instruction at a pc is next.
    Give {
        register: u8,
        word: u32,
        pc: u32,
    },
    /// The instruction at a pc is next.
    Go(u32),
    /// The tile stops with a mark.
    Stop(Mark),
    /// The term of the memory word at an address in bytes goes to a register, or the access traps.
    Load {
        register: u8,
        address: u32,
    },
    /// The term at rt goes to the memory word at an address in bytes, or the access traps.
    Store(u32),
    /// A word, which is a part of the memory word at an address in bytes, goes to a register.
    Read {
        register: u8,
        address: u32,
        word: u32,
    },
    /// The memory word at an address in bytes, a part of which is written, becomes this word.
    Write {
        address: u32,
        word: u32,
    },
}

// Where a branch goes, which is taken where the test holds.
fn branch(next: u32, ins: &TileIns, test: bool) -> Action
    ensures { result ≡ branch next ins.now test }
{
    if test {
        Action::Go(word::add(next, word::sign_extended(ins.imm)))
    } else {
        Action::Go(next)
    }
}

// An operation on the terms at rs and rt.
fn on_both(op: FlowOp, ins: &TileIns) -> Option<Action>
    ensures { result ≡ Some (Action.Make op Operand.Rs Operand.Rt ins.now.rd) }
{
    Some(Action::Make {
        op,
        first: Operand::Rs,
        second: Operand::Rt,
        register: ins.rd,
    })
}

// An operation on the term at rs and a word.
fn on_word(op: FlowOp, ins: &TileIns, word: u32) -> Option<Action>
    ensures { result ≡ Some (Action.Make op Operand.Rs (Operand.Immediate word) ins.now.rt) }
{
    Some(Action::Make {
        op,
        first: Operand::Rs,
        second: Operand::Immediate(word),
        register: ins.rt,
    })
}

// A shift of the term at rt.
fn shifted(op: FlowOp, ins: &TileIns, amount: Operand) -> Option<Action>
    ensures { result ≡ Some (Action.Make op Operand.Rt amount ins.now.rd) }
{
    Some(Action::Make {
        op,
        first: Operand::Rt,
        second: amount,
        register: ins.rd,
    })
}

// A word goes to a register.
fn gives(register: u8, word: u32, pc: u32) -> Option<Action>
    ensures { result ≡ Some (Action.Give register word pc) }
{
    Some(Action::Give { register, word, pc })
}

// The byte at an address, in the memory word that it is a part of.
fn byte_in(word: u32, address: u32) -> u32
    ensures { result ≡ byte_in word address }
{
    u32::from(word.to_be_bytes()[address as usize % 4])
}

// The half word at an address, likewise.
fn half_in(word: u32, address: u32) -> u32
    requires { address % 2 ≡ 0 }
    ensures { result ≡ half_in word address }
{
    let bytes = word.to_be_bytes();
    let start = address as usize % 4;
    u32::from(u16::from_be_bytes([bytes[start], bytes[start + 1]]))
}

// A memory word after the low byte of a value is stored in it.
fn with_byte(word: u32, address: u32, value: u32) -> u32
    ensures { result ≡ word_with word address (value % 2 ^ 8 ∷ []) }
{
    let mut bytes = word.to_be_bytes();
    bytes[address as usize % 4] = (value & 0xff) as u8;
    u32::from_be_bytes(bytes)
}

// A memory word after the low half of a value is stored in it.
fn with_half(word: u32, address: u32, value: u32) -> u32
    requires { address % 2 ≡ 0 }
    ensures { result ≡ word_with word address (to_be_bytes w16 (value % 2 ^ 16)) }
{
    let [high, low] = ((value & 0xffff) as u16).to_be_bytes();
    let mut bytes = word.to_be_bytes();
    let start = address as usize % 4;
    bytes[start] = high;
    bytes[start + 1] = low;
    u32::from_be_bytes(bytes)
}

// A word that is read in memory goes to the register of a load.
fn reads(ins: &TileIns, address: u32, word: u32) -> Option<Action>
    ensures { result ≡ Some (Action.Read ins.now.rt address word) }
{
    Some(Action::Read {
        register: ins.rt,
        address,
        word,
    })
}

// A load or a store of a part of a memory word, at an address that does not trap; `cell` is that word and `b` the word
// at rt, where these are words.
fn part_action(ins: &TileIns, address: u32, b: Option<u32>, cell: Option<u32>) -> Option<Action>
    requires { address % part_bytes ins.now.op ≡ 0 }
    ensures { result ≡ part_action ins.now.op ins.now address b cell }
{
    let word = cell?;
    match ins.op {
        TileOp::Lb => reads(
            ins,
            address,
            word::sign_extended_byte(byte_in(word, address) as u8),
        ),
        TileOp::Lbu => reads(ins, address, byte_in(word, address)),
        TileOp::Lh => reads(
            ins,
            address,
            word::sign_extended(half_in(word, address) as u16),
        ),
        TileOp::Lhu => reads(ins, address, half_in(word, address)),
        TileOp::Sb => Some(Action::Write {
            address,
            word: with_byte(word, address, b?),
        }),
        TileOp::Sh => Some(Action::Write {
            address,
            word: with_half(word, address, b?),
        }),
        _ => None,
    }
}

// How many bytes such a part has.
fn part_bytes(op: TileOp) -> usize
    ensures bytes { result ≡ part_bytes op }
{
    match op {
        TileOp::Lb | TileOp::Lbu | TileOp::Sb => 1,
        _ => 2,
    }
}

// The same at any address.
fn on_part(ins: &TileIns, a: Option<u32>, b: Option<u32>, cell: Option<u32>) -> Option<Action>
    ensures action { result ≡ on_part ins.now.op ins.now a b cell }
    ensures inside { IfSome result IsInside }
    ensures register { IfSome result HasRegister }
{
    let address = address_of(ins, a?);
    match access_fault(address, part_bytes(ins.op)) {
        Some(cause) => Some(Action::Stop(Mark::Trapped(cause))),
        None => part_action(ins, address, b, cell),
    }
}

/// What the row of an instruction does, where the instruction that follows has the number `next`. Where these are
/// words, `a` and `b` are those of the terms at rs and rt, and `cell` is that of the memory word at the address of
/// a load or a store.
///
/// None where the row wants a word and its term is none. Branches, `jr` and `jalr` want the words that they look at,
/// also where both of a branch are the same term; `clz` and `popc`, which are no operations of terms, want theirs; a
/// load or a store wants a word as its address. Those of bytes and half words want a word in memory, and such a store
/// one as its value; but where the address traps nothing more is wanted.
pub fn action_of(
    next: u32,
    ins: &TileIns,
    a: Option<u32>,
    b: Option<u32>,
    cell: Option<u32>,
) -> Option<Action>
    ensures action { result ≡ action_of ins.now.op next ins.now a b cell }
    ensures register { IfSome result HasRegister }
    ensures inside { IfSome result IsInside }
{
    match ins.op {
        TileOp::Sll => shifted(
            FlowOp::ShiftLeft,
            ins,
            Operand::Immediate(u32::from(ins.sh)),
        ),
        TileOp::Srl => shifted(
            FlowOp::ShiftRight,
            ins,
            Operand::Immediate(u32::from(ins.sh)),
        ),
        TileOp::Sra => shifted(
            FlowOp::ShiftRightSigned,
            ins,
            Operand::Immediate(u32::from(ins.sh)),
        ),
        TileOp::Sllv => shifted(FlowOp::ShiftLeft, ins, Operand::Rs),
        TileOp::Srlv => shifted(FlowOp::ShiftRight, ins, Operand::Rs),
        TileOp::Srav => shifted(FlowOp::ShiftRightSigned, ins, Operand::Rs),
        TileOp::Addu => on_both(FlowOp::Add, ins),
        TileOp::Subu => on_both(FlowOp::Sub, ins),
        TileOp::And => on_both(FlowOp::And, ins),
        TileOp::Or => on_both(FlowOp::Or, ins),
        TileOp::Xor => on_both(FlowOp::Xor, ins),
        TileOp::Nor => on_both(FlowOp::Nor, ins),
        TileOp::Slt => on_both(FlowOp::Less, ins),
        TileOp::Sltu => on_both(FlowOp::LessUnsigned, ins),
        TileOp::Mul => on_both(FlowOp::Mul, ins),
        TileOp::Mulhi => on_both(FlowOp::MulHigh, ins),
        TileOp::Mulhu => on_both(FlowOp::MulHighUnsigned, ins),
        TileOp::Addiu => on_word(FlowOp::Add, ins, word::sign_extended(ins.imm)),
        TileOp::Slti => on_word(FlowOp::Less, ins, word::sign_extended(ins.imm)),
        TileOp::Sltiu => on_word(FlowOp::LessUnsigned, ins, word::sign_extended(ins.imm)),
        TileOp::Andi => on_word(FlowOp::And, ins, u32::from(ins.imm)),
        TileOp::Ori => on_word(FlowOp::Or, ins, u32::from(ins.imm)),
        TileOp::Xori => on_word(FlowOp::Xor, ins, u32::from(ins.imm)),
        TileOp::Halt => Some(Action::Stop(Mark::Halted)),
        TileOp::Lui => gives(ins.rt, u32::from(ins.imm) << 16, next),
        TileOp::J => Some(Action::Go(ins.target)),
        TileOp::Jal => gives(LINK, next, ins.target),
        TileOp::Jr => Some(Action::Go(a?)),
        TileOp::Jalr => gives(ins.rd, next, a?),
        TileOp::Clz => gives(ins.rd, word::leading_zeros(a?), next),
        TileOp::Popc => gives(ins.rd, word::ones(a?), next),
        TileOp::Bltz => Some(branch(next, ins, is_below_zero(a?))),
        TileOp::Bgez => Some(branch(next, ins, !is_below_zero(a?))),
        TileOp::Blez => Some(branch(next, ins, !is_above_zero(a?))),
        TileOp::Bgtz => Some(branch(next, ins, is_above_zero(a?))),
        TileOp::Beq => Some(branch(next, ins, a? == b?)),
        TileOp::Bne => Some(branch(next, ins, a? != b?)),
        TileOp::Lw => Some(Action::Load {
            register: ins.rt,
            address: address_of(ins, a?),
        }),
        TileOp::Sw => Some(Action::Store(address_of(ins, a?))),
        TileOp::Lb | TileOp::Lh | TileOp::Lbu | TileOp::Lhu | TileOp::Sb | TileOp::Sh => {
            on_part(ins, a, b, cell)
        }
    }
}
