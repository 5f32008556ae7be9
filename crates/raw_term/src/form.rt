//! The normal form of an operation on two terms.
ghost use Rattle.std.specs.Prelude.{◌≡◌};
ghost use Rattle.raw_term.specs.Terms.{op_number, commutes, is_shift, plain, standing, simple, shifted, joined, power_of};

use raw_flow::FlowOp;
use raw_tile_isa as word;

/// What an operation on two terms is, in normal form. Terms are named by their numbers.
#[derive(Clone, Copy, PartialEq, Eq)]
pub enum Form {
    /// A term that there is.
    Same(u32),
    /// A word.
    Word(u32),
    /// An operation on two terms.
    Both { op: FlowOp, a: u32, b: u32 },
    /// An operation on a term and a word.
    With { op: FlowOp, a: u32, word: u32 },
}

/// A term that is an operation on a term and a word.
#[derive(Clone, Copy, PartialEq, Eq)]
pub(crate) struct OnWord {
    pub(crate) op: FlowOp,
    pub(crate) term: u32,
    pub(crate) word: u32,
}

/// A number for each operation, in the order of `FlowOp`, from 0 on.
pub fn op_number(op: FlowOp) -> u8
    ensures { result ≡ op_number op }
{
    match op {
        FlowOp::Add => 0,
        FlowOp::Sub => 1,
        FlowOp::Mul => 2,
        FlowOp::MulHigh => 3,
        FlowOp::MulHighUnsigned => 4,
        FlowOp::And => 5,
        FlowOp::Or => 6,
        FlowOp::Xor => 7,
        FlowOp::Nor => 8,
        FlowOp::Less => 9,
        FlowOp::LessUnsigned => 10,
        FlowOp::ShiftLeft => 11,
        FlowOp::ShiftRight => 12,
        FlowOp::ShiftRightSigned => 13,
    }
}

// Whether both orders of two operands give the same.
pub(crate) fn commutes(op: FlowOp) -> bool
    ensures { result ≡ commutes op }
{
    match op {
        FlowOp::Add
        | FlowOp::Mul
        | FlowOp::MulHigh
        | FlowOp::MulHighUnsigned
        | FlowOp::And
        | FlowOp::Or
        | FlowOp::Xor
        | FlowOp::Nor => true,
        _ => false,
    }
}

// Whether an operation is a shift.
pub(crate) fn is_shift(op: FlowOp) -> bool
    ensures { result ≡ is_shift op }
{
    match op {
        FlowOp::ShiftLeft | FlowOp::ShiftRight | FlowOp::ShiftRightSigned => true,
        _ => false,
    }
}

// An operation on a term and a word, where that is the term or a word.
pub(crate) fn plain(op: FlowOp, a: u32, word: u32) -> Option<Form>
    ensures { result ≡ plain op a word }
{
    match op {
        FlowOp::Add | FlowOp::Or | FlowOp::Xor if word == 0 => Some(Form::Same(a)),
        FlowOp::Mul | FlowOp::MulHigh | FlowOp::And | FlowOp::LessUnsigned if word == 0 => {
            Some(Form::Word(0))
        }
        FlowOp::MulHighUnsigned if word <= 1 => Some(Form::Word(0)),
        FlowOp::Mul if word == 1 => Some(Form::Same(a)),
        FlowOp::And if word == u32::MAX => Some(Form::Same(a)),
        FlowOp::Or if word == u32::MAX => Some(Form::Word(word)),
        FlowOp::ShiftLeft | FlowOp::ShiftRight | FlowOp::ShiftRightSigned if word % 32 == 0 => {
            Some(Form::Same(a))
        }
        _ => None,
    }
}

// An operation on a term and a word as it stands; a shift is by the word modulo 32.
pub(crate) fn standing(op: FlowOp, a: u32, word: u32) -> Form
    ensures { result ≡ standing op a word }
{
    let word = if is_shift(op) { word % 32 } else { word };
    Form::With { op, a, word }
}

// An operation on a term and a word, where no other rule is asked.
fn simple(op: FlowOp, a: u32, word: u32) -> Form
    ensures { result ≡ simple op a word }
{
    match plain(op, a, word) {
        Some(form) => form,
        None => standing(op, a, word),
    }
}

// A shift by two words, one after the other, with zeros in.
fn shifted(op: FlowOp, x: u32, by: u32) -> Form
    ensures { result ≡ shifted op x by }
{
    if by < 32 {
        simple(op, x, by)
    } else {
        Form::Word(0)
    }
}

// An operation on a second word of the same operation on a term and a first word.
pub(crate) fn joined(op: FlowOp, x: u32, first: u32, second: u32) -> Option<Form>
    ensures { result ≡ joined op x first second }
{
    let by = first % 32 + second % 32;
    match op {
        FlowOp::Add => Some(simple(op, x, word::add(first, second))),
        FlowOp::Mul => Some(simple(op, x, word::mul_low(first, second))),
        FlowOp::And => Some(simple(op, x, first & second)),
        FlowOp::Or => Some(simple(op, x, first | second)),
        FlowOp::Xor => Some(simple(op, x, first ^ second)),
        FlowOp::ShiftLeft | FlowOp::ShiftRight => Some(shifted(op, x, by)),
        FlowOp::ShiftRightSigned => Some(simple(op, x, by.min(31))),
        _ => None,
    }
}

// Which power of two a word is, from the first to the 31st.
pub(crate) fn power_of(word: u32) -> Option<u32>
    ensures { result ≡ power_of word }
{
    let place = 31_u32.saturating_sub(word::leading_zeros(word));
    if word >= 2 && word::shift_left(1, place) == word {
        Some(place)
    } else {
        None
    }
}
