//! Operations undone: an operand with which an operation gives a value.

use crate::generator::Generator;
use crate::values::low_word;
use raw_flow::FlowOp;

/// Which operand of an operation is looked for.
#[derive(Clone, Copy, PartialEq, Eq)]
pub(crate) enum Side {
    First,
    Second,
}

impl Side {
    /// The other one.
    pub(crate) fn other(self) -> Side {
        match self {
            Side::First => Side::Second,
            Side::Second => Side::First,
        }
    }
}

// What the operation makes of the operand on this side and the other one.
fn made(op: FlowOp, side: Side, operand: u32, other: u32) -> u32 {
    match side {
        Side::First => op.apply(operand, other),
        Side::Second => op.apply(other, operand),
    }
}

// The operand, if the operation gives the value with it.
fn checked(op: FlowOp, side: Side, operand: u32, other: u32, value: u32) -> Option<u32> {
    if made(op, side, operand, other) == value {
        Some(operand)
    } else {
        None
    }
}

// The inverse of an odd word modulo 2^32: each round doubles the low bits that are right, from 3 on.
fn inverse_of(odd: u32) -> u32 {
    let mut inverse = odd;
    for _ in 0..5 {
        inverse = inverse.wrapping_mul(2u32.wrapping_sub(odd.wrapping_mul(inverse)));
    }
    inverse
}

// A factor with which a word has the value as its product, modulo 2^32.
fn factor(generator: &mut Generator, other: u32, value: u32) -> Option<u32> {
    if other == 0 {
        return if value == 0 {
            Some(generator.word())
        } else {
            None
        };
    }
    let shift = other.trailing_zeros();
    if value != 0 && value.trailing_zeros() < shift {
        return None;
    }
    let low = u32::MAX.wrapping_shr(shift);
    let found = value
        .wrapping_shr(shift)
        .wrapping_mul(inverse_of(other.wrapping_shr(shift)));
    Some((found & low) | (generator.word() & !low))
}

// A factor with which the high word of the unsigned product has the value.
fn high_factor(generator: &mut Generator, other: u32, value: u32) -> Option<u32> {
    let op = FlowOp::MulHighUnsigned;
    if other == 0 {
        return checked(op, Side::First, generator.word(), other, value);
    }
    let least = (u64::from(value) << 32).wrapping_add(u64::from(other.wrapping_sub(1)));
    checked(
        op,
        Side::First,
        low_word(least / u64::from(other)),
        other,
        value,
    )
}

// Whether a signed word is below 0.
fn is_negative(word: u32) -> bool {
    word >= 0x8000_0000
}

// How far a signed word is from 0.
fn magnitude(word: u32) -> u32 {
    if is_negative(word) {
        word.wrapping_neg()
    } else {
        word
    }
}

// A factor with which the high word of the signed product has the value, or which is near one.
fn near_signed_factor(other: u32, value: u32) -> u32 {
    let wanted = u64::from(magnitude(value)) << 32;
    let factor = low_word(wanted / u64::from(magnitude(other).max(1)));
    if is_negative(other) != is_negative(value) {
        factor.wrapping_neg()
    } else {
        factor
    }
}

// A factor with which the high word of the signed product has the value.
fn signed_high_factor(generator: &mut Generator, other: u32, value: u32) -> Option<u32> {
    let op = FlowOp::MulHigh;
    if other == 0 {
        return checked(op, Side::First, generator.word(), other, value);
    }
    let near = near_signed_factor(other, value);
    for step in 0..3 {
        let operand = near.wrapping_add(step).wrapping_sub(1);
        if made(op, Side::First, operand, other) == value {
            return Some(operand);
        }
    }
    None
}

// A word from one to another, both included; the first where the second is below it.
fn between(generator: &mut Generator, low: u32, high: u32) -> u32 {
    match generator.below(4) {
        0 => low,
        1 => high,
        _ => low.wrapping_add(generator.word() % high.wrapping_sub(low).max(1)),
    }
}

// An operand with which a comparison of unsigned words gives the value.
fn compared(generator: &mut Generator, side: Side, other: u32, value: u32) -> Option<u32> {
    if value > 1 {
        return None;
    }
    let (low, high) = match (side, value) {
        (Side::First, 1) => (0, other.checked_sub(1)?),
        (Side::First, _) => (other, u32::MAX),
        (Side::Second, 1) => (other.checked_add(1)?, u32::MAX),
        (Side::Second, _) => (0, other),
    };
    Some(between(generator, low, high))
}

// A number of bits by which the shift of a word gives the value.
fn amount(generator: &mut Generator, op: FlowOp, word: u32, value: u32) -> Option<u32> {
    let first = generator.below(32);
    for step in 0..32 {
        let bits = first.wrapping_add(step) % 32;
        if op.apply(word, bits) == value {
            return Some(bits);
        }
    }
    None
}

// A word whose shift by these bits gives the value.
fn shifted(generator: &mut Generator, op: FlowOp, bits: u32, value: u32) -> Option<u32> {
    let left = 32u32.wrapping_sub(bits % 32);
    let lost = generator.word();
    let operand = match (op, bits % 32) {
        (_, 0) => value,
        (FlowOp::ShiftLeft, bits) => value.wrapping_shr(bits) | lost.wrapping_shl(left),
        (_, bits) => value.wrapping_shl(bits) | lost.wrapping_shr(left),
    };
    checked(op, Side::First, operand, bits, value)
}

/// An operand on one side of an operation with which it gives a value, where the other operand is known. None where
/// none is found, which does not say that there is none.
pub(crate) fn undone(
    generator: &mut Generator,
    op: FlowOp,
    side: Side,
    other: u32,
    value: u32,
) -> Option<u32> {
    match (op, side) {
        (FlowOp::Add, _) => Some(value.wrapping_sub(other)),
        (FlowOp::Sub, Side::First) => Some(value.wrapping_add(other)),
        (FlowOp::Sub, Side::Second) => Some(other.wrapping_sub(value)),
        (FlowOp::Xor, _) => Some(value ^ other),
        (FlowOp::Nor, _) => {
            let operand = (!value & !other) | (generator.word() & other);
            checked(op, side, operand, other, value)
        }
        (FlowOp::And, _) => {
            let operand = value | (generator.word() & !other);
            checked(op, side, operand, other, value)
        }
        (FlowOp::Or, _) => {
            let operand = (value & !other) | (generator.word() & other);
            checked(op, side, operand, other, value)
        }
        (FlowOp::Mul, _) => factor(generator, other, value),
        (FlowOp::MulHighUnsigned, _) => high_factor(generator, other, value),
        (FlowOp::MulHigh, _) => signed_high_factor(generator, other, value),
        (FlowOp::LessUnsigned, _) => compared(generator, side, other, value),
        (FlowOp::Less, _) => {
            let biased = compared(generator, side, other ^ 0x8000_0000, value)?;
            Some(biased ^ 0x8000_0000)
        }
        (FlowOp::ShiftLeft | FlowOp::ShiftRight | FlowOp::ShiftRightSigned, Side::Second) => {
            amount(generator, op, other, value)
        }
        (FlowOp::ShiftLeft | FlowOp::ShiftRight | FlowOp::ShiftRightSigned, Side::First) => {
            shifted(generator, op, other, value)
        }
    }
}
