//! Down from a term that should have a value to one input.

use crate::cone::{Cone, Part};
use crate::generator::Generator;
use crate::inverse::{Side, undone};
use crate::values::{is_set, value_at};
use raw_flow::FlowOp;

/// A place of a cone and the value that its term should have.
#[derive(Clone, Copy)]
pub(crate) struct Wish {
    pub(crate) place: u32,
    pub(crate) value: u32,
}

// A value that an operand may have, where none was found: of `and` one that has the bits wanted, of `or` one that has
// no others.
fn likely(generator: &mut Generator, op: FlowOp, value: u32) -> u32 {
    let word = generator.mixed();
    match op {
        FlowOp::And => value | word,
        FlowOp::Or => value & word,
        _ => word,
    }
}

// The value of an operand that stands on both sides.
fn halved(generator: &mut Generator, op: FlowOp, value: u32) -> u32 {
    match op {
        FlowOp::Add => value / 2,
        FlowOp::Nor => !value,
        _ => likely(generator, op, value),
    }
}

// The operand to go down to: one that hangs on an input, any of both where both do.
fn side_of(generator: &mut Generator, hangs: &[bool], a: u32, b: u32) -> Side {
    match (is_set(hangs, a), is_set(hangs, b)) {
        (true, true) if generator.below(2) == 0 => Side::First,
        (true, false) => Side::First,
        _ => Side::Second,
    }
}

// An operation on two terms, by their places.
#[derive(Clone, Copy)]
struct Applied {
    op: FlowOp,
    a: u32,
    b: u32,
}

impl Applied {
    // The operand on a side, and the other one.
    fn on(self, side: Side) -> (u32, u32) {
        match side {
            Side::First => (self.a, self.b),
            Side::Second => (self.b, self.a),
        }
    }

    // What the operand on a side should be, if the operation can be undone there and it hangs on an input.
    fn wish_on(
        self,
        side: Side,
        generator: &mut Generator,
        values: &[u32],
        hangs: &[bool],
        value: u32,
    ) -> Option<Wish> {
        let (place, other) = self.on(side);
        if !is_set(hangs, place) {
            return None;
        }
        let value = undone(generator, self.op, side, value_at(values, other), value)?;
        Some(Wish { place, value })
    }

    // What an operand should be so that the operation gives a value.
    fn wish(self, generator: &mut Generator, values: &[u32], hangs: &[bool], value: u32) -> Wish {
        if self.a == self.b {
            return Wish {
                place: self.a,
                value: halved(generator, self.op, value),
            };
        }
        let side = side_of(generator, hangs, self.a, self.b);
        if let Some(wish) = self.wish_on(side, generator, values, hangs, value) {
            return wish;
        }
        if let Some(wish) = self.wish_on(side.other(), generator, values, hangs, value) {
            return wish;
        }
        let (place, _) = self.on(side);
        Wish {
            place,
            value: likely(generator, self.op, value),
        }
    }
}

/// Goes down from a term that should have a value, and changes the word of one input so that it may. Returns whether it
/// came to an input. It goes at most as many steps as there are terms.
pub(crate) fn push_down(
    cone: &Cone,
    generator: &mut Generator,
    values: &[u32],
    hangs: &[bool],
    wish: Wish,
    words: &mut [u32],
) -> bool {
    let mut wish = wish;
    for _ in 0..cone.parts.len() {
        match cone.part(wish.place) {
            Part::Word(_) => return false,
            Part::Input(input) => {
                if let Some(word) = words.get_mut(input as usize) {
                    *word = wish.value;
                }
                return true;
            }
            Part::Apply { op, a, b } => {
                wish = Applied { op, a, b }.wish(generator, values, hangs, wish.value);
            }
        }
    }
    false
}
