//! Two terms as exclusive ors.
ghost use Rattle.std.specs.Prelude.{◌≡◌, ◌<◌, ◌≤◌, ◌/◌, ◌^◌, length, IfOk, OnOk, Some, None, if◌then◌else◌};
ghost use Rattle.raw_term.specs.Exclusives.{moved, no_marks, and_mark, and_word, masked, left, right, right_zeros, signs, by_word, marked, parted, is_same_exclusive_or};

use crate::rules::word_at;
use crate::sparse::Sparse;
use crate::sums::many_to;
use raw_flow::{FlowOp, Node};
use raw_tile_isa as word;
use std::alloc::{AllocError, Global};
use std::marker::Model;

// How many moves there are: from 31 bits to the right, by 0, to 31 bits to the left, by 62.
const MOVES: usize = 63;

// The word of which the highest bit alone is 1.
const HIGHEST: u32 = 2_147_483_648;

// A word after a move.
fn moved(by: u32, word: u32) -> u32
    ensures { result ≡ moved by word }
{
    if by >= 31 {
        word::shift_left(word, by - 31)
    } else {
        word::shift_right(word, 31 - by)
    }
}

// Marks: of each term, by number, and each move those bits at which it stands after the move. And a word.
#[derive(Drop)]
struct Marked {
    bits: Sparse,
    rest: u32,
}

impl Model for Marked {
    ghost use Rattle.raw_term.specs.Exclusives.{Marks};

    ghost Value = { Marks };

    ghost view = { λ s. record { bits = s.bits; rest = s.rest } };
}

impl Marked {
    // So many terms, none with a mark.
    fn none(alloc: Global, many: usize) -> Marked
        requires few { many ≤ 2 ^ 32 }
        ensures { result ≡ no_marks many }
    {
        Marked {
            bits: Sparse::zeros(alloc, many * MOVES),
            rest: 0,
        }
    }

    // And some bits of a term after a move.
    fn and_mark(&mut self, bits: u32, by: u32, term: u32) -> Result<(), AllocError>
        ensures { OnOk result (self.new ≡ and_mark bits by term self.old) }
    {
        let at = term as usize * MOVES + by as usize;
        let both = self.bits.at(at) ^ bits;
        self.bits.set(at, both)
    }

    // And some bits of a word after a move.
    fn and_word(&mut self, bits: u32, by: u32, word: u32)
        ensures { self.new ≡ and_word bits by word self.old }
    {
        self.rest ^= bits & moved(by, word);
    }

    // And a term under a mask, and a word.
    fn masked(
        &mut self,
        bits: u32,
        by: u32,
        term: u32,
        mask: u32,
        word: u32,
    ) -> Result<(), AllocError>
        ensures { OnOk result (self.new ≡ masked bits by term mask word self.old) }
    {
        self.and_word(bits, by, word);
        self.and_mark(bits & moved(by, mask), by, term)
    }

    // And a term shifted to the left.
    fn left(&mut self, bits: u32, by: u32, term: u32, amount: u32) -> Result<(), AllocError>
        requires few { by < 63 }
        requires less { amount < 32 }
        ensures { OnOk result (self.new ≡ left bits by term amount self.old) }
    {
        let kept = bits & moved(by, word::shift_left(u32::MAX, amount));
        if kept == 0 {
            return Ok(());
        }
        self.and_mark(kept, by + amount, term)
    }

    // And a term shifted to the right, under a mask.
    fn right(
        &mut self,
        bits: u32,
        by: u32,
        term: u32,
        amount: u32,
        mask: u32,
    ) -> Result<(), AllocError>
        ensures { OnOk result (self.new ≡ right bits by term amount mask self.old) }
    {
        let kept = bits & moved(by, mask);
        if kept == 0 {
            return Ok(());
        }
        self.and_mark(kept, by.saturating_sub(amount), term)
    }

    // And a term shifted to the right, with zeros in.
    fn right_zeros(&mut self, bits: u32, by: u32, term: u32, amount: u32) -> Result<(), AllocError>
        ensures { OnOk result (self.new ≡ right_zeros bits by term amount self.old) }
    {
        self.right(bits, by, term, amount, word::shift_right(u32::MAX, amount))
    }

    // And the sign of a term, in so many of the highest bits.
    fn signs(&mut self, bits: u32, by: u32, term: u32, amount: u32) -> Result<(), AllocError>
        ensures { OnOk result (self.new ≡ signs bits by term amount self.old) }
    {
        for k in 0..amount {
            self.right(bits, by, term, k, word::shift_right(HIGHEST, k))?;
        }
        Ok(())
    }

    // And an operation on a term and a word; false where it is another operation.
    fn by_word(
        &mut self,
        bits: u32,
        by: u32,
        op: FlowOp,
        term: u32,
        word: u32,
    ) -> Result<bool, AllocError>
        requires few { by < 63 }
        ensures { IfOk result (λ is. by_word bits by op term word self.old ≡ if is then Some self.new else None) }
    {
        match op {
            FlowOp::And => self.masked(bits, by, term, word, 0)?,
            FlowOp::Or => self.masked(bits, by, term, word ^ u32::MAX, word)?,
            FlowOp::Nor => self.masked(bits, by, term, word ^ u32::MAX, word ^ u32::MAX)?,
            FlowOp::Add if word == HIGHEST => self.masked(bits, by, term, u32::MAX, word)?,
            FlowOp::ShiftLeft => self.left(bits, by, term, word % 32)?,
            FlowOp::ShiftRight => self.right_zeros(bits, by, term, word % 32)?,
            FlowOp::ShiftRightSigned => {
                self.right_zeros(bits, by, term, word % 32)?;
                self.signs(bits, by, term, word % 32)?;
            }
            _ => return Ok(false),
        }
        Ok(true)
    }

    // And some bits of a node after a move; false where it is another operation.
    fn mark(&mut self, nodes: &[Node], bits: u32, by: u32, node: Node) -> Result<bool, AllocError>
        requires few { by < 63 }
        ensures { IfOk result (λ is. marked nodes.now bits by self.old (Some node) ≡ if is then Some self.new else None) }
    {
        match node {
            Node::Input => Ok(false),
            Node::Const { word } => {
                self.and_word(bits, by, word);
                Ok(true)
            }
            Node::Apply {
                op: FlowOp::Xor,
                a,
                b,
            } => {
                self.and_mark(bits, by, a)?;
                self.and_mark(bits, by, b)?;
                Ok(true)
            }
            Node::Apply {
                op: FlowOp::Sub,
                a,
                b,
            } => match word_at(nodes, a) {
                Some(4_294_967_295) => {
                    self.masked(bits, by, b, u32::MAX, u32::MAX)?;
                    Ok(true)
                }
                _ => Ok(false),
            },
            Node::Apply { op, a, b } => match word_at(nodes, b) {
                Some(word) => self.by_word(bits, by, op, a, word),
                None => Ok(false),
            },
        }
    }

    // And the marks that those at a place give way to; false where they stand at another operation.
    fn parted(&mut self, nodes: &[Node], bits: u32, i: usize) -> Result<bool, AllocError>
        requires { i / 63 < length nodes.now }
        ensures { IfOk result (λ is. parted nodes.now bits self.old i ≡ if is then Some self.new else None) }
    {
        if bits == 0 {
            return Ok(true);
        }
        self.mark(nodes, bits, (i % MOVES) as u32, nodes[i / MOVES])
    }
}

/// Whether two terms are seen to be the same exclusive or.
pub(crate) fn is_same_exclusive_or(
    alloc: Global,
    nodes: &[Node],
    a: u32,
    b: u32,
) -> Result<bool, AllocError>
    ensures { IfOk result (λ same. same ≡ is_same_exclusive_or nodes.now a b) }
{
    let many = many_to(a, b);
    if many > nodes.len() {
        return Ok(false);
    }
    let mut marks = Marked::none(alloc, many);
    marks.and_mark(u32::MAX, 31, a)?;
    marks.and_mark(u32::MAX, 31, b)?;
    'marks: while let Some((i, bits)) = marks.bits.pop() {
        if !marks.parted(nodes, bits, i)? {
            return Ok(false);
        }
    }
    Ok(marks.rest == 0)
}
