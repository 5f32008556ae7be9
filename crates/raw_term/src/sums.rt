//! Two terms as sums.
ghost use Rattle.std.specs.Prelude.{◌≡◌, ◌<◌, ◌≤◌, ◌^◌, length, IfOk, OnOk, Some, None, if◌then◌else◌};
ghost use Rattle.raw_term.specs.Sums.{no_sum, plus_times, plus_rest, spread, parted, many_to, is_same_sum};

use crate::rules::word_at;
use crate::sparse::Sparse;
use raw_flow::{FlowOp, Node};
use raw_tile_isa as word;
use std::alloc::{AllocError, Global};
use std::marker::Model;

// A sum: of each term, by number, how often it stands in it, and a word.
#[derive(Drop)]
struct Summed {
    factors: Sparse,
    rest: u32,
}

impl Model for Summed {
    ghost use Rattle.raw_term.specs.Sums.{Sum};

    ghost Value = { Sum };

    ghost view = { λ s. record { factors = s.factors; rest = s.rest } };
}

impl Summed {
    // So many terms, none of which stands in the sum.
    fn none(alloc: Global, many: usize) -> Summed
        ensures { result ≡ no_sum many }
    {
        Summed {
            factors: Sparse::zeros(alloc, many),
            rest: 0,
        }
    }

    // And a term, so many times.
    fn plus_times(&mut self, factor: u32, term: u32) -> Result<(), AllocError>
        ensures { OnOk result (self.new ≡ plus_times factor term self.old) }
    {
        let at = term as usize;
        let many = word::add(self.factors.at(at), factor);
        self.factors.set(at, many)
    }

    // And a word.
    fn plus_rest(&mut self, by: u32)
        ensures { self.new ≡ plus_rest by self.old }
    {
        self.rest = word::add(self.rest, by);
    }

    // And the parts of a term, so many times; false where it is no sum.
    fn spread(&mut self, nodes: &[Node], factor: u32, node: Node) -> Result<bool, AllocError>
        ensures parts { IfOk result (λ is. spread nodes.now factor self.old (Some node) ≡ if is then Some self.new else None) }
        ensures long { OnOk result (length self.new.factors ≡ length self.old.factors) }
    {
        match node {
            Node::Const { word: by } => {
                self.plus_rest(word::mul_low(factor, by));
                Ok(true)
            }
            Node::Apply {
                op: FlowOp::Add,
                a,
                b,
            } => {
                self.plus_times(factor, a)?;
                self.plus_times(factor, b)?;
                Ok(true)
            }
            Node::Apply {
                op: FlowOp::Sub,
                a,
                b,
            } => {
                self.plus_times(factor, a)?;
                self.plus_times(word::sub(0, factor), b)?;
                Ok(true)
            }
            Node::Apply {
                op: FlowOp::Mul,
                a,
                b,
            } => match word_at(nodes, b) {
                Some(by) => {
                    self.plus_times(word::mul_low(factor, by), a)?;
                    Ok(true)
                }
                None => Ok(false),
            },
            Node::Apply {
                op: FlowOp::ShiftLeft,
                a,
                b,
            } => match word_at(nodes, b) {
                Some(by) => {
                    self.plus_times(word::shift_left(factor, by), a)?;
                    Ok(true)
                }
                None => Ok(false),
            },
            Node::Apply {
                op: FlowOp::Xor,
                a,
                b,
            } => match word_at(nodes, b) {
                Some(2_147_483_648) => {
                    self.plus_times(factor, a)?;
                    self.plus_rest(word::mul_low(factor, 2_147_483_648));
                    Ok(true)
                }
                Some(4_294_967_295) => {
                    self.plus_times(word::sub(0, factor), a)?;
                    self.plus_rest(word::sub(0, factor));
                    Ok(true)
                }
                _ => Ok(false),
            },
            Node::Apply {
                op: FlowOp::Nor,
                a,
                b,
            } => {
                if a == b {
                    self.plus_times(word::sub(0, factor), a)?;
                    self.plus_rest(word::sub(0, factor));
                    return Ok(true);
                }
                match word_at(nodes, b) {
                    Some(0) => {
                        self.plus_times(word::sub(0, factor), a)?;
                        self.plus_rest(word::sub(0, factor));
                        Ok(true)
                    }
                    _ => Ok(false),
                }
            }
            _ => Ok(false),
        }
    }

    // And a term that gives way to its parts, so many times; false where it is no sum.
    fn parted(&mut self, nodes: &[Node], factor: u32, i: usize) -> Result<bool, AllocError>
        requires { i < length nodes.now }
        ensures parts { IfOk result (λ is. parted nodes.now factor self.old i ≡ if is then Some self.new else None) }
        ensures long { OnOk result (length self.new.factors ≡ length self.old.factors) }
    {
        if factor == 0 {
            return Ok(true);
        }
        self.spread(nodes, factor, nodes[i])
    }
}

/// So many terms as there are up to both.
pub(crate) fn many_to(a: u32, b: u32) -> usize
    ensures value { result ≡ many_to a b }
    ensures few { result ≤ 2 ^ 32 }
{
    if a <= b {
        b as usize + 1
    } else {
        a as usize + 1
    }
}

/// Whether two terms are seen to be the same sum.
pub(crate) fn is_same_sum(alloc: Global, nodes: &[Node], a: u32, b: u32) -> Result<bool, AllocError>
    ensures { IfOk result (λ same. same ≡ is_same_sum nodes.now a b) }
{
    let many = many_to(a, b);
    if many > nodes.len() {
        return Ok(false);
    }
    let mut sum = Summed::none(alloc, many);
    sum.plus_times(1, a)?;
    sum.plus_times(4_294_967_295, b)?;
    'terms: while let Some((i, factor)) = sum.factors.pop() {
        if !sum.parted(nodes, factor, i)? {
            return Ok(false);
        }
    }
    Ok(sum.rest == 0)
}
