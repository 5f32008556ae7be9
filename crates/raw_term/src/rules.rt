//! The rules of the normal form in a table. Terms are named by their numbers.
ghost use Rattle.std.specs.Prelude.{◌≡◌, slice_get};
ghost use Rattle.raw_term.specs.Terms.{word_in, on_word, joined_with, again, renamed, crossed, crossed_with, with_word, with_itself, other_of, are_ones, is_complement, and_beside, or_beside, beside, beside_node, in_order, of_terms, shift_by, of_word, form_of};

use crate::form::{Form, OnWord, commutes, is_shift, joined, op_number, plain, power_of, standing};
use raw_flow::{FlowOp, Node};
use raw_tile_isa as word;

/// The word that a term is, where it is one.
pub(crate) fn word_at(nodes: &[Node], number: u32) -> Option<u32>
    ensures { result ≡ word_in nodes.now number }
{
    match nodes.get(number as usize) {
        Some(Node::Const { word }) => Some(*word),
        _ => None,
    }
}

// What a term is, where it is an operation on a term and a word.
fn on_word(nodes: &[Node], number: u32) -> Option<OnWord>
    ensures { result ≡ on_word nodes.now number }
{
    match nodes.get(number as usize) {
        Some(Node::Apply { op, a, b }) => match word_at(nodes, *b) {
            Some(word) => Some(OnWord {
                op: *op,
                term: *a,
                word,
            }),
            None => None,
        },
        _ => None,
    }
}

// An operation on a word, of the same operation on a word.
fn joined_with(op: FlowOp, word: u32, of: Option<OnWord>) -> Option<Form>
    ensures { result ≡ joined_with op word of }
{
    match of {
        Some(it) if op_number(it.op) == op_number(op) => joined(op, it.term, it.word, word),
        _ => None,
    }
}

// An operation on a term and a word, for what further rules give.
fn again(nodes: &[Node], op: FlowOp, a: u32, word: u32) -> Form
    ensures { result ≡ again nodes.now op a word }
{
    if let Some(form) = plain(op, a, word) {
        return form;
    }
    match joined_with(op, word, on_word(nodes, a)) {
        Some(form) => form,
        None => standing(op, a, word),
    }
}

// An operation on a term and a word that has another name.
fn renamed(nodes: &[Node], op: FlowOp, a: u32, word: u32) -> Option<Form>
    ensures { result ≡ renamed nodes.now op a word }
{
    match op {
        FlowOp::Sub => Some(again(nodes, FlowOp::Add, a, word::sub(0, word))),
        FlowOp::Mul => match power_of(word) {
            Some(place) => Some(again(nodes, FlowOp::ShiftLeft, a, place)),
            None => None,
        },
        FlowOp::MulHigh if word == 1 => Some(again(nodes, FlowOp::ShiftRightSigned, a, 31)),
        FlowOp::MulHighUnsigned => match power_of(word) {
            Some(place) => Some(again(nodes, FlowOp::ShiftRight, a, 32_u32.saturating_sub(place))),
            None => None,
        },
        FlowOp::Nor if word == 0 => Some(again(nodes, FlowOp::Xor, a, u32::MAX)),
        FlowOp::Less if word == 0 => Some(again(nodes, FlowOp::ShiftRight, a, 31)),
        _ => None,
    }
}

// An operation on a word, of another operation on a term and a word.
fn crossed(nodes: &[Node], op: FlowOp, it: OnWord, word: u32) -> Option<Form>
    ensures { result ≡ crossed nodes.now op it.op it.term it.word word }
{
    match op {
        FlowOp::ShiftRight => match it.op {
            FlowOp::ShiftLeft if it.word % 32 == word % 32 => {
                let mask = word::shift_right(u32::MAX, word);
                Some(again(nodes, FlowOp::And, it.term, mask))
            }
            _ => None,
        },
        FlowOp::ShiftLeft => match it.op {
            FlowOp::ShiftRight if it.word % 32 == word % 32 => {
                let mask = word::shift_left(u32::MAX, word);
                Some(again(nodes, FlowOp::And, it.term, mask))
            }
            _ => None,
        },
        FlowOp::And => match it.op {
            FlowOp::Or if it.word == word => Some(Form::Word(word)),
            _ => None,
        },
        FlowOp::Or => match it.op {
            FlowOp::And if it.word == word => Some(Form::Word(word)),
            _ => None,
        },
        _ => None,
    }
}

// The same, where there is one.
fn crossed_with(nodes: &[Node], op: FlowOp, word: u32, of: Option<OnWord>) -> Option<Form>
    ensures { result ≡ crossed_with nodes.now op word of }
{
    match of {
        Some(it) => crossed(nodes, op, it, word),
        None => None,
    }
}

// An operation on a term that is no word, and a word.
fn with_word(nodes: &[Node], op: FlowOp, a: u32, word: u32) -> Form
    ensures { result ≡ with_word nodes.now op a word }
{
    if let Some(form) = plain(op, a, word) {
        return form;
    }
    let of = on_word(nodes, a);
    if let Some(form) = joined_with(op, word, of) {
        return form;
    }
    if let Some(form) = renamed(nodes, op, a, word) {
        return form;
    }
    match crossed_with(nodes, op, word, of) {
        Some(form) => form,
        None => standing(op, a, word),
    }
}

// An operation on a term with itself.
fn with_itself(nodes: &[Node], op: FlowOp, a: u32) -> Form
    ensures { result ≡ with_itself nodes.now op a }
{
    match op {
        FlowOp::Sub | FlowOp::Xor | FlowOp::Less | FlowOp::LessUnsigned => Form::Word(0),
        FlowOp::And | FlowOp::Or => Form::Same(a),
        FlowOp::Nor => again(nodes, FlowOp::Xor, a, u32::MAX),
        _ => Form::Both { op, a, b: a },
    }
}

// One of two terms, where the other one is this.
fn other_of(term: u32, x: u32, y: u32) -> Option<Form>
    ensures { result ≡ other_of term x y }
{
    if x == term {
        Some(Form::Same(y))
    } else if y == term {
        Some(Form::Same(x))
    } else {
        None
    }
}

// Whether a term is a word of ones.
fn are_ones(nodes: &[Node], number: u32) -> bool
    ensures { result ≡ are_ones (word_in nodes.now number) }
{
    match word_at(nodes, number) {
        Some(word) => word == u32::MAX,
        None => false,
    }
}

// Whether a term, which is `xor` of two terms, is the complement of another.
fn is_complement(nodes: &[Node], term: u32, x: u32, y: u32) -> bool
    ensures { result ≡ is_complement nodes.now term x y }
{
    x == term && are_ones(nodes, y)
}

// `and` of two terms, the first of which is an operation on x and y.
fn and_beside(nodes: &[Node], inner: FlowOp, s: u32, t: u32, x: u32, y: u32) -> Option<Form>
    ensures { result ≡ and_beside nodes.now inner s t x y }
{
    match inner {
        FlowOp::Or if x == t || y == t => Some(Form::Same(t)),
        FlowOp::And if x == t || y == t => Some(Form::Same(s)),
        FlowOp::Xor if is_complement(nodes, t, x, y) => Some(Form::Word(0)),
        _ => None,
    }
}

// `or` of two terms, the first of which is an operation on x and y.
fn or_beside(nodes: &[Node], inner: FlowOp, s: u32, t: u32, x: u32, y: u32) -> Option<Form>
    ensures { result ≡ or_beside nodes.now inner s t x y }
{
    match inner {
        FlowOp::And if x == t || y == t => Some(Form::Same(t)),
        FlowOp::Or if x == t || y == t => Some(Form::Same(s)),
        FlowOp::Xor if is_complement(nodes, t, x, y) => Some(Form::Word(u32::MAX)),
        _ => None,
    }
}

// An operation on two terms, the first of which is an operation on x and y.
fn beside(nodes: &[Node], op: FlowOp, inner: FlowOp, s: u32, t: u32, x: u32, y: u32) -> Option<Form>
    ensures { result ≡ beside nodes.now op inner s t x y }
{
    match op {
        FlowOp::And => and_beside(nodes, inner, s, t, x, y),
        FlowOp::Or => or_beside(nodes, inner, s, t, x, y),
        FlowOp::Xor => match inner {
            FlowOp::Xor => other_of(t, x, y),
            _ => None,
        },
        FlowOp::Sub => match inner {
            FlowOp::Add => other_of(t, x, y),
            _ => None,
        },
        FlowOp::Add => match inner {
            FlowOp::Sub if y == t => Some(Form::Same(x)),
            _ => None,
        },
        _ => None,
    }
}

// An operation on two terms, the first of which may be an operation.
fn beside_node(nodes: &[Node], op: FlowOp, s: u32, t: u32) -> Option<Form>
    ensures { result ≡ beside_node nodes.now op s t (slice_get nodes.now s) }
{
    match nodes.get(s as usize) {
        Some(Node::Apply { op: inner, a, b }) => beside(nodes, op, *inner, s, t, *a, *b),
        _ => None,
    }
}

// An operation on two terms, the term that was made first first.
fn in_order(op: FlowOp, a: u32, b: u32) -> Form
    ensures { result ≡ in_order op a b }
{
    if b <= a {
        Form::Both { op, a: b, b: a }
    } else {
        Form::Both { op, a, b }
    }
}

// An operation on two terms that are no words.
fn of_terms(nodes: &[Node], op: FlowOp, a: u32, b: u32) -> Form
    ensures { result ≡ of_terms nodes.now op a b }
{
    if a == b {
        return with_itself(nodes, op, a);
    }
    if let Some(form) = beside_node(nodes, op, a, b) {
        return form;
    }
    if !commutes(op) {
        return Form::Both { op, a, b };
    }
    match beside_node(nodes, op, b, a) {
        Some(form) => form,
        None => in_order(op, a, b),
    }
}

// A shift by a term. Where that keeps the low five bits of another, it is by the other.
fn shift_by(nodes: &[Node], op: FlowOp, a: u32, b: u32) -> Form
    ensures { result ≡ shift_by nodes.now op a b }
{
    match on_word(nodes, b) {
        Some(it) if op_number(it.op) == op_number(FlowOp::And) && it.word % 32 == 31 => {
            Form::Both { op, a, b: it.term }
        }
        _ => Form::Both { op, a, b },
    }
}

// An operation on a word, and on a term that is none.
fn of_word(nodes: &[Node], op: FlowOp, a: u32, word: u32, b: u32) -> Form
    ensures { result ≡ of_word nodes.now op a word b }
{
    if commutes(op) {
        return with_word(nodes, op, b, word);
    }
    if !is_shift(op) {
        return Form::Both { op, a, b };
    }
    if word == 0 {
        return Form::Word(0);
    }
    shift_by(nodes, op, a, b)
}

/// The normal form of an operation on two terms.
pub(crate) fn form_of(nodes: &[Node], op: FlowOp, a: u32, b: u32) -> Form
    ensures { result ≡ form_of nodes.now op a b }
{
    match (word_at(nodes, a), word_at(nodes, b)) {
        (Some(x), Some(y)) => Form::Word(op.apply(x, y)),
        (Some(x), None) => of_word(nodes, op, a, x, b),
        (None, Some(y)) => with_word(nodes, op, a, y),
        (None, None) if is_shift(op) => shift_by(nodes, op, a, b),
        (None, None) => of_terms(nodes, op, a, b),
    }
}
