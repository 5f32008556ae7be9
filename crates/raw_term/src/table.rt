//! The table of terms.
ghost use Rattle.std.specs.Prelude.{◌≡◌, ◌≤◌, length, slice_get, IfOk, Err};
ghost use Rattle.raw_term.specs.Terms.{Overflows, word_in, with_node, made};
ghost use Rattle.raw_term.specs.TermMachine.{first_nodes};
ghost use Rattle.raw_term.specs.Places.{key_of, IsDefined};
ghost use Rattle.raw_term.specs.Same.{is_same};

use crate::exclusives::is_same_exclusive_or;
use crate::form::{Form, op_number};
use crate::limits::MAX_TERMS;
use crate::refusal::TermRefusal;
use crate::rules::{form_of, word_at};
use crate::sums::is_same_sum;
use raw_flow::{FlowOp, Node};
use std::alloc::{AllocError, Global};
use std::collections::HashMap;
use std::marker::Model;

/// Three numbers that tell a node from others.
type Key = (u8, u32, u32);

/// A table of terms, each with a number, from 0 on. A contract sees it as the list of its terms.
#[derive(Drop)]
pub struct TermTable {
    nodes: Vec<Node>,
    // The number of each term that is no input.
    places: HashMap<Key, u32>,
}

impl Model for TermTable {
    ghost use Rattle.std.specs.Prelude.{◌≤◌, List, length};
    ghost use Rattle.raw_flow.specs.declared.node.Node.{Node};
    ghost use Rattle.raw_term.specs.declared.limits.TheConstants.{MAX_TERMS};
    ghost use Rattle.raw_term.specs.Places.{ArePlaces};

    ghost Value = { List Node };

    ghost view = { λ t. t.nodes.items };

    ghost invariant = { λ t. ArePlaces t.nodes.items t.places × (length t.nodes.items ≤ MAX_TERMS) };
}

// Three numbers that tell a node from others.
fn key_of(node: Node) -> Key
    ensures { result ≡ key_of node }
{
    match node {
        Node::Input => (15, 0, 0),
        Node::Const { word } => (14, word, 0),
        Node::Apply { op, a, b } => (op_number(op), a, b),
    }
}

// The terms of the first table: the word 0, and behind it so many inputs.
#[tactic(auto, using(crate::proofs::Places::first_more))]
fn first_nodes(alloc: Global, inputs: u32) -> Result<Vec<Node>, AllocError>
    ensures { IfOk result (λ nodes. nodes.items ≡ first_nodes inputs) }
{
    let mut nodes = Vec::new(alloc);
    nodes.push(Node::Const { word: 0 })?;
    for _ in 0..inputs {
        nodes.push(Node::Input)?;
    }
    Ok(nodes)
}

impl TermTable {
    /// The first table: the word 0 has the number 0, and of so many inputs the k-th, counted from 0, the number 1 + k.
    pub fn open(alloc: Global, inputs: u32) -> Result<TermTable, TermRefusal>
        ensures table { IfOk result (λ table. table ≡ first_nodes inputs) }
        ensures too_many { result ≡ Err TermRefusal.TooMany → Overflows (first_nodes inputs) }
    {
        if inputs >= MAX_TERMS {
            return Err(TermRefusal::TooMany);
        }
        let nodes = first_nodes(alloc, inputs)?;
        let mut places = HashMap::new(alloc);
        places.insert(key_of(Node::Const { word: 0 }), 0)?;
        Ok(TermTable { nodes, places })
    }

    /// How many terms there are.
    pub fn len(&self) -> u32
        ensures value { result ≡ length self.now }
        ensures few { result ≤ MAX_TERMS }
    {
        self.nodes.len() as u32
    }

    /// The word that a term is, where it is one.
    pub fn word(&self, number: u32) -> Option<u32>
        ensures { result ≡ word_in self.now number }
    {
        word_at(&self.nodes, number)
    }

    /// A term as it stands, by its number.
    pub fn node(&self, number: u32) -> Option<Node>
        ensures { result ≡ slice_get self.now number }
    {
        match self.nodes.get(number as usize) {
            Some(node) => Some(*node),
            None => None,
        }
    }

    /// The number of a term that is no input, as it stands: the one that it has, or else the next.
    pub fn number_of(&mut self, node: Node) -> Result<u32, TermRefusal>
        requires { IsDefined node }
        ensures number { IfOk result (λ number.
            with_node self.old node ≡ record { nodes = self.new; number = number }) }
        ensures too_many { result ≡ Err TermRefusal.TooMany → Overflows (with_node self.old node).nodes }
    {
        let key = key_of(node);
        if let Some(number) = self.places.get(&key) {
            return Ok(*number);
        }
        if self.nodes.len() >= MAX_TERMS as usize {
            return Err(TermRefusal::TooMany);
        }
        let number = self.nodes.len() as u32;
        self.nodes.push(node)?;
        match self.places.insert(key, number) {
            Ok(_) => Ok(number),
            Err(_) => {
                self.nodes.truncate(number as usize);
                Err(TermRefusal::Memory)
            }
        }
    }
}

impl TermTable {
    /// The number of the term of an operation on two terms, in normal form.
    pub fn make(&mut self, op: FlowOp, a: u32, b: u32) -> Result<u32, TermRefusal>
        ensures number { IfOk result (λ number.
            made self.old op a b ≡ record { nodes = self.new; number = number }) }
        ensures too_many { result ≡ Err TermRefusal.TooMany → Overflows (made self.old op a b).nodes }
    {
        match form_of(&self.nodes, op, a, b) {
            Form::Same(number) => Ok(number),
            Form::Word(word) => self.number_of(Node::Const { word }),
            Form::Both { op, a, b } => self.number_of(Node::Apply { op, a, b }),
            Form::With { op, a, word } => {
                let b = self.number_of(Node::Const { word })?;
                self.number_of(Node::Apply { op, a, b })
            }
        }
    }

    /// Whether two terms are seen to be the same under all words for the inputs.
    pub fn is_same(&self, alloc: Global, a: u32, b: u32) -> Result<bool, AllocError>
        ensures { IfOk result (λ same. same ≡ is_same self.now a b) }
    {
        if a == b {
            return Ok(true);
        }
        if is_same_sum(alloc, &self.nodes, a, b)? {
            return Ok(true);
        }
        is_same_exclusive_or(alloc, &self.nodes, a, b)
    }
}
