//! Cuts of runs with terms.

use raw_flow::Node;
use raw_model::Mark;
use raw_switch::SwitchState;
use std::marker::Model;

/// A tile at a cut.
#[derive(Drop)]
pub struct CutTile {
    /// For each register the number of the node whose word it holds.
    pub regs: [u32; 32],
    /// The number of the next instruction.
    pub pc: u32,
    /// Whether it goes on.
    pub mark: Mark,
    /// For each word of the memory, by rising address, the number of its node.
    pub memory: Vec<u32>,
}

impl Model for CutTile {
    ghost use Rattle.raw_model.specs.Local.{TileLocal};

    ghost Value = { TileLocal };

    ghost view = { λ t. record { regs = t.regs; pc = t.pc; count = 0; mark = t.mark; memory = t.memory.items } };
}

/// A port at a cut.
#[derive(Drop)]
pub struct CutPort {
    /// How many words it has put in or taken out, counted from the row of the cut on.
    pub done: u64,
    /// The numbers of the nodes whose words a sink has taken out since then.
    pub got: Vec<u32>,
}

impl Model for CutPort {
    ghost use Rattle.raw_model.specs.Local.{PortLocal};

    ghost Value = { PortLocal };

    ghost view = { λ p. record { done = p.done; got = p.got.items } };
}

/// A processor at a cut. What a switch has counted is not looked at.
#[derive(Drop)]
pub enum CutLocal {
    Tile(CutTile),
    Switch(SwitchState),
    Source(CutPort),
    Sink(CutPort),
}

/// A state of a run in which the number of a node stands for each word. The inputs of its nodes are what is carried into
/// a row, and the words of that row and of those behind it.
#[derive(Drop)]
pub struct Cut {
    /// How many rows have words among the inputs.
    pub window: u32,
    /// Node 0 is the word 0.
    pub nodes: Vec<Node>,
    /// The processors, in the order of their numbers.
    pub locals: Vec<CutLocal>,
    /// The numbers on each wire, front first.
    pub wires: Vec<Vec<u32>>,
}
