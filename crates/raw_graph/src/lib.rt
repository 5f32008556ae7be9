//! Flows as graphs of the values that are needed: operations are in the normal form of terms, equal ones are one, and
//! what no out needs is left out. All inputs stay.
#![tactic(auto)]

mod folding;
mod graph;
mod keeping;
mod trees;

pub use graph::{Graph, InputId, Operand, Origin, commutes};
pub use keeping::graphs_of;
