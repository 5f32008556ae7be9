//! What goes to sinks.

/// In each row the value of a node, by its number, goes to the sink of this number.
#[derive(Clone, Copy, PartialEq, Eq)]
pub struct StreamOut {
    pub port: u32,
    pub node: u32,
}
