//! A stream: what is computed of one row of words, and how many rows there are.
use crate::out::StreamOut;
use crate::row_node::RowNode;
use raw_grid::PortPlace;
use std::marker::Model;

/// Definitions of the words of a row, what goes to sinks in each row, and how many rows there are, for a grid.
#[derive(Drop)]
pub struct StreamFlow {
    /// How many columns the grid has.
    pub cols: u8,
    /// How many rows the grid has.
    pub rows: u8,
    /// How many rows of words there are.
    pub count: u32,
    /// Where the sources stand, by their numbers.
    pub sources: Vec<PortPlace>,
    /// Where the sinks stand, by their numbers.
    pub sinks: Vec<PortPlace>,
    /// The nodes of a row, in order.
    pub nodes: Vec<RowNode>,
    /// What goes to sinks in each row, in order.
    pub outs: Vec<StreamOut>,
}

impl Model for StreamFlow {
    ghost use Rattle.raw_stream.specs.Streams.{Stream};

    ghost Value = { Stream };

    ghost view = { λ s. record { cols = s.cols; rows = s.rows; count = s.count; sources = s.sources.items; sinks = s.sinks.items; nodes = s.nodes.items; outs = s.outs.items } };
}
