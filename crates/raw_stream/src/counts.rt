//! How many words the rows of a stream take and give, and whether they are more than a set can have.
ghost use Rattle.std.specs.Prelude.{◌≡◌, ◌-◌, ◌*◌, ◌<◌, ◌≤◌, ◌^◌, length, nat_lt};
ghost use Rattle.raw_model.specs.declared.limits.TheConstants.{MAX_ALL_WORDS, MAX_ALL_CAPACITIES};
ghost use Rattle.raw_stream.specs.Streams.{due_at};
ghost use Rattle.raw_stream.specs.Unrolled.{takes, width, rank, word_count};
ghost use Rattle.raw_stream.specs.Kept.{gives, due_count, has_full_sink, all_due_count, is_large};

use crate::out::StreamOut;
use crate::row_node::RowNode;
use crate::stream::StreamFlow;
use raw_flow::MAX_NODES;
use raw_model::limits::{MAX_ALL_CAPACITIES, MAX_ALL_WORDS, MAX_CAPACITY};

// How many words a node takes of a source.
fn takes(node: RowNode, port: usize) -> usize
    ensures { result ≡ takes port node }
{
    match node {
        RowNode::Input { port: other } if other as usize == port => 1,
        RowNode::Input { .. } => 0,
        RowNode::Const { .. } => 0,
        RowNode::Apply { .. } => 0,
        RowNode::Pre { .. } => 0,
    }
}

// How many words an out gives to a sink.
fn gives(out: StreamOut, port: usize) -> usize
    ensures { result ≡ gives port out }
{
    if out.port as usize == port { 1 } else { 0 }
}

// So many words in each of so many rows.
fn in_rows(count: u32, each: usize) -> u64
    requires { each < 2 ^ 32 }
    ensures value { result ≡ count * each }
    ensures few { result < 2 ^ 64 - 2 ^ 32 }
{
    u64::from(count) * (each as u64)
}

impl StreamFlow {
    /// How many words the source of this number gives a row.
    pub fn width(&self, port: usize) -> usize
        ensures value { result ≡ width self.now port }
        ensures few { result ≤ length self.now.nodes }
    {
        let mut count = 0;
        for place in 0..self.nodes.len() {
            count += takes(self.nodes[place], port);
        }
        count
    }

    /// How many words of the source of this number stand before a node in a row.
    pub fn rank(&self, port: usize, node: usize) -> usize
        requires { node ≤ length self.now.nodes }
        ensures value { result ≡ rank self.now port node }
        ensures few { result ≤ node }
    {
        let mut count = 0;
        for place in 0..node {
            count += takes(self.nodes[place], port);
        }
        count
    }

    // How many words a sink gets of a row.
    fn due_len(&self, port: usize) -> usize
        ensures value { result ≡ length (due_at self.now port) }
        ensures few { result ≤ length self.now.outs }
    {
        let mut count = 0;
        for place in 0..self.outs.len() {
            count += gives(self.outs[place], port);
        }
        count
    }

    /// How many words the source of this number gives in all rows.
    pub fn taken_of(&self, port: usize) -> u64
        requires { length self.now.nodes < 2 ^ 32 }
        ensures value { result ≡ self.now.count * width self.now port }
        ensures few { result < 2 ^ 64 - 2 ^ 32 }
    {
        in_rows(self.count, self.width(port))
    }

    /// How many words the sink of this number gets in all rows.
    pub fn due_of(&self, port: usize) -> u64
        requires { length self.now.outs < 2 ^ 32 }
        ensures value { result ≡ due_count self.now port }
        ensures few { result < 2 ^ 64 - 2 ^ 32 }
    {
        in_rows(self.count, self.due_len(port))
    }

    // Whether all sources give more words than a set can have.
    fn has_many_words(&self) -> bool
        requires { length self.now.nodes < 2 ^ 32 }
        ensures { result ≡ nat_lt MAX_ALL_WORDS (word_count self.now) }
    {
        let mut total = 0;
        for port in 0..self.sources.len() {
            total += self.taken_of(port);
            if total > u64::from(MAX_ALL_WORDS) {
                return true;
            }
        }
        false
    }

    // Whether one sink gets more words than it may have room for.
    fn has_full_sink(&self) -> bool
        requires { length self.now.outs < 2 ^ 32 }
        ensures { result ≡ has_full_sink self.now }
    {
        for port in 0..self.sinks.len() {
            if self.due_of(port) > u64::from(MAX_CAPACITY) {
                return true;
            }
        }
        false
    }

    // Whether all sinks get more words than they may have room for.
    fn has_full_sinks(&self) -> bool
        requires { length self.now.outs < 2 ^ 32 }
        ensures { result ≡ nat_lt MAX_ALL_CAPACITIES (all_due_count self.now) }
    {
        let mut total = 0;
        for port in 0..self.sinks.len() {
            total += self.due_of(port);
            if total > u64::from(MAX_ALL_CAPACITIES) {
                return true;
            }
        }
        false
    }

    /// Whether there are more nodes, or more words of all sources, for one sink or for all, than the limits allow.
    pub fn is_large(&self) -> bool
        requires nodes { length self.now.nodes < 2 ^ 32 }
        requires outs { length self.now.outs < 2 ^ 32 }
        ensures { result ≡ is_large self.now }
    {
        self.nodes.len() > MAX_NODES
            || self.has_many_words()
            || self.has_full_sink()
            || self.has_full_sinks()
    }
}
