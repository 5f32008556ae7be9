//! What a proof for all rows of a stream consists of.

use raw_cut::Cut;
use raw_flow::Node;
use raw_stream::RowNode;

/// Steps from the start to a cut, from that to itself, so many times, and from it to the end. A step is the number of a
/// processor.
#[derive(Drop)]
pub struct LengthProof {
    /// What is carried from row to row beside the words of the stream. They name each other alone.
    pub counters: Vec<RowNode>,
    /// Its inputs are what the stream carries, the counters, and the words of its rows.
    pub cut: Cut,
    /// From the start to the cut.
    pub opening: Vec<u32>,
    /// How many rows stand behind the cut then.
    pub first_rows: u32,
    /// How many instructions a processor executes at most until then. At least 1.
    pub first_limit: u32,
    /// From the cut to itself.
    pub kernel: Vec<u32>,
    /// So many rows later.
    pub rows: u32,
    /// How many instructions a processor executes at most in between. At least 1.
    pub limit: u32,
    /// So many times.
    pub kernels: u32,
    /// Nodes over the counters: on the words of some of them branches look on the way.
    pub looks: Vec<Node>,
    /// From the cut to the end.
    pub ending: Vec<u32>,
    /// How many rows stand between the cut and the end then.
    pub last_rows: u32,
    /// How many instructions a processor executes at most then. At least 1.
    pub last_limit: u32,
}
