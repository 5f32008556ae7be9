//! What a proof for every number of rows consists of.

use crate::cut::Cut;

/// Steps from the start to a cut, steps from that to itself, and, for each number of rows below those of the second, steps
/// from it to rest. A step is the number of a processor.
#[derive(Drop)]
pub struct LiveProof {
    pub cut: Cut,
    /// From the start to the cut.
    pub opening: Vec<u32>,
    /// How many rows stand behind the cut then.
    pub first_rows: u32,
    /// How many instructions a processor executes at most until then. At least 1.
    pub first_limit: u32,
    /// From the cut to itself.
    pub kernel: Vec<u32>,
    /// So many rows later.
    pub rows: u32,
    /// How many instructions a processor executes at most in between. At least 1.
    pub limit: u32,
    /// To rest, for 0, 1, .. rows more than the cut sees.
    pub endings: Vec<Vec<u32>>,
    /// How many instructions a processor executes at most then. At least 1.
    pub last_limit: u32,
    /// How many of the words that it is due each port lacks at rest, at most, by its number.
    pub lacks: Vec<u32>,
}
