//! The dataflow compiler: straight-line definitions of words, and the program sets that make them on a grid.
//!
//! A flow is a list of nodes, each an input, a constant, or an operation on the values of earlier nodes. The value
//! of each node is made at a tile, its home, and is carried to other tiles along the trees of the route planner.
//!
//! The sum of two inputs and its square, which is 49 of 3 and 4 (`raw_tests/src/flow.rt`):
//!
//! ```
//! let nodes = SUM_AND_SQUARE.to_vec(alloc)?;
//! let flow = Flow::new(2, 1, nodes, [3].to_vec(alloc)?).ok_or("no flow")?;
//! assert!(rt; flow.input_count() == 2);
//! assert!(rt; direct(alloc, &flow, &[3, 4])?.as_slice() == [49].as_slice());
//! ```
#![tactic(auto)]

mod compiling;
mod flow;
mod giving;
mod laws;
mod limits;
mod node;
mod places;
mod ports;
mod values;

pub use compiling::{compile, compile_at};
pub use flow::Flow;
pub use laws::{law_compiled, law_compiled_at, law_flow, law_flow_at, law_values};
pub use limits::MAX_NODES;
pub use node::{FlowOp, Node};
pub use ports::Ports;
pub use values::direct;
