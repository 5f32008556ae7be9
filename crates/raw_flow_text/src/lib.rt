//! The text of a flow: what its lines mean, read into the flow and the words of its inputs.
//!
//! The text gives the size of a grid, defines words by names, and names those that are wanted:
//!
//! ```text
//! grid 2 1
//! input x 3
//! input y 4
//! def s add x y
//! def t mul s s
//! out t
//! ```
#![tactic(auto)]

mod builder;
mod forms;
mod input;
mod laws;
mod line;
mod name;
mod operations;
mod reader;
mod word;

pub use builder::Builder;
pub use forms::{name_at, read_line};
pub use input::FlowInput;
pub use laws::{law_one_answer, law_one_text};
pub use line::Line;
pub use operations::Operations;
pub use reader::{read_flow, read_flow_from};
