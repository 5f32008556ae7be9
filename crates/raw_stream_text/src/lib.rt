//! The text of a stream: what its lines mean, read into the stream and the words of its sources.
//!
//! It is the text of a flow whose second line says how many rows there are:
//!
//! ```text
//! grid 1 1
//! rows 3
//! input x
//! def p pre s 0
//! def s add x p
//! out s
//! feed 1 0 0 W 1 2 3
//! ```
#![tactic(auto)]

mod builder;
mod finish;
mod forms;
mod input;
mod laws;
mod line;
mod named;
mod reader;
mod seats;
mod word;

pub use input::StreamInput;
pub use laws::{law_one_answer, law_one_text};
pub use reader::{is_stream, read_stream_from};
