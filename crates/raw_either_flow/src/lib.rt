//! The text of a flow, plain or of rows: the flow that it means, where its ports stand, and the words of its sources.
#![tactic(auto)]

mod laws;
mod placed;
mod reader;

pub use laws::law_one_text;
pub use placed::PlacedInput;
pub use reader::read_either;
