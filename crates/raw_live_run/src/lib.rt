//! All that the program `rawlive` does: it feeds a grid from input that is still open, and writes what its sinks receive
//! as it comes.
//!
//! Everything is one public call, `live_main`, over any source, out and err. The program itself makes the streams and the
//! list of words.
#![tactic(auto)]

mod answer;
mod arguments;
mod top;

pub use raw_live_head::LineFlaw;
pub use top::live_main;
