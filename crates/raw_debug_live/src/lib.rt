//! `rawgrid debug --live`: the debugger, which answers each line before a byte behind it is asked for.
//!
//! Everything is one public call, `live_debug`, over any source, out and err. Bytes are taken from the source one by one.
#![tactic(auto)]

mod answer;
mod answering;
mod byte;
mod labels;
mod line;
mod top;
mod words;

pub use top::live_debug;
pub use words::asks_live;
