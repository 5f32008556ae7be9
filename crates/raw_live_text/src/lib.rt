//! The text of live input, read while its source is still open.
//!
//! Behind a set and a line `live` stand lines `put NET X Y SIDE W`, each of which gives the word W to the source at that
//! edge. Each is judged and handed on before more is asked of the source.
#![tactic(auto)]

mod fault;
mod handing;
mod head;
mod intake;
mod laws;
mod progress;
mod put;
mod reader;
mod stop;

pub use fault::LineFault;
pub use head::{Head, HeadEnd, read_head};
pub use intake::Intake;
pub use laws::law_heads;
pub use put::Put;
pub use reader::{PIECE, read_puts};
pub use stop::Stop;
