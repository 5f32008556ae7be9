//! What is written for a stream that is scheduled: a set with loops that a search finds, where it is proved that the set
//! meets the stream, and else the compiled set of the flow that the stream is when it is unrolled. And what is written for
//! rows without end: a set that is proved to meet the stream row by row.
#![tactic(auto)]

mod choosing;
mod endless;
mod laws;
mod meeting;
mod numbered;
mod ports;
mod stream_set;

pub use choosing::choose_for_stream;
pub use endless::choose_endless;
pub use laws::{law_compiled_meets, law_its_words};
