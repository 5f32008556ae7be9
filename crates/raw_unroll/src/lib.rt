//! Streams, unrolled: a stream as the ordinary flow that it is. And what its sinks are due, row by row, without that flow.
//!
//! Which flow that is, `specs/Unrolled.antt` of `raw_stream` says.
//!
//! The set of a stream, with the words of its sources (`raw_tests/src/stream.rt`):
//!
//! ```
//! match compile_stream(alloc, &input.stream, &input.words) {
//!     Ok(Some(set)) => Ok(received(alloc, &set)?.as_slice() == words),
//!     Ok(None) => Ok(false),
//!     Err(GiveRefusal::TooMany) => Ok(false),
//!     Err(GiveRefusal::Memory) => Err("no memory")?,
//! }
//! ```
#![tactic(auto)]

mod compiling;
mod counts;
mod direct;
mod laws;
mod outs;
mod ports;
mod unrolling;
mod valued;
mod whole;

pub use compiling::compile_stream;
pub use direct::direct_sink;
pub use laws::{law_placed, law_stream_sets, law_streams};
pub use ports::stream_ports;
pub use whole::unroll;
