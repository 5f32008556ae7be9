//! The text of a claim of rows: a set, a line `claim`, and a stream that says what the set is to compute.
//!
//! A claim, and its stream with the ports of the set (`raw_tests/src/cut.rt`):
//!
//! ```
//! match read_row_claim(alloc, &text) {
//!     Ok(Some(claim)) => {
//!         let RowClaim { set, input } = claim;
//!         let seated = seat(alloc, &set, &input.stream)?;
//!         let SeatedStream { stream, order } = seated;
//!         Ok(Claim { set, stream, order })
//!     }
//!     _ => Err("no claim of rows".into()),
//! }
//! ```
#![tactic(auto)]

mod claim;
mod laws;
mod reader;
mod seats;

pub use claim::RowClaim;
pub use laws::law_one_text;
pub use reader::read_row_claim;
pub use seats::{SeatedStream, seat};
