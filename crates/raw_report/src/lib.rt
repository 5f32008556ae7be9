//! The report of a machine at rest, line by line, and histories: lists of steps as text. The first lines of a report,
//! which say how the machine came to rest, can be put alone.
//!
//! The report of a machine at rest, in memory (`raw_tests/src/orders.rt`):
//!
//! ```
//! assert!(rt; machine.quiet());
//! let mut out = MemSink::new(alloc, 100_000, Vec::new(alloc))?;
//! write_report(machine, outcome(machine), &mut out)?;
//! ```
#![tactic(auto)]

mod history;
mod laws;
mod lines;
mod machine;
mod outcome;
mod ports;
mod writing;

pub use history::{HistoryRefusal, read_history, write_history};
pub use laws::{law_history, law_same_report};
pub use outcome::put_outcome;
pub use ports::port_number;
pub use raw_state_text::{LINE_SIZE, Line};
pub use writing::write_report;
