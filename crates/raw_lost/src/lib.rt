//! To what the lost cycles of a set are lost: in each of them a processor waits, and the waits of the cycle lead from it to
//! one that does not, which is its root, or come round.
//!
//! `lost_of` steps a machine by the clock and looks at all processors in each cycle; `write_lost` writes the text of the
//! clock with these counts. `law_lost` says that they add up to the cycles in which a processor waited, and does nothing
//! when called.
#![tactic(auto)]

mod counting;
mod finding;
mod laws;
mod lines;
mod lost;
mod root;
mod writing;

pub use counting::lost_of;
pub use laws::law_lost;
pub use lost::Lost;
pub use root::RootKind;
pub use writing::write_lost;
