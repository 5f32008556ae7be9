//! The trace of the clock of a program set: lines from which the state of the grid before each cycle is rebuilt by copying
//! values, without emulating an instruction.
//!
//! `specs/` defines its lines, first as what they tell and then as text, and how they are read. `law_reading` says that
//! what is read is the state of the clock, `law_whole` what the lines of a whole run tell of it, and `law_no_markup` of which
//! bytes the text is. They do nothing when called.
#![tactic(auto)]

mod entry;
mod laws;
mod limits;

pub use entry::Entry;
pub use laws::{law_no_markup, law_reading, law_whole};
pub use limits::MAX_WHOLE_TURNS;
