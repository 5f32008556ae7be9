//! The serial machine: it runs the grid of a program set, one processor after another.
//!
//! A machine, run to its rest (`raw_tests/src/orders.rt`):
//!
//! ```
//! let set = set_of(alloc, text)?;
//! let mut machine = Machine::open(alloc, &set)?;
//! machine.run();
//! let run = report_of(rt, alloc, &machine)?;
//! ```
#![tactic(auto)]

mod asking;
mod by_ends;
mod copying;
mod laws;
mod machine;
mod need;
mod needs;
mod opening;
mod parts;
mod reading;
mod resetting;
mod running;
mod telling;
mod tile_runs;
mod turn;
mod turns;
mod waiting;
mod wires;

pub use laws::law_taken;
pub use machine::Machine;
pub use needs::{take_operands, unmet_at};
pub use parts::Parts;
pub use raw_processor::{PortState, Processor, SwitchUnit, TileUnit};
pub use running::Ran;
pub use telling::{Event, Sent, Silent, Tells};
pub use tile_runs::register_in;
pub use turn::{Turn, Wait};
pub use turns::{turn_sink, turn_source};
pub use wires::Wires;
