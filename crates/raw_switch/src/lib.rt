//! A switch: one firing is one row of the table of switch instructions, with all its routes.
//!
//! One firing of a switch: what its outputs send, and what it is then (`raw_tests/src/switch.rt`):
//!
//! ```
//! let step = SwitchStep::new(ins);
//! let given = taken(&ins, OFFERS);
//! let mut sent = [None; 10];
//! for output in 0..10 {
//!     sent[output] = state.sent_from(&step, output, &given);
//! }
//! switch_fire(state, 3, &step, &given);
//! ```
#![tactic(auto)]

mod fire;
mod state;
mod step;

pub use fire::switch_fire;
pub use raw_switch_isa::next_end;
pub use state::SwitchState;
pub use step::SwitchStep;
