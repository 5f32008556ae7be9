//! The debugger: a script of commands that go to a step of a processor, forth or back, or on until a step does
//! something, and show what the machine holds there.
//!
//! A machine is taken through its steps in the serial order (`serial` of `raw_model`): sweeps over all
//! processors by rising number, in which each that is enabled when its turn comes steps once. What is shown of a
//! processor right after its K-th step is so in every other lawful order too, as `law_shown_state` says, and a stop that is
//! looked for from one of its steps on is at the same K in each of them, as `law_same_stops` says.
#![tactic(auto)]

mod answers;
mod command;
mod debugger;
mod debugging;
mod laws;
mod lines;
mod passing;
mod reading;
mod sent;
mod tokens;
mod trail;
mod walk;

pub use debugger::Debugger;
pub use debugging::{DebugRefusal, debug};
pub use laws::{law_replay, law_same_stops, law_shown_state};
pub use reading::bad_command;
