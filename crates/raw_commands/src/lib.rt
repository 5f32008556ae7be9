//! The commands of the program `rawgrid`.
//!
//! Everything that the program does is one public call, `raw_program`: the program itself makes the streams and the list of
//! words. `raw_main` does the same over any source, out and err, and gathers nothing.
//!
//! The program over streams in memory (`raw_tests/src/failing.rt`):
//!
//! ```
//! let mut source = MemSource::pieces(input, calls_of(alloc, trial.read_fails)?, piece);
//! let mut out = MemSink::pieces(alloc, 400_000, calls_of(alloc, trial.write_fails)?, piece)?;
//! let mut err = MemSink::new(alloc, trial.err_room, Vec::new(alloc))?;
//! let status = raw_main(rt, alloc, &words, &mut source, &mut out, &mut err, watch);
//! Ok(Seen { status, out, err })
//! ```
#![tactic(auto)]

mod commands;
mod debugged;
mod lined;
mod program;
mod top;

pub use program::raw_program;
pub use raw_inputs::InputFlaw;
pub use top::raw_main;
