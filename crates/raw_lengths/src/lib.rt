//! Whether a set whose loops count is proved against all rows of a stream: the search for a proof, and its check.
//!
//! Such a set goes from a cut to itself again and again, and the words that count fall by the same each time. They are
//! carried beside the words of the stream, as nodes that name each other alone, so that one run with terms shows what each
//! pass does; and where a branch looks at one of them, its value is looked at in each pass. `raw_rows` says what such a
//! proof consists of, and what it shows.
#![tactic(auto)]

mod closing;
mod counters;
mod deciding;
mod extended;
mod halting;
mod looking;
mod noting;
mod proof;
mod proving;
mod searching;
mod seeking;
mod steady;
mod telling;

pub use deciding::is_length_proof;
pub use proof::LengthProof;
pub use proving::prove_length;
pub use seeking::find_length_proof;
