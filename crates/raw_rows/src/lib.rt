//! Sets that are proved against a stream for every number of rows.
//!
//! A set with loops goes through the same steps row after row; so a run with terms from a cut of one row to the same cut
//! of a later one stands for all rows between. `specs/Kernels.antt` says what such a proof consists of, and the law says
//! what it shows. It does nothing when called.
#![tactic(auto)]

mod laws;

pub use laws::{law_lengths, law_live};
