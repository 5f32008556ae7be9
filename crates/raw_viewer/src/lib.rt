//! The page on which a reader steps through a run in a browser: what stands before the trace of the run, and behind it.
//!
//! The page itself is written in HTML, CSS and JavaScript, in the folder `viewer` at the top of the repository, and
//! `tools/viewer` makes its two constants from it. No call takes memory.
#![tactic(auto)]

mod page;

pub use page::{write_head, write_tail};
