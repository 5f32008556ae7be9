//! Laws of what the commands of `rawgrid` owe of texts and images that others of them wrote.
#![tactic(auto)]

mod laws;

pub use laws::{law_checked_history, law_made_sets, law_same_set};
