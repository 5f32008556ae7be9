//! What the programs share: how a call ends, its status and its line on `err`, fixed texts, numbers of workers, the words of
//! a call, and a sink that gathers what is put.
#![tactic(auto)]

mod arguments;
mod ending;
mod failure;
mod gathered;
mod opening;
mod saying;

pub use arguments::{FixedText, fixed_text, workers_of};
pub use ending::CommandEnding;
pub use failure::{Failure, Flaw};
pub use gathered::Gathered;
pub use opening::words_of;
pub use saying::{Answer, conclude, conclude_gathered, end_with, put_refused};
