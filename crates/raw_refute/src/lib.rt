//! Sets against claims, by runs: what a run with given words says of a claim, and words that show that one is false.
//!
//! All runs of a set with the same words come to the same rest. So one run, in the serial order, tells how each of them
//! ends, and where it does not end as the claim says, its words refute the claim.
#![tactic(auto)]

mod answering;
mod fault;
mod feeding;
mod judging;
mod row_answering;
mod row_judging;
mod said;
mod seeing;

pub use answering::answer;
pub use fault::Fault;
pub use judging::{Ran, judge};
pub use row_answering::answer_rows;
pub use row_judging::judge_rows;
pub use said::Answer;
