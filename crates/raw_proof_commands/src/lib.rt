//! The commands of `rawgrid` that prove what they say of a set, for all words of its sources: `prove`, `prove
//! --live`, `steady` and `flow --schedule`, with `--endless` and without it.
#![tactic(auto)]

mod endless;
mod live_proved;
mod proved;
mod row_proved;
mod scheduled;
mod steadied;

pub use endless::put_endless;
pub use live_proved::prove_live_claim;
pub use proved::prove_claim;
pub use scheduled::put_schedule;
pub use steadied::put_steadiness;
