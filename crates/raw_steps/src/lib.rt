//! Lists of steps on a machine: whether one is lawful, and one that is woven from the logs of workers.
#![tactic(auto)]

mod checking;
mod following;
mod log;
mod taking;
mod weaving;

pub use checking::{CheckAnswer, Why, check_run};
pub use log::PassLog;
pub use taking::take_step;
pub use weaving::weave;
