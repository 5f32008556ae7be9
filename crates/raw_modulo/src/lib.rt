//! The modulo schedule: a time for each instruction and each route of the rows of a body, such that all rows, each so
//! many cycles behind the one before, go through the grid at once.
//!
//! Times are those of the first rows. A place that is taken in one cycle is taken in all cycles that are a multiple of
//! the interval away. Nothing of it is trusted: what is made of a schedule is proved elsewhere.
#![tactic(auto)]

mod board;
mod circles;
mod making;
mod marks;
mod outs;
mod queues;
mod ready;
mod receiving;
mod routes;
mod running;
mod schedule;
mod sending;
mod task;

pub use receiving::Coming;
pub use routes::{Hop, Route, Shape};
pub use running::{Rule, find_schedule};
pub use schedule::Schedule;
pub use sending::Message;
pub use task::{
    Constant, ConstantId, Local, LocalId, OperandId, RowLocal, Task, named, needed_constant, step,
};
