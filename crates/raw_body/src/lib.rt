//! What is computed of a row of a stream: values, each made of values of the same row and of earlier ones. Equal
//! operations are one, what no out needs is left out, and a value of the row before is named where it is used.
//!
//! A body may be widened: then it is of some rows at once.
#![tactic(auto)]

mod body;
mod building;
mod components;
mod folding;
mod order;
mod site;
mod widening;

pub use body::{Body, Operand, Origin, Position, RowOut, RowValue, SinkId, SourceId, Use};
pub use building::body_of;
pub use components::{Components, GroupId};
pub use order::Order;
pub use site::Site;
