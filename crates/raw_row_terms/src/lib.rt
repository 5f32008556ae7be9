//! Rows of streams as terms of a table, and what they say of a set.
//!
//! A row is a plain flow, whose inputs are what is carried into it and its words. Where numbers of terms stand for these,
//! each node of the row gets the number of its term, in the order of the nodes, and so does what is carried out of it.
//! `specs/RowClaims.antt` says what the serial run of a set with terms says of a stream, and the law what that shows.
#![tactic(auto)]

mod claiming;
mod laws;
mod row;
mod runs;
mod terms;

pub use claiming::claim_rows;
pub use laws::{law_rows_proved, law_rows_right, law_seated};
pub use row::{place_row, plain_nodes};
pub use terms::place;
