//! Whether a set is proved against a stream for every number of rows: the search for a cut, and its check by runs with terms.
//!
//! A cut is a state of a run in which the number of a node stands for each word; `raw_rows` says what a proof from one
//! consists of, and what it shows. Here such a proof is looked for, in a run with terms until its control recurs, and
//! checked, in one run for each part of it. What is said of a set stands on the check alone.
//!
//! For how many rows a set is proved at most (`raw_tests/src/cut.rt`):
//!
//! ```
//! match prove_live(alloc, &set, &stream)? {
//!     Some(Extent { most, .. }) => Ok(Some(most)),
//!     None => Ok(None),
//! }
//! ```
#![tactic(auto)]

mod arriving;
mod beginning;
mod control;
mod copying;
mod cut;
mod deciding;
mod extent;
mod fitting;
mod leading;
mod naming;
mod nodes;
mod numbers;
mod passing;
mod ports;
mod proof;
mod resting;
mod rows;
mod searching;
mod standing;
mod stepping;
mod sweeping;
mod widths;

pub use control::{Moment, moment_of, port_widths};
pub use cut::{Cut, CutLocal, CutPort, CutTile};
pub use deciding::{is_live_proof, opens, start_of};
pub use extent::{Extent, prove_live};
pub use leading::{Begun, arrives, begin_seeing, come_to_rest, has_all_due};
pub use naming::{RowValues, cut_from};
pub use nodes::{are_nodes, carried_out, known, open_inputs, place_all};
pub use numbers::numbers_from;
pub use proof::LiveProof;
pub use rows::carried_count;
pub use searching::{find_live_proof, values_of};
pub use stepping::{go_along, turn};
pub use sweeping::{most_by_one, run_to_rest, sweep};
pub use widths::{Widths, widths_of};
