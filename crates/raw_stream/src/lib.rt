//! Stream flows: what is computed of one row of words, what is kept from row to row, and how many rows there are.
//!
//! A stream means the ordinary flow that it is when it is unrolled; `specs/Unrolled.antt` says which one. Row by row it
//! computes what `specs/Streams.antt` says, and the law says that both are the same. It does nothing when called.
#![tactic(auto)]

mod counts;
mod laws;
mod limits;
mod out;
mod row_node;
mod stream;

pub use laws::law_unrolled;
pub use limits::MAX_ROWS;
pub use out::StreamOut;
pub use row_node::RowNode;
pub use stream::StreamFlow;
