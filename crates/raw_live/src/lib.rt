//! Live ports: the words that sinks receive, written as they come, by a reader, an engine and a writer beside each
//! other.
#![tactic(auto)]

mod channel;
mod channels;
mod ending;
mod engine;
mod fed;
mod judging;
mod laws;
mod live;
mod sending;
mod tail;
mod together;
mod writer;

pub use engine::{Engine, Runner, run};
pub use fed::Fed;
pub use judging::intake_of;
pub use laws::{law_due, law_gots, law_taken};
pub use live::{Halt, feed_live};
pub use tail::Tail;
pub use writer::{Finish, write_words};
