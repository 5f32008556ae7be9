//! The text of a program set: what its lines mean, read into the set, and the listing of a set.
//!
//! The set of a text (`raw_tests/src/fabric.rt`):
//!
//! ```
//! let text = read_text(alloc, bytes)?;
//! let lines = text.line_count();
//! match read_set(alloc, &text, lines) {
//!     Ok(set) => Ok(set),
//!     Err(_) => Err("no set".into()),
//! }
//! ```
#![tactic(auto)]

mod builder;
mod declaration;
mod forms;
mod head;
mod kind;
mod laws;
mod lister;
mod ports;
mod reader;
mod refused;
mod tile_memory;
mod tile_parts;
mod tiles;
mod word;

pub use declaration::{Edge, Position};
pub use forms::{edge, numbers};
pub use kind::{SetKind, SetRefusal};
pub use laws::{law_one_answer, law_one_text, law_read_back};
pub use lister::{list_feeds, list_set};
pub use reader::read_set;
