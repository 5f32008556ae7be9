//! What the assemblers of all instruction sets share: the kinds of fault, names, labels and their places,
//! the order in which the lines of a section are read and refused, and what listings share.
//!
//! An instruction set brings a `Language`: how many instructions a statement gives, and which. What the
//! lines of a section mean, and which is their least fault, is defined over any language.
#![tactic(auto)]

mod assembling;
mod cut;
mod kind;
mod label_table;
mod language;
mod laws;
mod limits;
mod listing;
mod name_table;
mod names;
mod operand;

pub use assembling::assemble;
pub use cut::{Section, Tokens};
pub use kind::{AsmKind, AsmRefusal};
pub use label_table::Labels;
pub use language::{Emitted, Statements};
pub use laws::{law_first_lines, law_one_answer, law_one_each};
pub use limits::MAX_CODE;
pub use listing::separator;
pub use name_table::{NameTable, Names};
pub use operand::{Target, read_target};
