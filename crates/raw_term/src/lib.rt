//! Terms: words as far as they are known while the words that are put in are not.
//!
//! A term is an input, a word, or an operation on two terms. Terms stand in a table, each with a number; they are
//! made in a normal form, and equal terms have one number. Where numbers of terms stand for words in registers,
//! memories and wires, a machine runs for all words of its sources at once: a row makes terms, and is done only
//! where the words that it looks at are known. The law of claims says what one such run proves of a set.
#![tactic(auto)]

mod action;
mod claim;
mod classes;
mod exclusives;
mod form;
mod laws;
mod limits;
mod place;
mod refusal;
mod rules;
mod sparse;
mod sums;
mod switch;
mod table;
mod tile;
mod verdict;

pub use action::{Action, Operand, action_of};
pub use claim::claim_terms;
pub use classes::{class_at, term_classes};
pub use form::{Form, op_number};
pub use laws::{law_compiled_meets, law_moves_alike, law_proved, law_refuted, law_runs};
pub use limits::MAX_TERMS;
pub use place::{Place, claimed_of};
pub use refusal::TermRefusal;
pub use switch::control;
pub use table::TermTable;
pub use tile::TermTile;
pub use verdict::Verdict;
