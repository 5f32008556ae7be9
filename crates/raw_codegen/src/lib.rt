//! Programs of all tiles and switches of a grid as one list of parts.
#![tactic(auto)]

mod laws;
mod limits;
mod programs;

pub use laws::{
    law_blocks, law_giving, law_halts, law_lawful_parts, law_parts, law_rows, law_scripts,
    law_single_steps, law_stored_words, words_fit,
};
pub use limits::{PARTS_LIMIT, WORDS_IN_REACH};
pub use programs::{GiveRefusal, Programs};
