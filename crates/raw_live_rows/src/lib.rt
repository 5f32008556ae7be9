//! The law of rows that are fed by hand: what `rawlive` writes of a set that is proved for every number of rows.
#![tactic(auto)]

mod laws;

pub use laws::law_rows_told;
