//! What is read has one answer: it means exactly one thing, or has exactly one fault, and not both.
//!
//! `HasOneAnswer` of `specs/OneAnswer.antt` says so for whatever is read. Two proofs lead to it. `Places` goes from a fault
//! at each place to the least of them: what is read line by line means one thing where no place is faulty. `Texts` goes
//! from lines to the bytes of a text, whose first fault as a text comes before all others. So a text brings three things:
//! its fault at a place, what it means, and why a meaning is valid.
#![tactic(auto)]

mod laws;

pub use laws::law_text_faults;
