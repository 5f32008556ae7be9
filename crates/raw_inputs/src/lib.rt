//! The inputs of the commands of `rawgrid`, by how they are written: the set that each means, with the steps, the script or
//! the claim behind it, or what is wrong with it, and the line that tells so.
#![tactic(auto)]

mod claims;
mod flaw;
mod form;
mod input;
mod laws;
mod marked;
mod streams;

pub use claims::{Claimed, claim_in};
pub use flaw::{Failure, InputFlaw, LineKind, Refusal};
pub use form::InputForm;
pub use input::{SetText, refused_at, refused_flow, refused_text, set_in, text_in};
pub use laws::{law_every_input, law_one_input};
pub use marked::{Marked, Scripted, script_in, steps_in};
pub use streams::stream_in;
