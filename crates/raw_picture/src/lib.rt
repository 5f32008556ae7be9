//! The picture of a machine at rest: one SVG document that shows the grid, what each processor does, the values
//! on its wires, and who waits for whom.
//!
//! The document is drawn layer by layer. Each piece of it stands at a place that column, row and lane alone
//! decide, so that nothing depends on another piece or on how wide a text is. No call takes memory.
#![tactic(auto)]

mod boxes;
mod course;
mod drawing;
mod drawn;
mod forms;
mod frame;
mod ground;
mod laws;
mod layers;
mod layout;
mod legend;
mod names;
mod opening;
mod ports;
mod style;
mod told;
mod waits;
mod wires;

pub use drawing::write_picture;
pub use laws::{law_no_escapes, law_no_markup, law_same_picture};
