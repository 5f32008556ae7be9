//! The bytes of a program set, its image: written from a set, and read back into it or refused with the
//! first fault.
//!
//! An image is a concatenation of fields in a fixed order, numbers big-endian. Version 2 is written, and
//! versions 1 and 2 are read. The format is this project's own; `docs/FORMATS.md` has its two tables of
//! fields.
#![tactic(auto)]

mod fields;
mod kind;
mod laws;
mod ports;
mod programs;
mod reader;
mod refused;
mod shows;
mod tiles;
mod version;
mod writer;

pub use kind::{ImageKind, ImageRefusal};
pub use laws::{law_faults, law_one_answer, law_read_back};
pub use reader::read_image;
pub use writer::write_image;
