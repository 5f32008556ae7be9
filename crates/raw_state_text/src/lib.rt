//! A line of text, and the texts of a machine's state: marks, registers, wires, waits. Reports, answers
//! and pictures are made of them. No call takes memory.
#![tactic(auto)]

mod line;
mod lines;
mod marks;
mod parts;

pub use line::{LINE_SIZE, Line, put_line};
pub use lines::{registers_line, wait_line, wire_line};
