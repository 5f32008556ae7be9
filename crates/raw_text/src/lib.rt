//! Bytes as a text: lines of tokens, and numbers.
//!
//! A line ends at a newline (byte 10), and a last piece that is not empty is a line. Its tokens are
//! its longest runs of bytes without tabs, carriage returns, spaces and commas, before any `#`.
//!
//! The lines of some bytes, which are to be a set (`raw_tests/src/fabric.rt`):
//!
//! ```
//! let text = read_text(alloc, bytes)?;
//! let lines = text.line_count();
//! ```
#![tactic(auto)]

mod laws;
mod limits;
mod lines;
mod numeral;
mod read;
mod scan;
mod text;

pub use laws::{law_lines, law_numbers, law_tokens};
pub use limits::{MAX_LINE, MAX_TEXT};
pub use lines::{Line, TextRefusal};
pub use numeral::{digits_up_to, number};
pub use read::read_text;
pub use text::Text;
