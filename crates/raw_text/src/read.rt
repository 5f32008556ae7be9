//! Reading a whole text.
ghost use Rattle.std.specs.Prelude.{◌≡◌, ◌≤◌, None, length, map, IfOk, OnOk, IfErr};
ghost use Rattle.raw_text.specs.Lines.{lines_of, tokens_of, first_fault, IsCause};
ghost use Rattle.raw_text.specs.Text.{text_lines};

use crate::limits::MAX_TEXT;
use crate::lines::{TextRefusal, cut_lines};
use crate::text::Text;
use std::alloc::Global;

/// Cuts the bytes into lines, which are numbered from 1, and each line into its tokens.
///
/// It goes over the bytes once, from front to back, and takes memory for the places of tokens and
/// lines alone, four bytes a token and eight a line. A refusal names the first faulty line, or is want of memory; the bytes are given up.
pub fn read_text(alloc: Global, bytes: Vec<u8>) -> Result<Text, TextRefusal>
    requires { length bytes.items ≤ MAX_TEXT }
    ensures bytes { IfOk result (λ text. text.bytes.items ≡ bytes.items) }
    ensures lines { IfOk result (λ text. text_lines text ≡ map tokens_of (lines_of bytes.items)) }
    ensures faultless { OnOk result (first_fault 1 (lines_of bytes.items) ≡ None) }
    ensures cause { IfErr result (λ refusal. IsCause refusal (first_fault 1 (lines_of bytes.items))) }
{
    let places = cut_lines(alloc, &bytes)?;
    Ok(Text {
        bytes,
        starts: places.starts,
        lines: places.lines,
    })
}
