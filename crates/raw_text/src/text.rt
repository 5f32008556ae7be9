//! A text as a whole: its bytes, and the lines of tokens that stand in them.
ghost use Rattle.std.specs.Prelude.{◌≤◌, length};
ghost use Rattle.std.specs.List.{All};
ghost use Rattle.raw_text.specs.Tokens.{BeginsToken, AreInOrder, IsPart, AreLinesInOrder};
ghost use Rattle.raw_text.specs.declared.limits.TheConstants.{MAX_TEXT};

use crate::lines::Line;
use crate::scan::token_len;

/// A text of at most 33,554,432 bytes, cut into lines of tokens.
///
/// The line at place `i` has the number `i + 1`. `starts` are the places where the tokens of all lines begin in the
/// bytes. Tokens are not empty, lie within the bytes and stand in order, in a line and from line to line.
#[derive(Drop)]
pub struct Text {
    pub bytes: Vec<u8>,
    pub starts: Vec<u32>,
    pub lines: Vec<Line>,
    ghost few: { length lines.items ≤ MAX_TEXT },
    ghost small: { length bytes.items ≤ MAX_TEXT },
    ghost tokens: { All (BeginsToken bytes.items) starts.items },
    ghost ordered: { AreInOrder bytes.items starts.items },
    ghost parts: { All (IsPart (length starts.items)) lines.items },
    ghost lines_ordered: { AreLinesInOrder lines.items },
}

impl Text {
    ghost use Rattle.std.specs.Prelude.{◌≡◌, ◌<◌, ◌≤◌, length, slice_index_or, []};
    ghost use Rattle.std.specs.List.{position};
    ghost use Rattle.raw_text.specs.Text.{text_lines, is_word};

    /// How many lines there are.
    pub fn line_count(&self) -> usize
        ensures count { result ≡ length (text_lines self.now) }
        ensures few { result ≤ MAX_TEXT }
    {
        self.lines.len()
    }

    /// How many tokens the line at place `line` has; lines are counted from 0.
    pub fn tokens_in(&self, line: usize) -> usize
        requires { line < length (text_lines self.now) }
        ensures { result ≡ length (slice_index_or (text_lines self.now) line []) }
    {
        let Line { first, end } = self.lines[line];
        (end - first) as usize
    }

    /// The bytes of the token at place `token` of the line at place `line`; both are counted from 0.
    pub fn token(&self, line: usize, token: usize) -> &[u8]
        requires line { line < length (text_lines self.now) }
        requires token { token < length (slice_index_or (text_lines self.now) line []) }
        ensures { result.now ≡ slice_index_or (slice_index_or (text_lines self.now) line []) token [] }
    {
        let first = self.lines[line].first as usize;
        let rest = &self.bytes[self.starts[first + token] as usize..];
        &rest[..token_len(rest)]
    }

    /// Whether the line's only token is the word.
    fn is_word(&self, line: usize, word: &[u8]) -> bool
        requires { line < length (text_lines self.now) }
        ensures { result ≡ is_word word.now (slice_index_or (text_lines self.now) line []) }
    {
        self.tokens_in(line) == 1 && self.token(line, 0) == word
    }

    /// The place, counted from 0, of the first line whose only token is the word; `None` where no
    /// line is so.
    pub fn find_word(&self, word: &[u8]) -> Option<usize>
        ensures { result ≡ position (is_word word.now) (text_lines self.now) }
    {
        for line in 0..self.lines.len() {
            if self.is_word(line, word) {
                return Some(line);
            }
        }
        None
    }
}
