//! A line of text that is made from its end to its front, in place.
ghost use Rattle.std.specs.Prelude.{◌≡◌, ◌+◌, ◌<◌, ◌≤◌, ◌++◌, [], false, length, drop, decimal};
ghost use Rattle.std.specs.Fmt.{digit_glyph};
ghost use Rattle.raw_io.specs.Writing.{Writes};
ghost use Rattle.raw_trace.specs.Text.{hex};

use itoa::write_digits;
use raw_io::{Failed, Sink, put_all};
use std::marker::Model;

/// How many bytes a line has room for.
pub(crate) const LINE_SIZE: usize = 768;

/// A line of text that is made from its end to its front, so that each number is written where it stands. It is made
/// once, and holds one line after another. It takes no memory.
#[derive(Drop)]
pub(crate) struct Line {
    bytes: [u8; LINE_SIZE],
    // Where the text begins. It ends where the bytes end.
    start: usize,
}

impl Model for Line {
    ghost use Rattle.std.specs.Prelude.{List, ℕ, ◌≡◌, ◌≤◌, drop, length};

    ghost Value = { List ℕ };

    ghost view = { λ line. drop line.start line.bytes };

    ghost invariant = { λ line. (line.start ≤ 768) × (length line.bytes ≡ 768) };
}

impl Line {
    /// A line with no bytes.
    pub(crate) fn new() -> Line
        ensures { result ≡ [] }
    {
        Line {
            bytes: [0; LINE_SIZE],
            start: LINE_SIZE,
        }
    }

    /// Takes all bytes off.
    pub(crate) fn clear(&mut self)
        ensures { self.new ≡ [] }
    {
        self.start = LINE_SIZE;
    }

    /// What stands in the line.
    pub(crate) fn as_bytes(&self) -> &[u8]
        ensures { result.now ≡ self.now }
    {
        &self.bytes[self.start..]
    }

    /// Puts a text in front.
    #[inline(always)]
    pub(crate) fn prepend(&mut self, text: &[u8])
        requires { length self.old + length text.now ≤ LINE_SIZE }
        ensures text { self.new ≡ text.now ++ self.old }
        ensures len { length self.new ≡ length self.old + length text.now }
    {
        self.start = write_text(text, &mut self.bytes, self.start);
    }

    /// Puts a number in front, in decimal, without leading zeros.
    pub(crate) fn prepend_number(&mut self, number: u64)
        requires { length self.old + 20 ≤ LINE_SIZE }
        ensures text { self.new ≡ decimal number ++ self.old }
        ensures len { length self.new ≤ length self.old + 20 }
    {
        self.start = write_digits(number, &mut self.bytes, self.start);
    }

    /// Puts a word in front, in lower case hexadecimal digits, without leading zeros.
    pub(crate) fn prepend_hex(&mut self, word: u32)
        requires { length self.old + 8 ≤ LINE_SIZE }
        ensures text { self.new ≡ hex word ++ self.old }
        ensures len { length self.new ≤ length self.old + 8 }
    {
        self.start = write_hex(word, &mut self.bytes, self.start);
    }
}

// Writes a text so that it ends at `end`, and says where it begins.
#[inline(always)]
fn write_text(text: &[u8], bytes: &mut [u8], end: usize) -> usize
    requires room { length text.now ≤ end }
    requires within { end ≤ length bytes.old }
    ensures start { result + length text.now ≡ end }
    ensures written { drop result bytes.new ≡ text.now ++ drop end bytes.old }
{
    let start = end - text.len();
    bytes[start..end].copy_from_slice(text);
    start
}

// A digit below 16, in lower case.
fn hex_digit(value: u32) -> u8
    requires { value < 16 }
    ensures { result ≡ digit_glyph false value }
{
    if value < 10 {
        b'0' + value as u8
    } else {
        b'a' - 10 + value as u8
    }
}

// Writes a word in hexadecimal digits, without leading zeros, so that they end at `end`, and says where they begin.
fn write_hex(word: u32, bytes: &mut [u8], end: usize) -> usize
    requires room { 8 ≤ end }
    requires within { end ≤ length bytes.old }
    ensures start { result ≤ end }
    ensures few { end ≤ result + 8 }
    ensures written { drop result bytes.new ≡ hex word ++ drop end bytes.old }
{
    let first = end - 8;
    let mut start = end;
    let mut rest = word;
    'digits: while start > first {
        start -= 1;
        bytes[start] = hex_digit(rest % 16);
        rest /= 16;
        if rest == 0 {
            break;
        }
    }
    start
}

/// Puts a line. It takes no memory; after `Failed` a front of the line is appended, never all of it.
pub(crate) fn put_line<K: Sink>(line: &Line, out: &mut K) -> Result<(), Failed>
    ensures { Writes (K.sight out.old) (K.sight out.new) line.now result }
{
    put_all(out, line.as_bytes())
}
