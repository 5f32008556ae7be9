//! A line of text, built in place before it is put.
ghost use Rattle.std.specs.Prelude.{◌≡◌, ◌+◌, ◌≤◌, [], ◌++◌, length, decimal};
ghost use Rattle.raw_io.specs.Writing.{Writes};
ghost use Rattle.raw_model.specs.Texts.{word_text};

use arrayvec::ArrayVec;
use itoa::Buffer;
use raw_io::{Failed, Sink, put_all};
use std::marker::Model;

/// How many bytes a line has room for.
pub const LINE_SIZE: usize = 192;

/// A line of text that is being built. It takes no memory.
#[derive(Drop)]
pub struct Line {
    bytes: ArrayVec<u8, LINE_SIZE>,
}

impl Model for Line {
    ghost use Rattle.std.specs.Prelude.{List, ℕ};

    ghost Value = { List ℕ };

    ghost view = { λ line. line.bytes.items };
}

impl Line {
    /// A line with no bytes.
    pub fn new() -> Line
        ensures { result ≡ [] }
    {
        Line {
            bytes: ArrayVec::new(),
        }
    }

    /// What stands in the line.
    pub fn as_bytes(&self) -> &[u8]
        ensures { result.now ≡ self.now }
    {
        self.bytes.as_slice()
    }

    /// Appends a text.
    pub fn push_text(&mut self, text: &[u8])
        requires { length self.old + length text.now ≤ LINE_SIZE }
        ensures text { self.new ≡ self.old ++ text.now }
        ensures len { length self.new ≡ length self.old + length text.now }
    {
        let _ = self.bytes.try_extend_from_slice(text);
    }

    /// Appends a number in decimal, without leading zeros.
    pub fn push_number(&mut self, number: u64)
        requires { length self.old + 20 ≤ LINE_SIZE }
        ensures text { self.new ≡ self.old ++ decimal number }
        ensures len { length self.new ≤ length self.old + 20 }
    {
        let mut buffer = Buffer::new();
        self.push_text(buffer.format(number).as_bytes());
    }

    /// Appends a word as eight lower case hexadecimal digits.
    pub fn push_word(&mut self, word: u32)
        requires { length self.old + 8 ≤ LINE_SIZE }
        ensures text { self.new ≡ self.old ++ word_text word }
        ensures len { length self.new ≡ length self.old + 8 }
    {
        self.push_text(&word_digits(word));
    }
}

// A word as eight lower case hexadecimal digits.
fn word_digits(word: u32) -> [u8; 8]
    ensures { result ≡ word_text word }
{
    let mut digits = [0; 8];
    let _ = hex::encode_to_slice(word.to_be_bytes().as_slice(), &mut digits);
    digits
}

/// Puts a line. It takes no memory; after `Failed` a front of the line is appended, never all of it.
pub fn put_line<K: Sink>(line: &Line, out: &mut K) -> Result<(), Failed>
    ensures { Writes (K.sight out.old) (K.sight out.new) line.now result }
{
    put_all(out, line.as_bytes())
}
