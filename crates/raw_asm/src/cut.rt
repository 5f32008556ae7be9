//! The tokens of a line, and the lines of a section.
ghost use Rattle.std.specs.Prelude.{◌≡◌, ◌≤◌, ◌<◌, length, slice_index_or, []};
ghost use Rattle.raw_text.specs.Text.{text_lines};

use raw_text::{MAX_TEXT, Text};

/// The tokens of a line from one of them on.
#[derive(Clone, Copy)]
pub struct Tokens<'a> {
    text: &'a Text,
    line: usize,
    first: usize,
    end: usize,
    ghost there: { line < length (text_lines text.now) },
    ghost whole: { end ≡ length (slice_index_or (text_lines text.now) line []) },
    ghost within: { first ≤ end },
}

impl<'a> Tokens<'a> {
    ghost use Rattle.std.specs.Prelude.{◌≡◌, ◌≤◌, ◌<◌, ◌∷◌, length, slice_index_or, [], drop, Option, Some, None};
    ghost use Rattle.raw_asm.specs.Tokens.{tokens_of};
    ghost use Rattle.raw_asm.specs.Names.{label_of, statement_of};
    ghost use Rattle.std.specs.Option.{option_map};

    /// How many they are.
    pub fn len(&self) -> usize
        ensures { result ≡ length (tokens_of self.now) }
    {
        self.end - self.first
    }

    /// The token at this place, which is counted from 0.
    pub fn at(&self, place: usize) -> &'a [u8]
        requires { place < length (tokens_of self.now) }
        ensures { result.now ≡ slice_index_or (tokens_of self.now) place [] }
    {
        self.text.token(self.line, self.first + place)
    }

    /// The tokens behind so many of them.
    pub fn behind(&self, count: usize) -> Tokens<'a>
        requires { count ≤ length (tokens_of self.now) }
        ensures { tokens_of result ≡ drop count (tokens_of self.now) }
    {
        Tokens {
            text: self.text,
            line: self.line,
            first: self.first + count,
            end: self.end,
        }
    }

    /// The label of a line that these are the tokens of: a first token that ends with `:`, without it.
    pub fn label(&self) -> Option<&'a [u8]>
        ensures { option_map (λ name. name.now) result ≡ label_of (tokens_of self.now) }
    {
        if self.len() == 0 {
            return None;
        }
        self.at(0).strip_suffix(b":")
    }

    /// The statement of a line that these are the tokens of: what stands behind its label.
    pub fn statement(&self) -> Tokens<'a>
        ensures { tokens_of result ≡ statement_of (tokens_of self.now) }
    {
        if self.label().is_some() {
            self.behind(1)
        } else {
            *self
        }
    }
}

/// Some lines of a text: those from the place `from` up to `to`, which is not their own.
#[derive(Clone, Copy)]
pub struct Section<'a> {
    text: &'a Text,
    from: usize,
    to: usize,
    ghost order: { from ≤ to },
    ghost within: { to ≤ length (text_lines text.now) },
}

impl<'a> Section<'a> {
    ghost use Rattle.std.specs.Prelude.{◌≡◌, ◌≤◌, ◌<◌, ◌+◌, length, slice_index_or, slice_range, []};
    ghost use Rattle.raw_text.specs.Text.{text_lines};
    ghost use Rattle.raw_asm.specs.Tokens.{tokens_of, section_lines};

    /// The lines of the text from a place up to another, both counted from 0.
    pub fn new(text: &'a Text, from: usize, to: usize) -> Section<'a>
        requires order { from ≤ to }
        requires within { to ≤ length (text_lines text.now) }
        ensures lines { section_lines result ≡ slice_range (text_lines text.now) from to }
        ensures from { result.from ≡ from }
    {
        Section { text, from, to }
    }

    /// How many lines they are.
    pub fn len(&self) -> usize
        ensures count { result ≡ length (section_lines self.now) }
        ensures few { result ≤ MAX_TEXT }
    {
        self.to - self.from
    }

    /// The tokens of the line at this place of the section, which is counted from 0.
    pub fn line(&self, place: usize) -> Tokens<'a>
        requires { place < length (section_lines self.now) }
        ensures { tokens_of result ≡ slice_index_or (section_lines self.now) place [] }
    {
        let line = self.from + place;
        Tokens {
            text: self.text,
            line,
            first: 0,
            end: self.text.tokens_in(line),
        }
    }

    /// The number in the text of the line at this place, counted from 1.
    pub fn line_number(&self, place: usize) -> u32
        requires { place < length (section_lines self.now) }
        ensures { result ≡ self.now.from + place + 1 }
    {
        (self.from + place + 1) as u32
    }
}
