//! The words that lines of a flow text begin with.
ghost use Rattle.std.specs.Prelude.{◌≡◌};
ghost use Rattle.raw_asm.specs.NameTable.{named_in};
ghost use Rattle.raw_flow_text.specs.Forms.{word_name, all_words};

/// The first word of a line.
#[derive(Clone, Copy, PartialEq, Eq)]
pub enum Word {
    Grid,
    Input,
    Def,
    Out,
}

impl Word {
    /// All words.
    const ALL: [Word; 4] = [Word::Grid, Word::Input, Word::Def, Word::Out];

    /// How the word is written.
    pub(crate) fn name(self) -> &'static str
        ensures { result.now ≡ word_name self }
    {
        match self {
            Word::Grid => "grid",
            Word::Input => "input",
            Word::Def => "def",
            Word::Out => "out",
        }
    }

    /// The word that a token is.
    pub(crate) fn with_name(token: &[u8]) -> Option<Word>
        ensures { result ≡ named_in word_name all_words token.now }
    {
        Word::ALL
            .iter()
            .copied()
            .find(|word| word.name().as_bytes() == token)
    }
}
