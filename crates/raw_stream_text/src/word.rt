//! The words with which lines begin that no flow has, or that say more than in a flow.
ghost use Rattle.std.specs.Prelude.{◌≡◌};
ghost use Rattle.raw_asm.specs.NameTable.{named_in};
ghost use Rattle.raw_stream_text.specs.Forms.{word_name, all_words};

/// The first word of a line.
#[derive(Clone, Copy, PartialEq, Eq)]
pub enum Word {
    Rows,
    Input,
    Out,
    Feed,
}

impl Word {
    /// All words.
    const ALL: [Word; 4] = [Word::Rows, Word::Input, Word::Out, Word::Feed];

    /// How the word is written.
    pub(crate) fn name(self) -> &'static str
        ensures { result.now ≡ word_name self }
    {
        match self {
            Word::Rows => "rows",
            Word::Input => "input",
            Word::Out => "out",
            Word::Feed => "feed",
        }
    }

    /// The word that a token is.
    pub(crate) fn with_name(token: &[u8]) -> Option<Word>
        ensures { result ≡ named_in word_name all_words token.now }
    {
        Word::ALL
            .iter()
            .copied()
            .find(|word| word.name().as_bytes() == token)
    }
}
