//! The words that lines of a set begin with.
ghost use Rattle.std.specs.Prelude.{◌≡◌};
ghost use Rattle.raw_set_text.specs.Forms.{word_name, word_named};

/// The first word of a line outside sections.
#[derive(Clone, Copy, PartialEq, Eq)]
pub enum Word {
    Grid,
    Limit,
    Depth,
    Source,
    Sink,
    Feed,
    Data,
    Misses,
    Show,
    Tile,
    Switch,
}

impl Word {
    /// All words.
    pub(crate) const ALL: [Word; 11] = [
        Word::Grid,
        Word::Limit,
        Word::Depth,
        Word::Source,
        Word::Sink,
        Word::Feed,
        Word::Data,
        Word::Misses,
        Word::Show,
        Word::Tile,
        Word::Switch,
    ];

    /// How the word is written.
    pub(crate) fn name(self) -> &'static str
        ensures { result.now ≡ word_name self }
    {
        match self {
            Word::Grid => "grid",
            Word::Limit => "limit",
            Word::Depth => "depth",
            Word::Source => "source",
            Word::Sink => "sink",
            Word::Feed => "feed",
            Word::Data => "data",
            Word::Misses => "misses",
            Word::Show => "show",
            Word::Tile => "tile",
            Word::Switch => "switch",
        }
    }

    /// The word that a token is.
    #[tactic(auto, unfolding(crate::specs::Forms::word_named))]
    pub(crate) fn with_name(token: &[u8]) -> Option<Word>
        ensures { result ≡ word_named token.now }
    {
        Word::ALL
            .iter()
            .copied()
            .find(|word| token == word.name().as_bytes())
    }
}
