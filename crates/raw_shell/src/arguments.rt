//! The words of a call that both programs know.
ghost use Rattle.std.specs.Prelude.{◌≡◌};
ghost use Rattle.raw_shell.specs.Arguments.{fixed_text, workers_of, fixed_text_by};

use raw_fabric_rule::Workers;

/// A text that a program writes of itself.
#[derive(Clone, Copy, PartialEq, Eq)]
pub enum FixedText {
    /// How the program is used.
    Help,
    /// The version.
    Version,
}

impl FixedText {
    /// The text, of a program whose help and version these are.
    pub fn of<'t>(self, help: &'t [u8], version: &'t [u8]) -> &'t [u8]
        ensures { result.now ≡ fixed_text_by help.now version.now self }
    {
        match self {
            FixedText::Help => help,
            FixedText::Version => version,
        }
    }
}

/// The fixed text that one word asks for; None where it asks for none.
#[tactic(auto, unfolding(crate::specs::Arguments::fixed_text))]
pub fn fixed_text(word: &[u8]) -> Option<FixedText>
    ensures { result ≡ fixed_text word.now }
{
    if word == "--help".as_bytes() {
        Some(FixedText::Help)
    } else if word == "--version".as_bytes() {
        Some(FixedText::Version)
    } else {
        None
    }
}

/// How many workers a number says; None where there cannot be so many.
pub fn workers_of(number: u32) -> Option<Workers>
    ensures { result ≡ workers_of number }
{
    Workers::new(number)
}
