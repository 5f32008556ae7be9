//! The words after the program's name.
ghost use Rattle.std.specs.Prelude.{◌≡◌, map, string_bytes};
ghost use Rattle.std.specs.Option.{option_and_then};
ghost use Rattle.raw_text.specs.Number.{number_of};
ghost use Rattle.raw_shell.specs.Arguments.{workers_of};
ghost use Rattle.raw_live_run.specs.Arguments.{command_of, alone_of, with_workers};

use raw_shell::{FixedText, fixed_text, workers_of};
use raw_text::number;
use raw_workers::Workers;

/// What the program can do.
#[derive(Clone, Copy, PartialEq, Eq)]
pub enum Command {
    /// Writes a fixed text. It reads nothing.
    Fixed(FixedText),
    /// Feeds a grid.
    Feed {
        /// How many workers run it where a word keeps it running for long, where the words of the command say it.
        workers: Option<Workers>,
    },
}

// The command that one word is.
fn alone(word: &[u8]) -> Option<Command>
    ensures { result ≡ alone_of word.now }
{
    Some(Command::Fixed(fixed_text(word)?))
}

// How many workers a word says; None where it is no such number.
fn workers_in(word: &[u8]) -> Option<Workers>
    ensures { result ≡ option_and_then workers_of (number_of word.now) }
{
    workers_of(number(word)?)
}

// The command with as many workers as a word says.
fn with_workers(word: &[u8]) -> Option<Command>
    ensures { result ≡ with_workers (number_of word.now) }
{
    let workers = Some(workers_in(word)?);
    Some(Command::Feed { workers })
}

/// The command that the words are; None where they are none.
pub fn command_in(words: &[String]) -> Option<Command>
    ensures { result ≡ command_of (map string_bytes words.now) }
{
    match words {
        [] => Some(Command::Feed { workers: None }),
        [word] => alone(word.as_str().as_bytes()),
        [option, count] => {
            if option.as_str().as_bytes() == "--workers".as_bytes() {
                with_workers(count.as_str().as_bytes())
            } else {
                None
            }
        }
        _ => None,
    }
}
