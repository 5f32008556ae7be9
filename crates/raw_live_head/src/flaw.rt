//! What is wrong with a line of live input, and the line on `err` that tells it.
ghost use Rattle.raw_live_head.specs.Flaws.{flaw_line};

use raw_io::{Failed, Sink};
use raw_live_text::LineFault;
use raw_set_text::SetKind;
use raw_shell::{Flaw, put_refused};

/// What is wrong with a line of the input, counted from 1.
#[derive(Clone, Copy, PartialEq, Eq)]
pub enum LineFlaw {
    /// The line is a fault of the set text.
    Set { line: u32, kind: SetKind },
    /// The line has this fault as a line of text, or as one behind the mark.
    Put { line: u32, kind: LineFault },
}

impl Flaw for LineFlaw {
    ghost line = { flaw_line };

    fn put_line<E: Sink>(self, err: &mut E) -> Result<(), Failed> {
        match self {
            LineFlaw::Set { line, kind } => {
                put_refused(err, b"refused line ", u64::from(line), kind.word())
            }
            LineFlaw::Put { line, kind } => {
                put_refused(err, b"refused line ", u64::from(line), kind.word())
            }
        }
    }
}

/// Why live input was not read to its end, or the output not written.
pub type Failure = raw_shell::Failure<LineFlaw>;
