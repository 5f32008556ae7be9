//! What is wrong with an input, and the line of each flaw.
ghost use Rattle.std.specs.Prelude.{◌≡◌};
ghost use Rattle.raw_io.specs.Writing.{Writes};
ghost use Rattle.raw_inputs.specs.Flaws.{flaw_line, refusal_line, line_kind_text};

use raw_image::ImageKind;
use raw_io::{Failed, Sink};
use raw_set_text::SetKind;
use raw_shell::{Flaw, put_refused};

/// What is wrong with a line of an input.
#[derive(Clone, Copy, PartialEq, Eq)]
pub enum LineKind {
    /// The line is a fault of a set text, or of the text of a plan, a flow or a claim.
    Set(SetKind),
    /// The line of a history says no step.
    BadEntry,
    /// The line of a script is no command.
    BadCommand,
}

/// Where an input is refused, and why.
#[derive(Clone, Copy, PartialEq, Eq)]
pub enum Refusal {
    /// This line, counted from 1, is faulty.
    Line(u32, LineKind),
    /// An image is faulty at this offset, in bytes from its start.
    Image(u64, ImageKind),
}

/// What is wrong with an input.
#[derive(Clone, Copy, PartialEq, Eq)]
pub enum InputFlaw {
    /// It is faulty, here.
    At(Refusal),
    /// This line of a script, counted from 1, names more steps of a processor than it takes. What the lines before it show
    /// was put on `out`.
    PastEnd(u32),
}

/// Why a command was not done.
pub type Failure = raw_shell::Failure<InputFlaw>;

fn line_word(kind: LineKind) -> &'static [u8]
    ensures { result.now ≡ line_kind_text kind }
{
    match kind {
        LineKind::Set(kind) => kind.word(),
        LineKind::BadEntry => b"bad-entry",
        LineKind::BadCommand => b"bad-command",
    }
}

fn put_refusal<E: Sink>(err: &mut E, refusal: Refusal) -> Result<(), Failed>
    ensures { Writes (E.sight err.old) (E.sight err.new) (refusal_line refusal) result }
{
    match refusal {
        Refusal::Line(line, kind) => {
            put_refused(err, b"refused line ", u64::from(line), line_word(kind))
        }
        Refusal::Image(offset, kind) => {
            put_refused(err, b"refused image at ", offset, kind.word())
        }
    }
}

impl Flaw for InputFlaw {
    ghost line = { flaw_line };

    fn put_line<E: Sink>(self, err: &mut E) -> Result<(), Failed> {
        match self {
            InputFlaw::At(refusal) => put_refusal(err, refusal),
            InputFlaw::PastEnd(line) => {
                put_refused(err, b"refused line ", u64::from(line), b"past-end")
            }
        }
    }
}
