//! What a program says of how a call ended: its status, and a line on `err`.
ghost use Rattle.std.specs.Prelude.{◌≡◌, Err};
ghost use Rattle.std.specs.Process.{exit_status};
ghost use Rattle.raw_io.specs.Writing.{Writes};
ghost use Rattle.raw_shell.specs.Answers.{status_of, failure_status, err_line, refused_line, Said};
ghost use Rattle.raw_shell.specs.Seen.{sink_seen};
ghost use Rattle.raw_shell.specs.Gathered.{behind, IsFirst};

use crate::ending::CommandEnding;
use crate::failure::{Failure, Flaw};
use crate::gathered::Gathered;
use itoa::Buffer;
use raw_io::{Failed, Sink, put_each};
use std::process::ExitCode;

/// How a call of a program ended: how a command did that was done, or why it was not done.
pub type Answer<F> = Result<CommandEnding, Failure<F>>;

/// Puts the line of a refusal: where, in words and as a number, and why.
pub fn put_refused<E: Sink>(
    err: &mut E,
    place: &[u8],
    number: u64,
    word: &[u8],
) -> Result<(), Failed>
    ensures { Writes (E.sight err.old) (E.sight err.new)
        (refused_line place.now number word.now) result }
{
    let mut buffer = Buffer::new();
    let digits = buffer.format(number).as_bytes();
    put_each(err, &[place, digits, b": ", word, b"\n"])
}

fn put_line<F: Flaw, E: Sink>(err: &mut E, failure: Failure<F>) -> Result<(), Failed>
    ensures { Writes (E.sight err.old) (E.sight err.new) (err_line F.line failure) result }
{
    match failure {
        Failure::Use => put_each(err, &[b"refused use\n"]),
        Failure::Refused(flaw) => flaw.put_line(err),
        Failure::ReadFault => put_each(err, &[b"read fault\n"]),
        Failure::WriteFault => put_each(err, &[b"write fault\n"]),
        Failure::Memory => put_each(err, &[b"no memory\n"]),
        Failure::TooLong => put_each(err, &[b"input too long\n"]),
    }
}

// Puts the line of a command that was not done. That this fails changes nothing.
fn say<F: Flaw, E: Sink>(err: &mut E, answer: Answer<F>)
    ensures { Said F.line (sink_seen E.sight err.old err.new) answer }
{
    match answer {
        Ok(_) => {}
        Err(failure) => {
            let _ = put_line(err, failure);
        }
    }
}

// The status with which the program ends.
fn status<F: Copy>(answer: Answer<F>) -> u8
    ensures { result ≡ status_of answer }
{
    match answer {
        Ok(ending) => ending.status(),
        Err(failure) => failure.status(),
    }
}

/// Says on `err` how a call ended, by the line of a command that was not done, and answers the status of the program. That
/// a call of `err` fails changes nothing.
pub fn conclude<F: Flaw, E: Sink>(err: &mut E, answer: Answer<F>) -> u8
    ensures status { result ≡ status_of answer }
    ensures said { Said F.line (sink_seen E.sight err.old err.new) answer }
{
    say(err, answer);
    status(answer)
}

// The same on a sink that gathers, which then hands the line on.
fn say_gathered<F: Flaw, E: Sink>(err: &mut Gathered<E>, answer: Answer<F>)
    requires { IsFirst E.sight err.old }
    ensures { Said F.line (sink_seen (behind E.sight) err.old err.new) answer }
{
    if let Err(failure) = answer {
        let _ = put_line(err, failure);
        let _ = err.flush();
    }
}

/// The same where `err` gathers what is put, and nothing was put yet: the line is then on the sink behind it.
pub fn conclude_gathered<F: Flaw, E: Sink>(err: &mut Gathered<E>, answer: Answer<F>) -> u8
    requires { IsFirst E.sight err.old }
    ensures status { result ≡ status_of answer }
    ensures said { Said F.line (sink_seen (behind E.sight) err.old err.new) answer }
{
    say_gathered(err, answer);
    status(answer)
}

/// Ends a program whose words are not known, for this cause.
pub fn end_with<F: Flaw, E: Sink>(err: &mut E, failure: Failure<F>) -> ExitCode
    ensures status { exit_status result ≡ failure_status failure }
    ensures said { Said F.line (sink_seen E.sight err.old err.new) (Err failure) }
{
    ExitCode::from(conclude(err, Err(failure)))
}
