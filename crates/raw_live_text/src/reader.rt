//! The reader: takes bytes from a source, and hands on each whole line before it asks for more.
//!
//! That no more is read after a faulty line is said by pieces: a source gives as many bytes as it likes, up to a piece,
//! so a call may have read up to a piece after the line before it can look at it.
ghost use Rattle.std.specs.Prelude.{◌≡◌, ◌⊎◌, ◌+◌, ◌^◌, ◌<◌, ◌≤◌, [], length};
ghost use Rattle.raw_text.specs.declared.limits.TheConstants.{MAX_TEXT};
ghost use Rattle.std.specs.Io.{ReadsAtMost};
ghost use Rattle.std.specs.Io.KnownBytes.{ReadConsumes};
ghost use Rattle.raw_io.specs.Causes.{HasCause};
ghost use Rattle.raw_io.specs.Reading.{CountsGiven};
ghost use Rattle.raw_live_text.specs.Feeding.{IsPutSoFar, Reads, EndedWith, ReadsAll};

use crate::handing::{finish_line, hand_on};
use crate::intake::Intake;
use crate::progress::Progress;
use crate::stop::Stop;
use raw_io::{Failed, Source};
use raw_queue::{Item, Sender};
use std::alloc::Global;
use std::sync::Wait;

/// The most bytes that one call of a source is asked for.
pub const PIECE: usize = 4096;

// Asks a source for more that gave so many bytes behind `rest`: only once the words of all lines that are whole with them
// were put.
fn ask<S: Source>(
    source: &mut S,
    part: &mut [u8],
    count: usize,
    rest: &[u8],
    intake: &Intake,
    so_far: &Progress,
    to: &Sender<'_>,
) -> Result<usize, Failed>
    requires some { 0 < length part.old }
    requires put { IsPutSoFar intake.now rest.now (S.sight source.old) count so_far.now to.now.items }
    ensures bound { ReadsAtMost result part.new }
    ensures bytes { ReadConsumes (S.sight source.old).left (S.sight source.new).left result part.new }
    ensures counted { CountsGiven (S.sight source.old).given (S.sight source.new).given result }
    ensures cause { HasCause (S.sight source.old).faults (S.sight source.new).faults result }
{
    source.take(part)
}

// Hands on the lines of the bytes that were read before and of those that the source gives.
fn read_lines<R: Wait, S: Source>(
    rt: &R,
    alloc: Global,
    intake: &Intake,
    rest: &[u8],
    most: usize,
    to: &mut Sender<'_>,
    source: &mut S,
) -> Result<(), Stop>
    requires fresh { to.old.items ≡ [] }
    requires most { length rest.now + most ≤ MAX_TEXT }
    requires line { intake.now.line + length rest.now + most + 1 < 2 ^ 32 }
    ensures queue { to.new.queue ≡ to.old.queue }
    ensures reads { Reads (S.sight source.old) (S.sight source.new)
        intake.now rest.now most to.new.items result }
    ensures count { (S.sight source.old).faults ≤ (S.sight source.new).faults }
{
    let mut so_far = Progress {
        line: Vec::new(alloc),
        number: intake.line,
        words: 0,
    };
    hand_on(rt, alloc, intake, rest, to, &mut so_far)?;
    let mut count = 0;
    let mut buf = [0u8; PIECE];
    loop {
        let want = (most + 1 - count).min(PIECE);
        let part = &mut buf[..want];
        match ask(source, part, count, rest, intake, &so_far, to) {
            Err(Failed) => return Err(Stop::Read),
            Ok(0) => return finish_line(rt, alloc, intake, to, &mut so_far),
            Ok(given) => {
                let within = given.min(most - count);
                let piece = &part[..within];
                hand_on(rt, alloc, intake, piece, to, &mut so_far)?;
                if within < given {
                    return Err(Stop::TooLong);
                }
                count += given;
            }
        }
    }
}

// Puts the end behind the words, unless memory is wanted.
fn put_end<R: Wait>(rt: &R, to: &mut Sender<'_>, read: Result<(), Stop>) -> Result<(), Stop>
    ensures queue { to.new.queue ≡ to.old.queue }
    ensures ended { EndedWith to.old.items to.new.items result }
    ensures same { (result ≡ read) ⊎ (result ≡ Err Stop.Memory) }
{
    if read == Err(Stop::Memory) {
        return read;
    }
    match to.put(rt, Item::End) {
        Ok(()) => read,
        Err(_) => Err(Stop::Memory),
    }
}

/// Reads lines behind `live` to the end of the source or the first fault, hands on the word of each before it asks the
/// source for more (`ask`), and the end behind them. Then it hangs its queue up.
///
/// The `rest` are bytes behind the `live` line that were read before. At most `most + 1` bytes are read
/// besides. A faulty line ends the reading once it is whole: nothing is read where it stands in `rest`, and else at most
/// one piece of 4,096 bytes behind bytes whose whole lines have no fault.
pub fn read_puts<R: Wait, S: Source>(
    rt: &R,
    alloc: Global,
    intake: &Intake,
    rest: &[u8],
    most: usize,
    to: &mut Sender<'_>,
    source: &mut S,
) -> Result<(), Stop>
    requires fresh { to.old.items ≡ [] }
    requires most { length rest.now + most ≤ MAX_TEXT }
    requires line { intake.now.line + length rest.now + most + 1 < 2 ^ 32 }
    ensures queue { to.new.queue ≡ to.old.queue }
    ensures reads { ReadsAll (S.sight source.old) (S.sight source.new)
        intake.now rest.now most to.new.items result }
    ensures count { (S.sight source.old).faults ≤ (S.sight source.new).faults }
{
    let read = read_lines(rt, alloc, intake, rest, most, to, source);
    let ended = put_end(rt, to, read);
    to.hang_up();
    ended
}
