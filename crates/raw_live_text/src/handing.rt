//! One line more of those behind `live`, one byte more and one piece more.
ghost use Rattle.std.specs.Prelude.{◌≡◌, ℕ, ◌+◌, ◌≤◌, List, [], ◌∷◌, ◌++◌, length};
ghost use Rattle.raw_text.specs.declared.limits.TheConstants.{MAX_TEXT};
ghost use Rattle.raw_live_text.specs.Feeding.{open_at, with_said, after_line, Handled, IsCounted, IsCountedAfter, IntakeStands, StandsAfter};

use crate::fault::LineFault;
use crate::intake::Intake;
use crate::progress::Progress;
use crate::put::{Said, judge};
use crate::stop::Stop;
use raw_queue::{Item, Sender};
use std::alloc::{AllocError, Global};
use std::mem;
use std::sync::Wait;

// Hands on what a line says.
fn hand_on_said<R: Wait>(
    rt: &R,
    intake: &Intake,
    said: Said,
    to: &mut Sender<'_>,
    so_far: &mut Progress,
) -> Result<(), Stop>
    requires counted { IsCounted intake.now so_far.old to.old.items 1 }
    ensures queue { to.new.queue ≡ to.old.queue }
    ensures counted { IsCountedAfter intake.now so_far.old so_far.new to.new.items 1 }
    ensures line { so_far.new.line ≡ so_far.old.line }
    ensures handled { Handled (with_said intake.now so_far.old.number to.old.items said)
        so_far.new.number to.new.items result }
{
    match said {
        Said::Nothing => {}
        Said::Fault(kind) => {
            return Err(Stop::At {
                line: so_far.number,
                kind,
            });
        }
        Said::Word { port, word } => {
            if so_far.words == intake.room {
                return Err(Stop::At {
                    line: so_far.number,
                    kind: LineFault::OverLimit,
                });
            }
            if to.put(rt, Item::Word { port, word }).is_err() {
                return Err(Stop::Memory);
            }
            so_far.words += 1;
        }
    }
    so_far.number += 1;
    Ok(())
}

/// Judges the line that is whole now, and hands on what it says.
pub(crate) fn finish_line<R: Wait>(
    rt: &R,
    alloc: Global,
    intake: &Intake,
    to: &mut Sender<'_>,
    so_far: &mut Progress,
) -> Result<(), Stop>
    requires counted { IsCounted intake.now so_far.old to.old.items 1 }
    requires short { length so_far.old.line.items ≤ MAX_TEXT }
    ensures queue { to.new.queue ≡ to.old.queue }
    ensures counted { IsCountedAfter intake.now so_far.old so_far.new to.new.items 1 }
    ensures line { so_far.new.line.items ≡ [] }
    ensures handled { Handled
        (after_line intake.now (open_at so_far.old.number to.old.items) so_far.old.line.items)
        so_far.new.number to.new.items result }
{
    let line = mem::replace(&mut so_far.line, Vec::new(alloc));
    match judge(alloc, intake, line) {
        Ok(said) => hand_on_said(rt, intake, said, to, so_far),
        Err(AllocError) => Err(Stop::Memory),
    }
}

// Reads one byte, and hands on the line that it ends.
fn hand_on_byte<R: Wait>(
    rt: &R,
    alloc: Global,
    intake: &Intake,
    next: u8,
    to: &mut Sender<'_>,
    so_far: &mut Progress,
) -> Result<(), Stop>
    requires counted { IsCounted intake.now so_far.old to.old.items 1 }
    requires short { length so_far.old.line.items + 1 ≤ MAX_TEXT }
    ensures queue { to.new.queue ≡ to.old.queue }
    ensures counted { IsCountedAfter intake.now so_far.old so_far.new to.new.items 1 }
    ensures short { length so_far.new.line.items ≤ length so_far.old.line.items + 1 }
    ensures handled { (bytes : List ℕ) → IntakeStands intake.now bytes so_far.old to.old.items →
        StandsAfter intake.now (bytes ++ next ∷ []) so_far.new to.new.items result }
{
    if next == b'\n' {
        return finish_line(rt, alloc, intake, to, so_far);
    }
    if so_far.line.reserve(1).is_err() {
        return Err(Stop::Memory);
    }
    so_far.line.push_reserved(next);
    Ok(())
}

/// Reads a piece, and hands on each line that is whole with it.
pub(crate) fn hand_on<R: Wait>(
    rt: &R,
    alloc: Global,
    intake: &Intake,
    piece: &[u8],
    to: &mut Sender<'_>,
    so_far: &mut Progress,
) -> Result<(), Stop>
    requires counted { IsCounted intake.now so_far.old to.old.items (length piece.now) }
    requires short { length so_far.old.line.items + length piece.now ≤ MAX_TEXT }
    ensures queue { to.new.queue ≡ to.old.queue }
    ensures counted { IsCountedAfter intake.now so_far.old so_far.new to.new.items (length piece.now) }
    ensures short { length so_far.new.line.items ≤ length so_far.old.line.items + length piece.now }
    ensures handled { (bytes : List ℕ) → IntakeStands intake.now bytes so_far.old to.old.items →
        StandsAfter intake.now (bytes ++ piece.now) so_far.new to.new.items result }
{
    for next in piece {
        hand_on_byte(rt, alloc, intake, *next, to, so_far)?;
    }
    Ok(())
}
