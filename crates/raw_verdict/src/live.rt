//! What is said of a set that never ends and a stream, as text.
ghost use Rattle.std.specs.Prelude.{◌≡◌, ◌++◌, IfOk};
ghost use Rattle.raw_io.specs.Writing.{Writes};
ghost use Rattle.raw_verdict.specs.LiveText.{lack_text, lacks_text, rows_text, proved_rows_line, no_cut_line};

use raw_io::{Failed, Sink, put_all, put_each};
use raw_state_text::Line;
use std::alloc::{AllocError, Global};

// The words before what each sink lacks.
#[tactic(auto, unfolding(crate::specs::LiveText::rows_text))]
fn rows_line(least: u32, most: u32) -> Line
    ensures { result ≡ rows_text least most }
{
    let mut line = Line::new();
    line.push_text(b"proved rows ");
    line.push_number(u64::from(least));
    line.push_text(b" to ");
    line.push_number(u64::from(most));
    line.push_text(b" lack");
    line
}

// A number behind a blank.
#[tactic(auto, unfolding(crate::specs::LiveText::lack_text))]
fn lack_line(lack: u32) -> Line
    ensures { result ≡ lack_text lack }
{
    let mut line = Line::new();
    line.push_text(b" ");
    line.push_number(u64::from(lack));
    line
}

/// What is told of so many words that sinks lack.
pub fn lacks_text(alloc: Global, lacks: &[u32]) -> Result<Vec<u8>, AllocError>
    ensures { IfOk result (λ text. text.items ≡ lacks_text lacks.now) }
{
    let mut text = Vec::new(alloc);
    for lack in lacks {
        text.extend_from_slice(lack_line(*lack).as_bytes())?;
    }
    Ok(text)
}

/// Writes for which numbers of rows a set is proved, where this is told of what its sinks lack.
#[tactic(auto, unfolding(crate::specs::LiveText::proved_rows_line))]
pub fn write_proved_rows<K: Sink>(
    least: u32,
    most: u32,
    lacks: &[u8],
    out: &mut K,
) -> Result<(), Failed>
    ensures { Writes (K.sight out.old) (K.sight out.new) (proved_rows_line least most lacks.now) result }
{
    let front = rows_line(least, most);
    put_each(out, &[front.as_bytes(), lacks, b"\n"])
}

/// Writes that no proof by rows was found.
#[tactic(auto, unfolding(crate::specs::LiveText::no_cut_line))]
pub fn write_no_cut<K: Sink>(out: &mut K) -> Result<(), Failed>
    ensures { Writes (K.sight out.old) (K.sight out.new) no_cut_line result }
{
    put_all(out, b"unproved: no cut\n")
}
