//! The writer: each word that comes from a queue is written as a line.
ghost use Rattle.std.specs.Prelude.{◌≡◌, []};
ghost use Rattle.raw_live.specs.Items.{got_line};
ghost use Rattle.raw_live.specs.Written.{Wrote};

use raw_io::{Failed, Sink};
use raw_queue::{Item, Receiver};
use raw_state_text::{Line, put_line};
use std::sync::Wait;

/// How the items of a queue came to an end.
#[derive(Clone, Copy, PartialEq, Eq, Drop)]
pub enum Finish {
    /// The item came that says so.
    Ended,
    /// The other end hung up before.
    HungUp,
}

// The line of a word for this port.
#[tactic(auto, unfolding(crate::specs::Items::got_line))]
fn got_line(port: u32, word: u32) -> Line
    ensures { result ≡ got_line port word }
{
    let mut line = Line::new();
    line.push_text(b"got ");
    line.push_number(u64::from(port));
    line.push_text(b" ");
    line.push_word(word);
    line.push_text(b"\n");
    line
}

/// Takes from a queue until its items end or a write fails, and writes each word as it comes: a line `got P w`, where `P`
/// is the number of its port, in decimal, and `w` the word, as eight lower case hexadecimal digits. Each line is put in
/// one call of the sink, or in as many as it needs to take it. It takes no memory.
///
/// After `Failed` nothing more is taken or written: a front of the last line may stand on the sink,
/// and not all of it.
///
/// As no clause of a queue says when its other end has hung up, none here says when `HungUp` comes: the tests do, and the
/// queue's `close` tells how many items were left.
pub fn write_words<R: Wait, K: Sink>(
    rt: &R,
    from: &mut Receiver<'_>,
    out: &mut K,
) -> Result<Finish, Failed>
    requires { from.old.items ≡ [] }
    ensures queue { from.new.queue ≡ from.old.queue }
    ensures wrote { Wrote (K.sight out.old) (K.sight out.new) from.new.items result }
{
    for _ in rt.forever() {
        match from.take_wait(rt) {
            None => return Ok(Finish::HungUp),
            Some(Item::End) => return Ok(Finish::Ended),
            Some(Item::Word { port, word }) => {
                if let Err(failed) = put_line(&got_line(port, word), out) {
                    return Err(failed);
                }
            }
        }
    }
    unreachable!()
}
