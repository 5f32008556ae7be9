//! Parts of lines: marks, places, counts, words.
ghost use Rattle.std.specs.Prelude.{◌≡◌, ◌+◌, ◌*◌, ◌≤◌, ◌++◌, length};
ghost use Rattle.raw_model.specs.Texts.{cause_text, words_text};
ghost use Rattle.raw_model.specs.StateTexts.{going_text, program_mark, port_place_text};
ghost use Rattle.raw_state_text.specs.Parts.{place_text, port_mark, progress_text};

use crate::line::{LINE_SIZE, Line};
use raw_grid::{PortPlace, Topo};
use raw_model::{Cause, Mark};

fn cause_word(cause: Cause) -> &'static [u8]
    ensures text { result.now ≡ cause_text cause }
    ensures short { length result.now ≤ 11 }
{
    match cause {
        Cause::Misaligned => b"misaligned",
        Cause::PastMemory => b"past-memory",
        Cause::Pc => b"pc",
    }
}

impl Line {
    /// Appends why a processor was trapped.
    pub fn push_cause(&mut self, cause: Cause)
        requires { length self.old + 11 ≤ LINE_SIZE }
        ensures text { self.new ≡ self.old ++ cause_text cause }
        ensures len { length self.new ≤ length self.old + 11 }
    {
        self.push_text(cause_word(cause));
    }

    // Appends what a processor that is not stopped waits for first, if it waits.
    fn push_going(&mut self, wait: Option<u32>)
        requires { length self.old + 26 ≤ LINE_SIZE }
        ensures text { self.new ≡ self.old ++ going_text wait }
        ensures len { length self.new ≤ length self.old + 26 }
    {
        match wait {
            None => self.push_text(b"ready"),
            Some(wire) => {
                self.push_text(b"waits ");
                self.push_number(u64::from(wire));
            }
        }
    }

    // Appends the mark of a tile or a switch, under the limit of its set and with its first wait.
    pub(crate) fn push_program_mark(
        &mut self,
        limit: u32,
        mark: Mark,
        count: u64,
        wait: Option<u32>,
    )
        requires { length self.old + 26 ≤ LINE_SIZE }
        ensures text { self.new ≡ self.old ++ program_mark limit wait mark count }
        ensures len { length self.new ≤ length self.old + 26 }
    {
        match mark {
            Mark::Going if count == u64::from(limit) => self.push_text(b"limit"),
            Mark::Going => self.push_going(wait),
            Mark::Halted => self.push_text(b"halted"),
            Mark::Trapped(cause) => {
                self.push_text(b"trapped ");
                self.push_cause(cause);
            }
        }
    }

    // Appends the mark of a port: the word where it is stopped, and else its first wait.
    pub(crate) fn push_port_mark(&mut self, word: &[u8], stopped: bool, wait: Option<u32>)
        requires room { length self.old + 26 ≤ LINE_SIZE }
        requires short { length word.now ≤ 26 }
        ensures text { self.new ≡ self.old ++ port_mark word.now stopped wait }
        ensures len { length self.new ≤ length self.old + 26 }
    {
        if stopped {
            self.push_text(word);
        } else {
            self.push_going(wait);
        }
    }

    /// Appends the column and the row of a tile, with a blank between them.
    pub fn push_place(&mut self, topo: &Topo, tile: u32)
        requires { length self.old + 41 ≤ LINE_SIZE }
        ensures text { self.new ≡ self.old ++ place_text topo.now tile }
        ensures len { length self.new ≤ length self.old + 41 }
    {
        let cols = u32::from(topo.cols());
        self.push_number(u64::from(tile % cols));
        self.push_text(b" ");
        self.push_number(u64::from(tile / cols));
    }

    /// Appends the network, the column, the row and the side of a port, with a blank between them.
    pub fn push_port_place(&mut self, place: PortPlace)
        requires { length self.old + 45 ≤ LINE_SIZE }
        ensures text { self.new ≡ self.old ++ port_place_text place }
        ensures len { length self.new ≤ length self.old + 45 }
    {
        self.push_text(place.net.text().as_bytes());
        self.push_text(b" ");
        self.push_number(u64::from(place.x));
        self.push_text(b" ");
        self.push_number(u64::from(place.y));
        self.push_text(b" ");
        self.push_text(place.side.text().as_bytes());
    }

    /// Appends the count and the pc of a tile or a switch, each behind its name.
    pub fn push_progress(&mut self, count: u64, pc: u32)
        requires { length self.old + 51 ≤ LINE_SIZE }
        ensures text { self.new ≡ self.old ++ progress_text count pc }
        ensures len { length self.new ≤ length self.old + 51 }
    {
        self.push_text(b" count ");
        self.push_number(count);
        self.push_text(b" pc ");
        self.push_number(u64::from(pc));
    }

    /// Appends words, each with a blank before it.
    pub fn push_words(&mut self, words: &[u32])
        requires { length self.old + 9 * length words.now ≤ LINE_SIZE }
        ensures text { self.new ≡ self.old ++ words_text words.now }
        ensures len { length self.new ≡ length self.old + 9 * length words.now }
    {
        for word in words {
            self.push_text(b" ");
            self.push_word(*word);
        }
    }
}
