//! Other words for the sources of a set.
ghost use Rattle.std.specs.Prelude.{◌≡◌, ℕ, ◌≤◌, length, take, drop, sum_by};
ghost use Rattle.raw_model.specs.Program.{PortProgram};
ghost use Rattle.raw_model.specs.Bounds.{all_words};
ghost use Rattle.raw_model.specs.Fed.{fed, fed_ports};

use raw_codegen::words_fit;
use raw_model::{PortProg, Set};

/// Puts these words in the place of those of the sources of a set, those of the first source first, each source as many
/// as it has. Nothing else of the set changes, and no memory is taken.
pub(crate) fn feed(set: &mut Set, words: &[u32])
    requires { length words.now ≡ all_words set.old }
    ensures { set.new ≡ fed set.old words.now }
{
    words_fit(words);
    feed_ports(&mut set.ports, words);
}

// Gives each port as many of the words as it has, the first ones first.
fn feed_ports(ports: &mut [PortProg], words: &[u32])
    requires { sum_by (λ (port : PortProgram). length port.words) ports.old ≤ length words.now }
    ensures { ports.new ≡ fed_ports ports.old words.now }
{
    let mut rest = words;
    for port in ports.iter_mut() {
        rest = feed_port(port, rest);
    }
}

// Takes as many words from the front as the port has, in the place of its own, and returns the others.
fn feed_port<'w>(port: &mut PortProg, words: &'w [u32]) -> &'w [u32]
    requires enough { length port.old.words ≤ length words.now }
    ensures fed { port.new ≡ record port.old { words = take (length port.old.words) words.now } }
    ensures rest { result.now ≡ drop (length port.old.words) words.now }
{
    let (own, rest) = words.split_at(port.words.len());
    port.words.copy_from_slice(own);
    rest
}
