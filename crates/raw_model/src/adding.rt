//! One word more for a source.
ghost use Rattle.std.specs.Prelude.{◌≡◌, ◌↔◌, ℕ, ◌<◌, ◌≤◌, true, length, sum_by, OnOk, OnErr};
ghost use Rattle.raw_model.specs.Program.{ProgramSet, PortProgram};
ghost use Rattle.raw_model.specs.MoreWords.{IsSourceOf, port_with_word, with_word, AreAlikeButMoreWords};
ghost use Rattle.raw_model.specs.Bounds.{all_words};

use crate::limits::MAX_ALL_WORDS;
use crate::program::{PortProg, Set};
use raw_grid::PortKind;

/// Why a set is given no word more.
#[derive(Clone, Copy, PartialEq, Eq)]
pub enum AddRefusal {
    /// No source has this number among the ports.
    NotSource,
    /// All sources together have as many words as a set may have.
    OverLimit,
    /// There is no memory for the word.
    Memory,
}

impl Set {
    /// Gives source number `port` of the ports, from 0, one word more behind its words. Nothing else of
    /// the set changes, and where this is refused nothing at all.
    ///
    /// It counts the words of all ports, at most 32 sources, and looks at no tile.
    pub fn add_word(&mut self, port: u32, word: u32) -> Result<(), AddRefusal>
        ensures added { OnOk result (self.new ≡ with_word self.old port word) }
        ensures more { OnOk result (AreAlikeButMoreWords self.old self.new) }
        ensures not_source { (result ≡ Err AddRefusal.NotSource) ↔ ¬ (IsSourceOf self.old port) }
        ensures over_limit { (result ≡ Err AddRefusal.OverLimit) ↔
            (IsSourceOf self.old port × (all_words self.old ≡ MAX_ALL_WORDS)) }
        ensures unchanged { OnErr result (self.new ≡ self.old) }
    {
        if !self.is_source(port) {
            return Err(AddRefusal::NotSource);
        }
        if count_words(&self.ports) == MAX_ALL_WORDS {
            return Err(AddRefusal::OverLimit);
        }
        self.ports[port as usize].add(word)
    }

    /// Whether port number `port` of the ports, from 0, is a source.
    fn is_source(&self, port: u32) -> bool
        ensures is { (result ≡ true) ↔ IsSourceOf self.now port }
        ensures within { result ≡ true → port < length self.now.ports }
    {
        port < self.topo.ports() && self.topo.place_of(port).kind == PortKind::Source
    }
}

impl PortProg {
    /// One word more behind its words.
    fn add(&mut self, word: u32) -> Result<(), AddRefusal>
        ensures added { OnOk result (self.new ≡ port_with_word self.old word) }
        ensures memory { OnErr result (result ≡ Err AddRefusal.Memory) }
        ensures unchanged { OnErr result (self.new ≡ self.old) }
    {
        match self.words.push(word) {
            Ok(()) => Ok(()),
            Err(_) => Err(AddRefusal::Memory),
        }
    }
}

/// How many words all ports have together.
fn count_words(ports: &[PortProg]) -> u32
    requires { sum_by (λ (port : PortProgram). length port.words) ports.now ≤ MAX_ALL_WORDS }
    ensures { result ≡ sum_by (λ (port : PortProgram). length port.words) ports.now }
{
    let mut count = 0;
    for port in ports {
        count += port.words.len() as u32;
    }
    count
}
