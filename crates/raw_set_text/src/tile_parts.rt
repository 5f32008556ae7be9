//! What one tile of a set that is being built is given.
ghost use Rattle.std.specs.Prelude.{◌≡◌, ◌<◌, ◌+◌, ◌≤◌, ℕ, List, [], ◌++◌, length, nat_lt, true, IfOk, OnOk};
ghost use Rattle.std.specs.List.{list_all};
ghost use Rattle.raw_model.specs.declared.limits.TheConstants.{MEMORY_WORDS};
ghost use Rattle.raw_set_text.specs.Memory.{IsInside};

use crate::tile_memory::{cells_of, write_words};
use raw_model::TileProg;
use raw_switch_isa::SwitchIns;
use raw_tile_isa::TileIns;
use std::alloc::{AllocError, Global};
use std::collections::BTreeMap;

/// What one tile is given so far.
#[derive(Drop)]
pub(crate) struct TileParts {
    /// The program of its section, where there was one.
    pub(crate) code: Option<Vec<TileIns>>,
    /// The program of its switch's section, where there was one.
    pub(crate) switch: Option<Vec<SwitchIns>>,
    /// The words that were given, by their addresses divided by 4.
    pub(crate) memory: BTreeMap<usize, u32>,
    pub(crate) misses: Vec<u8>,
    ghost inside: { IsInside memory },
}

impl TileParts {
    ghost use Rattle.raw_set_text.specs.Memory.{word_of, word_from};
    ghost use Rattle.raw_set_text.specs.Tiling.{IsBlank, Gains, program_of};

    /// A tile that is given nothing yet.
    pub(crate) fn new(alloc: Global) -> TileParts
        ensures { IsBlank result }
    {
        TileParts {
            code: None,
            switch: None,
            memory: BTreeMap::new(alloc),
            misses: Vec::new(alloc),
        }
    }

    /// Gives the tile, which has none, its program.
    pub(crate) fn set_code(&mut self, code: Vec<TileIns>)
        requires { self.old.code ≡ None }
        ensures { Gains self.old self.new (Some code.items) None (λ i. None) [] }
    {
        self.code = Some(code);
    }

    /// Gives the switch, which has none, its program.
    pub(crate) fn set_switch(&mut self, code: Vec<SwitchIns>)
        requires { self.old.switch ≡ None }
        ensures { Gains self.old self.new None (Some code.items) (λ i. None) [] }
    {
        self.switch = Some(code);
    }

    /// Gives words from a place on, where none were given.
    pub(crate) fn set_words(&mut self, first: usize, words: &[u32]) -> Result<(), AllocError>
        requires inside { first + length words.now ≤ MEMORY_WORDS }
        requires free { (i : ℕ) → i < length words.now → word_of self.old.memory (first + i) ≡ None }
        ensures { OnOk result (Gains self.old self.new None None (word_from first words.now) []) }
    {
        write_words(&mut self.memory, first, words)?;
        Ok(())
    }

    /// Appends numbers to the miss stream.
    pub(crate) fn add_misses(&mut self, turns: &[u32]) -> Result<(), AllocError>
        requires { list_all (λ n. nat_lt n 256) turns.now ≡ true }
        ensures { OnOk result (Gains self.old self.new None None (λ i. None) turns.now) }
    {
        push_turns(&mut self.misses, turns)
    }

    /// The program of the tile as a whole.
    pub(crate) fn program(self, alloc: Global) -> Result<TileProg, AllocError>
        ensures { IfOk result (λ program. program ≡ program_of MEMORY_WORDS self) }
    {
        let cells = cells_of(alloc, &self.memory)?;
        Ok(TileProg {
            code: self.code.unwrap_or(Vec::new(alloc)),
            switch: self.switch.unwrap_or(Vec::new(alloc)),
            cells,
            misses: self.misses,
        })
    }
}

/// Whether each of these numbers can stand in a miss stream.
pub(crate) fn are_turns(turns: &[u32]) -> bool
    ensures { result ≡ list_all (λ n. nat_lt n 256) turns.now }
{
    turns.iter().all(|n| *n < 256)
}

// Appends numbers of 8 bits.
fn push_turns(misses: &mut Vec<u8>, turns: &[u32]) -> Result<(), AllocError>
    requires { list_all (λ n. nat_lt n 256) turns.now ≡ true }
    ensures { OnOk result (misses.new.items ≡ misses.old.items ++ turns.now) }
{
    for n in turns {
        misses.push(*n as u8)?;
    }
    Ok(())
}
