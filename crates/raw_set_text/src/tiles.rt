//! What the tiles of a set that is being built are given.
ghost use Rattle.std.specs.Prelude.{◌≡◌, ◌<◌, ◌≤◌, ◌*◌, ◌%◌, ℕ, List, [], ◌∷◌, length, false, IfOk, OnOk};
ghost use Rattle.raw_tile_isa.specs.Instruction.{Instruction};
ghost use Rattle.raw_switch_isa.specs.Instruction.{SwitchInstruction};
ghost use Rattle.raw_model.specs.declared.limits.TheConstants.{MAX_ALL_CELLS, MAX_ALL_CODE, MAX_ALL_MISSES, MAX_ALL_SWITCH_CODE};
ghost use Rattle.raw_set_text.specs.declared.declaration.Position.{Position};
ghost use Rattle.raw_set_text.specs.Entry.{Entry};
ghost use Rattle.raw_set_text.specs.Entry.Entry.{Grid, Data, Misses, Tile, Switch};
ghost use Rattle.raw_set_text.specs.Entries.{tiles_of};
ghost use Rattle.raw_set_text.specs.Faults.{number_of_tile, is_repeated};
ghost use Rattle.raw_set_text.specs.Answers.{Answers, late_fault, with_entry, sum_within};

use crate::kind::SetKind;
use crate::refused::LineRefusal;
use crate::tile_memory::{is_given, is_inside};
use crate::tile_parts::{TileParts, are_turns};
use raw_model::TileProg;
use raw_model::limits::{MAX_ALL_CELLS, MAX_ALL_CODE, MAX_ALL_MISSES, MAX_ALL_SWITCH_CODE};
use raw_switch_isa::SwitchIns;
use raw_tile_isa::TileIns;
use std::alloc::{AllocError, Global};

// A total with so many more, where it stays within this most.
fn total_within(total: u32, added: usize, most: u32) -> Option<u32>
    requires { total ≤ most }
    ensures { result ≡ sum_within most total added }
{
    if added > (most - total) as usize {
        None
    } else {
        Some(total + added as u32)
    }
}

/// What each tile is given so far, in the order of the tiles' numbers, and how much all have together.
#[derive(Drop)]
pub(crate) struct Tiles {
    pub(crate) parts: Vec<TileParts>,
    pub(crate) cells: u32,
    pub(crate) turns: u32,
    pub(crate) instructions: u32,
    pub(crate) routed: u32,
    ghost few_cells: { cells ≤ MAX_ALL_CELLS },
    ghost few_turns: { turns ≤ MAX_ALL_MISSES },
    ghost few_instructions: { instructions ≤ MAX_ALL_CODE },
    ghost few_routed: { routed ≤ MAX_ALL_SWITCH_CODE },
}

impl Tiles {
    ghost use Rattle.raw_set_text.specs.Building.{TilesStand};
    ghost use Rattle.raw_set_text.specs.Tiling.{HasNoCode, HasNoSwitch};

    /// So many tiles that are given nothing yet.
    pub(crate) fn new(alloc: Global, count: u32) -> Result<Tiles, AllocError>
        ensures stands { IfOk result (λ tiles. (columns rows : ℕ) → count ≡ columns * rows →
            TilesStand tiles (Grid columns rows ∷ [])) }
        ensures count { IfOk result (λ tiles. length tiles.parts.items ≡ count) }
    {
        let mut parts = Vec::new(alloc);
        for _ in 0..count {
            parts.push(TileParts::new(alloc))?;
        }
        Ok(Tiles {
            parts,
            cells: 0,
            turns: 0,
            instructions: 0,
            routed: 0,
        })
    }

    /// Writes words into the memory of a tile from an address on.
    pub(crate) fn add_data(
        &mut self,
        tile: u32,
        address: u32,
        words: &[u32],
    ) -> Result<(), LineRefusal>
        requires there { tile < length self.old.parts.items }
        requires aligned { address % 4 ≡ 0 }
        ensures fault { (entries : List Entry) (at : Position) → TilesStand self.old entries → tile ≡ number_of_tile entries at →
            Answers result (late_fault entries (Data at address words.now)) }
        ensures stands { (entries : List Entry) (at : Position) → TilesStand self.old entries → tile ≡ number_of_tile entries at →
            OnOk result (TilesStand self.new (with_entry entries (Data at address words.now))) }
        ensures count { length self.new.parts.items ≡ length self.old.parts.items }
    {
        let first = (address / 4) as usize;
        if is_given(&self.parts[tile as usize].memory, first, words.len()) {
            return Err(LineRefusal::Fault(SetKind::Repeated));
        }
        if !is_inside(first, words.len()) {
            return Err(LineRefusal::Fault(SetKind::OverLimit));
        }
        let Some(cells) = total_within(self.cells, words.len(), MAX_ALL_CELLS) else {
            return Err(LineRefusal::Fault(SetKind::OverLimit));
        };
        self.parts[tile as usize].set_words(first, words)?;
        self.cells = cells;
        Ok(())
    }

    /// Appends numbers to the miss stream of a tile.
    pub(crate) fn add_misses(&mut self, tile: u32, turns: &[u32]) -> Result<(), LineRefusal>
        requires there { tile < length self.old.parts.items }
        ensures fault { (entries : List Entry) (at : Position) → TilesStand self.old entries → tile ≡ number_of_tile entries at →
            Answers result (late_fault entries (Misses at turns.now)) }
        ensures stands { (entries : List Entry) (at : Position) → TilesStand self.old entries → tile ≡ number_of_tile entries at →
            OnOk result (TilesStand self.new (with_entry entries (Misses at turns.now))) }
        ensures count { length self.new.parts.items ≡ length self.old.parts.items }
    {
        if !are_turns(turns) {
            return Err(LineRefusal::Fault(SetKind::OverLimit));
        }
        let Some(total) = total_within(self.turns, turns.len(), MAX_ALL_MISSES) else {
            return Err(LineRefusal::Fault(SetKind::OverLimit));
        };
        self.parts[tile as usize].add_misses(turns)?;
        self.turns = total;
        Ok(())
    }

    /// Whether a tile has a program of its own already.
    pub(crate) fn has_code(&self, tile: u32) -> bool
        requires { tile < length self.now.parts.items }
        ensures repeated { (entries : List Entry) (at : Position) (code : List Instruction) → TilesStand self.now entries → tile ≡ number_of_tile entries at →
            result ≡ is_repeated entries (Tile at code) }
        ensures free { result ≡ false → HasNoCode self.now tile }
    {
        self.parts[tile as usize].code.is_some()
    }

    /// Whether the switch of a tile has a program already.
    pub(crate) fn has_switch(&self, tile: u32) -> bool
        requires { tile < length self.now.parts.items }
        ensures repeated { (entries : List Entry) (at : Position) (code : List SwitchInstruction) → TilesStand self.now entries → tile ≡ number_of_tile entries at →
            result ≡ is_repeated entries (Switch at code) }
        ensures free { result ≡ false → HasNoSwitch self.now tile }
    {
        self.parts[tile as usize].switch.is_some()
    }

    /// Gives a tile that has none its program.
    pub(crate) fn add_code(&mut self, tile: u32, code: Vec<TileIns>) -> Result<(), LineRefusal>
        requires there { tile < length self.old.parts.items }
        requires free { HasNoCode self.old tile }
        ensures fault { (entries : List Entry) (at : Position) → TilesStand self.old entries → tile ≡ number_of_tile entries at →
            Answers result (late_fault entries (Tile at code.items)) }
        ensures stands { (entries : List Entry) (at : Position) → TilesStand self.old entries → tile ≡ number_of_tile entries at →
            OnOk result (TilesStand self.new (with_entry entries (Tile at code.items))) }
        ensures count { length self.new.parts.items ≡ length self.old.parts.items }
    {
        let Some(total) = total_within(self.instructions, code.len(), MAX_ALL_CODE) else {
            return Err(LineRefusal::Fault(SetKind::OverLimit));
        };
        self.parts[tile as usize].set_code(code);
        self.instructions = total;
        Ok(())
    }

    /// Gives the switch of a tile that has none its program.
    pub(crate) fn add_switch(&mut self, tile: u32, code: Vec<SwitchIns>) -> Result<(), LineRefusal>
        requires there { tile < length self.old.parts.items }
        requires free { HasNoSwitch self.old tile }
        ensures fault { (entries : List Entry) (at : Position) → TilesStand self.old entries → tile ≡ number_of_tile entries at →
            Answers result (late_fault entries (Switch at code.items)) }
        ensures stands { (entries : List Entry) (at : Position) → TilesStand self.old entries → tile ≡ number_of_tile entries at →
            OnOk result (TilesStand self.new (with_entry entries (Switch at code.items))) }
        ensures count { length self.new.parts.items ≡ length self.old.parts.items }
    {
        let Some(total) = total_within(self.routed, code.len(), MAX_ALL_SWITCH_CODE) else {
            return Err(LineRefusal::Fault(SetKind::OverLimit));
        };
        self.parts[tile as usize].set_switch(code);
        self.routed = total;
        Ok(())
    }

    /// What the tiles are given, whole.
    pub(crate) fn programs(self, alloc: Global) -> Result<Vec<TileProg>, AllocError>
        ensures { IfOk result (λ programs. (entries : List Entry) → TilesStand self entries → programs.items ≡ tiles_of entries) }
    {
        let mut programs = Vec::new(alloc);
        for parts in self.parts {
            programs.push(parts.program(alloc)?)?;
        }
        Ok(programs)
    }
}
