//! A tile whose registers and memory hold numbers of terms.
ghost use Rattle.std.specs.Prelude.{◌≡◌, ◌/◌, ◌<◌, length, IfOk, IsSomeAnd, OnErr, Some, Err};
ghost use Rattle.raw_tile.specs.Given.{out_of};
ghost use Rattle.raw_term.specs.Terms.{Overflows};
ghost use Rattle.raw_term.specs.TermRows.{term_at, loads_term, stored_term, stores_term, cell_of, acted, term_effect};
ghost use Rattle.raw_term.specs.Tiles.{HasRegister, IsInside, IsRow, IsFired, MayStep};

use crate::action::{Action, Operand, action_of};
use crate::refusal::TermRefusal;
use crate::table::TermTable;
use raw_flow::Node;
use raw_model::Mark;
use raw_model::limits::{MEMORY_SIZE, MEMORY_WORDS};
use raw_tile::{TileOut, TileState, access_fault, address_of};
use raw_tile_isa::TileIns;
use std::marker::Model;

/// A tile whose registers and memory hold numbers of terms of a table. A contract sees it as a tile with these numbers
/// in its registers, and a list of numbers as its memory, one for each word.
#[derive(Drop)]
pub struct TermTile {
    /// The registers, with numbers of terms, the pc, the count and the mark. Its bytes of memory are not looked at.
    pub state: TileState,
    /// For each word of the memory, by rising address, the number of its term.
    pub memory: Vec<u32>,
}

impl Model for TermTile {
    ghost use Rattle.raw_model.specs.Local.{TileLocal};

    ghost Value = { TileLocal };

    ghost view = { λ t. record t.state { memory = t.memory.items } };
}

// The number of the term of an operand, where those at rs and rt are a and b.
fn term_at(table: &mut TermTable, operand: Operand, a: u32, b: u32) -> Result<u32, TermRefusal>
    ensures number { IfOk result (λ number.
        term_at table.old operand a b ≡ record { nodes = table.new; number = number }) }
    ensures too_many { result ≡ Err TermRefusal.TooMany → Overflows (term_at table.old operand a b).nodes }
{
    match operand {
        Operand::Rs => Ok(a),
        Operand::Rt => Ok(b),
        Operand::Immediate(word) => table.number_of(Node::Const { word }),
    }
}

impl TermTile {
    /// Does an action, in a program of so many instructions, with the terms a and b at rs and rt.
    ///
    /// Where it is refused the tile is as before.
    #[tactic(auto, using(crate::proofs::Longer::first_over, crate::proofs::Longer::second_over))]
    pub fn act(
        &mut self,
        table: &mut TermTable,
        size: usize,
        action: Action,
        a: u32,
        b: u32,
    ) -> Result<TileOut, TermRefusal>
        requires register { HasRegister action }
        requires inside { IsInside action }
        requires may { MayStep self.old }
        ensures row { IfOk result (λ out. IsRow (acted table.old size self.old a b action) table.new self.new out) }
        ensures too_many { result ≡ Err TermRefusal.TooMany →
            Overflows (acted table.old size self.old a b action).nodes }
        ensures refused { OnErr result (self.new ≡ self.old) }
        ensures memory { length self.new.memory ≡ MEMORY_WORDS }
    {
        let next = self.state.following();
        match action {
            Action::Make {
                op,
                first,
                second,
                register,
            } => {
                let x = term_at(table, first, a, b)?;
                let y = term_at(table, second, a, b)?;
                let number = table.make(op, x, y)?;
                Ok(self.state.give_at(size, register, number, next, None))
            }
            Action::Give { register, word, pc } => {
                let number = table.number_of(Node::Const { word })?;
                Ok(self.state.give_at(size, register, number, pc, None))
            }
            Action::Go(pc) => {
                self.state.move_to(size, pc);
                Ok(TileOut::NOTHING)
            }
            Action::Stop(mark) => Ok(self.state.stop(mark)),
            Action::Load { register, address } => Ok(self.load(size, register, address)),
            Action::Store(address) => Ok(self.store(size, address, b)),
            Action::Read {
                register,
                address,
                word,
            } => {
                let number = table.number_of(Node::Const { word })?;
                Ok(
                    self.state
                        .give_at(size, register, number, next, Some(address)),
                )
            }
            Action::Write { address, word } => {
                let number = table.number_of(Node::Const { word })?;
                Ok(self.put(size, address, number))
            }
        }
    }

    // The term of the word at an address goes to a register, or the tile traps.
    fn load(&mut self, size: usize, register: u8, address: u32) -> TileOut
        requires register { register < 32 }
        requires may { MayStep self.old }
        ensures next { self.new ≡ (loads_term size self.old register address).next }
        ensures out { result ≡ out_of (loads_term size self.old register address) }
        ensures memory { length self.new.memory ≡ MEMORY_WORDS }
    {
        if let Some(cause) = access_fault(address, 4) {
            return self.state.stop(Mark::Trapped(cause));
        }
        let number = self.memory[address as usize / 4];
        let next = self.state.following();
        self.state
            .give_at(size, register, number, next, Some(address))
    }

    // A term goes to the memory word at an address, or the tile traps.
    fn store(&mut self, size: usize, address: u32, number: u32) -> TileOut
        requires { MayStep self.old }
        ensures next { self.new ≡ (stores_term size self.old address number).next }
        ensures out { result ≡ out_of (stores_term size self.old address number) }
        ensures memory { length self.new.memory ≡ MEMORY_WORDS }
    {
        if let Some(cause) = access_fault(address, 4) {
            return self.state.stop(Mark::Trapped(cause));
        }
        self.put(size, address, number)
    }

    // A term goes to the memory word at an address.
    fn put(&mut self, size: usize, address: u32, number: u32) -> TileOut
        requires may { MayStep self.old }
        requires inside { address < MEMORY_SIZE }
        ensures next { self.new ≡ (stored_term size self.old address number).next }
        ensures out { result ≡ out_of (stored_term size self.old address number) }
        ensures memory { length self.new.memory ≡ MEMORY_WORDS }
    {
        self.memory[address as usize / 4] = number;
        let next = self.state.following();
        self.state.move_to(size, next);
        TileOut {
            touched: Some(address),
            ..TileOut::NOTHING
        }
    }

    // The word of the memory word that an access of an instruction touches, where it is one and its address is known.
    fn cell(&self, table: &TermTable, ins: &TileIns, a: Option<u32>) -> Option<u32>
        ensures { result ≡ cell_of table.now self.now ins.now a }
    {
        let address = address_of(ins, a?) as usize;
        table.word(self.memory.get(address / 4).copied().unwrap_or(0))
    }

    /// Fires an instruction, in a program of so many instructions, with the terms a and b at rs and rt.
    ///
    /// None where the row wants a word and its term is none; then nothing is changed. Where it is refused the tile is
    /// as before.
    pub fn fire(
        &mut self,
        table: &mut TermTable,
        size: usize,
        ins: &TileIns,
        a: u32,
        b: u32,
    ) -> Result<Option<TileOut>, TermRefusal>
        requires { MayStep self.old }
        ensures fired { IfOk result (λ out. IsFired table.old self.old
            (term_effect table.old (Some ins.now) size self.old a b) table.new self.new out) }
        ensures too_many { result ≡ Err TermRefusal.TooMany →
            IsSomeAnd (term_effect table.old (Some ins.now) size self.old a b) (λ t. Overflows t.nodes) }
        ensures refused { OnErr result (self.new ≡ self.old) }
        ensures memory { length self.new.memory ≡ MEMORY_WORDS }
    {
        let x = table.word(a);
        let cell = self.cell(table, ins, x);
        match action_of(self.state.following(), ins, x, table.word(b), cell) {
            None => Ok(None),
            Some(action) => Ok(Some(self.act(table, size, action, a, b)?)),
        }
    }
}
