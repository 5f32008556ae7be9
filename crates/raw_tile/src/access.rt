//! Loads and stores: an unlawful address is a trap.
ghost use Rattle.std.specs.Prelude.{◌≡◌, ◌<◌, ◌≤◌, length, slice_index};
ghost use Rattle.raw_tile_isa.specs.Words.{sign_extended, sign_extended_byte};
ghost use Rattle.raw_model.specs.TileTable.{address_of, access_fault, half_at, word_at, stores};
ghost use Rattle.raw_tile.specs.Given.{MayStep, out_of};
ghost use Rattle.raw_tile.specs.Access.{value_unless, gives_read};

use crate::fire::TileOut;
use crate::rows::address_of;
use crate::state::TileState;
use raw_model::{Cause, Mark};
use raw_tile_isa::{TileIns, sign_extended, sign_extended_byte};

impl TileState {
    // The byte at an address, as a word, or why the access is unlawful; the other reads answer likewise.
    pub(crate) fn byte_at(&self, address: u32) -> Result<u32, Cause>
        ensures { result ≡ value_unless
            (access_fault address 1)
            (slice_index self.now.memory address) }
    {
        self.memory.load_byte(address).map(u32::from)
    }

    // The half word at an address, as a word.
    pub(crate) fn half_at(&self, address: u32) -> Result<u32, Cause>
        ensures { result ≡ value_unless (access_fault address 2) (half_at self.now.memory address) }
    {
        self.memory.load_half(address).map(u32::from)
    }

    // The byte at an address, as a word with its sign.
    pub(crate) fn signed_byte_at(&self, address: u32) -> Result<u32, Cause>
        ensures { result ≡ value_unless
            (access_fault address 1)
            (sign_extended_byte (slice_index self.now.memory address)) }
    {
        Ok(sign_extended_byte(self.memory.load_byte(address)?))
    }

    // The half word at an address, as a word with its sign.
    pub(crate) fn signed_half_at(&self, address: u32) -> Result<u32, Cause>
        ensures { result ≡ value_unless
            (access_fault address 2)
            (sign_extended (half_at self.now.memory address)) }
    {
        Ok(sign_extended(self.memory.load_half(address)?))
    }

    // The word at an address.
    pub(crate) fn word_at(&self, address: u32) -> Result<u32, Cause>
        ensures { result ≡ value_unless (access_fault address 4) (word_at self.now.memory address) }
    {
        self.memory.load_word(address)
    }

    // The row of a load, where `a` is the operand at rs: what was read goes to the register at rt, or the tile traps.
    pub(crate) fn load(
        &mut self,
        size: usize,
        ins: &TileIns,
        a: u32,
        read: Result<u32, Cause>,
    ) -> TileOut
        requires may { MayStep self.old }
        ensures next { self.new ≡ (gives_read size self.old ins.now.rt (address_of ins.now a) read).next }
        ensures out { result ≡ out_of (gives_read size self.old ins.now.rt (address_of ins.now a) read) }
    {
        let following = self.following();
        match read {
            Ok(value) => self.give_at(size, ins.rt, value, following, Some(address_of(ins, a))),
            Err(cause) => self.stop(Mark::Trapped(cause)),
        }
    }

    // The row of a store of these bytes, or the tile traps.
    pub(crate) fn store(&mut self, size: usize, ins: &TileIns, a: u32, bytes: &[u8]) -> TileOut
        requires some { 0 < length bytes.now }
        requires few { length bytes.now ≤ 4 }
        requires may { MayStep self.old }
        ensures next { self.new ≡ (stores size self.old (address_of ins.now a) bytes.now).next }
        ensures out { result ≡ out_of (stores size self.old (address_of ins.now a) bytes.now) }
    {
        let address = address_of(ins, a);
        if let Err(cause) = self.memory.store(address, bytes) {
            return self.stop(Mark::Trapped(cause));
        }
        self.move_to(size, self.following());
        TileOut {
            touched: Some(address),
            ..TileOut::NOTHING
        }
    }
}
