//! The memory of a tile. It is big-endian: the byte at the lowest address of a word is the highest.
ghost use Rattle.std.specs.Prelude.{◌≡◌, ◌+◌, ◌<◌, ◌≤◌, ◌^◌, length, slice_index, None, IfOk, MatchResult};
ghost use Rattle.std.specs.Int.{w32, to_be_bytes};
ghost use Rattle.raw_model.specs.Program.{memory_size};
ghost use Rattle.raw_model.specs.TileTable.{access_fault, half_at, word_at, stored};
ghost use Rattle.raw_model.specs.Start.{empty_memory};
ghost use Rattle.raw_tile.specs.Access.{value_unless};
ghost use Rattle.raw_tile.specs.Zeros.{IsZeros};

use raw_model::Cause;
use raw_model::limits::MEMORY_SIZE;
use std::alloc::{AllocError, Global};
use std::marker::Model;

/// The memory of a tile: 65,536 bytes.
///
/// A contract sees it as the list of its bytes. An access of 2 or 4 bytes is lawful only at a multiple
/// of its size.
#[derive(Drop)]
pub struct TileMemory {
    bytes: Vec<u8>,
}

impl Model for TileMemory {
    ghost use Rattle.std.specs.Prelude.{List, ℕ, length, ◌≡◌};

    ghost Value = { List ℕ };

    ghost use Rattle.raw_model.specs.Program.{memory_size};

    ghost view = { λ memory. memory.bytes.items };

    ghost invariant = { λ memory. length memory.bytes.items ≡ memory_size };
}

impl TileMemory {
    /// A memory in which each byte is 0.
    pub fn zeroed(alloc: Global) -> Result<Self, AllocError>
        ensures { IfOk result (λ memory. memory ≡ empty_memory) }
    {
        let bytes = zeros(alloc, MEMORY_SIZE as usize)?;
        Ok(TileMemory { bytes })
    }

    /// Makes each byte 0. This takes no memory.
    pub fn clear(&mut self)
        ensures { self.new ≡ empty_memory }
    {
        self.bytes.fill(0);
    }

    /// Makes each byte that of another memory. This takes no memory.
    pub fn copy_from(&mut self, other: &TileMemory)
        ensures { self.new ≡ other.now }
    {
        self.bytes.copy_from_slice(&other.bytes);
    }

    /// The word at an address, which need be no multiple of 4.
    #[tactic(auto, unfolding(raw_model::specs::Program::memory_size))]
    pub fn word_at(&self, address: u32) -> u32
        requires { address + 4 ≤ memory_size }
        ensures { result ≡ word_at self.now address }
    {
        let start = address as usize;
        u32::from_be_bytes([
            self.bytes[start],
            self.bytes[start + 1],
            self.bytes[start + 2],
            self.bytes[start + 3],
        ])
    }

    /// Stores a word at an address, which need be no multiple of 4.
    pub fn store_word(&mut self, address: u32, word: u32)
        requires { address + 4 ≤ memory_size }
        ensures { self.new ≡ stored self.old address (to_be_bytes w32 word) }
    {
        write(&mut self.bytes, address, &word.to_be_bytes());
    }

    /// The byte at an address, or why the access is unlawful.
    #[tactic(auto, unfolding(raw_model::specs::Program::memory_size))]
    pub fn load_byte(&self, address: u32) -> Result<u8, Cause>
        ensures { result ≡ value_unless (access_fault address 1) (slice_index self.now address) }
    {
        match access_fault(address, 1) {
            Some(cause) => Err(cause),
            None => Ok(self.bytes[address as usize]),
        }
    }

    /// The half word at an address, or why the access is unlawful.
    #[tactic(auto, unfolding(raw_model::specs::Program::memory_size))]
    pub fn load_half(&self, address: u32) -> Result<u16, Cause>
        ensures { result ≡ value_unless (access_fault address 2) (half_at self.now address) }
    {
        let start = address as usize;
        match access_fault(address, 2) {
            Some(cause) => Err(cause),
            None => Ok(u16::from_be_bytes([self.bytes[start], self.bytes[start + 1]])),
        }
    }

    /// The word at an address, or why the access is unlawful.
    #[tactic(auto, unfolding(raw_model::specs::Program::memory_size))]
    pub fn load_word(&self, address: u32) -> Result<u32, Cause>
        ensures { result ≡ value_unless (access_fault address 4) (word_at self.now address) }
    {
        match access_fault(address, 4) {
            Some(cause) => Err(cause),
            None => Ok(self.word_at(address)),
        }
    }

    /// Stores bytes from an address on, or tells why the access is unlawful and stores nothing.
    #[tactic(auto, unfolding(raw_model::specs::Program::memory_size))]
    pub fn store(&mut self, address: u32, bytes: &[u8]) -> Result<(), Cause>
        requires some { 0 < length bytes.now }
        requires few { length bytes.now ≤ 4 }
        ensures fault { result ≡ value_unless (access_fault address (length bytes.now)) tt }
        ensures stored { MatchResult result
            (λ _. self.new ≡ stored self.old address bytes.now)
            (λ _. self.new ≡ self.old) }
    {
        match access_fault(address, bytes.len()) {
            Some(cause) => Err(cause),
            None => {
                write(&mut self.bytes, address, bytes);
                Ok(())
            }
        }
    }
}

// So many bytes that are 0.
#[tactic(auto, unfolding(crate::specs::Zeros::IsZeros))]
fn zeros(alloc: Global, size: usize) -> Result<Vec<u8>, AllocError>
    ensures { IfOk result (λ bytes. IsZeros size bytes.items) }
{
    vec![in alloc; 0; size]
}

// Writes bytes to a memory, from an address on.
#[tactic(auto, using(crate::proofs::Stored::stored_part))]
fn write(memory: &mut [u8], address: u32, bytes: &[u8])
    requires { address + length bytes.now ≤ length memory.old }
    ensures { memory.new ≡ stored memory.old address bytes.now }
{
    let start = address as usize;
    memory[start..start + bytes.len()].copy_from_slice(bytes);
}

/// Why an access of 1, 2 or 4 bytes at an address is unlawful, if it is: the address is no multiple of that number, or
/// else the access reaches past byte 65,535.
pub fn access_fault(address: u32, bytes: usize) -> Option<Cause>
    requires some { 0 < bytes }
    requires few { bytes ≤ 4 }
    ensures cause { result ≡ access_fault address bytes }
    ensures inside { result ≡ None → address + bytes ≤ 2 ^ 16 }
{
    let start = address as usize;
    if start % bytes != 0 {
        Some(Cause::Misaligned)
    } else if start + bytes > MEMORY_SIZE as usize {
        Some(Cause::PastMemory)
    } else {
        None
    }
}
