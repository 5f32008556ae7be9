//! The words of a tile's memory, by their addresses divided by 4.
ghost use Rattle.std.specs.Prelude.{◌≡◌, ℕ, ◌+◌, ◌^◌, ◌<◌, ◌≤◌, length, nat_le, IfOk, OnOk};
ghost use Rattle.std.specs.Option.{is_some, option_or};
ghost use Rattle.std.specs.List.{list_any, range_with_len};
ghost use Rattle.raw_set_text.specs.Memory.{word_of, word_from, cells_within, IsInside};

use raw_model::DataWord;
use raw_model::limits::MEMORY_WORDS;
use std::alloc::{AllocError, Global};
use std::collections::BTreeMap;

/// Whether so many words from a place on end within the memory.
pub(crate) fn is_inside(first: usize, count: usize) -> bool
    ensures { result ≡ nat_le (first + count) MEMORY_WORDS }
{
    let all = MEMORY_WORDS as usize;
    first <= all && count <= all - first
}

/// Whether a word was given at one of so many places from one on.
pub(crate) fn is_given(memory: &BTreeMap<usize, u32>, first: usize, count: usize) -> bool
    requires { first + count < 2 ^ 64 }
    ensures { result ≡ list_any (λ i. is_some (word_of memory.now (first + i))) (range_with_len 0 count) }
{
    for i in 0..count {
        if memory.contains_key(&(first + i)) {
            return true;
        }
    }
    false
}

/// Writes words from a place on. After want of memory a front of them is written.
pub(crate) fn write_words(
    memory: &mut BTreeMap<usize, u32>,
    first: usize,
    words: &[u32],
) -> Result<(), AllocError>
    requires { first + length words.now ≤ MEMORY_WORDS }
    ensures words { OnOk result ((i : ℕ) → word_of memory.new i ≡ option_or (word_from first words.now i) (word_of memory.old i)) }
    ensures inside { IsInside memory.old → IsInside memory.new }
{
    for (i, word) in words.iter().enumerate() {
        memory.insert(first + i, *word)?;
    }
    Ok(())
}

/// The cells of a memory, by rising address.
pub(crate) fn cells_of(
    alloc: Global,
    memory: &BTreeMap<usize, u32>,
) -> Result<Vec<DataWord>, AllocError>
    requires { IsInside memory.now }
    ensures { IfOk result (λ cells. cells.items ≡ cells_within MEMORY_WORDS memory.now) }
{
    let mut cells = Vec::new(alloc);
    for (place, word) in memory {
        cells.push(DataWord {
            address: 4 * *place as u32,
            word: *word,
        })?;
    }
    Ok(cells)
}
