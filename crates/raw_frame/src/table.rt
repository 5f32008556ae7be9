//! Tables that are read at any place.
use crate::numbers::Numbered;
use std::alloc::{AllocError, Global};
use std::marker::PhantomData;

/// A list with an item for each of what is numbered so, from number 0 on. It is read at any number: past its end stands
/// an item of its own.
#[derive(Drop)]
pub struct Table<N: Numbered, T: Copy> {
    items: Vec<T>,
    other: T,
    by: PhantomData<N>,
}

impl<N: Numbered, T: Copy> Table<N, T> {
    /// So many items, each of them `other`, which also stands past the end.
    pub fn new(alloc: Global, count: usize, other: T) -> Result<Table<N, T>, AllocError> {
        let mut items = Vec::with_capacity(alloc, count)?;
        for _ in 0..count {
            items.push(other)?;
        }
        Ok(Table {
            items,
            other,
            by: PhantomData,
        })
    }

    /// The item of a number.
    pub fn at(&self, number: N) -> T {
        match self.items.get(number.number()) {
            Some(item) => *item,
            None => self.other,
        }
    }

    /// Puts an item at a number, if the table has it.
    pub fn put(&mut self, number: N, item: T) {
        if let Some(place) = self.items.get_mut(number.number()) {
            *place = item;
        }
    }

    /// Puts an item behind all others.
    pub fn push(&mut self, item: T) -> Result<(), AllocError> {
        self.items.push(item)?;
        Ok(())
    }

    /// All items, by their numbers.
    pub fn items(&self) -> &[T] {
        self.items.as_slice()
    }

    /// How many items there are.
    pub fn size(&self) -> usize {
        self.items.len()
    }
}
