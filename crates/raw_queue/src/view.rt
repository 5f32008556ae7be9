//! What an end of a queue knows.
use crate::item::Item;
use std::collections::LinkedList;

/// What an end may do, and what it has put and taken, in order. It exists in proofs alone: no value of it is made.
pub struct EndView {
    pub puts: bool,
    pub takes: bool,
    pub put: LinkedList<Item>,
    pub taken: LinkedList<Item>,
}
