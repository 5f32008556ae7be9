//! Chains of one operation as trees. Where operands of an operation may be joined in any order, those are joined first
//! that are there first.
use crate::folding::Folded;
use crate::graph::{InputId, Operand, Origin, commutes};
use raw_flow::FlowOp;
use raw_frame::{Table, ValueId};
use std::alloc::{AllocError, Global};

// Whether operands of an operation may be joined in any order and in any groups, so that the terms of both are seen to be the
// same: sums and exclusive ors.
fn is_free(op: FlowOp) -> bool {
    match op {
        FlowOp::Add | FlowOp::Xor => true,
        _ => false,
    }
}

// The operation of a value, where it is a free one.
fn free_op(origin: Origin) -> Option<FlowOp> {
    match origin {
        Origin::Made { op, .. } if is_free(op) => Some(op),
        _ => None,
    }
}

// How many cycles an operation takes.
fn latency(op: FlowOp) -> usize {
    match op {
        FlowOp::Mul | FlowOp::MulHigh | FlowOp::MulHighUnsigned => 2,
        _ => 1,
    }
}

/// An operand of a chain, and after how many cycles it is there.
#[derive(Clone, Copy)]
struct Leaf {
    operand: Operand,
    depth: usize,
}

/// The leaves of a chain, or what was joined of them: the first that are left stand from `next` on, each there no
/// sooner than the one before it.
#[derive(Drop)]
struct Row {
    leaves: Table<usize, Leaf>,
    next: usize,
}

impl Row {
    fn new(alloc: Global) -> Result<Row, AllocError> {
        let none = Leaf {
            operand: Operand::Word(0),
            depth: usize::MAX,
        };
        Ok(Row {
            leaves: Table::new(alloc, 0, none)?,
            next: 0,
        })
    }

    // How many are left.
    fn left(&self) -> usize {
        self.leaves.size().saturating_sub(self.next)
    }

    // The first that is left.
    fn first(&self) -> Leaf {
        self.leaves.at(self.next)
    }

    // Takes the first that is left.
    fn take(&mut self) -> Leaf {
        let leaf = self.first();
        self.next = self.next.saturating_add(1);
        leaf
    }

    // Puts one where it belongs by its depth.
    fn insert(&mut self, leaf: Leaf) -> Result<(), AllocError> {
        let size = self.leaves.size();
        self.leaves.push(leaf)?;
        let mut place = size;
        for _ in 0..size {
            let before = place.saturating_sub(1);
            let other = self.leaves.at(before);
            if place == self.next || other.depth <= leaf.depth {
                break;
            }
            self.leaves.put(place, other);
            self.leaves.put(before, leaf);
            place = before;
        }
        Ok(())
    }
}

/// How the values that are needed are used.
#[derive(Drop)]
struct Uses {
    /// How often each is an operand; an out counts twice.
    counts: Table<ValueId, usize>,
    /// The operation by which each was used last.
    by: Table<ValueId, Option<FlowOp>>,
}

impl Uses {
    fn new(
        alloc: Global,
        folded: &Folded,
        needed: &Table<ValueId, bool>,
        outs: &[u32],
    ) -> Result<Uses, AllocError> {
        let size = folded.origins.size();
        let mut uses = Uses {
            counts: Table::new(alloc, size, 0)?,
            by: Table::new(alloc, size, None)?,
        };
        for value in (0..size).map(ValueId) {
            if needed.at(value) {
                uses.enter(folded.origins.at(value));
            }
        }
        for out in outs {
            uses.add(folded.meanings.at(*out as usize), 2, None);
        }
        Ok(uses)
    }

    // What a value is made of is used.
    fn enter(&mut self, origin: Origin) {
        if let Origin::Made { op, a, b } = origin {
            self.add(a, 1, Some(op));
            self.add(b, 1, Some(op));
        }
    }

    // An operand is used so often more.
    fn add(&mut self, operand: Operand, more: usize, by: Option<FlowOp>) {
        if let Operand::Value(value) = operand {
            let count = self.counts.at(value).saturating_add(more);
            self.counts.put(value, count);
            self.by.put(value, by);
        }
    }

    // Whether a value is a part of a longer chain: one free operation uses it, and it is made by the same.
    fn is_inner(&self, value: ValueId, origin: Origin) -> bool {
        match (free_op(origin), self.by.at(value)) {
            (Some(op), Some(by)) => op == by && self.counts.at(value) == 1,
            _ => false,
        }
    }
}

/// Values that are made anew.
#[derive(Drop)]
struct Grown {
    origins: Table<ValueId, Origin>,
    /// After how many cycles each is there.
    depths: Table<ValueId, usize>,
    /// What each of the old values is.
    known: Table<ValueId, Operand>,
    /// Whether a chain had more than two operands.
    is_other: bool,
}

impl Grown {
    // An operand, and when it is there.
    fn leaf(&self, operand: Operand) -> Leaf {
        let operand = match operand {
            Operand::Word(word) => Operand::Word(word),
            Operand::Value(value) => self.known.at(value),
        };
        let depth = match operand {
            Operand::Word(_) => 0,
            Operand::Value(value) => self.depths.at(value),
        };
        Leaf { operand, depth }
    }

    // A new value.
    fn add(&mut self, origin: Origin, depth: usize) -> Result<Leaf, AllocError> {
        let value = ValueId(self.origins.size());
        self.origins.push(origin)?;
        self.depths.push(depth)?;
        Ok(Leaf {
            operand: Operand::Value(value),
            depth,
        })
    }

    // An operation on two operands; a word is the second one.
    fn join(&mut self, op: FlowOp, first: Leaf, second: Leaf) -> Result<Leaf, AllocError> {
        let depth = first.depth.max(second.depth).saturating_add(latency(op));
        let (a, b) = (first.operand, second.operand);
        match (a, b) {
            (Operand::Word(x), Operand::Word(y)) => Ok(Leaf {
                operand: Operand::Word(op.apply(x, y)),
                depth: 0,
            }),
            (Operand::Word(_), Operand::Value(_)) if commutes(op) => {
                self.add(Origin::Made { op, a: b, b: a }, depth)
            }
            _ => self.add(Origin::Made { op, a, b }, depth),
        }
    }

    // The operands of a chain, in their order.
    fn leaves(
        &self,
        alloc: Global,
        folded: &Folded,
        uses: &Uses,
        operands: [Operand; 2],
    ) -> Result<Row, AllocError> {
        let [first, second] = operands;
        let mut row = Row::new(alloc)?;
        let mut stack = Vec::new(alloc);
        stack.push(second)?;
        stack.push(first)?;
        for _ in 0..u64::MAX {
            let Some(operand) = stack.pop() else {
                break;
            };
            match inner_operands(folded, uses, operand) {
                Some(operands) => {
                    let [a, b] = operands;
                    stack.push(b)?;
                    stack.push(a)?;
                }
                None => row.insert(self.leaf(operand))?,
            }
        }
        Ok(row)
    }

    // Joins the operands of a chain, always the two that are there first.
    fn tree(&mut self, op: FlowOp, mut row: Row) -> Result<Leaf, AllocError> {
        self.is_other = self.is_other || row.left() > 2;
        for _ in 0..u64::MAX {
            if row.left() < 2 {
                break;
            }
            let first = row.take();
            let second = row.take();
            let joined = self.join(op, first, second)?;
            row.insert(joined)?;
        }
        Ok(row.first())
    }

    // A value that is no part of a longer chain.
    fn grow(
        &mut self,
        alloc: Global,
        folded: &Folded,
        uses: &Uses,
        origin: Origin,
    ) -> Result<Operand, AllocError> {
        let leaf = match origin {
            Origin::Input(_) => self.add(origin, 0)?,
            Origin::Made { op, a, b } if is_free(op) => {
                let row = self.leaves(alloc, folded, uses, [a, b])?;
                self.tree(op, row)?
            }
            Origin::Made { op, a, b } => {
                let first = self.leaf(a);
                let second = self.leaf(b);
                self.join(op, first, second)?
            }
        };
        Ok(leaf.operand)
    }
}

// The operands of an operand that is a part of a longer chain.
fn inner_operands(folded: &Folded, uses: &Uses, operand: Operand) -> Option<[Operand; 2]> {
    let value = operand.value()?;
    match folded.origins.at(value) {
        Origin::Made { op, a, b } if uses.is_inner(value, Origin::Made { op, a, b }) => {
            Some([a, b])
        }
        _ => None,
    }
}

/// The same nodes with chains of one operation as trees; none where no chain has more than two operands.
pub(crate) fn as_trees(
    alloc: Global,
    folded: &Folded,
    needed: &Table<ValueId, bool>,
    outs: &[u32],
) -> Result<Option<Folded>, AllocError> {
    let uses = Uses::new(alloc, folded, needed, outs)?;
    let size = folded.origins.size();
    let mut grown = Grown {
        origins: Table::new(alloc, 0, Origin::Input(InputId(0)))?,
        depths: Table::new(alloc, 0, 0)?,
        known: Table::new(alloc, size, Operand::Word(0))?,
        is_other: false,
    };
    for value in (0..size).map(ValueId) {
        let origin = folded.origins.at(value);
        if origin.is_input() || (needed.at(value) && !uses.is_inner(value, origin)) {
            let operand = grown.grow(alloc, folded, &uses, origin)?;
            grown.known.put(value, operand);
        }
    }
    if !grown.is_other {
        return Ok(None);
    }
    let mut meanings = Table::new(alloc, 0, Operand::Word(0))?;
    for node in 0..folded.meanings.size() {
        meanings.push(grown.leaf(folded.meanings.at(node)).operand)?;
    }
    Ok(Some(Folded {
        origins: grown.origins,
        meanings,
    }))
}
