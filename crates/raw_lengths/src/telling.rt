//! Cuts and terms told by counters.

use crate::searching::Slot;
use raw_cut::{Cut, CutLocal};
use raw_flow::{FlowOp, Node};
use raw_stream::RowNode;
use raw_term::TermTable;
use std::alloc::{AllocError, Global};

/// Words that fall by the same from kernel to kernel: the first of them, at the cut, and by how much.
#[derive(Clone, Copy)]
pub(crate) struct Group {
    pub(crate) word: u32,
    pub(crate) step: u32,
}

/// The groups of registers, in the order in which they stand.
pub(crate) fn groups_of(alloc: Global, slots: &[Slot]) -> Result<Vec<Group>, AllocError> {
    let mut groups: Vec<Group> = Vec::new(alloc);
    for slot in slots {
        if group_at(&groups, slot.step).is_none() {
            groups.push(Group {
                word: slot.word,
                step: slot.step,
            })?;
        }
    }
    Ok(groups)
}

// The place of the group that falls by so much.
fn group_at(groups: &[Group], step: u32) -> Option<usize> {
    for place in 0..groups.len() {
        if groups[place].step == step {
            return Some(place);
        }
    }
    None
}

/// Counters for kernels of so many rows: for each group a word that falls by its step in so many rows, and is what the first
/// register of the group holds behind `first` rows. As strangers, all begin with words that nothing else should hold.
pub(crate) fn counters_for(
    alloc: Global,
    groups: &[Group],
    rows: u32,
    first: u32,
    are_strangers: bool,
) -> Result<Vec<RowNode>, AllocError> {
    let mut counters = Vec::new(alloc);
    let mut start: u32 = 0;
    for group in groups {
        let passed = first.checked_div(rows).unwrap_or(0);
        let own = group.word.wrapping_add(group.step.wrapping_mul(passed));
        for j in 0..rows {
            let next = start.saturating_add(j).saturating_add(1);
            let is_last = j.saturating_add(1) == rows;
            let word = if are_strangers {
                next.wrapping_mul(0x9e37_79b9)
            } else if first.checked_rem(rows) == Some(j) {
                own
            } else {
                0
            };
            counters.push(RowNode::Pre {
                a: if is_last {
                    next.saturating_add(1)
                } else {
                    next
                },
                word,
            })?;
        }
        let behind = start.saturating_add(rows);
        counters.push(RowNode::Const { word: group.step })?;
        counters.push(RowNode::Apply {
            op: FlowOp::Sub,
            a: start,
            b: behind,
        })?;
        start = behind.saturating_add(2);
    }
    Ok(counters)
}

// The number of the node for a register, over the counter with this number, whose word at the cut is that of its group.
fn told(nodes: &mut Vec<Node>, counter: u32, slot: &Slot, word: u32) -> Result<u32, AllocError> {
    let over = slot.word.wrapping_sub(word);
    if over == 0 {
        return Ok(counter);
    }
    let constant = u32::try_from(nodes.len()).unwrap_or(0);
    nodes.push(Node::Const { word: over })?;
    nodes.push(Node::Apply {
        op: FlowOp::Add,
        a: counter,
        b: constant,
    })?;
    Ok(constant.saturating_add(1))
}

/// Tells the registers of a cut that count by counters, of which the first has this number among the nodes of the cut, and
/// each group so many.
pub(crate) fn tell(
    cut: &mut Cut,
    slots: &[Slot],
    groups: &[Group],
    first: u32,
    rows: u32,
) -> Result<(), AllocError> {
    for slot in slots {
        let Some(place) = group_at(groups, slot.step) else {
            continue;
        };
        let behind = rows.saturating_mul(u32::try_from(place).unwrap_or(0));
        let counter = first.saturating_add(behind);
        let Some(group) = groups.get(place) else {
            continue;
        };
        let number = told(&mut cut.nodes, counter, slot, group.word)?;
        if let Some(local) = cut.locals.get_mut(slot.unit) {
            put(local, slot.register, number);
        }
    }
    Ok(())
}

// Puts a number into a register.
fn put(local: &mut CutLocal, register: usize, number: u32) {
    match local {
        CutLocal::Tile(tile) => {
            if let Some(held) = tile.regs.get_mut(register) {
                *held = number;
            }
        }
        CutLocal::Switch(switch) => {
            if let Some(held) = switch.regs.get_mut(register) {
                *held = number;
            }
        }
        CutLocal::Source(_) | CutLocal::Sink(_) => {}
    }
}

// Which terms of a table others are made of, these among them.
fn parts_of(alloc: Global, table: &TermTable, terms: &[u32]) -> Result<Vec<bool>, AllocError> {
    let mut parts: Vec<bool> = Vec::new(alloc);
    parts.resize(table.len() as usize, false)?;
    for term in terms {
        mark(&mut parts, *term);
    }
    for back in 0..table.len() {
        let number = table.len() - 1 - back;
        if parts.get(number as usize).copied().unwrap_or(false) {
            if let Some(Node::Apply { a, b, .. }) = table.node(number) {
                mark(&mut parts, a);
                mark(&mut parts, b);
            }
        }
    }
    Ok(parts)
}

fn mark(parts: &mut Vec<bool>, number: u32) {
    if let Some(part) = parts.get_mut(number as usize) {
        *part = true;
    }
}

/// The terms of a table on which a run branched as nodes over its counters: so many inputs, of which the first has this
/// number. None where they are made of anything else.
pub(crate) fn looks_of(
    alloc: Global,
    table: &TermTable,
    terms: &[u32],
    first: u32,
    many: u32,
) -> Result<Option<Vec<Node>>, AllocError> {
    let parts = parts_of(alloc, table, terms)?;
    let mut looks = Vec::new(alloc);
    let mut names: Vec<u32> = Vec::new(alloc);
    names.resize(table.len() as usize, 0)?;
    for _k in 0..many {
        looks.push(Node::Input)?;
    }
    for number in 0..table.len() {
        if !parts.get(number as usize).copied().unwrap_or(false) {
            continue;
        }
        let next = u32::try_from(looks.len()).unwrap_or(0);
        let name = match table.node(number) {
            Some(Node::Const { word }) => {
                looks.push(Node::Const { word })?;
                next
            }
            Some(Node::Apply { op, a, b }) => {
                looks.push(Node::Apply {
                    op,
                    a: names.get(a as usize).copied().unwrap_or(0),
                    b: names.get(b as usize).copied().unwrap_or(0),
                })?;
                next
            }
            _ => match number.checked_sub(first) {
                Some(place) if place < many => place,
                _ => return Ok(None),
            },
        };
        if let Some(held) = names.get_mut(number as usize) {
            *held = name;
        }
    }
    Ok(Some(looks))
}
