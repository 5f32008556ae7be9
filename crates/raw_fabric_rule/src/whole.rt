//! Opening the table of a fabric, and closing it.
ghost use Rattle.std.specs.Prelude.{◌≡◌, ℕ, ◌+◌, ◌<◌, [], length, IfOk};
ghost use Rattle.std.specs.Mem.Slots.{slots_items, slots_len, IsFull};
ghost use Rattle.raw_model.specs.Start.{MachineState};
ghost use Rattle.raw_fabric_rule.specs.Opening.{first_view, IsLaid};
ghost use Rattle.raw_fabric_rule.specs.Closing.{IsClosed};

use crate::table::{InOrder, PassSeat};
use crate::view::{PassView, Start};
use atomic_table::{Closed, Table};
use std::alloc::{AllocError, Global};

/// The table of a fabric.
pub type FabricTable<'s> = Table<(), PassView, Start<'s>, InOrder, Global>;

/// Opens the table of a machine that is not changed yet.
pub fn open_table<'s>(
    alloc: Global,
    words: &[u64],
    start: &Start<'s>,
) -> Result<(FabricTable<'s>, PassSeat), AllocError>
    requires { IsLaid start.now words.now }
    ensures table { IfOk result (λ t. t.1.table_id ≡ t.0.shared.table_id) }
    ensures view { IfOk result (λ t. t.1.me ≡ (first_view start.now, [])) }
    ensures key { IfOk result (λ t. t.0.shared.key ≡ start.now) }
    ensures words { IfOk result (λ t. t.0.shared.table_id.words ≡ length words.now) }
    ensures slots { IfOk result (λ t. t.0.shared.table_id.slots ≡ 0) }
{
    Table::of_words(alloc, words, start)
}

/// Closes a table with the view of a seat.
pub fn close_table(table: FabricTable<'_>, seat: PassSeat) -> Closed<(), Global>
    requires { seat.table_id ≡ table.shared.table_id }
    ensures words { slots_len result.words ≡ table.entry.shared.table_id.words }
    ensures slots { slots_len result.slots ≡ table.entry.shared.table_id.slots }
    ensures full { IsFull result.words }
    ensures closed { (s : MachineState) × IsClosed table.entry.shared.key (slots_items result.words) seat.me.0 s }
{
    table.close_with(seat)
}
