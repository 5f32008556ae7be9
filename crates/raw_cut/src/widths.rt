//! How many words are carried from row to row, and how many a row has.
ghost use Rattle.std.specs.Prelude.{◌≡◌, ◌+◌, ◌*◌, ◌≤◌, length, IfSome};
ghost use Rattle.raw_stream.specs.Streams.{first_words};
ghost use Rattle.raw_term.specs.declared.limits.TheConstants.{MAX_TERMS};
ghost use Rattle.raw_rows.specs.Given.{row_width};

use crate::rows::{carried_count, row_width};
use raw_stream::StreamFlow;
use raw_term::MAX_TERMS;

/// How many words are carried, and how many a row has: no more than a table has terms.
#[derive(Clone, Copy, Drop)]
pub struct Widths {
    pub carried: u32,
    pub row: u32,
    pub ghost few_carried: { carried ≤ MAX_TERMS },
    pub ghost few: { row ≤ MAX_TERMS },
}

/// The widths of a stream. None where a table has no room for them.
pub fn widths_of(stream: &StreamFlow) -> Option<Widths>
    ensures carried { IfSome result (λ w. w.carried ≡ length (first_words stream.now)) }
    ensures row { IfSome result (λ w. w.row ≡ row_width stream.now) }
{
    let most = MAX_TERMS as usize;
    let carried = carried_count(&stream.nodes);
    let row = row_width(&stream.nodes);
    if carried > most || row > most {
        return None;
    }
    Some(Widths {
        carried: carried as u32,
        row: row as u32,
    })
}

/// How many words are carried and stand in so many rows. None where a table has no room for them.
pub(crate) fn input_count(widths: Widths, rows: u32) -> Option<u32>
    ensures value { IfSome result (λ count. count ≡ widths.carried + rows * widths.row) }
    ensures few { IfSome result (λ count. count ≤ MAX_TERMS) }
{
    let count = u64::from(widths.carried) + u64::from(rows) * u64::from(widths.row);
    if count > u64::from(MAX_TERMS) {
        return None;
    }
    Some(count as u32)
}
