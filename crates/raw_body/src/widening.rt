//! Bodies of several rows.
use crate::body::{Body, Operand, Origin, RowValue};
use raw_frame::ValueId;
use std::alloc::{AllocError, Global};

/// Which of some rows is meant by a use in one of them, and how many times all the rows before.
#[derive(Clone, Copy)]
struct Meant {
    row: usize,
    back: usize,
}

// Of so many rows the one that is `back` rows before another.
fn row_meant(rows: usize, row: usize, back: usize) -> Meant {
    if back <= row {
        return Meant {
            row: row.saturating_sub(back),
            back: 0,
        };
    }
    let missing = back.saturating_sub(row);
    let times = missing.saturating_add(rows.saturating_sub(1));
    let times = times.checked_div(rows).unwrap_or(0);
    Meant {
        row: times.saturating_mul(rows).saturating_sub(missing),
        back: times,
    }
}

impl Body {
    // A value as that of a row.
    fn in_row(&self, value: ValueId, row: usize) -> ValueId {
        let before = row.saturating_mul(self.of_row);
        ValueId(before.saturating_add(value.0))
    }

    // An operand of a row of so many.
    fn operand_in(&self, operand: Operand, rows: usize, row: usize) -> Operand {
        match operand {
            Operand::Word(word) => Operand::Word(word),
            Operand::Value(RowValue { value, back }) => {
                let meant = row_meant(rows, row, back);
                Operand::Value(RowValue {
                    value: self.in_row(value, meant.row),
                    back: meant.back,
                })
            }
        }
    }

    // Where a value of a row of so many comes from.
    fn origin_in(&self, origin: Origin, rows: usize, row: usize) -> Origin {
        match origin {
            Origin::Input(source) => Origin::Input(source),
            Origin::Made { op, a, b } => Origin::Made {
                op,
                a: self.operand_in(a, rows, row),
                b: self.operand_in(b, rows, row),
            },
        }
    }

    // Adds the values of a row of so many.
    fn add_row(
        &self,
        alloc: Global,
        wide: &mut Body,
        rows: usize,
        row: usize,
    ) -> Result<(), AllocError> {
        for value in (0..self.count()).map(ValueId) {
            let origin = self.origin_in(self.origin(value), rows, row);
            let firsts = self.firsts(value).to_vec(alloc)?;
            wide.add(alloc, origin, firsts)?;
        }
        Ok(())
    }

    /// The body of so many rows, where this is that of one.
    pub fn widened(&self, alloc: Global, rows: usize) -> Result<Body, AllocError> {
        let mut wide = Body::new(alloc, rows, self.of_row);
        for row in 0..rows {
            self.add_row(alloc, &mut wide, rows, row)?;
        }
        wide.link()?;
        for row in 0..rows {
            for out in &self.outs {
                wide.add_out(out.sink, self.in_row(out.value, row))?;
            }
        }
        Ok(wide)
    }
}
