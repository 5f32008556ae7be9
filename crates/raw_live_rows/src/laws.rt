//! The law. The function does nothing: its contract is the law.
ghost use Rattle.raw_live_rows.specs.Told.{EachRowIsTold};

use raw_grid::law_sizes;
use raw_live_text::law_heads;
use raw_model::law_fits;
use raw_set_text::law_one_answer;

/// A call of `rawlive` that fed a set to its end tells of each sink what it is due of the rows that were put, in
/// order, but for its last words. So it is where the set is proved for so many rows, as by `prove --live`, and the
/// input says the set fed with these rows.
pub fn law_rows_told()
    ensures { EachRowIsTold }
{
    law_heads();
    law_one_answer();
    law_fits();
    law_sizes();
}
