//! The laws of claims of rows. The functions do nothing: their contracts are the laws.
ghost use Rattle.raw_row_terms.specs.RowClaims.{EachRowsProvedAreMet};
ghost use Rattle.raw_row_terms.specs.Right.{EachRowsProvedAreRight, EachRowsProvedRest, EachRefutedRowsAreNotMet};
ghost use Rattle.raw_row_terms.specs.Seated.{EachIsSeated};

use raw_model::{law_fits, law_same_rest};
use raw_stream::law_unrolled;
use raw_tile_isa::law_words;

/// A set of which a stream is proved, by its serial run with terms, meets the flow that the stream is when it is unrolled.
pub fn law_rows_proved()
    ensures { EachRowsProvedAreMet }
{
    law_words();
    law_same_rest();
    law_fits();
    law_unrolled();
}

/// A set of which a stream is proved computes its rows: with any words in its sources each run ends done, and each sink
/// has received, row by row, what it is due.
pub fn law_rows_right()
    ensures right { EachRowsProvedAreRight }
    // The run with terms that proves it has come to rest.
    ensures rest { EachRowsProvedRest }
    // No set computes them and is refuted by words.
    ensures refuted { EachRefutedRowsAreNotMet }
{
    law_words();
    law_same_rest();
}

/// A stream whose ports have the numbers of those of a set at the same places has the same rows, and its sinks, in the
/// order of the stream, are due the same.
pub fn law_seated()
    ensures { EachIsSeated }
{}
