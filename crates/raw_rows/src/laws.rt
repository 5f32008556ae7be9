//! The laws of sets that are proved by rows. The functions do nothing: their contracts are the laws.
ghost use Rattle.raw_rows.specs.Kernels.{EachLiveRowIsMet, EachNumberIsMet};
ghost use Rattle.raw_rows.specs.Lengths.{EachLengthIsMet, EachLengthMeets};

use raw_model::law_same_rest;
use raw_stream::law_unrolled;
use raw_tile_isa::law_words;

/// A set of which there is a proof by rows meets the stream for every number of rows. Fed with any words, some list
/// of its steps comes to rest, and each that does leaves in each sink all that it is due but for the last words.
pub fn law_live()
    ensures kernels { EachLiveRowIsMet }
    // So for every number of rows from that of the cut on.
    ensures numbers { EachNumberIsMet }
{
    law_words();
    law_same_rest();
}

/// A set whose loops count, and of which there is a proof of all rows of a stream, computes them. With any words in
/// its sources some list of its steps comes to rest, and each that does ends done, with all that each sink is due.
pub fn law_lengths()
    ensures rows { EachLengthIsMet }
    // So it meets the flow that the stream is when it is unrolled.
    ensures unrolled { EachLengthMeets }
{
    law_words();
    law_same_rest();
    law_unrolled();
}
