//! The law of streams. The function does nothing: its contract is the law.
ghost use Rattle.raw_stream.specs.Unrolled.{EachUnrolledIsLawful, EachUnrolledIsRows};

use raw_flow::law_values;

/// The flow that a stream is when it is unrolled computes what the rows compute: its outs are what each sink is due, one
/// sink behind the other, and for each sink row by row. Each of its nodes names earlier ones, and it takes as many words as
/// all rows do.
pub fn law_unrolled()
    ensures lawful { EachUnrolledIsLawful }
    ensures rows { EachUnrolledIsRows }
{
    law_values();
}
