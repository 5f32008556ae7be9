//! The laws of claims and of runs with terms. The functions do nothing: their contracts are the laws.
ghost use Rattle.raw_term.specs.CompiledFlows.{EachCompiledMeets};
ghost use Rattle.raw_term.specs.Verdicts.{EachProvedIsMet, EachRunIsShort, EachRestIsAlike};
ghost use Rattle.raw_term.specs.Control.{EachMovesAlike};
ghost use Rattle.raw_term.specs.Refuted.{EachRefutedIsNotMet};

use raw_flow::{law_compiled, law_flow};
use raw_model::{law_bound, law_fits, law_same_rest, law_serial};
use raw_tile_isa::law_words;

/// A set of which a claim is proved, by its serial run with terms, meets it. With any words in its sources, as many
/// as they have, it is a set, and some lawful list of its steps comes to rest. Each that does ends done, with the
/// values of the outs of the claim at its places, and at each sink as many words as are claimed of it.
pub fn law_proved()
    ensures { EachProvedIsMet }
{
    law_words();
    law_same_rest();
}

/// A set that words refute does not meet the claim: of all runs with these words none ends right. So no set is both
/// proved and refuted.
pub fn law_refuted()
    ensures { EachRefutedIsNotMet }
{}

/// The compiled set of a flow, where its programs are within the limits, meets the flow as a claim.
pub fn law_compiled_meets()
    ensures { EachCompiledMeets }
{
    law_flow();
    law_compiled();
    law_serial();
    law_fits();
}

/// A run of a set with terms goes the way of the set with its own words, as long as it goes on.
pub fn law_runs()
    // It has no more steps than a lawful list of the set's,
    ensures short { EachRunIsShort }
    // and where it comes to rest it does so as each run of the set.
    ensures alike { EachRestIsAlike }
{
    law_words();
    law_same_rest();
    law_bound();
}

/// Where no step of a run with terms hangs on an input, the steps of the set are the same with any words in its sources,
/// but for the values.
pub fn law_moves_alike()
    ensures { EachMovesAlike }
{
    law_words();
}
