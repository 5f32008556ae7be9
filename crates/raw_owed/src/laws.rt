//! Laws. The functions do nothing: their contracts are the laws.
ghost use Rattle.std.specs.Prelude.{ℕ, List};
ghost use Rattle.raw_owed.specs.MissStreams.{EachMissStreamOnlyDelays};
ghost use Rattle.raw_owed.specs.EachRun.{EachRunStandsForAll};
ghost use Rattle.raw_owed.specs.Schedules.{IsOneFlow};

use raw_model::{law_fits, law_miss_streams, law_outcome, law_same_rest};
use raw_picture::law_same_picture;
use raw_report::law_same_report;

/// A miss stream changes the numbers of turns in the `stall` lines of reports, and nothing else.
pub fn law_delays()
    ensures { EachMissStreamOnlyDelays }
{
    law_miss_streams();
}

/// A lawful list of steps that comes to rest stands for each other lawful list of its set.
pub fn law_each_run()
    ensures { EachRunStandsForAll }
{
    law_fits();
    law_outcome();
    law_same_rest();
    law_same_report();
    law_same_picture();
    law_delays();
}

/// The text of a flow, and that of a stream, means one thing or has one fault.
pub fn law_one_flow()
    ensures { (input : List ℕ) → IsOneFlow input }
{
    raw_flow_text::law_one_text();
    raw_stream_text::law_one_text();
}
