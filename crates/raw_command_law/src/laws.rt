//! Laws. The functions do nothing: their contracts are the laws.
ghost use Rattle.raw_command_law.specs.CheckedHistory.{EachHistoryIsLawful};
ghost use Rattle.raw_command_law.specs.Images.{EachListingGivesBack, EachImageStandsFor};
ghost use Rattle.raw_command_law.specs.MadeSets.{EachPlanRuns, EachFlowRuns, EachScheduledRuns};

use raw_flow::law_flow_at;
use raw_grid::law_sizes;
use raw_inputs::law_one_input;
use raw_model::law_fits;
use raw_owed::law_one_flow;
use raw_plan_text::law_one_plan_text;
use raw_report::law_history;
use raw_route::law_delivers;
use raw_stream_choice::law_its_words;

/// No set is lost between text and image. From what `list` writes of an image, `asm` makes the image of the same set: the
/// same bytes where they were of version 2. What `asm` writes of a text is listed as the set that the text means, and each
/// command that takes `--image` owes of it what it owes of the text.
pub fn law_same_set()
    ensures listing { EachListingGivesBack }
    ensures image { EachImageStandsFor }
{
    law_one_input();
    raw_set_text::law_read_back();
    raw_image::law_read_back();
}

/// What `plan`, `flow` and `flow --schedule` write, `run` runs until it is done: then each word that a plan sends has come to its targets,
/// and the sinks have the values that a flow wants.
pub fn law_made_sets()
    ensures plans { EachPlanRuns }
    ensures flows { EachFlowRuns }
    ensures scheduled { EachScheduledRuns }
{
    law_one_input();
    law_one_plan_text();
    law_delivers();
    raw_either_flow::law_one_text();
    law_flow_at();
    raw_set_text::law_read_back();
    law_one_flow();
    law_its_words();
}

/// What `history` writes says the set and the steps of its run, and `check` finds these steps lawful, where the text is no longer
/// than an input may be.
pub fn law_checked_history()
    ensures { EachHistoryIsLawful }
{
    law_one_input();
    raw_set_text::law_read_back();
    law_fits();
    law_sizes();
    law_history();
}
