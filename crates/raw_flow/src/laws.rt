//! The laws of flows and of compiled sets. Each function does nothing: its contract is the law.
ghost use Rattle.std.specs.Prelude.{◌≡◌, ℕ, List, take, slice_get, slice_index, Some};
ghost use Rattle.raw_flow.specs.Flows.{Dataflow, AreNodes, inputs_in, applied, values_of};
ghost use Rattle.raw_flow.specs.Right.{EachPlacedFlowIsRight, EachPlacedIsSet, EachFlowIsRight, EachIsSet};

use crate::node::{FlowOp, Node};
use raw_codegen::{
    law_blocks, law_halts, law_lawful_parts, law_parts, law_rows, law_single_steps,
    law_stored_words,
};
use raw_grid::{law_ends, law_wires};
use raw_model::{law_fits, law_same_rest};
use raw_route::{law_tree_lawful, law_tree_runs};
use raw_tile_isa::law_words;

/// The value of an input before which there are k others is the word at k, counted from 0; that of a constant is its
/// word; that of an operation is what it makes of the values of the nodes that it names, which stand before it. So it is
/// in a flow of any length.
pub fn law_values()
    ensures input { (flow : Dataflow) (inputs : List ℕ) (v : ℕ) → slice_get flow.nodes v ≡ Some Node.Input →
        slice_index (values_of flow inputs) v ≡ slice_index inputs (inputs_in (take v flow.nodes)) }
    ensures constant { (flow : Dataflow) (inputs : List ℕ) (v word : ℕ) → slice_get flow.nodes v ≡ Some (Node.Const word) →
        slice_index (values_of flow inputs) v ≡ word }
    ensures operation { (flow : Dataflow) (inputs : List ℕ) (v : ℕ) (op : FlowOp) (a b : ℕ) → AreNodes flow.nodes →
        slice_get flow.nodes v ≡ Some (Node.Apply op a b) →
        slice_index (values_of flow inputs) v ≡
        applied op (slice_index (values_of flow inputs) a) (slice_index (values_of flow inputs) b) }
{}

/// Every lawful list of steps of the compiled set of a flow that comes to rest is done, and each sink, wherever it
/// stands, has the values of the outs that go to it.
pub fn law_flow_at()
    ensures { EachPlacedFlowIsRight }
{
    law_words();
    law_wires();
    law_ends();
    law_fits();
    law_same_rest();
    law_single_steps();
    law_blocks();
    law_halts();
    law_rows();
    law_stored_words();
    law_tree_runs();
}

/// Where its programs are within the limits, the compiled set of a flow keeps all that sets keep, wherever its ports
/// stand.
pub fn law_compiled_at()
    ensures { EachPlacedIsSet }
{
    law_wires();
    law_ends();
    law_parts();
    law_lawful_parts();
    law_tree_lawful();
}

/// With a source and a sink at the west of tile 0, the sink has the values of all outs.
pub fn law_flow()
    ensures { EachFlowIsRight }
{
    law_flow_at();
}

/// And the compiled set keeps all that sets keep.
pub fn law_compiled()
    ensures { EachIsSet }
{
    law_compiled_at();
}
