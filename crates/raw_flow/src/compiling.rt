//! The compiled set.
ghost use Rattle.std.specs.Prelude.{◌≡◌, ◌⊎◌, List, length, IfOk, IfErr, OnOk, Err};
ghost use Rattle.raw_codegen.specs.Parts.{Gives, script_programs};
ghost use Rattle.raw_codegen.specs.Limits.{AreShort, Overflows};
ghost use Rattle.raw_flow.specs.Flows.{inputs_in};
ghost use Rattle.raw_flow.specs.Places.{Holding, AreMarks};
ghost use Rattle.raw_flow.specs.Ports.{ArePorts};
ghost use Rattle.raw_flow.specs.Compiled.{tiles_in, inputs_from, held_inputs, nodes_from, held_nodes, outs_from, flow_parts, compiled_at, compiled};
ghost use Rattle.raw_flow.specs.Given.{AreGiven};
ghost use Rattle.raw_flow.specs.Right.{EachRunIsRightAt, EachRunIsRight};

use crate::flow::Flow;
use crate::giving::{give_input, give_node, give_out};
use crate::laws::{law_compiled_at, law_flow_at};
use crate::places::Places;
use crate::ports::{Ports, keeps_rules, placed_topo, port_programs, tiles_in};
use raw_codegen::{GiveRefusal, PARTS_LIMIT, Programs, law_giving, words_fit};
use raw_model::limits::DEFAULT_DEPTH;
use raw_model::{Set, TileProg};
use std::alloc::Global;

// All inputs give their parts.
fn give_inputs(
    programs: &mut Programs,
    places: &mut Places,
    flow: &Flow,
    ports: &Ports,
) -> Result<(), GiveRefusal>
    requires { ArePorts flow.now ports.now }
    ensures given { (held : List Holding) → AreMarks flow.now places.old held →
        OnOk result (AreGiven flow.now (inputs_from flow.now ports.now 0 0 flow.now.nodes) (held_inputs flow.now ports.now held 0 0 flow.now.nodes) programs.old programs.new places.new) }
    ensures too_many { (held : List Holding) → AreMarks flow.now places.old held → result ≡ Err GiveRefusal.TooMany →
        Overflows (tiles_in flow.now) (inputs_from flow.now ports.now 0 0 flow.now.nodes) programs.old }
{
    law_giving();
    keeps_rules(flow);
    let mut taken = 0;
    for v in 0..flow.nodes.len() {
        taken = give_input(
            programs,
            places,
            flow,
            ports,
            taken,
            v as u32,
            flow.nodes[v],
        )?;
    }
    Ok(())
}

// All other nodes give theirs.
fn give_nodes(
    alloc: Global,
    programs: &mut Programs,
    places: &mut Places,
    flow: &Flow,
    ports: &Ports,
) -> Result<(), GiveRefusal>
    requires { ArePorts flow.now ports.now }
    ensures given { (held : List Holding) → AreMarks flow.now places.old held →
        OnOk result (AreGiven flow.now (nodes_from flow.now ports.now held 0 flow.now.nodes) (held_nodes flow.now ports.now held 0 flow.now.nodes) programs.old programs.new places.new) }
    ensures too_many { (held : List Holding) → AreMarks flow.now places.old held → result ≡ Err GiveRefusal.TooMany →
        Overflows (tiles_in flow.now) (nodes_from flow.now ports.now held 0 flow.now.nodes) programs.old }
{
    law_giving();
    keeps_rules(flow);
    for v in 0..flow.nodes.len() {
        give_node(
            alloc,
            programs,
            places,
            flow,
            ports,
            v as u32,
            flow.nodes[v],
        )?;
    }
    Ok(())
}

// All outs give theirs.
fn give_outs(
    alloc: Global,
    programs: &mut Programs,
    places: &mut Places,
    flow: &Flow,
    ports: &Ports,
) -> Result<(), GiveRefusal>
    requires { ArePorts flow.now ports.now }
    ensures gives { (held : List Holding) → AreMarks flow.now places.old held →
        OnOk result (Gives (tiles_in flow.now) (outs_from flow.now ports.now held 0 flow.now.outs) programs.old programs.new) }
    ensures too_many { (held : List Holding) → AreMarks flow.now places.old held → result ≡ Err GiveRefusal.TooMany →
        Overflows (tiles_in flow.now) (outs_from flow.now ports.now held 0 flow.now.outs) programs.old }
{
    law_giving();
    keeps_rules(flow);
    for i in 0..flow.outs.len() {
        give_out(alloc, programs, places, flow, ports, i, flow.outs[i])?;
    }
    Ok(())
}

// The programs of a flow.
fn programs(alloc: Global, flow: &Flow, ports: &Ports) -> Result<Vec<TileProg>, GiveRefusal>
    requires { ArePorts flow.now ports.now }
    ensures tiles { IfOk result (λ tiles. tiles.items ≡ script_programs (tiles_in flow.now) (flow_parts flow.now ports.now)) }
    ensures short { IfOk result (λ tiles. AreShort tiles.items) }
    ensures too_many { result ≡ Err GiveRefusal.TooMany → ¬ (AreShort (script_programs (tiles_in flow.now) (flow_parts flow.now ports.now))) }
{
    law_giving();
    let mut programs = Programs::new(alloc, tiles_in(flow))?;
    let mut places = Places::new(alloc, flow)?;
    give_inputs(&mut programs, &mut places, flow, ports)?;
    give_nodes(alloc, &mut programs, &mut places, flow, ports)?;
    give_outs(alloc, &mut programs, &mut places, flow, ports)?;
    programs.finish()
}

/// The compiled set of a flow with these ports, whose sources put in these words, as many as the flow has inputs: each
/// source those of its own inputs. Each lawful list of its steps that comes to rest is done, and each sink has the values
/// of the outs that go to it, in their order.
///
/// Its programs have no loops, so that no processor comes to the limit, `PARTS_LIMIT`.
pub fn compile_at(
    alloc: Global,
    flow: &Flow,
    ports: &Ports,
    inputs: &[u32],
) -> Result<Set, GiveRefusal>
    requires ports { ArePorts flow.now ports.now }
    requires inputs { length inputs.now ≡ inputs_in flow.now.nodes }
    ensures set { IfOk result (λ set. set ≡ compiled_at flow.now ports.now inputs.now) }
    ensures right { IfOk result (λ _. EachRunIsRightAt flow.now ports.now inputs.now) }
    ensures refusal { IfErr result (λ refusal. (refusal ≡ GiveRefusal.Memory)
        ⊎ ((refusal ≡ GiveRefusal.TooMany) × (¬ (AreShort (compiled_at flow.now ports.now inputs.now).tiles)))) }
{
    let tiles = match programs(alloc, flow, ports) {
        Ok(tiles) => tiles,
        Err(refusal) => return Err(refusal),
    };
    keeps_rules(flow);
    words_fit(inputs);
    law_compiled_at();
    law_flow_at();
    let topo = placed_topo(alloc, flow, ports)?;
    let ports = port_programs(alloc, flow, ports, inputs)?;
    Ok(Set {
        topo,
        limit: PARTS_LIMIT,
        depth: DEFAULT_DEPTH,
        ports,
        tiles,
        shows: Vec::new(alloc),
    })
}

/// The compiled set of a flow with a source and a sink at the west of tile 0. Each lawful list of its steps that comes to
/// rest is done, with the values of the outs in the sink, in their order.
pub fn compile(alloc: Global, flow: &Flow, inputs: &[u32]) -> Result<Set, GiveRefusal>
    requires { length inputs.now ≡ inputs_in flow.now.nodes }
    ensures set { IfOk result (λ set. set ≡ compiled flow.now inputs.now) }
    ensures right { IfOk result (λ _. EachRunIsRight flow.now inputs.now) }
    ensures refusal { IfErr result (λ refusal. (refusal ≡ GiveRefusal.Memory)
        ⊎ ((refusal ≡ GiveRefusal.TooMany) × (¬ (AreShort (compiled flow.now inputs.now).tiles)))) }
{
    keeps_rules(flow);
    let ports = Ports::usual(alloc)?;
    compile_at(alloc, flow, &ports, inputs)
}
