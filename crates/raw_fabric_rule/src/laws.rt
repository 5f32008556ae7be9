//! What the rule says.
ghost use Rattle.std.specs.Prelude.{◌≡◌, ℕ, ◌+◌, ◌*◌, ◌<◌, Some, if◌then◌else◌, List, [], ◌++◌, map, slice_index};
ghost use Rattle.std.specs.Option.{option_to_list};
ghost use Rattle.raw_model.specs.Start.{MachineState};
ghost use Rattle.raw_network.specs.Network.{count_of};
ghost use Rattle.raw_switch_isa.specs.Instruction.{SwitchInstruction};
ghost use Rattle.raw_switch_isa.specs.Ends.{is_used_input, is_filled};
ghost use Rattle.raw_grid.specs.Topology.{tile_count};
ghost use Rattle.raw_grid.specs.Wires.{input_wire, output_wire, Joins};
ghost use Rattle.raw_model.specs.Program.{ProgramSet, IsSet};
ghost use Rattle.raw_model.specs.Local.{Tile, Switch, Source, Sink, TileLocal, SwitchLocal, PortLocal};
ghost use Rattle.raw_model.specs.Machine.{tile_code, switch_code, tile_effect, port_program, words_of};
ghost use Rattle.raw_model.specs.TileTable.{next_instruction as next_tile_instruction};
ghost use Rattle.raw_model.specs.SwitchTable.{next_instruction as next_switch_instruction, switch_row};
ghost use Rattle.raw_fabric_rule.specs.declared.layout.TheConstants.{END_COUNT, INPUT_P1, INPUT_P2, OUTPUT_P1, OUTPUT_P2};
ghost use Rattle.raw_fabric_rule.specs.ByEnds.{needs, gives, fills, sent, next_local};
ghost use Rattle.raw_fabric_rule.specs.ByKind.{tile_needs, tile_gives, switch_needs, switch_gives, end_if, handed_to, outputs_filled, values_filled, sent_by_end, IsWireOf};
ghost use Rattle.raw_fabric_rule.specs.Views.{About, View};
ghost use Rattle.raw_fabric_rule.specs.Rule.{WordsStand};
ghost use Rattle.raw_fabric_rule.specs.Conditions.{MayFire};
ghost use Rattle.raw_fabric_rule.specs.Commit.{IsStepOf};

/// The words and the views determine the state that they stand for, and a store of a status word that may be made is one
/// step of its processor.
pub fn law_rule()
    ensures one_state { (about : About) (words : List ℕ) (views : List View) (s t : MachineState) →
        WordsStand about words views s → WordsStand about words views t → s ≡ t }
    ensures commit { (about : About) (v : View) (p word : ℕ) → MayFire about v p word → IsStepOf about p word v }
{}

/// Which wire stands at each end of a processor. A switch takes one value at each input that its instruction uses, and
/// names each output that has a route once.
pub fn law_ends()
    ensures wires { (set : ProgramSet) (w p o q i : ℕ) → IsSet set → Joins set.topo w p o q i → IsWireOf set w p o q i }
    ensures switch_input { (ins : SwitchInstruction) (end : ℕ) → end < END_COUNT → count_of end (switch_needs (Some ins)) ≡ (if is_used_input ins end then 1 else 0) }
    ensures switch_output { (ins : SwitchInstruction) (end : ℕ) → end < END_COUNT → count_of (END_COUNT + end) (switch_gives (Some ins)) ≡ (if is_filled ins end then 1 else 0) }
{}

/// What the next row of a tile takes and sends, by the numbers of its ends.
pub fn law_tile_ends()
    ensures needs { (set : ProgramSet) (p : ℕ) (l : TileLocal) → IsSet set → p < tile_count set.topo →
        needs set p (Tile l) ≡ tile_needs (next_tile_instruction (tile_code set p) l) }
    ensures gives { (set : ProgramSet) (p : ℕ) (l : TileLocal) → IsSet set → p < tile_count set.topo →
        gives set p (Tile l) ≡ tile_gives (next_tile_instruction (tile_code set p) l) }
    ensures fills { (set : ProgramSet) (p : ℕ) (l : TileLocal) (values : List ℕ) → IsSet set → p < tile_count set.topo →
        fills set p (Tile l) values ≡ end_if OUTPUT_P1 (tile_effect (tile_code set p) l values).sent1 ++ end_if OUTPUT_P2 (tile_effect (tile_code set p) l values).sent2 }
    ensures sent { (set : ProgramSet) (p : ℕ) (l : TileLocal) (values : List ℕ) → IsSet set → p < tile_count set.topo →
        sent set p (Tile l) values ≡ option_to_list (tile_effect (tile_code set p) l values).sent1 ++ option_to_list (tile_effect (tile_code set p) l values).sent2 }
    ensures next { (set : ProgramSet) (p : ℕ) (l : TileLocal) (values : List ℕ) →
        next_local set p (Tile l) values ≡ Tile (tile_effect (tile_code set p) l values).next }
{}

/// What the next row of a switch takes and sends, by the numbers of its ends.
pub fn law_switch_ends()
    ensures needs { (set : ProgramSet) (tile : ℕ) (l : SwitchLocal) → IsSet set →
        needs set (tile_count set.topo + tile) (Switch l) ≡ switch_needs (next_switch_instruction (switch_code set (tile_count set.topo + tile)) l) }
    ensures gives { (set : ProgramSet) (tile : ℕ) (l : SwitchLocal) → IsSet set →
        gives set (tile_count set.topo + tile) (Switch l) ≡ switch_gives (next_switch_instruction (switch_code set (tile_count set.topo + tile)) l) }
    ensures fills { (set : ProgramSet) (tile : ℕ) (l : SwitchLocal) (values : List ℕ) → IsSet set →
        fills set (tile_count set.topo + tile) (Switch l) values ≡ outputs_filled (sent_by_end set (tile_count set.topo + tile) l values) }
    ensures sent { (set : ProgramSet) (tile : ℕ) (l : SwitchLocal) (values : List ℕ) → IsSet set →
        sent set (tile_count set.topo + tile) (Switch l) values ≡ values_filled (sent_by_end set (tile_count set.topo + tile) l values) }
    ensures next { (set : ProgramSet) (tile : ℕ) (l : SwitchLocal) (values : List ℕ) → IsSet set →
        next_local set (tile_count set.topo + tile) (Switch l) values ≡
        Switch (switch_row (switch_code set (tile_count set.topo + tile)) l (handed_to (next_switch_instruction (switch_code set (tile_count set.topo + tile)) l) values)).next }
{}

/// What the next row of a source takes and sends, by the numbers of its ends.
pub fn law_source_ends()
    ensures needs { (set : ProgramSet) (p : ℕ) (l : PortLocal) → needs set p (Source l) ≡ [] }
    ensures gives { (set : ProgramSet) (p : ℕ) (l : PortLocal) →
        gives set p (Source l) ≡ end_if OUTPUT_P1 (output_wire set.topo p INPUT_P1) ++ end_if OUTPUT_P2 (output_wire set.topo p INPUT_P2) }
    ensures fills { (set : ProgramSet) (p : ℕ) (l : PortLocal) (values : List ℕ) → fills set p (Source l) values ≡ gives set p (Source l) }
    ensures sent { (set : ProgramSet) (p : ℕ) (l : PortLocal) (values : List ℕ) →
        sent set p (Source l) values ≡ map (λ _. slice_index (words_of (port_program set p)) l.done) (gives set p (Source l)) }
{}

/// What the next row of a sink takes and sends, by the numbers of its ends.
pub fn law_sink_ends()
    ensures needs { (set : ProgramSet) (p : ℕ) (l : PortLocal) →
        needs set p (Sink l) ≡ end_if INPUT_P1 (input_wire set.topo p INPUT_P1) ++ end_if INPUT_P2 (input_wire set.topo p INPUT_P2) }
    ensures gives { (set : ProgramSet) (p : ℕ) (l : PortLocal) → gives set p (Sink l) ≡ [] }
    ensures fills { (set : ProgramSet) (p : ℕ) (l : PortLocal) (values : List ℕ) → fills set p (Sink l) values ≡ [] }
{}
