//! The laws of scripts. Each function does nothing: its contract is the law.
ghost use Rattle.std.specs.Prelude.{◌≡◌, ◌≢◌, ℕ, ◌+◌, ◌*◌, ◌^◌, ◌<◌, ◌≤◌, List, [], ◌∷◌, ◌++◌, length, slice_index, sum_by, Some, All};
ghost use Rattle.std.specs.List.{AllByRecursion};
ghost use Rattle.raw_codegen.specs.declared.limits.TheConstants.{WORDS_IN_REACH};
ghost use Rattle.raw_network.specs.Network.{values_on};
ghost use Rattle.raw_tile_isa.specs.declared.limits.TheConstants.{MAX_TILE_CODE};
ghost use Rattle.raw_tile_isa.specs.Instruction.{Instruction, IsTileIns};
ghost use Rattle.raw_tile_isa.specs.Load.{load};
ghost use Rattle.raw_tile_isa.specs.Made as tile;
ghost use Rattle.raw_switch_isa.specs.declared.limits.TheConstants.{MAX_SWITCH_CODE};
ghost use Rattle.raw_switch_isa.specs.Made as switch;
ghost use Rattle.raw_grid.specs.declared.parts.Net.{Net};
ghost use Rattle.raw_grid.specs.declared.parts.Side.{Side};
ghost use Rattle.raw_grid.specs.Ends.{side_end, tile_end};
ghost use Rattle.raw_grid.specs.Topology.{Topology, tile_count, switch_number};
ghost use Rattle.raw_grid.specs.Wires.{input_wire, output_wire};
ghost use Rattle.raw_model.specs.Program.{ProgramSet, TileProgram, IsTileProgram, HaveWires};
ghost use Rattle.raw_model.specs.Local.{Local};
ghost use Rattle.raw_model.specs.TileTable.{gives, word_at};
ghost use Rattle.raw_model.specs.Machine.{tile_code, switch_code};
ghost use Rattle.raw_model.specs.Start.{MachineState, start};
ghost use Rattle.raw_codegen.specs.Parts.{Part, ToSwitch, tile_part, switch_part, to_tile, script_programs};
ghost use Rattle.raw_codegen.specs.Lawful.{IsPart, AreParts};
ghost use Rattle.raw_codegen.specs.Limits.{AreShort};
ghost use Rattle.raw_codegen.specs.Steps.{Leads, IsNext, one_value, Changed, SameWires, HasCome, IsGone, HasPassed};
ghost use Rattle.raw_codegen.specs.Straight.{Core, IsCore, core_with, at_tile, row_of_ins, nothing, only, Does, IsPlain, IsSender, IsTaker, Runs, PassesOn};
ghost use Rattle.raw_codegen.specs.Standing.{IsScript};
ghost use Rattle.raw_codegen.specs.Laws.{PartsGive, GivingLaws, StartsWithNone, StartsIdle, StartsWithPorts, EachBlockRuns, EachSendRuns, EachTakeRuns, EachPassRuns, EachHalts};
ghost use Rattle.raw_codegen.specs.Rows.{register_of, IsKeeping, send_ins, load_ins, store_ins, from_side, to_side, written, with_word};

use raw_grid::{law_ends, law_wires};
use raw_model::{law_fits, law_outcome};
use raw_tile_isa::law_load;

/// One step of any processor, by what its row takes and sends: nothing, one value sent, one taken, or one taken and
/// one sent. It changes that processor's local state and the wires of these values, and nothing else.
pub fn law_single_steps()
    ensures plain { (set : ProgramSet) (s : MachineState) (p : ℕ) (l next : Local) → IsNext set s p l next [] [] [] [] →
        Leads set s (λ r. Changed s r p next × SameWires s.wires r.wires) }
    ensures send { (set : ProgramSet) (s : MachineState) (p : ℕ) (l next : Local) (w x : ℕ) →
        IsNext set s p l next [] (w ∷ []) [] (one_value w x) →
        length (values_on s.wires w) < set.depth → w < length s.wires →
        Leads set s (λ r. Changed s r p next × HasCome w x s.wires r.wires) }
    ensures take { (set : ProgramSet) (s : MachineState) (p : ℕ) (l next : Local) (w x : ℕ) (xs : List ℕ) →
        IsNext set s p l next (w ∷ []) [] (x ∷ []) [] → values_on s.wires w ≡ x ∷ xs →
        Leads set s (λ r. Changed s r p next × IsGone w x s.wires r.wires) }
    ensures pass { (set : ProgramSet) (s : MachineState) (p : ℕ) (l next : Local) (w x : ℕ) (xs : List ℕ) (v y : ℕ) →
        IsNext set s p l next (w ∷ []) (v ∷ []) (x ∷ []) (one_value v y) → values_on s.wires w ≡ x ∷ xs →
        length (values_on s.wires v) < set.depth → v < length s.wires → v ≢ w →
        Leads set s (λ r. Changed s r p next × HasPassed w x v y s.wires r.wires) }
{}

/// What parts give to tiles and switches.
pub fn law_parts()
    ensures { PartsGive }
{}

/// Parts are given one after another, and what is too long stays so.
pub fn law_giving()
    ensures { GivingLaws }
{}

/// The programs of a set whose programs are those of a script.
pub fn law_scripts()
    ensures code { (set : ProgramSet) (all : List Part) → IsScript set all → (t : ℕ) → t < tile_count set.topo →
        tile_code set t ≡ tile_part t all ++ tile.halt ∷ [] }
    ensures few { (set : ProgramSet) (all : List Part) → IsScript set all → (t : ℕ) → t < tile_count set.topo →
        length (tile_code set t) ≤ MAX_TILE_CODE }
    ensures switch_code { (set : ProgramSet) (all : List Part) → IsScript set all → (t : ℕ) → t < tile_count set.topo →
        switch_code set (switch_number set.topo t) ≡ switch_part t all ++ switch.halt ∷ [] }
    ensures few_switch { (set : ProgramSet) (all : List Part) → IsScript set all → (t : ℕ) → t < tile_count set.topo →
        length (switch_code set (switch_number set.topo t)) ≤ MAX_SWITCH_CODE }
{}

/// The programs of a script of lawful parts are lawful, if they are within the limits.
pub fn law_lawful_parts()
    ensures append { (topo : Topology) (xs ys : List Part) → AreParts topo xs → AreParts topo ys → AreParts topo (xs ++ ys) }
    ensures block { (topo : Topology) (t : ℕ) (code : List Instruction) → AllByRecursion IsTileIns code → AreParts topo (to_tile t code) }
    ensures programs { (topo : Topology) (n : ℕ) (parts : List Part) → AreParts topo parts →
        AreShort (script_programs n parts) → All IsTileProgram (script_programs n parts) }
    ensures wires { (topo : Topology) (n : ℕ) (parts : List Part) → AreParts topo parts → HaveWires topo (script_programs n parts) }
    // Scripts put no words into memories, and have no miss streams.
    ensures cells { (n : ℕ) (parts : List Part) → sum_by (λ (tile : TileProgram). length tile.cells) (script_programs n parts) ≡ 0 }
    ensures misses { (n : ℕ) (parts : List Part) → sum_by (λ (tile : TileProgram). length tile.misses) (script_programs n parts) ≡ 0 }
    // The instructions of the rows are lawful.
    ensures li { (r w : ℕ) → r < 32 → w < 2 ^ 32 → AllByRecursion IsTileIns (load r w) }
    ensures send { (net : Net) (r : ℕ) → r < 32 → IsTileIns (send_ins net r) }
    ensures load { (r v : ℕ) → r < 32 → v < 2 ^ 14 → IsTileIns (load_ins r v) }
    ensures store { (r v : ℕ) → r < 32 → v < 2 ^ 14 → IsTileIns (store_ins r v) }
    ensures from_side { (topo : Topology) (t : ℕ) (net : Net) (side : Side) (w v : ℕ) →
        input_wire topo (switch_number topo t) (side_end net side) ≡ Some w →
        output_wire topo (switch_number topo t) (tile_end net) ≡ Some v → IsPart topo (ToSwitch t (from_side net side)) }
    ensures to_side { (topo : Topology) (t : ℕ) (net : Net) (side : Side) (w v : ℕ) →
        input_wire topo (switch_number topo t) (tile_end net) ≡ Some w →
        output_wire topo (switch_number topo t) (side_end net side) ≡ Some v → IsPart topo (ToSwitch t (to_side net side)) }
{
    law_load();
}

/// A machine goes on with a script by the parts of one tile, or by that of one switch. Nothing is required of
/// wires but what the parts take and send.
pub fn law_blocks()
    // At the start it has executed none of the parts, no wire holds a value, and no port has done anything.
    ensures start { StartsWithNone }
    ensures start_idle { StartsIdle }
    ensures start_ports { StartsWithPorts }
    // A block of instructions that use no wire; such a block, and then an instruction that sends a value; an
    // instruction that takes one; an instruction of a switch that takes one and passes it on.
    ensures block { EachBlockRuns }
    ensures send { EachSendRuns }
    ensures take { EachTakeRuns }
    ensures pass { EachPassRuns }
{
    law_fits();
    law_outcome();
    law_wires();
    law_ends();
}

/// Behind all its parts a machine comes to rest and is done, if its ports are stopped by then; no wire has
/// changed, and neither have memories and ports.
pub fn law_halts()
    ensures { EachHalts }
{
    law_fits();
    law_outcome();
    law_wires();
    law_ends();
}

/// The instructions that scripts give to tiles and switches: what each does, and the wires that it uses.
pub fn law_rows()
    // `li` leaves the word in a register that keeps it.
    ensures li { (r w : ℕ) (a : Core) → IsKeeping r → IsCore a → w < 2 ^ 32 → Runs (load r w) a (written a r w) }
    // `addu $24, $r, $0` sends what the register holds;
    ensures send { (net : Net) (r x : ℕ) (a : Core) → IsKeeping r → IsCore a → x < 2 ^ 32 → slice_index a.regs r ≡ x →
        Does (send_ins net r) [] a a (only net x) }
    ensures sender { (net : Net) (r : ℕ) → IsKeeping r → IsSender net (send_ins net r) }
    // `lw $24, 4v($0)` sends a word of the memory.
    ensures load_send { (net : Net) (v : ℕ) (a : Core) → IsCore a → v < WORDS_IN_REACH →
        Does (load_ins (register_of net) v) [] a a (only net (word_at a.memory (4 * v))) }
    ensures load_sender { (net : Net) (v : ℕ) → IsSender net (load_ins (register_of net) v) }
    // `sw $24, 4v($0)` takes a value and stores it.
    ensures store_take { (net : Net) (v x : ℕ) (a : Core) → IsCore a → v < WORDS_IN_REACH →
        Does (store_ins (register_of net) v) (x ∷ []) a (core_with a.regs (with_word a.memory v x)) nothing }
    ensures store_taker { (net : Net) (v : ℕ) → IsTaker net (store_ins (register_of net) v) }
    // `lw $r, 4v($0)` and `sw $r, 4v($0)` use no wire.
    ensures load { (r v : ℕ) (a : Core) → IsKeeping r → IsCore a → v < WORDS_IN_REACH →
        Does (load_ins r v) [] a (written a r (word_at a.memory (4 * v))) nothing }
    ensures load_plain { (r v : ℕ) → IsKeeping r → IsPlain (load_ins r v) }
    ensures store { (r v x : ℕ) (a : Core) → IsKeeping r → IsCore a → v < WORDS_IN_REACH → slice_index a.regs r ≡ x →
        Does (store_ins r v) [] a (core_with a.regs (with_word a.memory v x)) nothing }
    ensures store_plain { (r v : ℕ) → IsKeeping r → IsPlain (store_ins r v) }
    // An instruction whose row gives a word to a register that keeps it does nothing else.
    ensures register { (ins : Instruction) (a : Core) (r x : ℕ) → IsKeeping r →
        ((size k : ℕ) → row_of_ins ins size (at_tile k a) [] ≡ gives size (at_tile k a) r x) →
        Does ins [] a (written a r x) nothing }
    // Blocks that use no wire run one after another.
    ensures append { (xs ys : List Instruction) (a m b : Core) → Runs xs a m → Runs ys m b → Runs (xs ++ ys) a b }
    // `nop 1:W>P` passes what comes from the side W to the tile, and `nop 1:P>W` what comes from the tile to the
    // side W; so do those of the other sides and of network 2.
    ensures from_side { (topo : Topology) (p : ℕ) (net : Net) (side : Side) (w v : ℕ) →
        input_wire topo p (side_end net side) ≡ Some w → output_wire topo p (tile_end net) ≡ Some v →
        PassesOn topo p (from_side net side) w v }
    ensures to_side { (topo : Topology) (p : ℕ) (net : Net) (side : Side) (w v : ℕ) →
        input_wire topo p (tile_end net) ≡ Some w → output_wire topo p (side_end net side) ≡ Some v →
        PassesOn topo p (to_side net side) w v }
{
    law_load();
}

/// A word that was stored is read back, and no other word of the memory is changed.
pub fn law_stored_words()
    ensures there { (memory : List ℕ) (v x : ℕ) → 4 * v + 4 ≤ length memory → x < 2 ^ 32 →
        word_at (with_word memory v x) (4 * v) ≡ x }
    ensures elsewhere { (memory : List ℕ) (v x u : ℕ) → u ≢ v → word_at (with_word memory v x) (4 * u) ≡ word_at memory (4 * u) }
    ensures size { (memory : List ℕ) (v x : ℕ) → length (with_word memory v x) ≡ length memory }
{}

/// Each word has 32 bits, by its type.
pub fn words_fit(words: &[u32])
    ensures { All (λ word. word < 2 ^ 32) words.now }
{}
