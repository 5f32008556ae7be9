//! What a haul gives to tiles and switches.
ghost use Rattle.std.specs.Prelude.{◌≡◌, ◌≢◌, ◌⊎◌, ℕ, ◌*◌, ◌<◌, ◌++◌, List, [], ◌∷◌, length, map, All, AllPairs, OnOk, Err};
ghost use Rattle.raw_grid.specs.Topology.{IsSize};
ghost use Rattle.raw_codegen.specs.Parts.{ToTile, to_tile, to_switches, Gives};
ghost use Rattle.raw_codegen.specs.Limits.{Overflows};
ghost use Rattle.raw_codegen.specs.Rows.{register_of, store_ins};
ghost use Rattle.raw_route.specs.Hauls.{IsHaul};
ghost use Rattle.raw_route.specs.Tree.{tree_ins};
ghost use Rattle.raw_route.specs.Planned.{Sending, send_code, store_part, haul_parts};
ghost use Rattle.raw_route.specs.Counts.{AreCounts, HasManyWords};

use crate::haul::Haul;
use crate::tree::tree_ins;
use raw_codegen::{GiveRefusal, Programs, law_giving};
use raw_grid::Net;
use raw_switch_isa::MAX_SWITCH_CODE;
use raw_tile_isa::{NETWORK_1, NETWORK_2, TileIns, TileOp};

/// The register into which a word is loaded before it is sent.
const LOADED: u8 = 5;

// The register of a network.
fn register_of(net: Net) -> u8
    ensures value { result ≡ register_of net }
    ensures few { result < 32 }
{
    match net {
        Net::One => NETWORK_1,
        Net::Two => NETWORK_2,
    }
}

// The origin's tile loads the word and sends it.
fn give_send(programs: &mut Programs, haul: &Haul, word: u32) -> Result<(), GiveRefusal>
    ensures gives { (n : ℕ) → OnOk result (Gives n (to_tile haul.now.from (send_code haul.now.net word)) programs.old programs.new) }
    ensures too_many { (n : ℕ) → result ≡ Err GiveRefusal.TooMany →
        Overflows n (to_tile haul.now.from (send_code haul.now.net word)) programs.old }
{
    law_giving();
    let register = register_of(haul.net);
    let send = TileIns::registers(TileOp::Addu, register, LOADED, 0);
    programs.give_load(haul.from, LOADED, word)?;
    programs.give_tile(haul.from, send)?;
    Ok(())
}

/// Gives the switches of a haul's tree their instructions, in the order of the tiles' numbers. `TooMany` is that the
/// program of one of them would then have no place left for its `halt`.
pub fn give_tree(
    programs: &mut Programs,
    cols: u8,
    rows: u8,
    haul: &Haul,
) -> Result<(), GiveRefusal>
    requires size { IsSize cols rows }
    requires from { haul.now.from < cols * rows }
    requires to { All (λ to. to < cols * rows) haul.now.to }
    ensures gives { OnOk result (Gives (cols * rows) (to_switches (cols * rows) (tree_ins cols haul.now)) programs.old programs.new) }
    ensures too_many { result ≡ Err GiveRefusal.TooMany →
        Overflows (cols * rows) (to_switches (cols * rows) (tree_ins cols haul.now)) programs.old }
{
    law_giving();
    for tile in 0..u32::from(cols) * u32::from(rows) {
        if let Some(ins) = tree_ins(cols, rows, haul, tile) {
            programs.give_switch(tile, ins)?;
        }
    }
    Ok(())
}

// A target stores the word, behind `count` earlier ones.
fn give_store(programs: &mut Programs, net: Net, tile: u32, count: u32) -> Result<(), GiveRefusal>
    requires { count < MAX_SWITCH_CODE }
    ensures gives { (n : ℕ) → OnOk result (Gives n (ToTile tile (store_ins (register_of net) count) ∷ []) programs.old programs.new) }
    ensures too_many { (n : ℕ) → result ≡ Err GiveRefusal.TooMany →
        Overflows n (ToTile tile (store_ins (register_of net) count) ∷ []) programs.old }
{
    let register = register_of(net);
    let store = TileIns::immediate(TileOp::Sw, register, 0, (4 * count) as u16);
    programs.give_tile(tile, store)
}

// Each target stores the word, and has one word more. Each word to a tile passes its switch, so more words than a
// switch has instructions do not get there.
fn give_stores(
    programs: &mut Programs,
    counts: &mut Vec<u32>,
    haul: &Haul,
) -> Result<(), GiveRefusal>
    requires to { All (λ to. to < length counts.now.items) haul.now.to }
    requires distinct { AllPairs (λ a b. a ≢ b) haul.now.to }
    ensures stored { (n : ℕ) (earlier : List Sending) (word : ℕ) → AreCounts n counts.old.items earlier →
        OnOk result (Gives n (map (store_part earlier haul.now.net) haul.now.to) programs.old programs.new
        × AreCounts n counts.new.items (earlier ++ (record { haul = haul.now; word = word }) ∷ [])) }
    ensures too_many { (n : ℕ) (earlier : List Sending) → AreCounts n counts.old.items earlier →
        result ≡ Err GiveRefusal.TooMany →
        Overflows n (map (store_part earlier haul.now.net) haul.now.to) programs.old ⊎ HasManyWords n earlier }
{
    law_giving();
    for i in 0..haul.to.len() {
        let tile = haul.to[i];
        let count = counts[tile as usize];
        if count as usize >= MAX_SWITCH_CODE {
            return Err(GiveRefusal::TooMany);
        }
        give_store(programs, haul.net, tile, count)?;
        counts[tile as usize] = count + 1;
    }
    Ok(())
}

/// All that a haul gives.
pub(crate) fn give_haul(
    programs: &mut Programs,
    counts: &mut Vec<u32>,
    cols: u8,
    rows: u8,
    haul: &Haul,
    word: u32,
) -> Result<(), GiveRefusal>
    requires size { IsSize cols rows }
    requires haul { IsHaul (cols * rows) haul.now }
    requires counts { length counts.now.items ≡ cols * rows }
    ensures given { (earlier : List Sending) → AreCounts (cols * rows) counts.old.items earlier →
        OnOk result (Gives (cols * rows) (haul_parts cols rows earlier (record { haul = haul.now; word = word })) programs.old programs.new
        × AreCounts (cols * rows) counts.new.items (earlier ++ (record { haul = haul.now; word = word }) ∷ [])) }
    ensures too_many { (earlier : List Sending) → AreCounts (cols * rows) counts.old.items earlier →
        result ≡ Err GiveRefusal.TooMany →
        Overflows (cols * rows) (haul_parts cols rows earlier (record { haul = haul.now; word = word })) programs.old
        ⊎ HasManyWords (cols * rows) earlier }
{
    law_giving();
    give_send(programs, haul, word)?;
    give_tree(programs, cols, rows, haul)?;
    give_stores(programs, counts, haul)
}
