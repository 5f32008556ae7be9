//! The planned set.
ghost use Rattle.std.specs.Prelude.{◌≡◌, ◌⊎◌, ℕ, ◌*◌, ◌^◌, ◌<◌, ◌++◌, List, [], length, filter_map, All, IfOk, IfErr, OnOk, Err};
ghost use Rattle.std.specs.List.{range_with_len};
ghost use Rattle.std.specs.Option.{option_to_list};
ghost use Rattle.raw_grid.specs.Topology.{IsSize, without_ports};
ghost use Rattle.raw_model.specs.Program.{IsSet};
ghost use Rattle.raw_model.specs.Rest.{IsRun, end};
ghost use Rattle.raw_codegen.specs.Parts.{programs_of, script_programs};
ghost use Rattle.raw_codegen.specs.Limits.{AreShort};
ghost use Rattle.raw_route.specs.Planned.{Sending, sendings, show_first, show_of, plan_parts, planned};
ghost use Rattle.raw_route.specs.Counts.{AreCounts};
ghost use Rattle.raw_route.specs.Delivered.{IsDelivered};
ghost use Rattle.raw_route.specs.Refusals.{AreLawful, IsCause};

use crate::faults::first_fault;
use crate::giving::give_haul;
use crate::haul::Haul;
use crate::laws::{law_delivers, law_planned};
use crate::refusal::{PlanRefusal, refusal_of};
use raw_codegen::{GiveRefusal, PARTS_LIMIT, Programs, law_giving, law_parts, words_fit};
use raw_grid::{Topo, TopoRefusal};
use raw_model::limits::DEFAULT_DEPTH;
use raw_model::{Set, Show, TileProg};
use std::alloc::{AllocError, Global};

// The grid.
fn grid(alloc: Global, cols: u8, rows: u8) -> Result<Topo, PlanRefusal>
    ensures grid { IfOk result (λ topo. topo ≡ without_ports cols rows) }
    ensures size { IfOk result (λ _. IsSize cols rows) }
    ensures refusal { IfErr result (λ refusal. (refusal ≡ PlanRefusal.Memory) ⊎ ((refusal ≡ PlanRefusal.BadSize) × (¬ (IsSize cols rows)))) }
{
    match Topo::new(alloc, cols, rows) {
        Ok(topo) => Ok(topo),
        Err(TopoRefusal::BadSize) => Err(PlanRefusal::BadSize),
        Err(TopoRefusal::Memory) => Err(PlanRefusal::Memory),
    }
}

// All hauls give their parts, one after another.
fn give_hauls(
    programs: &mut Programs,
    counts: &mut Vec<u32>,
    cols: u8,
    rows: u8,
    hauls: &[Haul],
    words: &[u32],
) -> Result<(), GiveRefusal>
    requires as_many { length words.now ≡ length hauls.now }
    requires lawful { AreLawful cols rows hauls.now }
    requires programs { programs.now ≡ programs_of (cols * rows) [] }
    requires counts { AreCounts (cols * rows) counts.now.items [] }
    ensures given { OnOk result (programs.new ≡ programs_of (cols * rows) (plan_parts cols rows (sendings hauls.now words.now))) }
    ensures counted { OnOk result (AreCounts (cols * rows) counts.new.items (sendings hauls.now words.now)) }
    ensures too_many { result ≡ Err GiveRefusal.TooMany →
        ¬ (AreShort (script_programs (cols * rows) (plan_parts cols rows (sendings hauls.now words.now)))) }
{
    law_giving();
    law_parts();
    words_fit(words);
    for i in 0..hauls.len() {
        give_haul(programs, counts, cols, rows, &hauls[i], words[i])?;
    }
    Ok(())
}

// What is given to each tile and each switch, and how many words are sent to each tile.
fn programs_and_counts(
    alloc: Global,
    cols: u8,
    rows: u8,
    hauls: &[Haul],
    words: &[u32],
) -> Result<(Vec<TileProg>, Vec<u32>), GiveRefusal>
    requires as_many { length words.now ≡ length hauls.now }
    requires lawful { AreLawful cols rows hauls.now }
    ensures tiles { IfOk result (λ made. made.0.items ≡ script_programs (cols * rows) (plan_parts cols rows (sendings hauls.now words.now))) }
    ensures short { IfOk result (λ made. AreShort made.0.items) }
    ensures counts { IfOk result (λ made. AreCounts (cols * rows) made.1.items (sendings hauls.now words.now)) }
    ensures too_many { result ≡ Err GiveRefusal.TooMany →
        ¬ (AreShort (script_programs (cols * rows) (plan_parts cols rows (sendings hauls.now words.now)))) }
{
    let count = u32::from(cols) * u32::from(rows);
    let mut programs = Programs::new(alloc, count)?;
    let mut counts = vec![in alloc; 0; count as usize]?;
    give_hauls(&mut programs, &mut counts, cols, rows, hauls, words)?;
    let tiles = programs.finish()?;
    Ok((tiles, counts))
}

// Appends so many words of a tile's memory, if there are any.
fn push_show(shows: &mut Vec<Show>, tile: u32, words: u32) -> Result<(), AllocError>
    ensures { OnOk result (shows.new.items ≡ shows.old.items ++ option_to_list (show_first tile words)) }
{
    if words > 0 {
        shows.push(Show {
            tile,
            address: 0,
            words,
        })?;
    }
    Ok(())
}

// What is shown of memories: of each tile as many words as are sent to it.
fn shows(alloc: Global, counts: &[u32]) -> Result<Vec<Show>, AllocError>
    requires { length counts.now < 2 ^ 32 }
    ensures { (n : ℕ) (xs : List Sending) → AreCounts n counts.now xs →
        IfOk result (λ shows. shows.items ≡ filter_map (show_of xs) (range_with_len 0 n)) }
{
    let mut shows = Vec::new(alloc);
    for tile in 0..counts.len() {
        push_show(&mut shows, tile as u32, counts[tile])?;
    }
    Ok(shows)
}

// The planned set of hauls that are lawful, on their grid.
fn set_of_hauls(
    alloc: Global,
    topo: Topo,
    cols: u8,
    rows: u8,
    hauls: &[Haul],
    words: &[u32],
) -> Result<Set, PlanRefusal>
    requires grid { topo ≡ without_ports cols rows }
    requires as_many { length words.now ≡ length hauls.now }
    requires lawful { AreLawful cols rows hauls.now }
    ensures set { IfOk result (λ set. set ≡ planned cols rows (sendings hauls.now words.now)) }
    ensures delivers { IfOk result (λ set. (steps : List ℕ) → IsRun set steps →
        IsDelivered set (sendings hauls.now words.now) (end set steps)) }
    ensures refusal { IfErr result (λ refusal. (refusal ≡ PlanRefusal.Memory)
        ⊎ ((refusal ≡ PlanRefusal.TooMany) × (¬ (AreShort (planned cols rows (sendings hauls.now words.now)).tiles)))) }
{
    let (tiles, counts) = match programs_and_counts(alloc, cols, rows, hauls, words) {
        Ok(made) => made,
        Err(GiveRefusal::TooMany) => return Err(PlanRefusal::TooMany),
        Err(GiveRefusal::Memory) => return Err(PlanRefusal::Memory),
    };
    let shows = shows(alloc, &counts)?;
    words_fit(words);
    law_planned();
    law_delivers();
    Ok(Set {
        topo,
        limit: PARTS_LIMIT,
        depth: DEFAULT_DEPTH,
        ports: Vec::new(alloc),
        tiles,
        shows,
    })
}

/// The planned set of hauls with their words: each lawful list of its steps that comes to rest has brought each word to
/// its targets, where it stands behind those of earlier hauls, from address 0 on.
///
/// Its programs have no loops, so that no processor comes to the limit, `PARTS_LIMIT`.
pub fn plan(
    alloc: Global,
    cols: u8,
    rows: u8,
    hauls: &[Haul],
    words: &[u32],
) -> Result<Set, PlanRefusal>
    requires as_many { length words.now ≡ length hauls.now }
    requires few { length hauls.now < 2 ^ 32 }
    ensures set { IfOk result (λ set. set ≡ planned cols rows (sendings hauls.now words.now)) }
    ensures lawful { IfOk result (λ _. AreLawful cols rows hauls.now) }
    ensures delivers { IfOk result (λ set. (steps : List ℕ) → IsRun set steps →
        IsDelivered set (sendings hauls.now words.now) (end set steps)) }
    ensures cause { IfErr result (λ refusal. IsCause cols rows hauls.now words.now refusal) }
{
    let topo = grid(alloc, cols, rows)?;
    let count = u32::from(cols) * u32::from(rows);
    if let Some((place, fault)) = first_fault(count, hauls) {
        return Err(refusal_of(place, fault));
    }
    set_of_hauls(alloc, topo, cols, rows, hauls, words)
}
