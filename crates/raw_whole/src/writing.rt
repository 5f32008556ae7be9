//! The lines of a whole run.
ghost use Rattle.std.specs.Prelude.{◌≡◌, ℕ, ◌<◌, ◌++◌, codes, decimal, length};
ghost use Rattle.std.specs.List.{flat_map, range_with_len};
ghost use Rattle.raw_io.specs.Writing.{Writes};
ghost use Rattle.raw_grid.specs.Topology.{proc_count};
ghost use Rattle.raw_grid.specs.Wires.{wires_of};
ghost use Rattle.raw_model.specs.StateTexts.{mark_of};
ghost use Rattle.raw_clock.specs.Clock.{clock, machine_at};
ghost use Rattle.raw_trace.specs.Whole.{turns_text, turns_line, turn_pieces, distances_text, distances_line, distance_pieces, sent_line, whole_text};
ghost use Rattle.raw_whole.specs.Kept.{IsWhole};

use crate::gathering::Whole;
use crate::lines::{distances_word, sent_head, turns_head, turns_word, whole_head};
use crate::rested::RestedRun;
use raw_grid::{ProcId, WireId};
use raw_io::{Failed, Sink, put_all};
use raw_serial::{Machine, Turn};
use raw_state_text::put_line;

// Puts pieces of turns of a processor.
fn put_turns<K: Sink>(
    machine: &Machine<'_>,
    p: ProcId,
    pieces: &[(Turn, u32)],
    out: &mut K,
) -> Result<(), Failed>
    requires { p.0 < proc_count machine.now.set.topo }
    ensures { Writes (K.sight out.old) (K.sight out.new)
        (flat_map (λ piece. turns_text (mark_of machine.now.set machine.now.state p.0) piece.0 piece.1) pieces.now) result }
{
    'all: for i in 0..pieces.len() {
        let piece = pieces[i];
        put_line(&turns_word(machine, p, piece.0, piece.1), out)?;
    }
    Ok(())
}

// Puts pieces of turns of a processor, and the end of their line.
#[tactic(auto, using(raw_io::proofs::Chains::chained))]
fn put_turns_end<K: Sink>(
    machine: &Machine<'_>,
    p: ProcId,
    pieces: &[(Turn, u32)],
    out: &mut K,
) -> Result<(), Failed>
    requires { p.0 < proc_count machine.now.set.topo }
    ensures { Writes (K.sight out.old) (K.sight out.new)
        (flat_map (λ piece. turns_text (mark_of machine.now.set machine.now.state p.0) piece.0 piece.1) pieces.now ++ codes "\n") result }
{
    put_turns(machine, p, pieces, out)?;
    put_all(out, b"\n")
}

// Puts the line of a processor, of these pieces.
#[tactic(auto, using(raw_io::proofs::Chains::chained))]
fn put_turns_line<K: Sink>(
    machine: &Machine<'_>,
    p: ProcId,
    pieces: &[(Turn, u32)],
    out: &mut K,
) -> Result<(), Failed>
    requires { p.0 < proc_count machine.now.set.topo }
    ensures { Writes (K.sight out.old) (K.sight out.new)
        (decimal p.0 ++ (flat_map (λ piece. turns_text (mark_of machine.now.set machine.now.state p.0) piece.0 piece.1) pieces.now ++ codes "\n")) result }
{
    put_line(&turns_head(p), out)?;
    put_turns_end(machine, p, pieces, out)
}

// Puts the line of a processor.
fn put_processor<K: Sink>(run: &RestedRun<'_, '_>, p: ProcId, out: &mut K) -> Result<(), Failed>
    requires { p.0 < proc_count run.now.machine.now.set.topo }
    ensures { Writes (K.sight out.old) (K.sight out.new)
        (turns_line run.now.machine.now.set run.now.cycles p.0) result }
{
    let kept = &run.whole.turns[p.0 as usize];
    put_turns_line(run.machine, p, &kept.pieces, out)
}

// Puts the lines of all processors, by rising number.
fn put_processors<K: Sink>(run: &RestedRun<'_, '_>, out: &mut K) -> Result<(), Failed>
    ensures { Writes (K.sight out.old) (K.sight out.new)
        (flat_map (turns_line run.now.machine.now.set run.now.cycles) (range_with_len 0 (proc_count run.now.machine.now.set.topo))) result }
{
    let procs = run.machine.procs();
    'all: for p in 0..procs {
        put_processor(run, ProcId(p), out)?;
    }
    Ok(())
}

// Puts pieces of distances.
fn put_distances<K: Sink>(pieces: &[(u32, u32)], out: &mut K) -> Result<(), Failed>
    ensures { Writes (K.sight out.old) (K.sight out.new)
        (flat_map distances_text pieces.now) result }
{
    'all: for i in 0..pieces.len() {
        let piece = pieces[i];
        put_line(&distances_word(piece.0, piece.1), out)?;
    }
    Ok(())
}

// Puts pieces of distances, and the end of their line.
#[tactic(auto, using(raw_io::proofs::Chains::chained))]
fn put_distances_end<K: Sink>(pieces: &[(u32, u32)], out: &mut K) -> Result<(), Failed>
    ensures { Writes (K.sight out.old) (K.sight out.new)
        (flat_map distances_text pieces.now ++ codes "\n") result }
{
    put_distances(pieces, out)?;
    put_all(out, b"\n")
}

// Puts the line of a wire, of these pieces, where there are some.
#[tactic(auto, using(raw_io::proofs::Chains::chained))]
fn put_sent_line<K: Sink>(wire: WireId, pieces: &[(u32, u32)], out: &mut K) -> Result<(), Failed>
    ensures { Writes (K.sight out.old) (K.sight out.new)
        ((codes "sent " ++ decimal wire.0) ++ (flat_map distances_text pieces.now ++ codes "\n")) result }
{
    put_line(&sent_head(wire), out)?;
    put_distances_end(pieces, out)
}

// Puts the line of a wire, where something is sent there.
fn put_wire<K: Sink>(wire: WireId, pieces: &[(u32, u32)], out: &mut K) -> Result<(), Failed>
    ensures { Writes (K.sight out.old) (K.sight out.new)
        (distances_line wire.0 pieces.now) result }
{
    if pieces.is_empty() {
        return Ok(());
    }
    put_sent_line(wire, pieces, out)
}

// Puts the lines of the wires, by rising number.
fn put_wires<K: Sink>(run: &RestedRun<'_, '_>, out: &mut K) -> Result<(), Failed>
    ensures { Writes (K.sight out.old) (K.sight out.new)
        (flat_map (sent_line run.now.machine.now.set run.now.cycles) (range_with_len 0 (length (wires_of run.now.machine.now.set.topo)))) result }
{
    let set = run.machine.set();
    let wires = set.topo.wires();
    'all: for w in 0..wires {
        let kept = &run.whole.sends[w as usize];
        put_wire(WireId(w), &kept.pieces, out)?;
    }
    Ok(())
}

// Puts the lines of the processors and of the wires.
#[tactic(auto, using(raw_io::proofs::Chains::chained))]
fn put_all_lines<K: Sink>(run: &RestedRun<'_, '_>, out: &mut K) -> Result<(), Failed>
    ensures { Writes (K.sight out.old) (K.sight out.new)
        (flat_map (turns_line run.now.machine.now.set run.now.cycles) (range_with_len 0 (proc_count run.now.machine.now.set.topo))
        ++ flat_map (sent_line run.now.machine.now.set run.now.cycles) (range_with_len 0 (length (wires_of run.now.machine.now.set.topo)))) result }
{
    put_processors(run, out)?;
    put_wires(run, out)
}

/// Writes the lines of the whole run of a set that has so many cycles, whose machine came to rest by the clock. It takes no
/// memory.
///
/// After `Failed` a front of the text is appended.
#[tactic(auto, using(raw_io::proofs::Chains::chained), unfolding(raw_trace::specs::Whole::whole_text))]
pub fn write_whole<K: Sink>(
    machine: &Machine<'_>,
    whole: &Whole,
    cycles: u64,
    out: &mut K,
) -> Result<(), Failed>
    requires rests { machine.now.state ≡ machine_at (clock machine.now.set cycles) }
    requires whole { IsWhole machine.now.set cycles whole.now }
    ensures { Writes (K.sight out.old) (K.sight out.new)
        (whole_text machine.now.set cycles) result }
{
    put_line(&whole_head(cycles), out)?;
    let run = RestedRun {
        machine,
        whole,
        cycles,
    };
    put_all_lines(&run, out)
}
