//! What commands write, line by line.
ghost use Rattle.std.specs.Prelude.{◌≡◌, ℕ, ◌+◌, ◌-◌, ◌*◌, ◌^◌, ◌<◌, ◌≤◌, true, min, Some, [], ◌++◌, codes, drop, length, slice_get, slice_index_or, if◌then◌else◌, IfOk};
ghost use Rattle.raw_io.specs.Writing.{Writes};
ghost use Rattle.raw_grid.specs.Topology.{proc_count};
ghost use Rattle.raw_grid.specs.Wires.{wires_of};
ghost use Rattle.raw_model.specs.Program.{memory_size};
ghost use Rattle.raw_model.specs.Local.{Tile};
ghost use Rattle.raw_model.specs.Machine.{tile_code, switch_code};
ghost use Rattle.raw_model.specs.Outcomes.{outcome};
ghost use Rattle.raw_model.specs.Serial.{serial};
ghost use Rattle.raw_report.specs.Report.{outcome_lines};
ghost use Rattle.raw_debug.specs.Walking.{state_after, sent_by};
ghost use Rattle.raw_debug.specs.Answers.{place_lines, local_lines, memory_lines, wire_lines, wait_lines, tile_text, switch_text, next_tile_text, next_switch_text, next_text, where_line, lines_from, code_lines, passed_line, answer, echo_line};
ghost use Rattle.raw_debug.specs.Debugging.{shows_here, IsPossible, IsLed};

use crate::command::Command;
use crate::lines::{
    end_line, got_line, next_switch_line, next_tile_line, passed_line, place_line, place_text,
    sent_line, switch_code_line, switch_registers_line, tile_code_line, word_line,
};
use crate::tokens::Tokens;
use crate::trail::Trail;
use raw_grid::{ProcId, WireId};
use raw_io::{Failed, Sink, put_each};
use raw_model::{Set, law_serial};
use raw_outcome::outcome;
use raw_report::put_outcome;
use raw_serial::{Machine, Processor};
use raw_state_text::{Line, put_line, registers_line, wait_line, wire_line};
use raw_switch_isa::{MAX_SWITCH_CODE, SwitchIns};
use raw_tile::{TileMemory, TileState};
use raw_tile_isa::{MAX_TILE_CODE, TileIns};

// Puts the registers of a tile.
fn put_tile_registers<K: Sink>(state: &TileState, out: &mut K) -> Result<(), Failed>
    ensures { Writes (K.sight out.old) (K.sight out.new)
        (local_lines (Some (Tile state.now))) result }
{
    let first = registers_line(state, 0);
    let second = registers_line(state, 8);
    let third = registers_line(state, 16);
    let last = registers_line(state, 24);
    let lines = [
        first.as_bytes(),
        second.as_bytes(),
        third.as_bytes(),
        last.as_bytes(),
    ];
    put_each(out, &lines)
}

// Puts the registers of a tile or a switch, or how many words a port has sent or got.
fn put_registers<K: Sink>(m: &Machine<'_>, p: ProcId, out: &mut K) -> Result<(), Failed>
    requires { p.0 < proc_count m.now.set.topo }
    ensures { Writes (K.sight out.old) (K.sight out.new)
        (local_lines (slice_get m.now.state.locals p.0)) result }
{
    match m.processor(p) {
        Processor::Tile(tile) => put_tile_registers(&tile.state, out),
        Processor::Switch(switch) => put_line(&switch_registers_line(&switch.state.regs), out),
        Processor::Source(port) => put_line(&sent_line(port.done), out),
        Processor::Sink(port) => put_line(&got_line(port.done), out),
    }
}

// Puts so many words of a memory, from an address on.
#[tactic(auto, unfolding(raw_model::specs::Program::memory_size))]
fn put_words<K: Sink>(
    memory: &TileMemory,
    address: u32,
    words: u32,
    out: &mut K,
) -> Result<(), Failed>
    requires { address + 4 * words ≤ memory_size }
    ensures { Writes (K.sight out.old) (K.sight out.new)
        (memory_lines memory.now address words) result }
{
    for k in 0..words {
        let at = address + 4 * k;
        put_line(&word_line(at, memory.word_at(at)), out)?;
    }
    Ok(())
}

// Puts the wires that hold values, by rising number.
fn put_wires<K: Sink>(m: &Machine<'_>, out: &mut K) -> Result<(), Failed>
    ensures { Writes (K.sight out.old) (K.sight out.new) (wire_lines m.now.set m.now.state) result }
{
    for w in 0..m.set().topo.wires() {
        put_line(&wire_line(m, WireId(w)), out)?;
    }
    Ok(())
}

// Puts what the processors wait for, by rising number.
fn put_waits<K: Sink>(m: &Machine<'_>, out: &mut K) -> Result<(), Failed>
    ensures { Writes (K.sight out.old) (K.sight out.new) (wait_lines m.now.set m.now.state) result }
{
    for p in 0..m.procs() {
        put_line(&wait_line(m, ProcId(p)), out)?;
    }
    Ok(())
}

// Puts the instructions of a tile from one place up to another.
fn put_tile_code<K: Sink>(
    code: &[TileIns],
    pc: u32,
    low: u32,
    high: u32,
    out: &mut K,
) -> Result<(), Failed>
    requires high { high ≤ length code.now }
    requires few { length code.now ≤ MAX_TILE_CODE }
    ensures { Writes (K.sight out.old) (K.sight out.new)
        (lines_from (λ i. tile_text i (slice_get code.now i)) pc low (high - low)) result }
{
    for place in low..high {
        put_line(&tile_code_line(pc, place, code[place as usize]), out)?;
    }
    Ok(())
}

// Puts the instructions of a switch from one place up to another.
fn put_switch_code<K: Sink>(
    code: &[SwitchIns],
    pc: u32,
    low: u32,
    high: u32,
    out: &mut K,
) -> Result<(), Failed>
    requires { high ≤ length code.now }
    ensures { Writes (K.sight out.old) (K.sight out.new)
        (lines_from (λ i. switch_text (slice_get code.now i)) pc low (high - low)) result }
{
    for place in low..high {
        put_line(&switch_code_line(pc, place, code[place as usize]), out)?;
    }
    Ok(())
}

// The place behind the last instruction, of so many, that is up to so far from the pc.
fn end_near(pc: u32, around: u32, count: usize) -> u32
    requires { count < 2 ^ 32 }
    ensures { result ≡ min (pc + around + 1) count }
{
    (u64::from(pc) + u64::from(around) + 1).min(count as u64) as u32
}

// The program of the tile that is this processor.
fn tile_code(set: &Set, p: ProcId) -> &[TileIns]
    ensures code { result.now ≡ tile_code set.now p.0 }
    ensures few { length result.now ≤ MAX_TILE_CODE }
{
    match set.tiles.get(p.0 as usize) {
        Some(tile) => tile.code.as_slice(),
        None => &[],
    }
}

// The program of the switch that is this processor.
fn switch_code(set: &Set, p: ProcId) -> &[SwitchIns]
    ensures code { result.now ≡ switch_code set.now p.0 }
    ensures few { length result.now ≤ MAX_SWITCH_CODE }
{
    let tile = p.0.saturating_sub(set.topo.tiles());
    match set.tiles.get(tile as usize) {
        Some(tile) => tile.switch.as_slice(),
        None => &[],
    }
}

// Puts the instructions of a processor that are up to so far from its pc.
fn put_code<K: Sink>(m: &Machine<'_>, p: ProcId, around: u32, out: &mut K) -> Result<(), Failed>
    requires { p.0 < proc_count m.now.set.topo }
    ensures { Writes (K.sight out.old) (K.sight out.new)
        (code_lines m.now.set p.0 around (slice_get m.now.state.locals p.0)) result }
{
    match m.processor(p) {
        Processor::Tile(tile) => {
            let pc = tile.state.pc;
            let code = tile_code(m.set(), p);
            let high = end_near(pc, around, code.len());
            put_tile_code(code, pc, pc.saturating_sub(around), high, out)
        }
        Processor::Switch(switch) => {
            let pc = switch.state.pc;
            let code = switch_code(m.set(), p);
            let high = end_near(pc, around, code.len());
            put_switch_code(code, pc, pc.saturating_sub(around), high, out)
        }
        Processor::Source(_) | Processor::Sink(_) => Ok(()),
    }
}

// Puts where a script stands with each processor, by rising number.
fn put_places<K: Sink>(m: &Machine<'_>, out: &mut K) -> Result<(), Failed>
    ensures { Writes (K.sight out.old) (K.sight out.new) (place_lines m.now.set m.now.state) result }
{
    for p in 0..m.procs() {
        put_line(&place_line(m, ProcId(p)), out)?;
    }
    Ok(())
}

// The end of a line that shows the instruction at a tile's pc, if there is one.
fn next_of_tile(code: &[TileIns], pc: u32) -> Line
    requires { length code.now ≤ MAX_TILE_CODE }
    ensures { result ≡ next_tile_text pc (slice_get code.now pc) ++ codes "\n" }
{
    if pc as usize >= code.len() {
        return end_line();
    }
    next_tile_line(pc, code[pc as usize])
}

// The end of a line that shows the instruction at a switch's pc, if there is one.
fn next_of_switch(code: &[SwitchIns], pc: u32) -> Line
    ensures { result ≡ next_switch_text (slice_get code.now pc) ++ codes "\n" }
{
    if pc as usize >= code.len() {
        return end_line();
    }
    next_switch_line(code[pc as usize])
}

// The end of a line that shows the instruction of a processor that is next, if there is one.
fn next_line(m: &Machine<'_>, p: ProcId) -> Line
    requires { p.0 < proc_count m.now.set.topo }
    ensures { result ≡ next_text m.now.set p.0 (slice_get m.now.state.locals p.0) ++ codes "\n" }
{
    match m.processor(p) {
        Processor::Tile(tile) => next_of_tile(tile_code(m.set(), p), tile.state.pc),
        Processor::Switch(switch) => next_of_switch(switch_code(m.set(), p), switch.state.pc),
        Processor::Source(_) | Processor::Sink(_) => end_line(),
    }
}

// Puts where a script stands with a processor, and the instruction that is next there.
fn put_where<K: Sink>(m: &Machine<'_>, p: ProcId, out: &mut K) -> Result<(), Failed>
    requires { p.0 < proc_count m.now.set.topo }
    ensures { Writes (K.sight out.old) (K.sight out.new)
        (where_line m.now.set m.now.state p.0) result }
{
    let place = place_text(m, p);
    let next = next_line(m, p);
    put_each(out, &[place.as_bytes(), next.as_bytes()])
}

// Puts how a machine came to rest that stands at the end of the serial order.
fn put_rest<K: Sink>(m: &Machine<'_>, out: &mut K) -> Result<(), Failed>
    requires { m.now.state ≡ state_after m.now.set (length (serial m.now.set)) }
    ensures { Writes (K.sight out.old) (K.sight out.new)
        (outcome_lines m.now.set m.now.state (outcome m.now.set m.now.state)) result }
{
    law_serial();
    // The set is asked for so that it is known to keep its rules.
    let _set = m.set();
    put_outcome(m, outcome(m), out)
}

// Puts a token, and a newline behind the last one, and else a blank.
fn put_token<K: Sink>(token: &[u8], is_last: bool, out: &mut K) -> Result<(), Failed>
    ensures { Writes (K.sight out.old) (K.sight out.new)
        (token.now ++ (if is_last then codes "\n" else codes " ")) result }
{
    if is_last {
        put_each(out, &[token, b"\n"])
    } else {
        put_each(out, &[token, b" "])
    }
}

// Puts the tokens of a line behind its first one, with a blank between each two.
fn put_tokens<L: Tokens, K: Sink>(line: &L, out: &mut K) -> Result<(), Failed>
    ensures { Writes (K.sight out.old) (K.sight out.new) (echo_line (drop 1 (L.tokens line.now))) result }
{
    let count = line.count();
    for place in 1..count {
        put_token(line.token(place), place + 1 == count, out)?;
    }
    Ok(())
}

/// Puts what a line writes that has the word `echo` and tokens. It takes no memory, and answers true.
pub(crate) fn put_echo<L: Tokens, K: Sink>(line: &L, out: &mut K) -> Result<bool, Failed>
    ensures answer { IfOk result (λ done. done ≡ true) }
    ensures writes { Writes (K.sight out.old) (K.sight out.new)
        (echo_line (drop 1 (L.tokens line.now))) result }
{
    put_tokens(line, out)?;
    Ok(true)
}

// Puts what was sent on a wire up to where a machine stands.
fn put_passed<K: Sink>(trail: &mut Trail<'_>, wire: WireId, out: &mut K) -> Result<(), Failed>
    requires { wire.0 < length (wires_of trail.old.set.topo) }
    ensures stays { trail.new ≡ trail.old }
    ensures writes { Writes (K.sight out.old) (K.sight out.new)
        (passed_line wire.0 (sent_by trail.old.set trail.old.moment wire.0)) result }
{
    let sent = trail.sent_on(wire);
    put_line(&passed_line(wire, &sent), out)
}

// Puts what a command writes that shows something of a machine.
fn put_shown<K: Sink>(
    m: &Machine<'_>,
    p: ProcId,
    command: Command,
    out: &mut K,
) -> Result<(), Failed>
    requires there { p.0 < proc_count m.now.set.topo }
    requires possible { IsPossible m.now.set p.0 command }
    requires here { shows_here command ≡ true }
    ensures { (moment : ℕ) → Writes (K.sight out.old) (K.sight out.new)
        (answer m.now.set moment m.now.state p.0 command) result }
{
    match command {
        Command::At { .. }
        | Command::Count { .. }
        | Command::Back { .. }
        | Command::Forth { .. }
        | Command::Until { .. }
        | Command::Last { .. }
        | Command::Finish => put_line(&place_line(m, p), out),
        Command::Where => put_where(m, p, out),
        Command::All => put_places(m, out),
        Command::Registers => put_registers(m, p, out),
        Command::Memory { address, words } => {
            let tile = m.tile(p.0);
            put_words(&tile.memory, address, words, out)
        }
        Command::Wires => put_wires(m, out),
        Command::Waits => put_waits(m, out),
        Command::Code { around } => put_code(m, p, around, out),
        Command::Passed { .. } | Command::Rest => unreachable!(),
    }
}

/// Puts what a command writes that led to where a machine stands, with this processor as the current one. It takes no
/// memory.
pub(crate) fn put_answer<K: Sink>(
    trail: &mut Trail<'_>,
    p: ProcId,
    command: Command,
    out: &mut K,
) -> Result<(), Failed>
    requires there { p.0 < proc_count trail.old.set.topo }
    requires possible { IsPossible trail.old.set p.0 command }
    requires led { IsLed trail.old.set trail.old.moment command }
    ensures stays { trail.new ≡ trail.old }
    ensures writes { Writes (K.sight out.old) (K.sight out.new)
        (answer trail.old.set trail.old.moment (state_after trail.old.set trail.old.moment) p.0 command) result }
{
    match command {
        Command::Passed { wire } => put_passed(trail, wire, out),
        Command::Rest => put_rest(trail.machine(), out),
        _ => put_shown(trail.machine(), p, command, out),
    }
}
