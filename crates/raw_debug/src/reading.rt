//! The lines of a script, read one by one.
ghost use Rattle.std.specs.Prelude.{◌≡◌, ◌-◌, ◌<◌, ◌≤◌, Some, None, [], drop, length, slice_index_or, MatchOption};
ghost use Rattle.raw_text.specs.Number.{number_of};
ghost use Rattle.raw_text.specs.Text.{text_lines};
ghost use Rattle.raw_lines.specs.LabelsOf.{places_in};
ghost use Rattle.raw_debug.specs.Commands.{numbered, called, named, at_of, until_count_of, back_of, forth_of, has_code, code_of, passed_of, has_words, memory_of, until_pc_of, until_wire_of, until_memory_of, has_register, until_register_of, any_wire, any_word, any_value, any_of, until_goal, last_goal, word_of, word_with_one, until_any, word_with_two, until_of, word_with_three, word_with_four, word_with_five, or_place, third_of, command_of, is_echo, meaning_of, meant, bad_command};

use crate::command::{Aim, Command, Goal, Reading};
use crate::tokens::{TextLine, Tokens};
use raw_grid::{ProcId, WireId};
use raw_lines::TextLabels;
use raw_model::Set;
use raw_model::limits::MEMORY_SIZE;
use raw_text::{Text, number};

// The processor with this number.
fn numbered(set: &Set, p: Option<u32>) -> Option<ProcId>
    ensures { result ≡ numbered set.now p }
{
    let p = p?;
    if p < set.topo.procs() {
        Some(ProcId(p))
    } else {
        None
    }
}

// What the word says, the tile or the switch, in column `x` and row `y`.
fn called(set: &Set, word: &[u8], x: u8, y: u8) -> Option<ProcId>
    requires column { x < set.now.topo.cols }
    requires row { y < set.now.topo.rows }
    ensures { result ≡ called set.now word.now x y }
{
    let tile = set.topo.tile_at(x, y);
    if word == b"tile".as_slice() {
        Some(ProcId(tile))
    } else if word == b"switch".as_slice() {
        Some(ProcId(set.topo.tiles() + tile))
    } else {
        None
    }
}

// The processor that a word, a column and a row on the grid name.
fn named(set: &Set, word: &[u8], x: Option<u32>, y: Option<u32>) -> Option<ProcId>
    ensures { result ≡ named set.now word.now x y }
{
    let x = x?;
    let y = y?;
    if x < u32::from(set.topo.cols()) && y < u32::from(set.topo.rows()) {
        called(set, word, x as u8, y as u8)
    } else {
        None
    }
}

// So many steps of a processor, which it must take.
fn at_of(p: Option<ProcId>, steps: Option<u32>) -> Option<Command>
    ensures { result ≡ at_of p steps }
{
    let proc = p?;
    let steps = steps?;
    Some(Command::At { proc, steps })
}

// So many steps of a processor.
fn until_count_of(p: Option<ProcId>, steps: Option<u32>) -> Option<Command>
    ensures { result ≡ until_count_of p steps }
{
    let proc = p?;
    let steps = steps?;
    Some(Command::Count { proc, steps })
}

// So many steps back.
fn back_of(steps: Option<u32>) -> Option<Command>
    ensures { result ≡ back_of steps }
{
    let steps = steps?;
    Some(Command::Back { steps })
}

// So many steps forth.
fn forth_of(steps: Option<u32>) -> Option<Command>
    ensures { result ≡ forth_of steps }
{
    let steps = steps?;
    Some(Command::Forth { steps })
}

// Whether a processor is a tile or a switch.
fn has_code(set: &Set, p: ProcId) -> bool
    ensures { result ≡ has_code set.now p.0 }
{
    p.0 < 2 * set.topo.tiles()
}

// So many instructions of a processor, before and behind its pc.
fn code_of(set: &Set, p: ProcId, around: Option<u32>) -> Option<Command>
    ensures { result ≡ code_of set.now p.0 around }
{
    let around = around?;
    if has_code(set, p) {
        Some(Command::Code { around })
    } else {
        None
    }
}

// What was sent on a wire.
fn passed_of(set: &Set, wire: Option<u32>) -> Option<Command>
    ensures { result ≡ passed_of set.now wire }
{
    let wire = wire?;
    if wire < set.topo.wires() {
        Some(Command::Passed { wire: WireId(wire) })
    } else {
        None
    }
}

// Whether a processor is a tile in whose memory so many words, and at least one, stand from an address on, a
// multiple of 4.
#[tactic(auto, unfolding(raw_model::specs::Program::memory_size))]
fn has_words(set: &Set, p: ProcId, address: u32, words: u32) -> bool
    ensures { result ≡ has_words set.now p.0 address words }
{
    p.0 < set.topo.tiles()
        && address % 4 == 0
        && 0 < words
        && u64::from(address) + 4 * u64::from(words) <= u64::from(MEMORY_SIZE)
}

// So many words of the memory of a processor.
fn memory_of(set: &Set, p: ProcId, address: Option<u32>, words: Option<u32>) -> Option<Command>
    ensures { result ≡ memory_of set.now p.0 address words }
{
    let address = address?;
    let words = words?;
    if has_words(set, p, address, words) {
        Some(Command::Memory { address, words })
    } else {
        None
    }
}

// A pc of a processor.
fn until_pc_of(set: &Set, p: ProcId, pc: Option<u32>) -> Option<Command>
    ensures { result ≡ until_pc_of set.now p.0 pc }
{
    let pc = pc?;
    if has_code(set, p) {
        Some(Command::Until {
            proc: p,
            aim: Aim::Pc { pc },
        })
    } else {
        None
    }
}

// A value on a wire, which its producer sends.
fn until_wire_of(set: &Set, wire: Option<u32>, value: Option<u32>) -> Option<Command>
    ensures { result ≡ until_wire_of set.now wire value }
{
    let wire = wire?;
    let value = value?;
    if wire < set.topo.wires() {
        let wire = WireId(wire);
        Some(Command::Until {
            proc: set.topo.producer(wire),
            aim: Aim::Sends { wire, value },
        })
    } else {
        None
    }
}

// A word in the memory of a processor.
fn until_memory_of(set: &Set, p: ProcId, address: Option<u32>, word: Option<u32>) -> Option<Command>
    ensures { result ≡ until_memory_of set.now p.0 address word }
{
    let address = address?;
    let word = word?;
    if has_words(set, p, address, 1) {
        Some(Command::Until {
            proc: p,
            aim: Aim::Stores { address, word },
        })
    } else {
        None
    }
}

// Whether a processor is a tile or a switch that has a register with this number.
fn has_register(set: &Set, p: ProcId, register: u32) -> bool
    ensures { result ≡ has_register set.now p.0 register }
{
    if p.0 < set.topo.tiles() {
        register < 32
    } else {
        has_code(set, p) && register < 4
    }
}

// Another value in a register of a processor, which is this one.
fn until_register_of(
    set: &Set,
    p: ProcId,
    register: Option<u32>,
    value: Option<u32>,
) -> Option<Command>
    ensures { result ≡ until_register_of set.now p.0 register value }
{
    let register = register?;
    let value = value?;
    if has_register(set, p, register) {
        Some(Command::Until {
            proc: p,
            aim: Aim::Sets { register, value },
        })
    } else {
        None
    }
}

// Any value on a wire, which its producer sends.
fn any_wire(set: &Set, wire: Option<u32>) -> Option<Goal>
    ensures { result ≡ any_wire set.now wire }
{
    let wire = wire?;
    if wire < set.topo.wires() {
        let wire = WireId(wire);
        Some(Goal {
            proc: set.topo.producer(wire),
            aim: Aim::SendsAny { wire },
        })
    } else {
        None
    }
}

// Any other word in the memory of a processor.
fn any_word(set: &Set, p: ProcId, address: Option<u32>) -> Option<Goal>
    ensures { result ≡ any_word set.now p.0 address }
{
    let address = address?;
    if has_words(set, p, address, 1) {
        Some(Goal {
            proc: p,
            aim: Aim::StoresAny { address },
        })
    } else {
        None
    }
}

// Any other value in a register of a processor.
fn any_value(set: &Set, p: ProcId, register: Option<u32>) -> Option<Goal>
    ensures { result ≡ any_value set.now p.0 register }
{
    let register = register?;
    if has_register(set, p, register) {
        Some(Goal {
            proc: p,
            aim: Aim::SetsAny { register },
        })
    } else {
        None
    }
}

// The step that a word and a number are for, whatever the value is, where `p` is the current processor.
fn any_of(set: &Set, p: ProcId, word: &[u8], a: Option<u32>) -> Option<Goal>
    ensures { result ≡ any_of set.now p.0 word.now a }
{
    if word == b"wire".as_slice() {
        any_wire(set, a)
    } else if word == b"mem".as_slice() {
        any_word(set, p, a)
    } else if word == b"reg".as_slice() {
        any_value(set, p, a)
    } else {
        None
    }
}

// On to the next such step.
fn until_goal(goal: Option<Goal>) -> Option<Command>
    ensures { result ≡ until_goal goal }
{
    match goal {
        Some(Goal { proc, aim }) => Some(Command::Until { proc, aim }),
        None => None,
    }
}

// Back to the latest such step.
fn last_goal(goal: Option<Goal>) -> Option<Command>
    ensures { result ≡ last_goal goal }
{
    match goal {
        Some(Goal { proc, aim }) => Some(Command::Last { proc, aim }),
        None => None,
    }
}

// A command of one word.
fn word_of(word: &[u8]) -> Option<Command>
    ensures { result ≡ word_of word.now }
{
    if word == b"regs".as_slice() {
        Some(Command::Registers)
    } else if word == b"wires".as_slice() {
        Some(Command::Wires)
    } else if word == b"waits".as_slice() {
        Some(Command::Waits)
    } else if word == b"rest".as_slice() {
        Some(Command::Rest)
    } else if word == b"where".as_slice() {
        Some(Command::Where)
    } else if word == b"all".as_slice() {
        Some(Command::All)
    } else {
        None
    }
}

// A command of two tokens, where `p` is the current processor.
fn word_with_one(set: &Set, p: ProcId, word: &[u8], a: &[u8]) -> Option<Command>
    ensures { result ≡ word_with_one set.now p.0 word.now a.now }
{
    if word == b"back".as_slice() {
        back_of(number(a))
    } else if word == b"forth".as_slice() {
        forth_of(number(a))
    } else if word == b"code".as_slice() {
        code_of(set, p, number(a))
    } else if word == b"passed".as_slice() {
        passed_of(set, number(a))
    } else if word == b"until".as_slice() && a == b"stop".as_slice() {
        Some(Command::Finish)
    } else {
        None
    }
}

// What `until`, a word and a number say, where `p` is the current processor.
fn until_any(set: &Set, p: ProcId, word: &[u8], a: Option<u32>) -> Option<Command>
    ensures { result ≡ until_any set.now p.0 word.now a }
{
    if word == b"pc".as_slice() {
        until_pc_of(set, p, a)
    } else {
        until_goal(any_of(set, p, word, a))
    }
}

// A command of three tokens, where `p` is the current processor.
fn word_with_two(set: &Set, p: ProcId, word: &[u8], first: &[u8], b: Option<u32>) -> Option<Command>
    ensures { result ≡ word_with_two set.now p.0 word.now first.now b }
{
    if word == b"at".as_slice() {
        at_of(numbered(set, number(first)), b)
    } else if word == b"mem".as_slice() {
        memory_of(set, p, number(first), b)
    } else if word == b"until".as_slice() {
        until_any(set, p, first, b)
    } else if word == b"last".as_slice() {
        last_goal(any_of(set, p, first, b))
    } else {
        None
    }
}

// What `until`, a word and two numbers say, where `p` is the current processor.
fn until_of(set: &Set, p: ProcId, word: &[u8], a: Option<u32>, b: Option<u32>) -> Option<Command>
    ensures { result ≡ until_of set.now p.0 word.now a b }
{
    if word == b"wire".as_slice() {
        until_wire_of(set, a, b)
    } else if word == b"mem".as_slice() {
        until_memory_of(set, p, a, b)
    } else if word == b"reg".as_slice() {
        until_register_of(set, p, a, b)
    } else if word == b"count".as_slice() {
        until_count_of(numbered(set, a), b)
    } else {
        None
    }
}

// A command of four tokens, where `p` is the current processor.
fn word_with_three(
    set: &Set,
    p: ProcId,
    word: &[u8],
    first: &[u8],
    a: Option<u32>,
    b: Option<u32>,
) -> Option<Command>
    ensures { result ≡ word_with_three set.now p.0 word.now first.now a b }
{
    if word == b"until".as_slice() {
        until_of(set, p, first, a, b)
    } else {
        None
    }
}

// A command of five tokens, which names its processor by its place.
fn word_with_four(
    set: &Set,
    word: &[u8],
    name: &[u8],
    x: Option<u32>,
    y: Option<u32>,
    steps: Option<u32>,
) -> Option<Command>
    ensures { result ≡ word_with_four set.now word.now name.now x y steps }
{
    if word == b"at".as_slice() {
        at_of(named(set, name, x, y), steps)
    } else {
        None
    }
}

// A command of six tokens, which names its processor by its place.
fn word_with_five(
    set: &Set,
    word: &[u8],
    first: &[u8],
    name: &[u8],
    x: Option<u32>,
    y: Option<u32>,
    steps: Option<u32>,
) -> Option<Command>
    ensures { result ≡ word_with_five set.now word.now first.now name.now x y steps }
{
    if word == b"until".as_slice() && first == b"count".as_slice() {
        until_count_of(named(set, name, x, y), steps)
    } else {
        None
    }
}

// The number that a token of a line says.
fn number_at<L: Tokens>(line: &L, place: usize) -> Option<u32>
    requires { place < length (L.tokens line.now) }
    ensures { result ≡ number_of (slice_index_or (L.tokens line.now) place []) }
{
    number(line.token(place))
}

// A number, and where there is none where a label stands.
fn or_place(number: Option<u32>, labels: &TextLabels<'_>, p: ProcId, name: &[u8]) -> Option<u32>
    ensures { result ≡ or_place number (places_in labels.now p.0 name.now) }
{
    match number {
        Some(number) => Some(number),
        None => labels.place(p, name),
    }
}

// The number that the third token of a line is, where `p` is the current processor.
fn third_of<L: Tokens>(labels: &TextLabels<'_>, line: &L, p: ProcId) -> Option<u32>
    requires { 2 < length (L.tokens line.now) }
    ensures { result ≡ third_of (places_in labels.now) p.0 (slice_index_or (L.tokens line.now) 0 [])
        (slice_index_or (L.tokens line.now) 1 []) (slice_index_or (L.tokens line.now) 2 []) }
{
    let number = number_at(line, 2);
    if line.token(0) == b"until".as_slice() && line.token(1) == b"pc".as_slice() {
        or_place(number, labels, p, line.token(2))
    } else {
        number
    }
}

// The command that a line says, where `p` is the current processor.
#[tactic(auto, using(crate::proofs::TokenCounts::one_token, crate::proofs::TokenCounts::two_tokens, crate::proofs::TokenCounts::three_tokens, crate::proofs::TokenCounts::four_tokens, crate::proofs::TokenCounts::five_tokens, crate::proofs::TokenCounts::six_tokens, crate::proofs::TokenCounts::other_tokens))]
fn command_at<L: Tokens>(labels: &TextLabels<'_>, set: &Set, line: &L, p: ProcId) -> Option<Command>
    ensures { result ≡ command_of (places_in labels.now) set.now p.0 (L.tokens line.now) }
{
    match line.count() {
        1 => word_of(line.token(0)),
        2 => word_with_one(set, p, line.token(0), line.token(1)),
        3 => word_with_two(
            set,
            p,
            line.token(0),
            line.token(1),
            third_of(labels, line, p),
        ),
        4 => word_with_three(
            set,
            p,
            line.token(0),
            line.token(1),
            number_at(line, 2),
            number_at(line, 3),
        ),
        5 => word_with_four(
            set,
            line.token(0),
            line.token(1),
            number_at(line, 2),
            number_at(line, 3),
            number_at(line, 4),
        ),
        6 => word_with_five(
            set,
            line.token(0),
            line.token(1),
            line.token(2),
            number_at(line, 3),
            number_at(line, 4),
            number_at(line, 5),
        ),
        _ => None,
    }
}

// Whether a line has the word `echo` and tokens behind it.
fn is_echo<L: Tokens>(line: &L) -> bool
    requires { 0 < length (L.tokens line.now) }
    ensures { result ≡ is_echo (slice_index_or (L.tokens line.now) 0 []) (drop 1 (L.tokens line.now)) }
{
    line.token(0) == b"echo".as_slice() && 1 < line.count()
}

/// What a line says, where `p` is the current processor.
#[tactic(auto, using(crate::proofs::TokenCounts::no_token, crate::proofs::TokenCounts::some_tokens))]
pub(crate) fn reading_of<L: Tokens>(
    labels: &TextLabels<'_>,
    set: &Set,
    line: &L,
    p: ProcId,
) -> Reading
    ensures { meant result (L.tokens line.now) ≡ meaning_of (places_in labels.now) set.now p.0 (L.tokens line.now) }
{
    if line.count() == 0 {
        return Reading::Blank;
    }
    if is_echo(line) {
        return Reading::Echoes;
    }
    match command_at(labels, set, line, p) {
        Some(command) => Reading::Says(command),
        None => Reading::Outside,
    }
}

// What the line of a text at a place, counted from 0, says.
fn reading_at(labels: &TextLabels<'_>, set: &Set, text: &Text, line: usize, p: ProcId) -> Reading
    requires { line < length (text_lines text.now) }
    ensures { meant result (slice_index_or (text_lines text.now) line [])
        ≡ meaning_of (places_in labels.now) set.now p.0 (slice_index_or (text_lines text.now) line []) }
{
    reading_of(labels, set, &TextLine { text, line }, p)
}

/// The place of the first line that is no command, of the lines of a script from the place `from` on; both are counted
/// from 0. A line without tokens is passed over.
pub fn bad_command(labels: &TextLabels<'_>, set: &Set, text: &Text, from: usize) -> Option<usize>
    requires { from ≤ length (text_lines text.now) }
    ensures { MatchOption result
        (bad_command (places_in labels.now) set.now (drop from (text_lines text.now)) ≡ None)
        (λ line. (from ≤ line) × (line < length (text_lines text.now))
        × (bad_command (places_in labels.now) set.now (drop from (text_lines text.now)) ≡ Some (line - from))) }
{
    let mut current = ProcId(0);
    for line in from..text.line_count() {
        let reading = reading_at(labels, set, text, line, current);
        if let Reading::Outside = reading {
            return Some(line);
        }
        current = reading.led_by(current);
    }
    None
}
