//! Firings with results worked by hand, from the rules of the ten routes and of the seven operations. The words are the
//! sums of their fields by the table of bits.
ghost use Rattle.std.specs.Prelude.{Some};
ghost use Rattle.raw_switch.specs.Given.{IsGivenFor};

use raw_model::Cause::Pc;
use raw_model::Mark::{self, Going, Halted, Trapped};
use raw_switch::{SwitchState, SwitchStep, switch_fire};
use raw_switch_isa::{SwitchIns, decode, has_end, inputs};
use std::process::Abort;
use std::test::Fail;

/// The word of an instruction, its pc in a program of three instructions, the registers before and after it, the next pc,
/// the mark, and each output that sends, by its end index, with its value.
type Row = (
    u64,
    u32,
    [u32; 4],
    [u32; 4],
    u32,
    Mark,
    &'static [(usize, u32)],
);

static ROWS: [Row; 15] = [
    // One value on two outputs, and a counted branch that is not taken.
    (
        0x4000_0081_0080_0000,
        0,
        [0, 0, 0, 0],
        [0xffff_ffff, 0, 0, 0],
        1,
        Going,
        &[(1, 9), (4, 9)],
    ), // bnezd r0, 2 1:W>E 1:W>P
    // A route sends the register as it was before the move.
    (
        0x55c0_0010_00c0_0000,
        0,
        [0, 5, 0, 0],
        [0, 9, 0, 0],
        1,
        Going,
        &[(4, 5)],
    ), // move r1, 1:W 1:r1>P
    (
        0x0000_0001_0016_0000,
        1,
        [1, 2, 3, 4],
        [1, 2, 3, 4],
        2,
        Going,
        &[(1, 9), (5, 15), (6, 14)],
    ), // nop 1:W>E 2:W>E 2:P>N
    // The last instruction of the program: it is done in full, and the switch is trapped.
    (
        0x0000_0030_0000_6000,
        2,
        [1, 2, 3, 4],
        [1, 2, 3, 4],
        3,
        Trapped(Pc),
        &[(7, 4)],
    ), // nop 2:r3>S
    (
        0x1000_0002_0000_0000,
        2,
        [0, 0, 0, 0],
        [0, 0, 0, 0],
        0,
        Going,
        &[(0, 6)],
    ), // j 0 1:N>N
    (
        0x103f_ffc0_0000_0000,
        0,
        [0, 0, 0, 0],
        [0, 0, 0, 0],
        65535,
        Trapped(Pc),
        &[],
    ), // j 65535
    (
        0x2800_0000_0000_0000,
        1,
        [1, 1, 0, 1],
        [1, 1, 0, 1],
        0,
        Going,
        &[],
    ), // beqz r2, 0
    (
        0x2800_0000_0000_0000,
        1,
        [0, 0, 7, 0],
        [0, 0, 7, 0],
        2,
        Going,
        &[],
    ), // beqz r2, 0
    (
        0x3c00_0000_0000_0000,
        1,
        [1, 1, 1, 0],
        [1, 1, 1, 0],
        2,
        Going,
        &[],
    ), // bnez r3, 0
    (
        0x3c00_0000_0000_0000,
        1,
        [0, 0, 0, 7],
        [0, 0, 0, 7],
        0,
        Going,
        &[],
    ), // bnez r3, 0
    // The old value decides: 1 is not 0, though what is left is.
    (
        0x4400_0000_0000_0000,
        1,
        [0, 1, 0, 0],
        [0, 0, 0, 0],
        0,
        Going,
        &[],
    ), // bnezd r1, 0
    (
        0x4000_00c0_0000_0000,
        0,
        [5, 0, 0, 0],
        [4, 0, 0, 0],
        3,
        Trapped(Pc),
        &[],
    ), // bnezd r0, 3
    (
        0x5c00_0030_0600_0000,
        1,
        [8, 0, 0, 5],
        [8, 0, 0, 8],
        2,
        Going,
        &[(3, 5)],
    ), // move r3, r0 1:r3>W
    // One value for the move and for the route.
    (
        0x5280_0000_0000_0080,
        1,
        [0, 0, 0, 0],
        [12, 0, 0, 0],
        2,
        Going,
        &[(9, 12)],
    ), // move r0, 2:E 2:E>P
    (
        0x6000_0000_0200_0000,
        1,
        [1, 2, 3, 4],
        [1, 2, 3, 4],
        1,
        Halted,
        &[(3, 7)],
    ), // halt 1:E>W
];

/// What each input offers, by end index.
const OFFERS: [u32; 10] = [6, 7, 8, 9, 10, 11, 12, 13, 14, 15];

// The values that an instruction takes, of those that the inputs offer.
fn taken(ins: &SwitchIns, offers: [u32; 10]) -> [Option<u32>; 10]
    ensures { IsGivenFor (Some ins.now) result }
{
    let named = inputs(ins);
    let mut given = [None; 10];
    for end in 0..10 {
        given[end] = has_end(named, end).then_some(offers[end]);
    }
    given
}

// One firing of a switch that goes on: what its outputs send.
fn fire(rt: &impl Abort, state: &mut SwitchState, ins: SwitchIns) -> [Option<u32>; 10] {
    assert!(rt; state.mark == Going && state.count < 100);
    let step = SwitchStep::new(ins);
    let given = taken(&ins, OFFERS);
    let mut sent = [None; 10];
    for output in 0..10 {
        sent[output] = state.sent_from(&step, output, &given);
    }
    switch_fire(state, 3, &step, &given);
    sent
}

// What the outputs send where these do.
fn by_end(pairs: &[(usize, u32)]) -> [Option<u32>; 10] {
    let mut sent = [None; 10];
    for (end, value) in pairs {
        if let Some(output) = sent.get_mut(*end) {
            *output = Some(*value);
        }
    }
    sent
}

#[test]
fn firings_are_those_of_the_table(rt: HostRuntime) -> Result<(), Fail> {
    for (word, pc, before, after, next, mark, pairs) in &ROWS {
        let mut state = SwitchState {
            regs: *before,
            pc: *pc,
            count: 41,
            mark: Going,
        };
        let sent = fire(&rt, &mut state, decode(*word).ok_or("no instruction")?);
        let due = SwitchState {
            regs: *after,
            pc: *next,
            count: 42,
            mark: *mark,
        };
        assert!(rt; state == due && sent == by_end(pairs), "of {word:#x}");
    }
    Ok(())
}
