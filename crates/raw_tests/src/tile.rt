//! Single firings against the table.
//!
//! The words are those that `llvm-mc -arch=mips` makes of the lines beside them, where branches and
//! jumps are given in bytes there and in instructions here; `mulhi`, `mulhu`, `popc`, `halt` and
//! the word of `clz` are our own. What the firings do is computed by whole numbers, in Python.
ghost use Rattle.std.specs.Prelude.{◌≡◌, Some};
ghost use Rattle.raw_tile_isa.specs.Instruction.{is_network};
ghost use Rattle.raw_tile.specs.Given.{IsGivenFor};

use raw_model::Cause::{Misaligned, PastMemory, Pc};
use raw_model::Mark::{self, Going, Halted, Trapped};
use raw_tile::{TileGiven, TileMemory, TileOut, TileState, TileStep, tile_fire};
use raw_tile_isa::{NETWORK_1, NETWORK_2, TileIns, decode};
use std::alloc::Global;
use std::test::Fail;

fn is_network(register: u8) -> bool
    ensures { result ≡ is_network register }
{
    register == NETWORK_1 || register == NETWORK_2
}

// The values, each where the instruction reads a network at that position.
fn given(ins: &TileIns, a: u32, b: u32) -> TileGiven
    ensures { IsGivenFor (Some ins.now) result }
{
    TileGiven {
        a: (ins.op.uses_rs() && is_network(ins.rs)).then_some(a),
        b: (ins.op.reads_rt() && is_network(ins.rt)).then_some(b),
    }
}

// Fires the instruction of a word at pc 3 of a program of 8, with these values on the networks.
#[tactic(auto, unfolding(raw_model::specs::Start::memory_size))]
fn fire(alloc: Global, word: u32, a: u32, b: u32) -> Result<(TileState, TileOut), Fail> {
    let ins = decode(word).ok_or("no instruction")?;
    let mut tile = TileState {
        regs: [0; 32],
        pc: 3,
        count: 7,
        mark: Going,
        memory: TileMemory::zeroed(alloc)?,
    };
    tile.regs[1] = 0x1234_5678;
    tile.regs[2] = 0x9abc_def0;
    tile.regs[3] = 5;
    tile.regs[4] = 16;
    tile.regs[5] = 65_532;
    tile.regs[6] = 0xffff_ffff;
    tile.memory.store_word(16, 0x8001_fe7f);
    let code = [
        TileStep::new(ins),
        TileStep::new(ins),
        TileStep::new(ins),
        TileStep::new(ins),
        TileStep::new(ins),
        TileStep::new(ins),
        TileStep::new(ins),
        TileStep::new(ins),
    ];
    let out = tile_fire(&mut tile, &code, given(&ins, a, b));
    Ok((tile, out))
}

/// What is to be seen after a firing.
#[derive(Clone, Copy)]
enum Seen {
    /// A register with its number. The tile goes on, also where the pc is another.
    Holds(usize, u32),
    /// The pc and the mark.
    Ends(u32, Mark),
    /// What is sent on network 1 and 2, and the address that is touched.
    Sends(Option<u32>, Option<u32>, Option<u32>),
    /// The word in memory at 16.
    Stores(u32),
}

use Seen::{Ends, Holds, Sends, Stores};

/// The word, the values given at rs and rt, and what is seen.
static ROWS: [(u32, u32, u32, Seen); 65] = [
    (0x0002_3100, 0, 0, Holds(6, 0xabcd_ef00)), // sll $6, $2, 4
    (0x0002_3102, 0, 0, Holds(6, 0x09ab_cdef)), // srl $6, $2, 4
    (0x0002_3103, 0, 0, Holds(6, 0xf9ab_cdef)), // sra $6, $2, 4
    (0x0062_3004, 0, 0, Holds(6, 0x579b_de00)), // sllv $6, $2, $3
    (0x0062_3006, 0, 0, Holds(6, 0x04d5_e6f7)), // srlv $6, $2, $3
    (0x0062_3007, 0, 0, Holds(6, 0xfcd5_e6f7)), // srav $6, $2, $3
    (0x0060_3009, 0, 0, Holds(6, 4)), // jalr $6, $3
    (0x0022_3021, 0, 0, Holds(6, 0xacf1_3568)), // addu $6, $1, $2
    (0x0022_3023, 0, 0, Holds(6, 0x7777_7788)), // subu $6, $1, $2
    (0x0022_3024, 0, 0, Holds(6, 0x1234_5670)), // and $6, $1, $2
    (0x0022_3025, 0, 0, Holds(6, 0x9abc_def8)), // or $6, $1, $2
    (0x0022_3026, 0, 0, Holds(6, 0x8888_8888)), // xor $6, $1, $2
    (0x0022_3027, 0, 0, Holds(6, 0x6543_2107)), // nor $6, $1, $2
    (0x0041_302a, 0, 0, Holds(6, 1)), // slt $6, $2, $1
    (0x0041_302b, 0, 0, Holds(6, 0)), // sltu $6, $2, $1
    (0x7022_3002, 0, 0, Holds(6, 0x242d_2080)), // mul $6, $1, $2
    (0x7022_3003, 0, 0, Holds(6, 0xf8cc_93d6)), // mulhi $6, $1, $2
    (0x7022_3004, 0, 0, Holds(6, 0x0b00_ea4e)), // mulhu $6, $1, $2
    (0x7020_3020, 0, 0, Holds(6, 3)), // clz $6, $1
    (0x7040_3022, 0, 0, Holds(6, 19)), // popc $6, $2
    (0x2426_ffff, 0, 0, Holds(6, 0x1234_5677)), // addiu $6, $1, -1
    (0x2826_ffff, 0, 0, Holds(6, 0)), // slti $6, $1, -1
    (0x2c26_ffff, 0, 0, Holds(6, 1)), // sltiu $6, $1, -1
    (0x3046_ffff, 0, 0, Holds(6, 0xdef0)), // andi $6, $2, 65535
    (0x3446_ffff, 0, 0, Holds(6, 0x9abc_ffff)), // ori $6, $2, 65535
    (0x3846_ffff, 0, 0, Holds(6, 0x9abc_210f)), // xori $6, $2, 65535
    (0x3c06_abcd, 0, 0, Holds(6, 0xabcd_0000)), // lui $6, 43981
    (0x8086_0000, 0, 0, Holds(6, 0xffff_ff80)), // lb $6, 0($4)
    (0x8486_0000, 0, 0, Holds(6, 0xffff_8001)), // lh $6, 0($4)
    (0x8c86_0000, 0, 0, Holds(6, 0x8001_fe7f)), // lw $6, 0($4)
    (0x9086_0000, 0, 0, Holds(6, 0x80)), // lbu $6, 0($4)
    (0x9486_0002, 0, 0, Holds(6, 0xfe7f)), // lhu $6, 2($4)
    (0x0c00_0000, 0, 0, Holds(31, 4)), // jal 0
    (0x0022_0021, 0, 0, Holds(0, 0)), // addu $0, $1, $2
    (0x0318_2821, 3, 4, Holds(5, 7)), // addu $5, $24, $24
    (0x0060_0008, 0, 0, Ends(5, Going)), // jr $3
    (0x0080_3009, 0, 0, Ends(16, Trapped(Pc))), // jalr $6, $4
    (0x7000_003f, 0, 0, Ends(3, Halted)), // halt
    (0x0440_fffe, 0, 0, Ends(2, Going)), // bltz $2, -2
    (0x0401_0002, 0, 0, Ends(6, Going)), // bgez $0, 2
    (0x1022_0002, 0, 0, Ends(4, Going)), // beq $1, $2, 2
    (0x1422_fffc, 0, 0, Ends(0, Going)), // bne $1, $2, -4
    (0x1820_0002, 0, 0, Ends(4, Going)), // blez $1, 2
    (0x1c20_fffb, 0, 0, Ends(0xffff_ffff, Trapped(Pc))), // bgtz $1, -5
    (0x0800_0007, 0, 0, Ends(7, Going)), // j 7
    (0x0c00_0008, 0, 0, Ends(8, Trapped(Pc))), // jal 8
    (0x8cb8_0004, 0, 0, Ends(3, Trapped(PastMemory))), // lw $24, 4($5)
    (0x80a6_0004, 0, 0, Ends(3, Trapped(PastMemory))), // lb $6, 4($5)
    (0x8c05_0002, 0, 0, Ends(3, Trapped(Misaligned))), // lw $5, 2($0)
    (0x8c06_fffe, 0, 0, Ends(3, Trapped(Misaligned))), // lw $6, -2($0)
    (0x8406_fffe, 0, 0, Ends(3, Trapped(PastMemory))), // lh $6, -2($0)
    (0xa4a2_0003, 0, 0, Ends(3, Trapped(Misaligned))), // sh $2, 3($5)
    (0xaca2_0004, 0, 0, Ends(3, Trapped(PastMemory))), // sw $2, 4($5)
    (0x0022_c021, 0, 0, Sends(Some(0xacf1_3568), None, None)), // addu $24, $1, $2
    (0x0319_c823, 1, 2, Sends(None, Some(0xffff_ffff), None)), // subu $25, $24, $25
    (0x2738_0001, 0xffff_ffff, 0, Sends(Some(0), None, None)), // addiu $24, $25, 1
    (0x3c19_abcd, 0, 0, Sends(None, Some(0xabcd_0000), None)), // lui $25, 43981
    (0x9498_0002, 0, 0, Sends(Some(0xfe7f), None, Some(18))), // lhu $24, 2($4)
    (0x8f19_0001, 15, 0, Sends(None, Some(0x8001_fe7f), Some(16))), // lw $25, 1($24)
    (0x8f19_0001, 1, 0, Sends(None, None, None)), // lw $25, 1($24), misaligned
    (0xaf38_0000, 65_532, 1, Sends(None, None, Some(65_532))), // sw $24, 0($25)
    (0xaf38_0000, 65_536, 1, Sends(None, None, None)), // sw $24, 0($25), past memory
    (0xa082_0003, 0, 0, Stores(0x8001_fef0)), // sb $2, 3($4)
    (0xa482_0002, 0, 0, Stores(0x8001_def0)), // sh $2, 2($4)
    (0xac82_0000, 0, 0, Stores(0x9abc_def0)), // sw $2, 0($4)
];

fn is_seen(tile: &TileState, out: TileOut, seen: Seen) -> bool {
    match seen {
        Holds(register, value) => tile.regs.get(register).copied() == Some(value),
        Ends(pc, mark) => tile.pc == pc && tile.count == 8 && tile.mark == mark,
        Sends(sent1, sent2, touched) => {
            out == TileOut {
                sent1,
                sent2,
                touched,
            }
        }
        Stores(word) => tile.memory.load_word(16) == Ok(word),
    }
}

#[test]
fn firings_do_the_rows(rt: HostRuntime) -> Result<(), Fail> {
    for (word, a, b, seen) in &ROWS {
        let (tile, out) = fire(rt.alloc(), *word, *a, *b)?;
        assert!(rt; is_seen(&tile, out, *seen), "of {word:#x}");
    }
    Ok(())
}
