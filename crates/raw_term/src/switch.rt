//! A switch whose registers hold numbers of terms.
ghost use Rattle.std.specs.Prelude.{◌≡◌, ◌<◌, IfOk, IsSomeAnd, OnErr, Err};
ghost use Rattle.raw_term.specs.Terms.{Overflows};
ghost use Rattle.raw_term.specs.TermRows.{term_control};
ghost use Rattle.raw_term.specs.Switches.{IsControl};

use crate::refusal::TermRefusal;
use crate::table::TermTable;
use raw_flow::Node;
use raw_model::Mark;
use raw_model::limits::MAX_STEPS;
use raw_switch::SwitchState;
use raw_switch_isa::{SwitchIns, SwitchOp};
use raw_tile_isa::sub;

/// Does what an instruction does beside its routes, in a program of so many instructions; `value` is the term of a
/// move's source.
///
/// False where the instruction is a branch and the term of its register is no word; then nothing is changed. Where it
/// is refused the switch is as before.
pub fn control(
    table: &mut TermTable,
    state: &mut SwitchState,
    size: usize,
    ins: &SwitchIns,
    value: u32,
) -> Result<bool, TermRefusal>
    requires going { state.old.mark ≡ Mark.Going }
    requires count { state.old.count < MAX_STEPS }
    ensures control { IfOk result (λ goes. IsControl table.old state.old
        (term_control table.old ins.now.op size state.old ins.now value) goes table.new state.new) }
    ensures too_many { result ≡ Err TermRefusal.TooMany →
        IsSomeAnd (term_control table.old ins.now.op size state.old ins.now value) (λ t. Overflows t.nodes) }
    ensures refused { OnErr result (state.new ≡ state.old) }
{
    let following = state.pc.wrapping_add(1);
    let target = u32::from(ins.target);
    let rd = ins.rd as usize;
    match ins.op {
        SwitchOp::Beqz => match table.word(state.regs[rd]) {
            Some(word) => {
                state.go(size, if word == 0 { target } else { following });
                Ok(true)
            }
            None => Ok(false),
        },
        SwitchOp::Bnez => match table.word(state.regs[rd]) {
            Some(word) => {
                state.go(size, if word == 0 { following } else { target });
                Ok(true)
            }
            None => Ok(false),
        },
        SwitchOp::Bnezd => match table.word(state.regs[rd]) {
            Some(word) => {
                let number = table.number_of(Node::Const { word: sub(word, 1) })?;
                state.regs[rd] = number;
                state.go(size, if word == 0 { following } else { target });
                Ok(true)
            }
            None => Ok(false),
        },
        SwitchOp::Nop | SwitchOp::Jump | SwitchOp::Move | SwitchOp::Halt => {
            state.do_control(size, ins, value);
            Ok(true)
        }
    }
}
