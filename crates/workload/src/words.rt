//! The words of the program.
ghost use Rattle.std.specs.Prelude.{◌≡◌, ◌<◌, ◌≤◌, map};
ghost use Rattle.v8_encode.specs.Encoding.{word_of as word_in};
ghost use Rattle.workload.specs.Generated.{move as move_of, call_of, exit_code, routine_code};

use crate::draws::Routine;
use v8_decode::{AluOp, Instr, Op2, Reg};
use v8_encode::{branch, condition, jump, nop, operation, register, words};

// `mov value,%rd`
fn move_to(rd: Reg, value: u32) -> Instr
    requires value { value ≤ 16 }
    ensures { result ≡ move_of rd value }
{
    operation(AluOp::OR, rd, register(0), Op2::Imm(value as i32))
}

/// The call of a routine, and its delay slot.
pub(crate) fn call_words(count: u32, routine: u32) -> [u32; 2]
    requires count { count ≤ 100000 }
    requires routine { routine < count }
    ensures { result ≡ map word_in (call_of count routine) }
{
    let first = 2 * count + 2 + 7 * routine;
    let disp30 = (first - 2 * routine) as i32;
    words(&[Instr::Call { disp30 }, nop()])
}

/// The system call exit.
pub(crate) fn exit_words() -> [u32; 2]
    ensures { result ≡ map word_in exit_code }
{
    let trap = Instr::Ticc {
        cond: condition(8),
        rs1: register(0),
        op2: Op2::Imm(16),
    };
    words(&[move_to(register(1), 1), trap])
}

/// A routine.
pub(crate) fn routine_words(routine: Routine) -> [u32; 7]
    requires turns { routine.turns ≤ 16 }
    requires amount { routine.amount < 64 }
    ensures { result ≡ map word_in (routine_code routine) }
{
    let sum = register(8);
    let left = register(2);
    let count_down = Instr::Alu {
        op: AluOp::SUB,
        cc: true,
        rd: left,
        rs1: left,
        op2: Op2::Imm(1),
    };
    words(&[
        move_to(left, routine.turns),
        operation(AluOp::ADD, sum, sum, Op2::Imm(routine.amount as i32)),
        count_down,
        branch(condition(9), false, -2),
        nop(),
        jump(register(15), Op2::Imm(8)),
        nop(),
    ])
}
