//! The words of operations.

ghost use Rattle.std.specs.Prelude.{◌≡◌, ◌==◌, ◌+◌, ◌*◌, ◌++◌, ◌^◌, ◌<◌, ◌≤◌, if◌then◌else◌, Some, None, false, true, length, map, max, slice_index};
ghost use Rattle.std.specs.Prelude.{OnOk};
ghost use Rattle.v8_encode.specs.Encoding.{word_of};
ghost use Rattle.std.specs.List.{All};
ghost use Rattle.snippets.specs.Grammar.{IsOp};
ghost use Rattle.snippet_code.specs.Cells.{cell_at};
ghost use Rattle.snippet_code.specs.Laws.{EndsLow, EndLow};
ghost use Rattle.snippet_code.specs.Words as code;
ghost use Rattle.snippet_code.specs.Spills as spilling;

use crate::single::{
    add_carry, add_low, add_one, compare, load_low, load_next, next_if_greater, of_two, store_low,
    store_next, with_number,
};
use eel_base::Addr;
use snippets::Op;
use std::alloc::AllocError;
use v8_decode::{AluOp, Reg};
use v8_encode::{register, sethi, words as words_of};

/// In how many registers an operation works.
pub fn op_registers(codes_dead: bool, op: &Op) -> u8
    ensures value { result ≡ spilling.op_registers codes_dead op.now }
    ensures few { result ≤ 5 }
{
    match op {
        Op::Add { amount, .. } => if small(*amount).is_some() { 2 } else { 3 },
        Op::Put { value, .. } => if *value == 0 { 1 } else { 2 },
        Op::Keep { .. } => 1,
        Op::Top { .. } => if codes_dead { 2 } else { 5 },
        Op::Count { .. } => if codes_dead { 2 } else { 3 },
        Op::Log { .. } => 3,
    }
}

/// In how many registers the operations work.
pub fn registers_for(codes_dead: bool, ops: &[Op]) -> u8
    ensures value { result ≡ spilling.registers_for codes_dead ops.now }
    ensures few { result ≤ 5 }
{
    let mut most = 0;
    for op in ops {
        most = most.max(op_registers(codes_dead, op));
    }
    most
}

/// The amount as an immediate, where it fits.
fn small(amount: u32) -> Option<i32>
    ensures { result ≡ (if spilling.is_small amount then Some (code.small amount) else None) }
{
    if amount < 4096 {
        Some(amount as i32)
    } else if amount >= u32::MAX - 4095 {
        Some(-1 - (u32::MAX - amount) as i32)
    } else {
        None
    }
}

// To the cell at an address, an amount is added.
fn add(words: &mut Vec<u32>, address: u32, regs: &[Reg], amount: u32) -> Result<(), AllocError>
    requires room { (if spilling.is_small amount then 2 else 3) ≤ length regs.now }
    ensures { OnOk result (words.new.items ≡ words.old.items
        ++ map word_of (code.add_words address (slice_index regs.now) amount)) }
{
    match small(amount) {
        Some(number) => words.extend_from_slice(&words_of(&[
            sethi(regs[0], address),
            load_low(address, regs[0], regs[1]),
            with_number(AluOp::ADD, regs[1], number, regs[1]),
            store_low(address, regs[0], regs[1]),
        ])),
        None => words.extend_from_slice(&words_of(&[
            sethi(regs[0], address),
            load_low(address, regs[0], regs[1]),
            sethi(regs[2], amount),
            add_low(amount, regs[2]),
            of_two(AluOp::ADD, regs[1], regs[2], regs[1]),
            store_low(address, regs[0], regs[1]),
        ])),
    }
}

// A cell is set.
fn put(words: &mut Vec<u32>, address: u32, regs: &[Reg], value: u32) -> Result<(), AllocError>
    requires room { (if value == 0 then 1 else 2) ≤ length regs.now }
    ensures { OnOk result (words.new.items ≡ words.old.items
        ++ map word_of (code.put_words address (slice_index regs.now) value)) }
{
    if value == 0 {
        words.extend_from_slice(&words_of(&[
            sethi(regs[0], address),
            store_low(address, regs[0], register(0)),
        ]))
    } else {
        words.extend_from_slice(&words_of(&[
            sethi(regs[0], address),
            sethi(regs[1], value),
            add_low(value, regs[1]),
            store_low(address, regs[0], regs[1]),
        ]))
    }
}

// A register is stored.
fn keep(address: u32, regs: &[Reg], reg: Reg) -> [u32; 2]
    requires room { 1 ≤ length regs.now }
    ensures { result ≡ map word_of (code.keep_words address (slice_index regs.now) reg) }
{
    words_of(&[sethi(regs[0], address), store_low(address, regs[0], reg)])
}

// A register is stored where it is greater, and the codes change.
fn top_by_codes(address: u32, regs: &[Reg], reg: Reg) -> [u32; 5]
    requires room { 2 ≤ length regs.now }
    ensures { result ≡ map word_of (code.top_words address true (slice_index regs.now) reg) }
{
    words_of(&[
        sethi(regs[0], address),
        load_low(address, regs[0], regs[1]),
        compare(reg, regs[1]),
        next_if_greater(),
        store_low(address, regs[0], reg),
    ])
}

// A register is stored where it is greater, without the codes: by the borrow of the difference.
fn top_by_borrow(address: u32, regs: &[Reg], reg: Reg) -> [u32; 11]
    requires room { 5 ≤ length regs.now }
    ensures { result ≡ map word_of (code.top_words address false (slice_index regs.now) reg) }
{
    let (page, old) = (regs[0], regs[1]);
    let (difference, borrow, either) = (regs[2], regs[3], regs[4]);
    words_of(&[
        sethi(page, address),
        load_low(address, page, old),
        of_two(AluOp::SUB, old, reg, difference),
        of_two(AluOp::ORN, reg, old, borrow),
        of_two(AluOp::AND, borrow, difference, borrow),
        of_two(AluOp::ANDN, reg, old, either),
        of_two(AluOp::OR, borrow, either, borrow),
        with_number(AluOp::SRA, borrow, 31, borrow),
        of_two(AluOp::AND, borrow, difference, borrow),
        of_two(AluOp::SUB, old, borrow, old),
        store_low(address, page, old),
    ])
}

// A register is stored where it is greater.
fn top(
    words: &mut Vec<u32>,
    address: u32,
    codes_dead: bool,
    regs: &[Reg],
    reg: Reg,
) -> Result<(), AllocError>
    requires room { (if codes_dead then 2 else 5) ≤ length regs.now }
    ensures { OnOk result (words.new.items ≡ words.old.items
        ++ map word_of (code.top_words address codes_dead (slice_index regs.now) reg)) }
{
    if codes_dead {
        words.extend_from_slice(&top_by_codes(address, regs, reg))
    } else {
        words.extend_from_slice(&top_by_borrow(address, regs, reg))
    }
}

// A counter of two words is raised, and the codes change.
fn count_by_codes(address: u32, regs: &[Reg]) -> [u32; 7]
    requires room { 2 ≤ length regs.now }
    ensures { result ≡ map word_of (code.count_words address true (slice_index regs.now)) }
{
    let (page, word) = (regs[0], regs[1]);
    words_of(&[
        sethi(page, address),
        load_next(address, page, word),
        add_one(word),
        store_next(address, page, word),
        load_low(address, page, word),
        add_carry(word),
        store_low(address, page, word),
    ])
}

// A counter of two words is raised without the codes: by bit 31 of the old low word and not the new one.
fn count_by_bits(address: u32, regs: &[Reg]) -> [u32; 9]
    requires room { 3 ≤ length regs.now }
    ensures { result ≡ map word_of (code.count_words address false (slice_index regs.now)) }
{
    let (page, old, new) = (regs[0], regs[1], regs[2]);
    words_of(&[
        sethi(page, address),
        load_next(address, page, old),
        with_number(AluOp::ADD, old, 1, new),
        store_next(address, page, new),
        of_two(AluOp::ANDN, old, new, old),
        with_number(AluOp::SRL, old, 31, old),
        load_low(address, page, new),
        of_two(AluOp::ADD, new, old, new),
        store_low(address, page, new),
    ])
}

// A counter of two words is raised.
fn count(
    words: &mut Vec<u32>,
    address: u32,
    codes_dead: bool,
    regs: &[Reg],
) -> Result<(), AllocError>
    requires room { (if codes_dead then 2 else 3) ≤ length regs.now }
    ensures { OnOk result (words.new.items ≡ words.old.items
        ++ map word_of (code.count_words address codes_dead (slice_index regs.now))) }
{
    if codes_dead {
        words.extend_from_slice(&count_by_codes(address, regs))
    } else {
        words.extend_from_slice(&count_by_bits(address, regs))
    }
}

// A value goes to the next place of a ring.
fn log(address: u32, regs: &[Reg], bits: u32, value: u32) -> [u32; 10]
    requires room { 3 ≤ length regs.now }
    requires bits { bits ≤ 16 }
    ensures { result ≡ map word_of (code.log_words address (slice_index regs.now) bits value) }
{
    let (page, next, place) = (regs[0], regs[1], regs[2]);
    words_of(&[
        sethi(page, address),
        load_low(address, page, next),
        with_number(AluOp::SLL, next, (32 - bits) as i32, place),
        with_number(AluOp::SRL, place, (30 - bits) as i32, place),
        of_two(AluOp::ADD, page, place, place),
        with_number(AluOp::ADD, next, 1, next),
        store_low(address, page, next),
        sethi(next, value),
        add_low(value, next),
        store_next(address, place, next),
    ])
}

// The address of a cell, where the first one stands at `cells`.
fn cell_address(cells: Addr, cell: u32) -> u32
    requires low { cell_at cells.0 cell + 4 ≤ 2 ^ 31 }
    ensures { result ≡ cell_at cells.0 cell }
{
    cells.0 + 4 * cell
}

// An operation.
fn push_op(
    words: &mut Vec<u32>,
    cells: Addr,
    codes_dead: bool,
    regs: &[Reg],
    op: &Op,
) -> Result<(), AllocError>
    requires room { spilling.op_registers codes_dead op.now ≤ length regs.now }
    requires low { EndsLow cells.0 op.now }
    ensures code { OnOk result (words.new.items ≡ words.old.items
        ++ map word_of (code.op_words cells.0 codes_dead (slice_index regs.now) op.now)) }
    ensures op { IsOp op.now }
{
    match op {
        Op::Add { cell, amount } => add(words, cell_address(cells, *cell), regs, *amount),
        Op::Put { cell, value } => put(words, cell_address(cells, *cell), regs, *value),
        Op::Keep { cell, reg } => {
            prove!(reg.number() < 32);
            words.extend_from_slice(&keep(cell_address(cells, *cell), regs, *reg))
        }
        Op::Top { cell, reg } => {
            prove!(reg.number() < 32);
            top(words, cell_address(cells, *cell), codes_dead, regs, *reg)
        }
        Op::Count { cell } => count(words, cell_address(cells, *cell), codes_dead, regs),
        Op::Log { cell, bits, value } => {
            words.extend_from_slice(&log(cell_address(cells, *cell), regs, *bits, *value))
        }
    }
}

/// The words of operations are added, where the first cell stands at `cells`.
pub fn push_ops(
    words: &mut Vec<u32>,
    cells: Addr,
    codes_dead: bool,
    regs: &[Reg],
    ops: &[Op],
) -> Result<(), AllocError>
    requires room { spilling.registers_for codes_dead ops.now ≤ length regs.now }
    requires low { EndLow cells.0 ops.now }
    ensures code { OnOk result (words.new.items ≡ words.old.items
        ++ map word_of (code.all_words cells.0 codes_dead (slice_index regs.now) ops.now)) }
    ensures ops { OnOk result (All IsOp ops.now) }
{
    for op in ops {
        push_op(words, cells, codes_dead, regs, op)?;
    }
    Ok(())
}
