//! Reading a line of a script.
ghost use Rattle.std.specs.Prelude.{◌≡◌};
ghost use Rattle.snippets.specs.Parts.{bare_of, full_of, op_of, operation_of, said_of};

use crate::snippet::Op;
use line_words::{is_word, read_number, read_register, split_at};

/// What a line says.
#[derive(Clone, Copy, Drop)]
pub(crate) enum Said {
    Nothing,
    Does { edge: u32, op: Op },
    /// What is outside the grammar.
    Wrong,
}

/// What a line says.
#[tactic(auto, unfolding(crate::specs::Parts::said_of))]
pub(crate) fn read_line(line: &[u8]) -> Said
    ensures { result ≡ said_of line.now }
{
    if line.is_empty() || line[0] == b'#' {
        return Said::Nothing;
    }
    match read_operation(line) {
        Some((edge, op)) => Said::Does { edge, op },
        None => Said::Wrong,
    }
}

/// An edge, and an operation on it.
#[tactic(auto, unfolding(crate::specs::Parts::operation_of))]
fn read_operation(line: &[u8]) -> Option<(u32, Op)>
    ensures { result ≡ operation_of line.now }
{
    let (verb, rest) = split_at(line, b' ')?;
    if !is_word(verb, "edge") {
        return None;
    }
    let (edge, rest) = split_at(rest, b' ')?;
    let edge = read_number(edge)?;
    let (kind, rest) = split_at(rest, b' ')?;
    let op = read_bare(kind, rest).or(read_full(kind, rest))?;
    Some((edge, op))
}

/// The operation of this kind that has a cell alone.
#[tactic(auto, unfolding(crate::specs::Parts::bare_of))]
fn read_bare(kind: &[u8], words: &[u8]) -> Option<Op>
    ensures { result ≡ bare_of kind.now words.now }
{
    if is_word(kind, "count") {
        read_number(words).map(|cell| Op::Count { cell })
    } else {
        None
    }
}

/// The operation of this kind on a cell, with an operand.
#[tactic(auto, unfolding(crate::specs::Parts::full_of))]
fn read_full(kind: &[u8], words: &[u8]) -> Option<Op>
    ensures { result ≡ full_of kind.now words.now }
{
    let (cell, operand) = split_at(words, b' ')?;
    let cell = read_number(cell)?;
    read_op(kind, cell, operand)
}

/// The operation of this kind on a cell.
#[tactic(auto, unfolding(crate::specs::Parts::op_of))]
fn read_op(kind: &[u8], cell: u32, operand: &[u8]) -> Option<Op>
    ensures { result ≡ op_of kind.now cell operand.now }
{
    if is_word(kind, "add") {
        read_number(operand).map(|amount| Op::Add { cell, amount })
    } else if is_word(kind, "put") {
        read_number(operand).map(|value| Op::Put { cell, value })
    } else if is_word(kind, "keep") {
        read_register(operand).map(|reg| Op::Keep { cell, reg })
    } else if is_word(kind, "top") {
        read_register(operand).map(|reg| Op::Top { cell, reg })
    } else {
        None
    }
}
