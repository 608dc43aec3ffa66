//! Reading a script.
ghost use Rattle.std.specs.Prelude.{◌≡◌, ◌≤◌, ◌<◌, ◌+◌, ◌^◌, ◌++◌, ◌∷◌, [], None, max, length, List};
ghost use Rattle.std.specs.Prelude.{IfErr, OnOk, nat_le, slice_set, vec_len};
ghost use Rattle.snippets.specs.declared.line.Said.{Said as Meaning};
ghost use Rattle.snippets.specs.declared.line.Said.TheVariants.{Does};
ghost use Rattle.snippets.specs.Private.{HasRing};
ghost use Rattle.snippets.specs.Ops.{cells_end};
ghost use Rattle.snippets.specs.Grammar.{AllSay, lines_of};
ghost use Rattle.snippets.specs.Code.{Answers};
ghost use Rattle.snippets.specs.Parts.{IsCause, cells_after, fault_in, ops_at, padded, said_of, snips_after};
ghost use Rattle.snippets.specs.Parts.{with_op};

use crate::line::{Said, read_line};
use crate::script::{Script, ScriptFault};
use crate::snippet::{Op, Snippet};
use std::alloc::{AllocError, Global};

/// Cells are below this number.
const CELL_LIMIT: u64 = 1 << 22;

/// The script that this text is, for a graph of so many edges.
///
/// It goes over the text once. The memory that it takes goes with the greatest edge that is named.
pub fn read_script(alloc: Global, bytes: &[u8], edges: u32) -> Result<Script, ScriptFault>
    requires { length bytes.now ≤ 2 ^ 24 }
    ensures { (said : List Meaning) × AllSay (lines_of bytes.now) said × Answers edges said result }
{
    let mut script = Script {
        snips: Vec::new(alloc),
        cells: 0,
    };
    let mut number = 0;
    for line in bytes.split(|byte| *byte == b'\n') {
        number += 1;
        take_line(&mut script, line, number, edges)?;
    }
    Ok(script)
}

/// Does what a line says, the one with this number.
fn take_line(script: &mut Script, line: &[u8], number: u32, edges: u32) -> Result<(), ScriptFault>
    ensures good { OnOk result (fault_in edges number script.old.snips.items (said_of line.now) ≡ None) }
    ensures snips { OnOk result (script.new.snips.items ≡ snips_after (said_of line.now) script.old.snips.items) }
    ensures cells { OnOk result (script.new.cells ≡ cells_after (said_of line.now) script.old.cells) }
    ensures fault { IfErr result (λ f. IsCause f (fault_in edges number script.old.snips.items (said_of line.now))) }
{
    match read_line(line) {
        Said::Nothing => {}
        Said::Does { edge, op } => add(script, edge, op, number, edges)?,
        Said::Wrong => return Err(ScriptFault::Line(number)),
    }
    Ok(())
}

/// Adds the operation of the line with this number.
fn add(script: &mut Script, edge: u32, op: Op, number: u32, edges: u32) -> Result<(), ScriptFault>
    requires { HasRing op }
    ensures good { OnOk result (fault_in edges number script.old.snips.items (Does edge op) ≡ None) }
    ensures snips { OnOk result (script.new.snips.items ≡ with_op edge op script.old.snips.items) }
    ensures cells { OnOk result (script.new.cells ≡ max script.old.cells (cells_end op)) }
    ensures fault { IfErr result (λ f. IsCause f (fault_in edges number script.old.snips.items (Does edge op))) }
{
    if edge >= edges {
        return Err(ScriptFault::Edge(number));
    }
    let end = op.cells_end();
    if end > CELL_LIMIT {
        return Err(ScriptFault::Cell(number));
    }
    if is_full(&script.snips, edge as usize) {
        return Err(ScriptFault::Ops(number));
    }
    reach(&mut script.snips, edge as usize + 1)?;
    push_at(&mut script.snips, edge as usize, op);
    script.cells = script.cells.max(end as u32);
    Ok(())
}

/// Whether an edge has no place for another operation.
fn is_full(snips: &[Snippet], edge: usize) -> bool
    ensures { result ≡ nat_le 8 (length (ops_at edge snips.now)) }
{
    match snips.get(edge) {
        Some(snippet) => snippet.is_full(),
        None => false,
    }
}

/// Makes so many snippets at least; those that are new are empty.
fn reach(snips: &mut Vec<Snippet>, count: usize) -> Result<(), AllocError>
    ensures { OnOk result (snips.new.items ≡ padded count snips.old.items) }
{
    snips.resize(count.max(snips.len()), Snippet::empty())?;
    Ok(())
}

/// Adds an operation to the snippet of an edge, which has a place for it.
fn push_at(snips: &mut Vec<Snippet>, edge: usize, op: Op)
    requires edge { edge < vec_len snips.old }
    requires room { length (ops_at edge snips.old.items) < 8 }
    ensures { snips.new.items ≡ slice_set snips.old.items edge (ops_at edge snips.old.items ++ op ∷ []) }
{
    let snippet = &mut snips[edge];
    snippet.push(op);
}
