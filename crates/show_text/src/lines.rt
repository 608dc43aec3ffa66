//! The lines.
ghost use Rattle.std.specs.Prelude.{◌≡◌, ◌<◌, ◌++◌, ◌∷◌, length, map, IfOk, OnOk};
ghost use Rattle.std.specs.List.{All};
ghost use Rattle.cfg_normal.specs.Code.{IsEdgeIn};
ghost use Rattle.cfg_view.specs.Code.{view_seen, IsView};
ghost use Rattle.show_text.specs.Lines.{block_line, block_lines, edge_line, edge_lines, line, routine_line, routine_lines, show_lines, switch_line, switch_lines, totals_line};

use crate::words::{
    address_text, block_text, kind_text, name_text, node_text, slot_text, table_text,
};
use cfg_blocks::Switch;
use cfg_normal::Edge;
use cfg_view::View;
use eel_base::{BlockNo, NoMemory};
use itoa::Buffer;
use routines::Routine;
use std::alloc::Global;

/// The lines that show a view of a program and its switches: routines, blocks and edges in the order of their
/// numbers, the switches in theirs, and how many routines, blocks and edges there are.
#[tactic(auto, unfolding(crate::specs::Lines::show_lines))]
pub fn show(alloc: Global, v: &View, switches: &[Switch]) -> Result<Vec<u8>, NoMemory>
    requires view { IsView v.now }
    requires jumps { All (λ switch. switch.jump.0 < length v.now.image.text.words) switches.now }
    ensures { IfOk result (λ text. text.items ≡ show_lines (view_seen v.now) switches.now) }
{
    let mut text = Vec::new(alloc);
    put_routines(&mut text, v)?;
    put_blocks(&mut text, v)?;
    put_edges(&mut text, v)?;
    put_switches(&mut text, v, switches)?;
    put_totals(&mut text, v)?;
    Ok(text)
}

/// Adds a line: its first word, and then the others, each behind a space.
pub fn put_line(text: &mut Vec<u8>, first: &[u8], words: &[&[u8]]) -> Result<(), NoMemory>
    ensures { OnOk result (text.new.items
        ≡ text.old.items ++ line (first.now ∷ map (λ word. word.now) words.now)) }
{
    text.extend_from_slice(first)?;
    for word in words {
        text.push(b' ')?;
        text.extend_from_slice(word)?;
    }
    text.push(b'\n')?;
    Ok(())
}

fn put_routines(text: &mut Vec<u8>, view: &View) -> Result<(), NoMemory>
    requires { IsView view.now }
    ensures { OnOk result (text.new.items ≡ text.old.items ++ routine_lines (view_seen view.now)) }
{
    for routine in view.routines.list() {
        put_routine(text, view, routine)?;
    }
    Ok(())
}

fn put_routine(text: &mut Vec<u8>, view: &View, routine: &Routine) -> Result<(), NoMemory>
    requires { routine.now.start.0 < length view.now.image.text.words }
    ensures { OnOk result (text.new.items ≡ text.old.items ++ routine_line view.now.image.text routine.now) }
{
    let start = address_text(view, routine.start);
    let mut bytes = [0; 255];
    let name = name_text(routine.name.bytes(), &mut bytes);
    put_line(text, b"routine", &[&start, name])?;
    Ok(())
}

fn put_blocks(text: &mut Vec<u8>, view: &View) -> Result<(), NoMemory>
    requires { IsView view.now }
    ensures { OnOk result (text.new.items ≡ text.old.items ++ block_lines (view_seen view.now)) }
{
    for block in 0..view.graph.count() {
        put_block(text, view, BlockNo(block))?;
    }
    Ok(())
}

fn put_block(text: &mut Vec<u8>, view: &View, block: BlockNo) -> Result<(), NoMemory>
    requires view { IsView view.now }
    requires block { block.0 < length view.now.graph.blocks.firsts }
    ensures { OnOk result (text.new.items
        ≡ text.old.items ++ block_line view.now.image.text view.now.graph.blocks block.0) }
{
    let mut number = Buffer::new();
    let mut words = Buffer::new();
    let number = number.format(block.0).as_bytes();
    let first = block_text(view, block);
    let words = words.format(view.graph.words(block)).as_bytes();
    put_line(text, b"block", &[number, &first, words])?;
    Ok(())
}

fn put_edges(text: &mut Vec<u8>, view: &View) -> Result<(), NoMemory>
    requires { IsView view.now }
    ensures { OnOk result (text.new.items ≡ text.old.items ++ edge_lines (view_seen view.now)) }
{
    for (number, edge) in view.graph.edges().iter().enumerate() {
        put_edge(text, view, number, edge)?;
    }
    Ok(())
}

fn put_edge(text: &mut Vec<u8>, view: &View, number: usize, edge: &Edge) -> Result<(), NoMemory>
    requires view { IsView view.now }
    requires edge { IsEdgeIn view.now.graph.blocks view.now.graph.opens edge.now }
    ensures { OnOk result (text.new.items
        ≡ text.old.items ++ edge_line view.now.image.text view.now.graph.blocks (number, edge.now)) }
{
    let mut digits = Buffer::new();
    let mut from = [0; 9];
    let mut to = [0; 9];
    let mut slot = [0; 8];
    let number = digits.format(number).as_bytes();
    let kind = kind_text(edge.kind);
    let from = node_text(view, edge.from, &mut from);
    let to = node_text(view, edge.to, &mut to);
    let slot = slot_text(view, edge.slot, &mut slot);
    put_line(text, b"edge", &[number, kind, from, to, slot])?;
    Ok(())
}

fn put_switches(text: &mut Vec<u8>, view: &View, switches: &[Switch]) -> Result<(), NoMemory>
    requires { All (λ switch. switch.jump.0 < length view.now.image.text.words) switches.now }
    ensures { OnOk result (text.new.items ≡ text.old.items ++ switch_lines (view_seen view.now) switches.now) }
{
    for switch in switches {
        put_switch(text, view, *switch)?;
    }
    Ok(())
}

fn put_switch(text: &mut Vec<u8>, view: &View, switch: Switch) -> Result<(), NoMemory>
    requires { switch.jump.0 < length view.now.image.text.words }
    ensures { OnOk result (text.new.items ≡ text.old.items ++ switch_line view.now.image.text switch) }
{
    let mut count = Buffer::new();
    let mut table = [0; 8];
    let jump = address_text(view, switch.jump);
    let table = table_text(switch.table, &mut table);
    let count = count.format(switch.count).as_bytes();
    put_line(text, b"switch", &[&jump, table, count])?;
    Ok(())
}

/// Adds the line that says how many routines, blocks and edges there are.
fn put_totals(text: &mut Vec<u8>, view: &View) -> Result<(), NoMemory>
    ensures { OnOk result (text.new.items ≡ text.old.items ++ totals_line (view_seen view.now)) }
{
    let mut routines = Buffer::new();
    let mut blocks = Buffer::new();
    let mut edges = Buffer::new();
    let routines = routines.format(view.routines.list().len()).as_bytes();
    let blocks = blocks.format(view.graph.count()).as_bytes();
    let edges = edges.format(view.graph.edges().len()).as_bytes();
    put_line(
        text,
        b"routines",
        &[routines, b"blocks", blocks, b"edges", edges],
    )?;
    Ok(())
}
