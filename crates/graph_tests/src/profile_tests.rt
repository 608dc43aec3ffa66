//! Which edges of a small program are counted, and the lines of its counts, worked out by hand.
use crate::programs::{CARRY_LOOP, LINES, bytes_of, view_of};
use eel_base::EdgeNo;
use notes::read_notes;
use show_text::counts;
use span_tree::{tree, weights};
use std::test::Fail;

const WEIGHTS: [u64; 9] = [1, 9, 9, 1, 1, 1, 1, 1, 1];

/// In place of the cell of an edge that has none.
const NONE: u32 = u32::MAX;

/// The cells of its edges: those that are counted are off the tree, weigh 13, and are landings but for one.
const CELLS: [u32; 9] = [NONE, 0, NONE, NONE, NONE, 1, 2, 3, 4];

/// A file with its notes, in which the counter of each of these edges has two cells.
const NOTED: [&[u32]; 17] = [
    &[0; 1008],
    &[0x45454c4e, 2, 4096, 216],
    &[0; 12],
    &[4096, 112, 1, 0x10054, 7, 0, 0x30000, 10],
    &[1, 0x20000, 0x1000],
    &[4, 0, 1, 4, 5],
    &[9],
    &[0, 0, 1, NONE],
    &[1, 1, 1, 0],
    &[2, 1, 3, NONE],
    &[0, 2, 3, NONE],
    &[0, 3, 4, NONE],
    &[5, 4, 0, 2],
    &[5, 4, 1, 4],
    &[5, 4, 2, 6],
    &[5, 4, 3, 8],
    &[0],
];

const COUNTS: [u64; 9] = [1, 4, 1, 0, 0, 0, 0, 0, 0];

#[test]
fn five_of_nine_edges_are_counted(rt: HostRuntime) -> Result<(), Fail> {
    let view = view_of(rt.alloc(), &CARRY_LOOP, &[])?;
    let weights = weights(rt.alloc(), &view.blocks, &view.graph)?;
    assert_eq!(rt; weights.as_slice(), WEIGHTS.as_slice());
    let tree = tree(rt.alloc(), &view.graph, &weights)?;
    assert_eq!(rt; tree.cells(), 5);
    for (e, cell) in CELLS.iter().enumerate() {
        assert_eq!(rt; tree.cell(EdgeNo(e as u32)).unwrap_or(NONE), *cell);
    }
    Ok(())
}

#[test]
fn counts_have_their_lines(rt: HostRuntime) -> Result<(), Fail> {
    let file = bytes_of(rt.alloc(), &NOTED)?;
    let notes = read_notes(rt.alloc(), &file)?;
    if notes.edges.len() != 9 {
        return Err(Fail::from("edges"));
    }
    let lines = counts(rt.alloc(), &notes, &COUNTS)?;
    assert_eq!(rt; lines.as_slice(), LINES.as_bytes());
    Ok(())
}
