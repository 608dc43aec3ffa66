//! What the edges of a small program weigh by the counts of its own run, and how much those weigh that are counted then.
use crate::programs::{CARRY_LOOP, LINES};
use cfg_view::look;
use eel_base::EdgeNo;
use span_tree::tree;
use std::alloc::Global;
use std::test::Fail;
use weights_in::read_weights;

/// The headers of the program's file.
const HEADERS: [u32; 21] = [
    0x7f454c46, 0x01020100, 0, 0, 0x00020002, 1, 0x00010054, 0x34, 0, 0, 0x00340020, 0x00010000, 0,
    1, 0x54, 0x00010054, 0x00010054, 0x1c, 0x1c, 5, 0x00010000,
];

/// One more than each edge was completed.
const WEIGHTS: [u64; 9] = [2, 5, 2, 1, 1, 1, 1, 1, 1];

fn file(alloc: Global) -> Result<Vec<u8>, Fail> {
    let mut bytes = Vec::new(alloc);
    for word in HEADERS.iter().chain(CARRY_LOOP.iter()) {
        bytes.extend_from_slice(&word.to_be_bytes())?;
    }
    Ok(bytes)
}

#[test]
fn an_earlier_run_weighs_the_edges(rt: HostRuntime) -> Result<(), Fail> {
    let bytes = file(rt.alloc())?;
    let Ok(view) = look(rt.alloc(), &bytes, &[]) else {
        return Err(Fail::from("a view"));
    };
    let Ok(weights) = read_weights(rt.alloc(), LINES.as_bytes(), &view) else {
        return Err(Fail::from("weights"));
    };
    assert_eq!(rt; weights.as_slice(), WEIGHTS.as_slice());
    let tree = tree(rt.alloc(), &view.graph, &weights).map_err(|_| Fail::from("memory"))?;
    let mut counted = 0_u64;
    for (e, weight) in WEIGHTS.iter().enumerate() {
        if tree.cell(EdgeNo(e as u32)).is_some() {
            counted = counted.saturating_add(*weight);
        }
    }
    assert_eq!(rt; counted, 9);
    Ok(())
}
