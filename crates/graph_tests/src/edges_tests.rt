//! Edges of small programs, worked out by hand.
use crate::programs::{NOP, SWITCH_OF_FOUR, view_of};
use cfg_blocks::EdgeKind;
use cfg_normal::{Edge, Node, Slot};
use eel_base::{BlockNo, WordNo};
use std::test::Fail;

fn block(b: u32) -> Node {
    Node::Block(BlockNo(b))
}

fn landed(b: u32) -> Node {
    Node::Landed(BlockNo(b))
}

fn edge(kind: EdgeKind, from: Node, to: Node, slot: Slot) -> Edge {
    Edge {
        from,
        to,
        kind,
        slot,
    }
}

fn word(w: u32) -> Slot {
    Slot::Word(WordNo(w))
}

fn landing(to: Node) -> Edge {
    edge(EdgeKind::Land, Node::X, to, Slot::Nothing)
}

#[test]
fn branches_with_and_without_slots(rt: HostRuntime) -> Result<(), Fail> {
    let words = [
        0x00800003, NOP, 0x20800003, NOP, 0x30800002, NOP, 0x10800002, NOP, 0x22800001, 0x81c3e008,
    ];
    let view = view_of(rt.alloc(), &words, &[])?;
    let graph = &view.graph;
    let wants = [
        edge(EdgeKind::Untaken, block(0), block(2), word(1)),
        edge(EdgeKind::Fall, block(1), block(2), Slot::Nothing),
        edge(EdgeKind::Untaken, block(2), block(4), Slot::Nothing),
        edge(EdgeKind::Fall, block(3), block(4), Slot::Nothing),
        edge(EdgeKind::Taken, block(4), block(6), Slot::Nothing),
        edge(EdgeKind::Fall, block(5), block(6), Slot::Nothing),
        edge(EdgeKind::Taken, block(6), block(8), word(7)),
        edge(EdgeKind::Fall, block(7), block(8), Slot::Nothing),
        edge(EdgeKind::Taken, block(8), block(9), word(9)),
        edge(EdgeKind::Untaken, block(8), Node::X, Slot::Nothing),
        edge(EdgeKind::Out, block(9), Node::X, Slot::Off),
    ];
    let first = graph.edges().get(..11).ok_or("edges")?;
    assert_eq!(rt; first, wants.as_slice());
    assert_eq!(rt; graph.edges().get(12), Some(&landing(block(1))));
    assert_eq!(rt; graph.edges().len(), 21);
    assert_eq!(rt; graph.count(), 10);
    assert_eq!(rt; graph.holding(WordNo(3)), BlockNo(3));
    assert_eq!(rt; graph.first(BlockNo(3)), WordNo(3));
    assert_eq!(rt; graph.words(BlockNo(2)), 1);
    Ok(())
}

#[test]
fn edges_of_a_switch(rt: HostRuntime) -> Result<(), Fail> {
    let view = view_of(rt.alloc(), &SWITCH_OF_FOUR, &[])?;
    let graph = &view.graph;
    let wants = [
        edge(EdgeKind::Taken, block(0), block(5), word(3)),
        edge(EdgeKind::Untaken, block(0), block(2), word(3)),
        edge(EdgeKind::Fall, block(1), landed(2), Slot::Nothing),
        edge(EdgeKind::Case, block(2), block(5), word(8)),
        edge(EdgeKind::Case, block(2), block(4), word(8)),
        edge(EdgeKind::Fall, block(3), block(4), Slot::Nothing),
        edge(EdgeKind::Fall, block(4), block(5), Slot::Nothing),
        edge(EdgeKind::Fall, block(5), Node::X, Slot::Nothing),
        edge(EdgeKind::Taken, landed(0), block(5), word(3)),
        edge(EdgeKind::Untaken, landed(0), landed(2), word(3)),
        edge(EdgeKind::Out, landed(2), Node::X, word(8)),
        landing(block(0)),
        landing(landed(0)),
        landing(block(1)),
        landing(landed(2)),
        landing(block(3)),
        landing(block(4)),
        landing(block(5)),
    ];
    assert_eq!(rt; graph.edges(), wants.as_slice());
    assert_eq!(rt; graph.opens().len(), 1);
    assert_eq!(rt; graph.lands(WordNo(1)), block(0));
    assert_eq!(rt; graph.lands(WordNo(2)), landed(0));
    Ok(())
}
