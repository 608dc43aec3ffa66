//! The pieces of a small text, as many as `checks/new_code.py` makes of it.
use crate::programs::THREE_WORDS;
use cfg_view::look;
use eel_base::Addr;
use image_code::{DataAddresses, pieces};
use liveness::live;
use snippets::Snippet;
use std::test::Fail;

/// Nothing is done on its two edges: `checks/new_code.py` makes an image and a landing for each of its words, a way and the
/// foreign piece.
#[test]
fn three_words_become_eight_pieces(rt: HostRuntime) -> Result<(), Fail> {
    let alloc = rt.alloc();
    let view = look(alloc, &THREE_WORDS, &[])?;
    let text = view.image.text();
    let mut snips = Vec::new(alloc);
    snips.resize(view.graph.edges().len(), Snippet::empty())?;
    let sets = live(alloc, text, &view.graph, &snips).map_err(|_| Fail::from("memory"))?;
    let addresses = DataAddresses {
        cells: Addr(0x20000),
        table: Addr(0x30000),
        cases: Addr(0x40000),
    };
    let made = pieces(
        alloc,
        text,
        &view.graph,
        view.image.entry(),
        &snips,
        &sets,
        addresses,
    );
    let made = made.map_err(|_| Fail::from("pieces"))?;
    assert_eq!(rt; made.list.len(), 8);
    assert_eq!(rt; made.landing.len(), 3);
    assert_eq!(rt; made.cases.len(), 0);
    Ok(())
}
