//! That the calls on flows succeed, on the graph of a small program that was worked out by hand.
use flow_rebuild::{fit_counters, rebuild};
use flow_tree::{counted, grow, off_tree, span};
use flows::{Link, is_linked, is_marked, joins_nodes};
use std::test::Fail;

// The blocks of the program carry_loop are the nodes 0 to 3, and 4 is the outside. The block 1 branches to itself.
const ENDS: [(usize, usize); 9] = [
    (0, 1),
    (1, 1),
    (1, 3),
    (2, 3),
    (3, 4),
    (4, 0),
    (4, 1),
    (4, 2),
    (4, 3),
];

const WEIGHTS: [u64; 9] = [1, 9, 9, 1, 1, 1, 1, 1, 1];

// It goes into the loop once, four times round it, and ends in block 3.
const WALK: [i128; 9] = [1, 4, 1, 0, 0, 0, 0, 0, 0];

#[test]
fn five_counters_give_all_counts(rt: HostRuntime) -> Result<(), Fail> {
    let mut links: Vec<Link> = Vec::new(rt.alloc());
    for (from, to) in ENDS {
        links.push(Link { from, to })?;
    }
    assert!(rt; links.len() == 9 && is_linked(5, &links));
    let counted = counted(rt.alloc(), 5, &links, &WEIGHTS, 4)?;
    let numbers = counted.iter().filter(|is_counted| **is_counted).count();
    assert_eq!(rt; numbers, 5);
    let grown = grow(rt.alloc(), 5, &links, &WEIGHTS, 4)?;
    let off = off_tree(rt.alloc(), &grown, links.len())?;
    let mut weight: u64 = 0;
    for (is_off, of_edge) in off.iter().zip(&WEIGHTS) {
        if *is_off {
            weight = weight.wrapping_add(*of_edge);
        }
    }
    assert_eq!(rt; weight, 13);
    let blocks = [true; 5];
    assert!(rt; joins_nodes(&blocks, &links) && is_marked(&blocks, 0) && is_marked(&blocks, 3));
    assert!(rt; counted.len() == links.len() && fit_counters(&WALK));
    let tree = span(rt.alloc(), &blocks, &links, &counted, 0)?.ok_or("no tree")?;
    let counts = rebuild(rt.alloc(), &links, &tree, &WALK, 0, 3)?;
    assert_eq!(rt; counts.as_slice(), WALK.as_slice());
    Ok(())
}
