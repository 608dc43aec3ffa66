//! Placed pieces, with words that were made by hand.

ghost use Rattle.std.specs.Prelude.{◌^◌, ◌≤◌, [], ◌∷◌, false, IfOk, Some};
ghost use Rattle.layout.specs.Laid.{AreMarked, ArePieces, LeadsBelow};

use eel_base::{Addr, PieceNo, Range};
use layout::{Item, LayoutFault, Piece, place};
use std::alloc::{AllocError, Global};
use std::test::Fail;
use v8_decode::Cond;

const BASE: Addr = Addr(0x4000_1000);

#[test]
fn three_words_lack_room(rt: HostRuntime) -> Result<(), Fail> {
    let alloc = rt.alloc();
    let items = vec![in alloc; Item::Word(1), Item::Word(2), Item::Word(3)]?;
    let pieces = vec![in alloc; Piece { items }]?;
    let fault = place(alloc, &pieces, BASE, 8).err();
    assert_eq!(rt; fault, Some(LayoutFault::Room { needed: 12, had: 8 }));
    Ok(())
}

// A word with its Mark, a Branch and a Jump; then a Mark without words, a word and a Jump.
#[test]
fn two_pieces_in_their_room(rt: HostRuntime) -> Result<(), Fail> {
    let alloc = rt.alloc();
    let equal = Cond::new(1).ok_or("a condition")?;
    let first = vec![in alloc;
        Item::Mark {
            address: Addr(0x10074),
            node: 2
        },
        Item::Word(0x8200_6001),
        Item::EndMark,
        Item::Branch {
            cond: equal,
            to: PieceNo(1)
        },
        Item::Jump(PieceNo(0)),
    ]?;
    let second = vec![in alloc;
        Item::Mark {
            address: Addr(0x10078),
            node: 3
        },
        Item::EndMark,
        Item::Word(0x0100_0000),
        Item::Jump(PieceNo(0)),
    ]?;
    let pieces = vec![in alloc; Piece { items: first }, Piece { items: second }]?;
    let placed = place(alloc, &pieces, BASE, 64)?;
    let code = [
        0x8200_6001,
        0x2280_0003,
        0x0100_0000,
        0x30bf_fffd,
        0x0100_0000,
        0x30bf_fffb,
    ];
    let range = Range {
        lo: BASE,
        hi: Addr(0x4000_1004),
        address: Addr(0x10074),
        node: 2,
    };
    assert_eq!(rt; placed.code.as_slice(), code.as_slice());
    assert_eq!(rt; placed.at.as_slice(), [BASE, Addr(0x4000_1010)].as_slice());
    assert_eq!(rt; placed.ranges.as_slice(), [range].as_slice());
    Ok(())
}

// A word and a Jump to the third piece, and two that jump to the second.
#[test]
fn the_target_of_a_jump_comes_next(rt: HostRuntime) -> Result<(), Fail> {
    let alloc = rt.alloc();
    let first = vec![in alloc; Item::Word(0xa), Item::Jump(PieceNo(2))]?;
    let second = vec![in alloc; Item::Word(0xb), Item::Jump(PieceNo(1))]?;
    let third = vec![in alloc; Item::Word(0xc), Item::Jump(PieceNo(1))]?;
    let pieces = vec![in alloc;
        Piece { items: first },
        Piece { items: second },
        Piece { items: third },
    ]?;
    let placed = place(alloc, &pieces, BASE, 16)?;
    let at = [BASE, Addr(0x4000_1008), Addr(0x4000_1004)];
    assert_eq!(rt;
        placed.code.as_slice(),
        [0xa, 0xc, 0xb, 0x30bf_ffff].as_slice()
    );
    assert_eq!(rt; placed.at.as_slice(), at.as_slice());
    Ok(())
}

// An item that leads past so many words, which end in no Jump.
fn pieces_past(alloc: Global, item: Item, count: usize) -> Result<Vec<Piece>, AllocError>
    requires few { count ≤ 2 ^ 22 }
    requires leads { LeadsBelow 3 (Some item) }
    requires unmarked { AreMarked false (item ∷ []) }
    ensures { IfOk result (λ pieces. ArePieces pieces.items) }
{
    let first = vec![in alloc; item]?;
    let second = vec![in alloc; Item::Word(0x0100_0000); count]?;
    let third = vec![in alloc; Item::Word(0x0100_0000)]?;
    let pieces = vec![in alloc;
        Piece { items: first },
        Piece { items: second },
        Piece { items: third },
    ]?;
    Ok(pieces)
}

// The code of a Jump past so many words.
fn jump_past(alloc: Global, count: usize) -> Result<Vec<u32>, Fail>
    requires few { count ≤ 2 ^ 22 }
{
    let pieces = pieces_past(alloc, Item::Jump(PieceNo(2)), count)?;
    Ok(place(alloc, &pieces, BASE, 0x3fff_0000)?.code)
}

// The code of a Branch past so many words, where the codes say equal.
fn branch_past(alloc: Global, count: usize) -> Result<Vec<u32>, Fail>
    requires few { count ≤ 2 ^ 22 }
{
    let cond = Cond::new(1).ok_or("a condition")?;
    let to = PieceNo(2);
    let pieces = pieces_past(alloc, Item::Branch { cond, to }, count)?;
    Ok(place(alloc, &pieces, BASE, 0x3fff_0000)?.code)
}

#[test]
fn the_longest_short_jump(rt: HostRuntime) -> Result<(), Fail> {
    let code = jump_past(rt.alloc(), 2_097_150)?;
    assert_eq!(rt; code.len(), 2_097_152);
    assert_eq!(rt; code.first().copied(), Some(0x309f_ffff));
    Ok(())
}

#[test]
fn the_shortest_long_jump(rt: HostRuntime) -> Result<(), Fail> {
    let code = jump_past(rt.alloc(), 2_097_151)?;
    let jump = [0xc220_3000, 0x0310_2004, 0x81c0_600c, 0xc200_3000];
    assert_eq!(rt; code.len(), 2_097_156);
    assert_eq!(rt; code.get(..4), Some(jump.as_slice()));
    Ok(())
}

#[test]
fn the_longest_short_branch(rt: HostRuntime) -> Result<(), Fail> {
    let code = branch_past(rt.alloc(), 2_097_149)?;
    assert_eq!(rt; code.len(), 2_097_152);
    assert_eq!(rt; code.get(..2), Some([0x229f_ffff, 0x0100_0000].as_slice()));
    Ok(())
}

// It is a branch on the opposite condition, past a long jump.
#[test]
fn the_shortest_long_branch(rt: HostRuntime) -> Result<(), Fail> {
    let code = branch_past(rt.alloc(), 2_097_150)?;
    let branch = [
        0x1280_0006,
        0x0100_0000,
        0xc220_3000,
        0x0310_2004,
        0x81c0_6010,
        0xc200_3000,
    ];
    assert_eq!(rt; code.len(), 2_097_157);
    assert_eq!(rt; code.get(..6), Some(branch.as_slice()));
    Ok(())
}
