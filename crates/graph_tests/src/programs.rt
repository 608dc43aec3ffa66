//! What several tests take: the words of programs, the files and views that are made of words, and a chooser.
ghost use Rattle.std.specs.Prelude.{IfOk};
ghost use Rattle.cfg_view.specs.Code.{IsView};

use cfg_view::{View, look};
use eel_base::WordNo;
use snippets::Snippet;
use std::alloc::{AllocError, Global};
use std::test::Fail;
use tool_kit::{Chooser, EdgeRef};

pub(crate) const NOP: u32 = 0x01000000;

/// The program carry_loop: its second block branches to itself, and its last word may read everything.
pub(crate) const CARRY_LOOP: [u32; 7] = [
    0x84102005, 0x90422000, 0x8480bfff, 0x12bffffe, 0x01000000, 0x82102001, 0x91d02010,
];

/// The file three_words, whose text is mov 1,%g1; mov 3,%o0; ta 16.
pub(crate) const THREE_WORDS: [u8; 96] = [
    0x7f, 0x45, 0x4c, 0x46, 0x01, 0x02, 0x01, 0x00, 0x00, 0x00, 0x00, 0x00, 0x00, 0x00, 0x00, 0x00,
    0x00, 0x02, 0x00, 0x02, 0x00, 0x00, 0x00, 0x01, 0x00, 0x01, 0x00, 0x54, 0x00, 0x00, 0x00, 0x34,
    0x00, 0x00, 0x00, 0x00, 0x00, 0x00, 0x00, 0x00, 0x00, 0x34, 0x00, 0x20, 0x00, 0x01, 0x00, 0x00,
    0x00, 0x00, 0x00, 0x00, 0x00, 0x00, 0x00, 0x01, 0x00, 0x00, 0x00, 0x54, 0x00, 0x01, 0x00, 0x54,
    0x00, 0x01, 0x00, 0x54, 0x00, 0x00, 0x00, 0x0c, 0x00, 0x00, 0x00, 0x0c, 0x00, 0x00, 0x00, 0x05,
    0x00, 0x01, 0x00, 0x00, 0x82, 0x10, 0x20, 0x01, 0x90, 0x10, 0x20, 0x03, 0x91, 0xd0, 0x20, 0x10,
];

/// The lines of its counts.
pub(crate) const LINES: &str = "edge 0 fall 00010054 00010058 1\n\
edge 1 taken 00010058 00010058 4\n\
edge 2 untaken 00010058 00010068 1\n\
edges 9 counted 5 executions 6\n";

/// The words of switch_of_four: its third block jumps through the table at its tenth word, of four addresses.
pub(crate) const SWITCH_OF_FOUR: [u32; 16] = [
    0x90102003, 0x80a22003, 0x1880000c, 0x912a2002, 0x03000040, 0x82106078, 0xc2004008, 0x81c04000,
    0x01000000, 0x0001008c, 0x0001008c, 0x0001008c, 0x00010088, 0x90102005, 0x82102001, 0x91d02010,
];

/// A chooser that does nothing on any edge.
#[derive(Clone, Copy, Drop)]
pub(crate) struct Nothing;

impl Chooser for Nothing {
    ghost use Rattle.std.specs.Prelude.{◌≡◌, []};

    ghost may = { λ nothing edge. Unit {0} };

    ghost says = { λ nothing edge ops. ops ≡ [] };

    fn choose(&self, _edge: EdgeRef) -> Snippet {
        Snippet::empty()
    }
}

/// The words of a program's file: its headers, and these words at 0x10054.
pub(crate) fn program(alloc: Global, text: &[u32]) -> Result<Vec<u32>, Fail> {
    if text.len() > 100 {
        return Err(Fail::from("words"));
    }
    let size = 4 * text.len() as u32;
    let headers = [
        0x7f454c46, 0x01020100, 0, 0, 0x00020002, 1, 0x00010054, 0x34, 0, 0, 0x00340020,
        0x00010000, 0, 1, 0x54, 0x00010054, 0x00010054, size, size, 5, 0x00010000,
    ];
    let mut words = Vec::from_slice(alloc, &headers)?;
    words.extend_from_slice(text)?;
    Ok(words)
}

/// The bytes of rows of words.
pub(crate) fn bytes_of(alloc: Global, rows: &[&[u32]]) -> Result<Vec<u8>, AllocError> {
    let mut bytes = Vec::new(alloc);
    for row in rows {
        for word in *row {
            bytes.extend_from_slice(&word.to_be_bytes())?;
        }
    }
    Ok(bytes)
}

/// The view of a program of these words, with marks.
pub(crate) fn view_of(alloc: Global, text: &[u32], marks: &[WordNo]) -> Result<View, Fail>
    ensures { IfOk result IsView }
{
    let bytes = bytes_of(alloc, &[&program(alloc, text)?])?;
    Ok(look(alloc, &bytes, marks)?)
}
