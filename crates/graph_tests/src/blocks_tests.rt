//! Blocks of small programs, and what leads to each, worked out by hand.
use crate::programs::NOP;
use cfg_blocks::{BlockList, blocks};
use eel_base::{Addr, BlockNo, Text, WordNo};
use std::alloc::Global;
use std::test::Fail;

/// The blocks of these words at 0x10054, where the first word is given and one more.
fn cut(alloc: Global, words: &[u32], start: u32) -> Result<BlockList, Fail> {
    let words = Vec::from_slice(alloc, words)?;
    let text = Text::new(Addr(0x10054), words).ok_or("a text")?;
    if start >= text.len() {
        return Err(Fail::from("a start"));
    }
    Ok(blocks(alloc, &text, &[WordNo(0)], &[WordNo(start)])?)
}

/// Each block in a line: its first word, how many words, its end, and what leads there.
fn lines(alloc: Global, words: &[u32], start: u32) -> Result<String, Fail> {
    let list = cut(alloc, words, start)?.clone()?;
    let mut lines = String::new(alloc);
    for b in 0..list.count() {
        let b = BlockNo(b);
        let (first, words, end) = (list.first(b).0, list.words(b), list.end(b));
        let held = list.holding(WordNo(first + words - 1)).0;
        let line = format!(in alloc; "{held}: {first}+{words} {end:?} {:?}\n", (&list).into(b))?;
        lines.push_str(&line)?;
    }
    Ok(lines)
}

#[test]
fn a_call_and_a_return(rt: HostRuntime) -> Result<(), Fail> {
    let words = [
        0x40000004, NOP, 0x82102001, 0x91d02010, 0x81c3e008, 0x900be0ff,
    ];
    let wants = "0: 0+1 Call { target: Some(WordNo(4)) } Nothing\n\
1: 1+1 Fall Nothing\n\
2: 2+2 Fall Nothing\n\
3: 4+1 Jump More\n\
4: 5+1 Fall Nothing\n";
    assert_eq!(rt; lines(rt.alloc(), &words, 4)?.as_str(), wants);
    Ok(())
}

#[test]
fn branches_on_never_and_always(rt: HostRuntime) -> Result<(), Fail> {
    let words = [0x00800003, NOP, 0x20800003, NOP, 0x30800002, NOP, NOP];
    let wants = "0: 0+1 Branch { cond: Cond { number: 0 }, annul: false, target: None } Nothing\n\
1: 1+1 Fall Nothing\n\
2: 2+1 Branch { cond: Cond { number: 0 }, annul: true, target: None } One(BlockNo(0), Untaken)\n\
3: 3+1 Fall Nothing\n\
4: 4+1 Branch { cond: Cond { number: 8 }, annul: true, target: Some(WordNo(6)) } One(BlockNo(2), Untaken)\n\
5: 5+1 Fall Nothing\n\
6: 6+1 Fall One(BlockNo(4), Taken)\n";
    assert_eq!(rt; lines(rt.alloc(), &words, 0)?.as_str(), wants);
    Ok(())
}

#[test]
fn a_slot_that_is_given(rt: HostRuntime) -> Result<(), Fail> {
    let wants = "0: 0+1 Jump Nothing\n1: 1+1 Fall Nothing\n2: 2+1 Fall One(BlockNo(1), Fall)\n";
    let lines = lines(rt.alloc(), &[0x81c3e008, NOP, NOP], 1)?;
    assert_eq!(rt; lines.as_str(), wants);
    Ok(())
}
