//! What is live in small programs, worked out by hand.
ghost use Rattle.std.specs.Prelude.{◌≡◌, length, IfOk};

use crate::programs::CARRY_LOOP;
use cfg_blocks::blocks;
use cfg_normal::{FlowGraph, graph};
use eel_base::{Addr, EdgeNo, Text, WordNo};
use liveness::{LiveSets, live};
use snippets::{Op, Snippet};
use std::alloc::Global;
use std::test::Fail;
use v8_decode::{Part, Reg, RegSet};

/// The first words of the program window_overflow: two of no window, and a SAVE.
const WINDOW_OVERFLOW: [u32; 3] = [0x8610000e, 0xa0102007, 0x9de3bfa0];

/// The live sets of these words, where each edge has this snippet.
fn live_sets(alloc: Global, words: &[u32], snippet: Snippet) -> Result<LiveSets, Fail> {
    let words = Vec::from_slice(alloc, words)?;
    let text = Text::new(Addr(0x10054), words).ok_or("a text")?;
    let graph = graph_of(alloc, &text)?;
    let snips = copies(alloc, graph.edges().len(), snippet)?;
    match live(alloc, &text, &graph, &snips) {
        Ok(sets) => Ok(sets),
        Err(_) => Err(Fail::from("memory")),
    }
}

/// The graph of a text, where no word is given.
#[tactic(auto, unfolding(cfg_blocks::specs::Entries::entered_of, cfg_blocks::specs::Blocks::blocks_of))]
fn graph_of(alloc: Global, text: &Text) -> Result<FlowGraph, Fail>
    ensures { IfOk result (λ graph. graph.blocks.words ≡ length text.now.words) }
{
    let list = match blocks(alloc, text, &[], &[]) {
        Ok(list) => list,
        Err(_) => return Err(Fail::from("memory")),
    };
    match graph(alloc, text, &list, WordNo(0), &[]) {
        Ok(graph) => Ok(graph),
        Err(_) => Err(Fail::from("memory")),
    }
}

/// A snippet so many times.
fn copies(alloc: Global, count: usize, snippet: Snippet) -> Result<Vec<Snippet>, Fail>
    ensures { IfOk result (λ snips. length snips.items ≡ count) }
{
    let mut snips = Vec::new(alloc);
    snips.resize(count, snippet)?;
    Ok(snips)
}

/// The set of these registers.
fn registers(numbers: &[u8]) -> RegSet {
    let mut set = RegSet::empty();
    for number in numbers {
        if let Some(reg) = Reg::new(*number) {
            set = set.with(Part::Reg(reg));
        }
    }
    set
}

/// What isn't live at a word.
fn dead_at(sets: &LiveSets, word: u32) -> RegSet {
    RegSet::all().minus(sets.at_word(WordNo(word)))
}

#[test]
fn dead_in_carry_loop(rt: HostRuntime) -> Result<(), Fail> {
    let sets = live_sets(rt.alloc(), &CARRY_LOOP, Snippet::empty())?;
    assert_eq!(rt; dead_at(&sets, 0), registers(&[1, 2]));
    assert_eq!(rt; dead_at(&sets, 5), registers(&[1]));
    assert_eq!(rt; sets.dead_on(EdgeNo(2)), registers(&[1]));
    Ok(())
}

#[test]
fn all_is_live_at_a_save(rt: HostRuntime) -> Result<(), Fail> {
    let sets = live_sets(rt.alloc(), &WINDOW_OVERFLOW, Snippet::empty())?;
    assert_eq!(rt; sets.at_word(WordNo(2)), RegSet::all());
    Ok(())
}

#[test]
fn a_named_register_is_live_before(rt: HostRuntime) -> Result<(), Fail> {
    let mut snippet = Snippet::empty();
    let one = Reg::new(1).ok_or("a register")?;
    snippet.push(Op::Keep { cell: 0, reg: one });
    let sets = live_sets(rt.alloc(), &CARRY_LOOP, snippet)?;
    assert_eq!(rt; dead_at(&sets, 0), registers(&[2]));
    assert_eq!(rt; dead_at(&sets, 5), registers(&[1]));
    Ok(())
}
