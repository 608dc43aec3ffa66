//! How many loops stand about each word of a text.
ghost use Rattle.std.specs.Prelude.{◌≡◌, ◌+◌, ◌-◌, ◌^◌, ◌<◌, length, map, slice_index, slice_set, IfOk};
ghost use Rattle.cfg_blocks.specs.Blocks.{below};
ghost use Rattle.cfg_blocks.specs.Code.{IsBlockList};
ghost use Rattle.span_tree.specs.Bounds.{AreBounds};
ghost use Rattle.span_tree.specs.Weights.{branch_target, loops_at};

use cfg_blocks::{BlockEnd, BlockList};
use eel_base::{BlockNo, NoMemory, WordNo};
use std::alloc::Global;

/// How many loops begin and how many end at each word.
#[derive(Drop)]
struct Bounds {
    begins: Vec<u32>,
    ends: Vec<u32>,
}

/// In how many loops each word of the text stands, in time linear in the words. A loop is the words from the target of a
/// branch to the branch.
pub(crate) fn loops_at_words(alloc: Global, blocks: &BlockList) -> Result<Vec<u32>, NoMemory>
    ensures { IfOk result (λ loops. loops.items ≡ map (loops_at blocks.now.blocks) (below blocks.now.blocks.words)) }
{
    let bounds = loop_bounds(alloc, blocks)?;
    let mut loops = Vec::with_capacity(alloc, bounds.begins.len())?;
    let mut about: u32 = 0;
    for word in 0..bounds.begins.len() {
        about += bounds.begins[word];
        loops.push(about)?;
        about -= bounds.ends[word];
    }
    Ok(loops)
}

/// Where the loops begin and end.
fn loop_bounds(alloc: Global, blocks: &BlockList) -> Result<Bounds, NoMemory>
    ensures bounds { IfOk result (λ bounds.
        AreBounds blocks.now.blocks (length blocks.now.blocks.firsts) bounds.begins.items bounds.ends.items) }
    ensures list { IfOk result (λ bounds. IsBlockList blocks.now) }
{
    let words = text_words(blocks) as usize;
    let mut bounds = Bounds {
        begins: vec![in alloc; 0; words]?,
        ends: vec![in alloc; 0; words]?,
    };
    for block in 0..blocks.count() {
        put_loop(&mut bounds, blocks, BlockNo(block));
    }
    Ok(bounds)
}

/// Puts in the loop of the branch that ends a block, where that has one.
fn put_loop(bounds: &mut Bounds, blocks: &BlockList, block: BlockNo)
    requires block { block.0 < length blocks.now.blocks.firsts }
    requires few { length blocks.now.blocks.firsts < 2 ^ 32 }
    requires bounds { AreBounds blocks.now.blocks block.0 bounds.old.begins.items bounds.old.ends.items }
    ensures { AreBounds blocks.now.blocks (block.0 + 1) bounds.new.begins.items bounds.new.ends.items }
{
    let last = blocks.last(block).0;
    if let Some(target) = branch_target(blocks.end(block))
        && target.0 <= last
    {
        raise(&mut bounds.begins, target.0);
        raise(&mut bounds.ends, last);
    }
}

/// One more at a word.
fn raise(counts: &mut Vec<u32>, word: u32)
    requires word { word < length counts.old.items }
    requires few { slice_index counts.old.items word < 2 ^ 32 - 1 }
    ensures { counts.new.items ≡ slice_set counts.old.items word (slice_index counts.old.items word + 1) }
{
    counts[word as usize] += 1;
}

/// The word to which a branch leads, where the text has it.
fn branch_target(end: BlockEnd) -> Option<WordNo>
    ensures { result ≡ branch_target end }
{
    match end {
        BlockEnd::Branch { target, .. } => target,
        BlockEnd::Fall | BlockEnd::Call { .. } | BlockEnd::Jump => None,
    }
}

/// How many words the text has.
fn text_words(blocks: &BlockList) -> u32
    ensures { result ≡ blocks.now.blocks.words }
{
    let last = BlockNo(blocks.count() - 1);
    blocks.last(last).0 + 1
}
