//! The code of snippets.

ghost use Rattle.std.specs.Prelude.{◌≡◌, ℕ, ◌^◌, ◌<◌, ◌%◌, ◌++◌, ◌∷◌, [], drop, length, option_to_list, take, All, IfOk, OnOk};
ghost use Rattle.std.specs.List.{flat_map};
ghost use Rattle.image_code.specs.Codes.{CodeDoes};
ghost use Rattle.image_code.specs.Private.{code_at as code_at_of};
ghost use Rattle.image_code.specs.SnippetWords.{codes_of as codes_in};
ghost use Rattle.liveness.specs.Sets.{dead_on};
ghost use Rattle.snippet_code.specs.Laws.{EndLow};

use crate::firsts::small;
use eel_base::{Addr, EdgeNo, NoMemory};
use liveness::LiveSets;
use snippet_code::expand;
use snippets::Snippet;
use std::alloc::Global;

/// Where the code of the snippet on an edge stands in one row of words, and how many words it has.
#[derive(Clone, Copy, Drop)]
pub(crate) struct CodeSpan {
    start: u32,
    count: u32,
}

/// The code of the snippets on all edges.
#[derive(Drop)]
pub(crate) struct Codes {
    words: Vec<u32>,
    spans: Vec<CodeSpan>,
}

// So many words from one on, as far as there are any.
fn part(words: &[u32], start: usize, count: usize) -> &[u32]
    ensures { result.now ≡ take count (drop start words.now) }
{
    match words.get(start..) {
        Some(rest) => &rest[..rest.len().min(count)],
        None => &[],
    }
}

impl Codes {
    /// The code of the snippet on an edge.
    pub(crate) fn code_at(&self, edge: u32) -> &[u32]
        ensures { result.now ≡ code_at_of self.now edge }
    {
        match self.spans.get(edge as usize) {
            Some(span) => part(&self.words, span.start as usize, span.count as usize),
            None => &[],
        }
    }

    /// The code of the snippet on an edge, if there is one.
    pub(crate) fn code_on(&self, edge: Option<u32>) -> &[u32]
        ensures { result.now ≡ flat_map (code_at_of self.now) (option_to_list edge) }
    {
        match edge {
            Some(number) => self.code_at(number),
            None => &[],
        }
    }

    // Adds the code of the next edge.
    fn add(&mut self, code: &[u32]) -> Result<(), NoMemory>
        ensures words { OnOk result (self.new.words.items ≡ self.old.words.items ++ code.now) }
        ensures spans { OnOk result (self.new.spans.items ≡ self.old.spans.items
            ++ record { start = length self.old.words.items; count = length code.now } ∷ []) }
    {
        let start = small(self.words.len() as u64)?;
        let count = small(code.len() as u64)?;
        self.words.extend_from_slice(code)?;
        self.spans.push(CodeSpan { start, count })?;
        Ok(())
    }
}

// The code of the snippet on an edge, which may use what is dead behind it.
fn code_of(
    alloc: Global,
    snips: &[Snippet],
    live: &LiveSets,
    cells: Addr,
    edge: EdgeNo,
) -> Result<Vec<u32>, NoMemory>
    requires edge { edge.0 < length snips.now }
    requires aligned { cells.0 % 4 ≡ 0 }
    requires cells { All (λ ops. EndLow cells.0 ops) snips.now }
    ensures code { IfOk result (λ code. code.items ≡ codes_in cells.0 (dead_on live.now) snips.now edge.0) }
    ensures does { IfOk result (λ code. CodeDoes cells.0 (dead_on live.now) snips.now edge.0) }
{
    let snippet = &snips[edge.0 as usize];
    if snippet.ops().is_empty() {
        return Ok(Vec::new(alloc));
    }
    expand(alloc, snippet, cells, live.dead_on(edge), snippet.names())
}

/// The code of the snippets on all edges.
pub(crate) fn codes_of(
    alloc: Global,
    snips: &[Snippet],
    live: &LiveSets,
    cells: Addr,
) -> Result<Codes, NoMemory>
    requires few { length snips.now < 2 ^ 32 }
    requires aligned { cells.0 % 4 ≡ 0 }
    requires cells { All (λ ops. EndLow cells.0 ops) snips.now }
    ensures codes { IfOk result (λ codes.
        (edge : ℕ) → code_at_of codes edge ≡ codes_in cells.0 (dead_on live.now) snips.now edge) }
    ensures does { IfOk result (λ codes. (edge : ℕ) → CodeDoes cells.0 (dead_on live.now) snips.now edge) }
{
    let mut codes = Codes {
        words: Vec::new(alloc),
        spans: Vec::with_capacity(alloc, snips.len())?,
    };
    for edge in 0..snips.len() as u32 {
        let code = code_of(alloc, snips, live, cells, EdgeNo(edge))?;
        codes.add(&code)?;
    }
    Ok(codes)
}
