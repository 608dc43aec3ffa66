//! The live sets of a graph.
ghost use Rattle.std.specs.Prelude.{◌≡◌, length, slice_index_or, IfOk};
ghost use Rattle.v8_decode.specs.Parts.{every_part};
ghost use Rattle.liveness.specs.Live.{named_on};
ghost use Rattle.liveness.specs.Search.{AreFound, AreLivePlaces, ArePlaces};
ghost use Rattle.liveness.specs.Sets.{dead_on, edge_set, word_set, AreLive};

use crate::chart::Chart;
use crate::places::places_of;
use cfg_normal::FlowGraph;
use eel_base::{EdgeNo, NoMemory, Text, WordNo};
use flood::flood;
use snippets::Snippet;
use std::alloc::Global;
use std::marker::Model;
use v8_decode::RegSet;

/// What is live at each word of a text and on each edge of its graph.
#[derive(Drop)]
pub struct LiveSets {
    words: Vec<RegSet>,
    edges: Vec<RegSet>,
}

impl Model for LiveSets {
    ghost use Rattle.liveness.specs.Sets.{Live};

    ghost Value = { Live };

    ghost view = { λ s. record { words = s.words.items; edges = s.edges.items } };
}

impl LiveSets {
    /// What is live at the word `w`; past the last word, everything.
    pub fn at_word(&self, w: WordNo) -> RegSet
        ensures { result ≡ word_set self.now w.0 }
    {
        set_at(&self.words, w.0)
    }

    /// What is live on the edge `e`, behind its snippet; past the last edge, everything.
    pub fn on_edge(&self, e: EdgeNo) -> RegSet
        ensures { result ≡ edge_set self.now e.0 }
    {
        set_at(&self.edges, e.0)
    }

    /// What isn't live on the edge `e`, behind its snippet.
    pub fn dead_on(&self, e: EdgeNo) -> RegSet
        ensures { result ≡ dead_on self.now e.0 }
    {
        RegSet::all().minus(self.on_edge(e))
    }
}

/// The set of a place; past the last one, everything.
fn set_at(sets: &[RegSet], place: u32) -> RegSet
    ensures { result ≡ slice_index_or sets.now place every_part }
{
    match sets.get(place as usize) {
        Some(set) => *set,
        None => RegSet::all(),
    }
}

/// What is live at the words and on the edges of a text's graph, where `snips` has the snippet of each edge.
///
/// It takes time linear in the words and edges: a word is looked at once, and again each time that more is found to be
/// live there, at most 34 times; and so are a word of a landed copy, and a node to which a jump goes.
pub fn live(
    alloc: Global,
    text: &Text,
    graph: &FlowGraph,
    snips: &[Snippet],
) -> Result<LiveSets, NoMemory>
    requires graph { graph.now.blocks.words ≡ length text.now.words }
    requires snips { length snips.now ≡ length graph.now.edges }
    ensures { IfOk result (λ sets. AreLive text.now graph.now (named_on snips.now) sets) }
{
    let places = places_of(alloc, text, graph)?;
    let chart = Chart {
        text,
        graph,
        places: &places,
    };
    let sets = place_sets(alloc, &chart, snips)?;
    let edges = chart.edge_sets(alloc, &sets)?;
    let words = chart.word_sets(alloc, sets)?;
    Ok(LiveSets { words, edges })
}

/// What is live at each place.
fn place_sets(alloc: Global, chart: &Chart, snips: &[Snippet]) -> Result<Vec<RegSet>, NoMemory>
    requires snips { length snips.now ≡ length chart.now.graph.now.edges }
    requires places { ArePlaces chart.now.graph.now
        chart.now.places.now.copies.items chart.now.places.now.nodes chart.now.places.now.marks.items }
    ensures live { IfOk result (λ v.
        AreLivePlaces chart.now.text.now chart.now.graph.now (named_on snips.now) v.items) }
    ensures found { IfOk result (λ v. AreFound chart.now.graph.now chart.now.places.now.marks.items v.items) }
{
    let reads = chart.all_reads(alloc, snips)?;
    let links = chart.all_links(alloc)?;
    let sets = flood(alloc, reads, &links)?;
    Ok(sets)
}
