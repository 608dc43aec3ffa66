//! What is read at each place: by its word, and on the edges that leave that.
ghost use Rattle.std.specs.Prelude.{◌≡◌, ℕ, ◌+◌, ◌<◌, ◌≤◌, true, [], length, map, IfOk};
ghost use Rattle.std.specs.List.{range_with_len};
ghost use Rattle.v8_decode.specs.declared.Part.{Part};
ghost use Rattle.v8_decode.specs.Parts.{has};
ghost use Rattle.cfg_normal.specs.Code.{IsEdgeIn};
ghost use Rattle.liveness.specs.Live.{named_on};
ghost use Rattle.liveness.specs.Search.{nodes_from, Adds, AreRead, Between, In, IsInside, IsOf, ReadsAt, ReadsIn, ReadsOf, ReadsOfAny, ReadsOn, ReadsOnAny};

use crate::chart::Chart;
use crate::effects::{ahead, edge_at, first_of, instr_at, is_outside, last_of};
use cfg_normal::{Edge, Node};
use eel_base::BlockNo;
use snippets::Snippet;
use std::alloc::{AllocError, Global};
use v8_decode::{RegSet, reads, writes};

impl Chart<'_> {
    /// For each place what is read there, or on the edges that leave its word and not written before that.
    pub(crate) fn all_reads(
        &self,
        alloc: Global,
        snips: &[Snippet],
    ) -> Result<Vec<RegSet>, AllocError>
        requires snips { length snips.now ≡ length self.now.graph.now.edges }
        ensures len { IfOk result (λ v.
            length v.items ≡ nodes_from self.now.graph.now + length self.now.places.now.marks.items) }
        ensures read { IfOk result (λ v. AreRead self.now.text.now self.now.graph.now (named_on snips.now) v.items) }
    {
        let mut all = empty_sets(alloc, self.count())?;
        self.read_blocks(&mut all);
        self.read_edges(&mut all, snips);
        Ok(all)
    }

    /// Adds what the words of all nodes read.
    fn read_blocks(&self, all: &mut Vec<RegSet>)
        requires len { nodes_from self.now.graph.now ≤ length all.old.items }
        ensures len { length all.new.items ≡ length all.old.items }
        ensures read { (p : ℕ) → Adds (In all.old.items p) (In all.new.items p)
            (ReadsOfAny self.now.text.now self.now.graph.now p) }
    {
        for block in 0..self.graph.count() {
            self.read_block(all, BlockNo(block));
        }
    }

    /// What those of a block read, and of its copy.
    fn read_block(&self, all: &mut Vec<RegSet>, block: BlockNo)
        requires len { nodes_from self.now.graph.now ≤ length all.old.items }
        requires block { block.0 < length self.now.graph.now.blocks.firsts }
        ensures len { length all.new.items ≡ length all.old.items }
        ensures read { (p : ℕ) → Adds (In all.old.items p) (In all.new.items p)
            (ReadsOf self.now.text.now self.now.graph.now p block.0) }
    {
        self.read_node(all, Node::Block(block));
        if self.graph.is_copied(block) {
            self.read_node(all, Node::Landed(block));
        }
    }

    /// What those of a node read.
    fn read_node(&self, all: &mut Vec<RegSet>, node: Node)
        requires len { nodes_from self.now.graph.now ≤ length all.old.items }
        requires node { IsInside self.now.graph.now node }
        ensures len { length all.new.items ≡ length all.old.items }
        ensures read { (p : ℕ) → Adds (In all.old.items p) (In all.new.items p)
            (ReadsIn self.now.text.now self.now.graph.now p node) }
    {
        for word in first_of(self.graph, node)..last_of(self.graph, node) + 1 {
            self.read_word(all, node, word);
        }
    }

    /// What a word reads.
    fn read_word(&self, all: &mut Vec<RegSet>, node: Node, word: u32)
        requires words { word < length self.now.text.now.words }
        requires len { nodes_from self.now.graph.now ≤ length all.old.items }
        requires of { IsOf self.now.graph.now node word }
        ensures len { length all.new.items ≡ length all.old.items }
        ensures read { (p : ℕ) → Adds (In all.old.items p) (In all.new.items p)
            (ReadsAt self.now.text.now self.now.graph.now p node word) }
    {
        let place = self.place(node, word);
        add(all, place as usize, reads(instr_at(self.text, word)));
    }

    /// What is read on the edges, at the words from which they lead on.
    fn read_edges(&self, all: &mut Vec<RegSet>, snips: &[Snippet])
        requires snips { length snips.now ≡ length self.now.graph.now.edges }
        requires len { nodes_from self.now.graph.now ≤ length all.old.items }
        ensures len { length all.new.items ≡ length all.old.items }
        ensures read { (p : ℕ) → Adds (In all.old.items p) (In all.new.items p)
            (ReadsOnAny self.now.text.now self.now.graph.now (named_on snips.now) p) }
    {
        for e in 0..snips.len() {
            self.read_edge(all, edge_at(self.graph, e), names_on(snips, e));
        }
    }

    /// What is read on an edge, but for what the word writes from which that leads on.
    fn read_edge(&self, all: &mut Vec<RegSet>, edge: Edge, named: RegSet)
        requires edge { IsEdgeIn self.now.graph.now.blocks self.now.graph.now.opens edge }
        requires len { nodes_from self.now.graph.now ≤ length all.old.items }
        ensures len { length all.new.items ≡ length all.old.items }
        ensures read { (p : ℕ) → Adds (In all.old.items p) (In all.new.items p)
            (ReadsOn self.now.text.now self.now.graph.now p edge named) }
    {
        if is_outside(edge.from) {
            return;
        }
        let last = last_of(self.graph, edge.from);
        let place = self.place(edge.from, last);
        let read = ahead(self.text, edge, named).minus(writes(instr_at(self.text, last)));
        add(all, place as usize, read);
    }
}

/// So many sets of nothing.
fn empty_sets(alloc: Global, count: usize) -> Result<Vec<RegSet>, AllocError>
    ensures len { IfOk result (λ v. length v.items ≡ count) }
    ensures none { IfOk result (λ v. v.items ≡ map (λ n. []) (range_with_len 0 count)) }
{
    (0..count).map(|_| RegSet::empty()).collect(alloc)
}

/// The registers that the snippet of an edge names.
fn names_on(snips: &[Snippet], e: usize) -> RegSet
    requires { e < length snips.now }
    ensures { result ≡ named_on snips.now e }
{
    snips[e].names()
}

/// Adds to the set of a place.
fn add(all: &mut Vec<RegSet>, place: usize, more: RegSet)
    requires { place < length all.old.items }
    ensures len { length all.new.items ≡ length all.old.items }
    ensures gained { (p : ℕ) → Adds (In all.old.items p) (In all.new.items p)
        (λ x. (p ≡ place) × (has more x ≡ true)) }
{
    all[place] = all[place].union(more);
}
