//! What is live behind the snippets of edges, and at words, where so much is live at places.
ghost use Rattle.std.specs.Prelude.{◌≡◌, ◌↔◌, ◌⊎◌, ℕ, ◌+◌, ◌<◌, ◌≤◌, true, length, slice_index, IfOk, OnOk};
ghost use Rattle.v8_decode.specs.declared.Part.{Part};
ghost use Rattle.v8_decode.specs.Parts.{has};
ghost use Rattle.flood.specs.Flood.{at};
ghost use Rattle.cfg_normal.specs.Code.{IsEdgeIn};
ghost use Rattle.liveness.specs.Live.{edge_at, HoldsIn};
ghost use Rattle.liveness.specs.Search.{first_in, last_in, nodes_from, AreFound, AreJoined, In, IsInside, IsOf, IsOnward, LivesAtLanding, LivesInCopy, LivesOnto, LivesThere};

use crate::chart::Chart;
use crate::effects::{beyond, edge_at, first_of, is_landing, is_outside, last_of};
use cfg_normal::{Edge, Node};
use eel_base::BlockNo;
use std::alloc::{AllocError, Global};
use v8_decode::RegSet;

impl Chart<'_> {
    /// For each edge what is live behind its snippet.
    pub(crate) fn edge_sets(
        &self,
        alloc: Global,
        sets: &[RegSet],
    ) -> Result<Vec<RegSet>, AllocError>
        requires found { AreFound self.now.graph.now self.now.places.now.marks.items sets.now }
        ensures len { IfOk result (λ v. length v.items ≡ length self.now.graph.now.edges) }
        ensures onward { IfOk result (λ v. (e : ℕ) → e < length self.now.graph.now.edges → (x : Part) →
            In v.items e x ↔ IsOnward self.now.graph.now (edge_at self.now.graph.now e) sets.now x) }
    {
        let count = self.graph.edges().len();
        let mut all = Vec::with_capacity(alloc, count)?;
        for e in 0..count {
            all.push(self.onward(sets, edge_at(self.graph, e)))?;
        }
        Ok(all)
    }

    /// What is live behind the snippet of an edge.
    fn onward(&self, sets: &[RegSet], edge: Edge) -> RegSet
        requires found { AreFound self.now.graph.now self.now.places.now.marks.items sets.now }
        requires edge { IsEdgeIn self.now.graph.now.blocks self.now.graph.now.opens edge }
        ensures { (x : Part) → (has result x ≡ true) ↔ IsOnward self.now.graph.now edge sets.now x }
    {
        let beyond = beyond(edge);
        if is_outside(edge.to) {
            return beyond;
        }
        beyond.union(self.live_there(sets, edge))
    }

    /// What is live where an edge goes on.
    fn live_there(&self, sets: &[RegSet], edge: Edge) -> RegSet
        requires found { AreFound self.now.graph.now self.now.places.now.marks.items sets.now }
        requires to { IsInside self.now.graph.now edge.to }
        ensures { (x : Part) → (has result x ≡ true) ↔ LivesThere self.now.graph.now edge sets.now x }
    {
        if is_landing(edge.kind) {
            return self.live_onto(sets, edge.to);
        }
        let place = self.place(edge.to, first_of(self.graph, edge.to));
        sets[place as usize]
    }

    /// What is live where control lands in a node.
    fn live_onto(&self, sets: &[RegSet], node: Node) -> RegSet
        requires found { AreFound self.now.graph.now self.now.places.now.marks.items sets.now }
        requires node { IsInside self.now.graph.now node }
        ensures { (x : Part) → (has result x ≡ true) ↔ LivesOnto self.now.graph.now node sets.now x }
    {
        if self.has_node(node) {
            return sets[self.node(node) as usize];
        }
        self.live_among(sets, node)
    }

    /// What is live where control lands in a node, gathered from the words at which it may land.
    fn live_among(&self, sets: &[RegSet], node: Node) -> RegSet
        requires found { AreFound self.now.graph.now self.now.places.now.marks.items sets.now }
        requires node { IsInside self.now.graph.now node }
        ensures { (x : Part) → (has result x ≡ true) ↔ LivesOnto self.now.graph.now node sets.now x }
    {
        let mut live = RegSet::empty();
        for word in first_of(self.graph, node)..last_of(self.graph, node) + 1 {
            live = live.union(self.live_landing(sets, node, word));
        }
        live
    }

    /// What is live at a word of a node, if control lands there.
    fn live_landing(&self, sets: &[RegSet], node: Node, word: u32) -> RegSet
        requires found { AreFound self.now.graph.now self.now.places.now.marks.items sets.now }
        requires of { IsOf self.now.graph.now node word }
        ensures { (x : Part) → (has result x ≡ true) ↔ LivesAtLanding self.now.graph.now node sets.now word x }
    {
        if self.lands_at(node, word) {
            sets[self.place(node, word) as usize]
        } else {
            RegSet::empty()
        }
    }

    /// For each word what is live at it, in its block or in the copy of that.
    pub(crate) fn word_sets(
        &self,
        alloc: Global,
        mut sets: Vec<RegSet>,
    ) -> Result<Vec<RegSet>, AllocError>
        requires found { AreFound self.now.graph.now self.now.places.now.marks.items sets.items }
        ensures { IfOk result (λ v. AreJoined self.now.graph.now sets.items self.now.graph.now.blocks.words v.items) }
    {
        if self.places.nodes == self.text.len() {
            sets.truncate(self.text.len() as usize);
            return Ok(sets);
        }
        let mut words = Vec::with_capacity(alloc, self.text.len() as usize)?;
        self.join_blocks(&mut words, &sets)?;
        Ok(words)
    }

    /// For those of all blocks.
    fn join_blocks(&self, words: &mut Vec<RegSet>, sets: &[RegSet]) -> Result<(), AllocError>
        requires none { length words.old.items ≡ 0 }
        requires found { AreFound self.now.graph.now self.now.places.now.marks.items sets.now }
        ensures { OnOk result (AreJoined self.now.graph.now sets.now self.now.graph.now.blocks.words words.new.items) }
    {
        for block in 0..self.graph.count() {
            self.join_block(words, sets, BlockNo(block))?;
        }
        Ok(())
    }

    /// For those of a block.
    fn join_block(
        &self,
        words: &mut Vec<RegSet>,
        sets: &[RegSet],
        block: BlockNo,
    ) -> Result<(), AllocError>
        requires found { AreFound self.now.graph.now self.now.places.now.marks.items sets.now }
        requires block { block.0 < length self.now.graph.now.blocks.firsts }
        requires words { AreJoined self.now.graph.now sets.now (first_in self.now.graph.now (Node.Block block))
            words.old.items }
        ensures { OnOk result (AreJoined self.now.graph.now sets.now
            (last_in self.now.graph.now (Node.Block block) + 1) words.new.items) }
    {
        let node = Node::Block(block);
        for word in first_of(self.graph, node)..last_of(self.graph, node) + 1 {
            words.push(self.live_at(sets, block, word))?;
        }
        Ok(())
    }

    /// What is live at a word of a block, or of its copy.
    fn live_at(&self, sets: &[RegSet], block: BlockNo, word: u32) -> RegSet
        requires found { AreFound self.now.graph.now self.now.places.now.marks.items sets.now }
        requires holds { HoldsIn self.now.graph.now block.0 word }
        requires low { word < nodes_from self.now.graph.now }
        ensures { (x : Part) → (has result x ≡ true)
            ↔ (In sets.now word x ⊎ LivesInCopy self.now.graph.now sets.now word x) }
    {
        let here = sets[word as usize];
        if self.graph.is_copied(block) {
            here.union(sets[self.place(Node::Landed(block), word) as usize])
        } else {
            here
        }
    }
}
