//! From which place control may go to which, and what isn't live before since it is written on the way.
ghost use Rattle.std.specs.Prelude.{◌≡◌, ◌+◌, ◌*◌, ◌<◌, ◌≤◌, length, IfOk, OnOk};
ghost use Rattle.std.specs.List.{Contains};
ghost use Rattle.cfg_normal.specs.Code.{IsEdgeIn};
ghost use Rattle.liveness.specs.Live.{edge_at, is_outside};
ghost use Rattle.liveness.specs.Search.{edge_link, first_in, landing_link, last_in, next_link, target_of, Adds, AreLinksOf, Between, IsInside, IsOf, LinksAlong, LinksAlongAny, LinksIn, LinksInAny, LinksLanding, LinksNext, LinksOnto, LinksOntoAny, LinksOntoBlock};

use crate::chart::Chart;
use crate::effects::{edge_at, first_of, instr_at, is_landing, is_outside, last_of, slot_writes};
use cfg_normal::{Edge, Node};
use eel_base::BlockNo;
use flood::Link;
use std::alloc::{AllocError, Global};
use v8_decode::{RegSet, writes};

impl Chart<'_> {
    /// From each place to those that may come next, past a slot or none.
    pub(crate) fn all_links(&self, alloc: Global) -> Result<Vec<Link>, AllocError>
        ensures links { IfOk result (λ links.
            AreLinksOf self.now.text.now self.now.graph.now self.now.places.now.marks.items links.items) }
        ensures few { IfOk result (λ links.
            length links.items ≤ 4 * self.now.graph.now.blocks.words + length self.now.graph.now.edges) }
    {
        let most = self.places.nodes as usize + self.graph.edges().len();
        let mut links = Vec::with_capacity(
            alloc,
            most.saturating_sub(2 * self.graph.count() as usize),
        )?;
        self.link_blocks(&mut links)?;
        self.link_edges(&mut links)?;
        self.link_landings(&mut links)?;
        Ok(links)
    }

    /// Within each block and copy.
    fn link_blocks(&self, links: &mut Vec<Link>) -> Result<(), AllocError>
        ensures added { OnOk result (Adds (Contains links.old.items) (Contains links.new.items)
            (LinksInAny self.now.text.now self.now.graph.now)) }
        ensures few { OnOk result (length links.new.items
            ≤ length links.old.items + 2 * self.now.graph.now.blocks.words) }
    {
        for block in 0..self.graph.count() {
            self.link_block(links, BlockNo(block))?;
        }
        Ok(())
    }

    /// Within a block, and within its copy.
    fn link_block(&self, links: &mut Vec<Link>, block: BlockNo) -> Result<(), AllocError>
        requires block { block.0 < length self.now.graph.now.blocks.firsts }
        ensures added { OnOk result (Adds (Contains links.old.items) (Contains links.new.items)
            (LinksIn self.now.text.now self.now.graph.now block.0)) }
        ensures few { OnOk result (length links.new.items + 2 * first_in self.now.graph.now (Node.Block block)
            ≤ length links.old.items + 2 * (last_in self.now.graph.now (Node.Block block) + 1)) }
    {
        self.link_node(links, Node::Block(block))?;
        if self.graph.is_copied(block) {
            self.link_node(links, Node::Landed(block))?;
        }
        Ok(())
    }

    /// From each word of a node but the last to the next.
    fn link_node(&self, links: &mut Vec<Link>, node: Node) -> Result<(), AllocError>
        requires node { IsInside self.now.graph.now node }
        ensures added { OnOk result (Adds (Contains links.old.items) (Contains links.new.items)
            (LinksNext self.now.text.now self.now.graph.now node)) }
        ensures few { OnOk result (length links.new.items + first_in self.now.graph.now node
            ≤ length links.old.items + last_in self.now.graph.now node) }
    {
        for word in first_of(self.graph, node)..last_of(self.graph, node) {
            links.push(self.link_next(node, word))?;
        }
        Ok(())
    }

    /// From a word to the next: what it writes isn't live before.
    fn link_next(&self, node: Node, word: u32) -> Link
        requires word { word < length self.now.text.now.words }
        requires of { IsOf self.now.graph.now node word }
        requires next { IsOf self.now.graph.now node (word + 1) }
        ensures { result ≡ next_link self.now.text.now self.now.graph.now node word }
    {
        Link {
            from: self.place(node, word),
            to: self.place(node, word + 1),
            kills: writes(instr_at(self.text, word)),
        }
    }

    /// Along each edge.
    fn link_edges(&self, links: &mut Vec<Link>) -> Result<(), AllocError>
        ensures added { OnOk result (Adds (Contains links.old.items) (Contains links.new.items)
            (LinksAlongAny self.now.text.now self.now.graph.now)) }
        ensures few { OnOk result (length links.new.items ≤ length links.old.items + length self.now.graph.now.edges) }
    {
        for e in 0..self.graph.edges().len() {
            self.link_edge(links, edge_at(self.graph, e))?;
        }
        Ok(())
    }

    /// Along an edge between nodes that have words.
    fn link_edge(&self, links: &mut Vec<Link>, edge: Edge) -> Result<(), AllocError>
        requires edge { IsEdgeIn self.now.graph.now.blocks self.now.graph.now.opens edge }
        ensures added { OnOk result (Adds (Contains links.old.items) (Contains links.new.items)
            (LinksAlong self.now.text.now self.now.graph.now edge)) }
        ensures few { OnOk result (length links.new.items ≤ length links.old.items + 1) }
    {
        if is_outside(edge.from) || is_outside(edge.to) {
            return Ok(());
        }
        links.push(self.link_along(edge))?;
        Ok(())
    }

    /// The link along an edge: what the last word before it or the slot writes isn't live before.
    fn link_along(&self, edge: Edge) -> Link
        requires edge { IsEdgeIn self.now.graph.now.blocks self.now.graph.now.opens edge }
        requires from { IsInside self.now.graph.now edge.from }
        requires to { IsInside self.now.graph.now edge.to }
        ensures { result ≡ edge_link self.now.text.now self.now.graph.now edge }
    {
        let last = last_of(self.graph, edge.from);
        Link {
            from: self.place(edge.from, last),
            to: self.target(edge),
            kills: writes(instr_at(self.text, last)).union(slot_writes(self.text, edge.slot)),
        }
    }

    /// The place at which an edge goes on: its node's, or that of the first word there.
    fn target(&self, edge: Edge) -> u32
        requires to { IsInside self.now.graph.now edge.to }
        ensures { result ≡ target_of self.now.graph.now edge }
    {
        if is_landing(edge.kind) {
            self.node(edge.to)
        } else {
            self.place(edge.to, first_of(self.graph, edge.to))
        }
    }

    /// From the place of each node that has one to the words that land there.
    fn link_landings(&self, links: &mut Vec<Link>) -> Result<(), AllocError>
        ensures added { OnOk result (Adds (Contains links.old.items) (Contains links.new.items)
            (LinksOntoAny self.now.graph.now self.now.places.now.marks.items)) }
        ensures few { OnOk result (length links.new.items
            ≤ length links.old.items + 2 * self.now.graph.now.blocks.words) }
    {
        for block in 0..self.graph.count() {
            self.link_onto_block(links, BlockNo(block))?;
        }
        Ok(())
    }

    /// Of a block, and of its copy.
    fn link_onto_block(&self, links: &mut Vec<Link>, block: BlockNo) -> Result<(), AllocError>
        requires block { block.0 < length self.now.graph.now.blocks.firsts }
        ensures added { OnOk result (Adds (Contains links.old.items) (Contains links.new.items)
            (LinksOntoBlock self.now.graph.now self.now.places.now.marks.items block.0)) }
        ensures few { OnOk result (length links.new.items + 2 * first_in self.now.graph.now (Node.Block block)
            ≤ length links.old.items + 2 * (last_in self.now.graph.now (Node.Block block) + 1)) }
    {
        self.link_onto(links, Node::Block(block))?;
        if self.graph.is_copied(block) {
            self.link_onto(links, Node::Landed(block))?;
        }
        Ok(())
    }

    /// Of a node.
    fn link_onto(&self, links: &mut Vec<Link>, node: Node) -> Result<(), AllocError>
        requires node { IsInside self.now.graph.now node }
        ensures added { OnOk result (Adds (Contains links.old.items) (Contains links.new.items)
            (LinksOnto self.now.graph.now self.now.places.now.marks.items node)) }
        ensures few { OnOk result (length links.new.items + first_in self.now.graph.now node
            ≤ length links.old.items + last_in self.now.graph.now node + 1) }
    {
        if self.has_node(node) {
            self.link_words(links, node)?;
        }
        Ok(())
    }

    /// From the place of a node to the words that land there.
    fn link_words(&self, links: &mut Vec<Link>, node: Node) -> Result<(), AllocError>
        requires node { IsInside self.now.graph.now node }
        ensures added { OnOk result (Adds (Contains links.old.items) (Contains links.new.items)
            (Between (LinksLanding self.now.graph.now node)
            (first_in self.now.graph.now node) (last_in self.now.graph.now node + 1))) }
        ensures few { OnOk result (length links.new.items + first_in self.now.graph.now node
            ≤ length links.old.items + last_in self.now.graph.now node + 1) }
    {
        for word in first_of(self.graph, node)..last_of(self.graph, node) + 1 {
            self.link_word(links, node, word)?;
        }
        Ok(())
    }

    /// To a word, if it lands there.
    fn link_word(&self, links: &mut Vec<Link>, node: Node, word: u32) -> Result<(), AllocError>
        requires of { IsOf self.now.graph.now node word }
        ensures added { OnOk result (Adds (Contains links.old.items) (Contains links.new.items)
            (LinksLanding self.now.graph.now node word)) }
        ensures few { OnOk result (length links.new.items ≤ length links.old.items + 1) }
    {
        if self.lands_at(node, word) {
            links.push(self.link_landing(node, word))?;
        }
        Ok(())
    }

    /// From the place of a node to a word.
    fn link_landing(&self, node: Node, word: u32) -> Link
        requires of { IsOf self.now.graph.now node word }
        ensures { result ≡ landing_link self.now.graph.now node word }
    {
        Link {
            from: self.node(node),
            to: self.place(node, word),
            kills: RegSet::empty(),
        }
    }
}
