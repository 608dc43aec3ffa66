//! The nodes of a flow graph, and where control goes among them.
ghost use Rattle.std.specs.Prelude.{◌≡◌, ◌<◌, false, length, map, slice_index_or, Some, IfOk, MatchOption};
ghost use Rattle.std.specs.List.{All};
ghost use Rattle.cfg_blocks.specs.Code.{IsBlockList};
ghost use Rattle.cfg_normal.specs.Graph.{directed, lands_of};
ghost use Rattle.cfg_normal.specs.Private.{is_from, AreTargetsIn, IsJumpOf};
ghost use Rattle.cfg_normal.specs.Landings.{IsLanding, IsNumbered};
ghost use Rattle.cfg_normal.specs.Opens.{is_copied, jumps_in, opens_of, Open};
ghost use Rattle.cfg_normal.specs.Code.{AreOpenIn, IsTableIn, jump_number};
ghost use Rattle.cfg_normal.specs.declared.Node.TheVariants.{Block};

use crate::landings::{LandingRule, has_copy, landing_of, lands_there};
use crate::opening::open_switches;
use crate::{Node, OpenSwitch};
use cfg_blocks::{BlockList, EdgeKind, Switch};
use eel_base::{BlockNo, NoMemory, Text, WordNo};
use std::alloc::Global;
use std::marker::Model;

/// The blocks of a text, its open switches, and what these say of each block.
#[derive(Drop)]
pub(crate) struct Nodes {
    pub(crate) blocks: BlockList,
    pub(crate) opens: Vec<OpenSwitch>,
    landings: Vec<LandingRule>,
}

impl Model for Nodes {
    ghost use Rattle.cfg_normal.specs.Landings.{AreNodes, NodeList};

    ghost Value = { NodeList };

    ghost view = { λ n. record { blocks = n.blocks.blocks; opens = n.opens.items } };

    ghost invariant = { λ n. AreNodes (record { blocks = n.blocks.blocks; opens = n.opens.items }) n.landings.items };
}

/// The nodes of a text that was cut into blocks, with these switches.
pub(crate) fn nodes_of(
    alloc: Global,
    text: &Text,
    blocks: &BlockList,
    switches: &[Switch],
) -> Result<Nodes, NoMemory>
    requires made { blocks.now.blocks.words ≡ length text.now.words }
    requires tables { All (IsTableIn text.now) switches.now }
    ensures nodes { IfOk result (λ n. n
        ≡ record { blocks = blocks.now.blocks; opens = opens_of text.now blocks.now switches.now }) }
    ensures list { IfOk result (λ n. IsBlockList blocks.now) }
    ensures opens { IfOk result (λ n. AreOpenIn blocks.now.blocks (opens_of text.now blocks.now switches.now)) }
{
    let _count = blocks.count();
    let (opens, landings) = open_switches(alloc, text, blocks, switches)?;
    let blocks = blocks.clone()?;
    Ok(Nodes {
        blocks,
        opens,
        landings,
    })
}

impl Nodes {
    // What is kept of a block.
    fn landing(&self, block: BlockNo) -> LandingRule
        requires { block.0 < length self.now.blocks.firsts }
        ensures landing { IsLanding self.now.opens block.0 result }
        ensures opens { AreOpenIn self.now.blocks self.now.opens }
    {
        landing_of(&self.landings, block)
    }

    /// The node at which control lands that comes to a word from outside. Its block is looked for near one.
    pub(crate) fn lands(&self, w: WordNo, near: BlockNo) -> Node
        requires { w.0 < self.now.blocks.words }
        ensures node { result ≡ lands_of self.now.blocks self.now.opens (Some w.0) }
        ensures numbered { IsNumbered (length self.now.blocks.firsts) result }
    {
        let block = self.blocks.holding_near(w, near);
        if lands_there(self.landing(block), w.0) {
            Node::Landed(block)
        } else {
            Node::Block(block)
        }
    }

    /// Whether the block has a landed copy.
    pub(crate) fn is_copied(&self, block: BlockNo) -> bool
        requires { block.0 < length self.now.blocks.firsts }
        ensures { result ≡ is_copied self.now.opens block.0 }
    {
        has_copy(self.landing(block))
    }

    /// The number of the open switch whose jump ends the block.
    pub(crate) fn jump_of(&self, block: BlockNo) -> Option<usize>
        requires { block.0 < length self.now.blocks.firsts }
        ensures number { result ≡ jump_number self.now.opens block.0 }
        ensures jump { MatchOption result (jumps_in self.now.opens block.0 ≡ false) (IsJumpOf self.now.opens block.0) }
        ensures opens { AreOpenIn self.now.blocks self.now.opens }
    {
        match self.landing(block) {
            LandingRule::Copied(number) => Some(number),
            _ => None,
        }
    }

    /// The words to which the entries lead of the open switch whose jump ends the block.
    pub(crate) fn jump_targets(&self, block: BlockNo) -> Option<&[WordNo]>
        requires { block.0 < length self.now.blocks.firsts }
        ensures { MatchOption result (jumps_in self.now.opens block.0 ≡ false) (λ targets.
            AreTargetsIn self.now.blocks self.now.opens block.0 (map (λ w. w.0) targets.now)) }
    {
        match self.jump_of(block) {
            Some(number) => Some(self.opens[number].targets()),
            None => None,
        }
    }

    // Whether an edge comes from the comparison of the open switch of this number, by its way.
    fn is_from(&self, number: usize, from: Node, kind: EdgeKind) -> bool
        requires { number < length self.now.opens }
        ensures { (d : Open) → result ≡ is_from (slice_index_or self.now.opens number d) from kind }
    {
        let found = &self.opens[number];
        match from {
            Node::Block(block) => found.switch().compare.0 == block.0 && kind == found.way(),
            _ => false,
        }
    }

    /// The node to which an edge into a block leads.
    pub(crate) fn directed(&self, from: Node, kind: EdgeKind, to: BlockNo) -> Node
        requires { to.0 < length self.now.blocks.firsts }
        ensures { result ≡ directed self.now.opens from kind (Block to) }
    {
        match self.jump_of(to) {
            Some(number) => {
                if self.is_from(number, from, kind) {
                    Node::Block(to)
                } else {
                    Node::Landed(to)
                }
            }
            None => Node::Block(to),
        }
    }
}
