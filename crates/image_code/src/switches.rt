//! The pieces of open switches, and of the entries of their tables.

ghost use Rattle.std.specs.Prelude.{◌≡◌, ℕ, ◌+◌, ◌-◌, ◌<◌, ◌≤◌, ◌++◌, ◌==◌, ◌^◌, length, map, nat_eq, slice_get, slice_index, Some, IfOk, OnOk};
ghost use Rattle.std.specs.List.{flat_map, position};
ghost use Rattle.std.specs.Option.{option_or};
ghost use Rattle.indexmap.specs.IndexMap.{get};
ghost use Rattle.cfg_blocks.specs.Blocks.{size_of};
ghost use Rattle.image_code.specs.Lookups.{number_where, open_begin};
ghost use Rattle.image_code.specs.Made.{case_shape, shape_of};
ghost use Rattle.image_code.specs.Labels.{case_numbers, cases_of, entry_label, entry_labels, first_entry, or_zero, place_in as place_in_of, switch_labels};
ghost use Rattle.image_code.specs.Private.{block_labels, pieces_for};
ghost use Rattle.cfg_normal.specs.declared.Node.TheVariants.{Block};

use crate::firsts::small;
use crate::maker::PieceMaker;
use crate::numbering::piece;
use crate::shape::{Shape, push_piece, save_address, unused};
use cfg_normal::{Node, OpenSwitch};
use eel_base::{BlockNo, NoMemory, PieceNo, WordNo};
use indexmap::IndexMap;
use layout::Piece;
use std::alloc::Global;

// ---- the first entries of tables

// Notes an entry, if it is the first that leads to its word.
fn note_entry(places: &mut IndexMap<u32, u32>, word: u32, entry: u32) -> Result<(), NoMemory>
    ensures { OnOk result ((other : ℕ) → get nat_eq places.new other
        ≡ option_or (get nat_eq places.old other) (number_where (word == other) entry)) }
{
    places.entry(word)?.or_insert(entry);
    Ok(())
}

// By words the first entries that lead there.
fn first_entries(alloc: Global, targets: &[WordNo]) -> Result<IndexMap<u32, u32>, NoMemory>
    ensures { IfOk result (λ places. (word : ℕ) → get nat_eq places word
        ≡ position (λ t. t == word) (map (λ w. w.0) targets.now)) }
{
    let mut places = IndexMap::new(alloc);
    for (entry, word) in targets.iter().enumerate() {
        note_entry(&mut places, word.0, small(entry as u64)?)?;
    }
    Ok(places)
}

fn place_in(places: &IndexMap<u32, u32>, word: u32) -> u32
    ensures { result ≡ or_zero (get nat_eq places.now word) }
{
    match places.get(&word) {
        Some(entry) => *entry,
        None => 0,
    }
}

impl PieceMaker<'_> {
    // ---- the blocks of open switches

    // Adds the pieces of a jump's block itself: the images of its words, and the words that keep the load's address
    // before that.
    fn push_block(
        &self,
        alloc: Global,
        list: &mut Vec<Piece>,
        block: BlockNo,
        load: u32,
    ) -> Result<(), NoMemory>
        requires block { block.0 < length self.now.graph.now.blocks.firsts }
        requires above { slice_index self.now.graph.now.blocks.firsts block.0 ≤ load }
        requires below { load
            < slice_index self.now.graph.now.blocks.firsts block.0 + size_of self.now.graph.now.blocks block.0 }
        ensures { OnOk result (list.new.items ≡ list.old.items
            ++ pieces_for self.now (block_labels self.now.graph.now block.0 load)) }
    {
        let node = Node::Block(block);
        let first = self.graph.first(block).0;
        let end = first + self.graph.words(block);
        self.push_images_at(alloc, list, node, first, load - first)?;
        push_piece(
            alloc,
            list,
            self.codes,
            save_address(self.text.word(WordNo(load))),
        )?;
        self.push_images_at(alloc, list, node, load, end - load)?;
        Ok(())
    }

    // Adds the pieces of the landed copy of the comparison's block, and of the block itself of the jump.
    fn push_open(
        &self,
        alloc: Global,
        list: &mut Vec<Piece>,
        number: usize,
        found: &OpenSwitch,
    ) -> Result<(), NoMemory>
        requires found { slice_get self.now.graph.now.opens number ≡ Some found.now }
        ensures { OnOk result (list.new.items ≡ list.old.items
            ++ pieces_for self.now (switch_labels self.now.text.now self.now.graph.now found.now)) }
    {
        let compare = found.switch().compare;
        let from = self.graph.first(compare).0;
        let count = self.graph.words(compare);
        self.push_images_at(alloc, list, Node::Landed(compare), from, count)?;
        let load = self.load(number);
        self.push_block(alloc, list, found.block(), load)?;
        Ok(())
    }

    /// Adds the pieces of open switches.
    pub(crate) fn push_opens(&self, alloc: Global, list: &mut Vec<Piece>) -> Result<(), NoMemory>
        ensures { OnOk result (list.new.items ≡ list.old.items
            ++ pieces_for self.now (flat_map (switch_labels self.now.text.now self.now.graph.now)
            self.now.graph.now.opens)) }
    {
        for (number, found) in self.graph.opens().iter().enumerate() {
            self.push_open(alloc, list, number, found)?;
        }
        Ok(())
    }

    // ---- the entries of tables

    // The way along the Case edge of a block to a word.
    fn case_by(&self, block: BlockNo, word: WordNo) -> Result<Shape, NoMemory>
        requires block { block.0 < length self.now.graph.now.blocks.firsts }
        requires word { word.0 < length self.now.text.now.words }
        ensures { IfOk result (λ p. p ≡ case_shape self.now.text.now self.now.graph.now self.now.table.0 block.0 word.0) }
    {
        let to = self.graph.lands(word);
        let Some(number) = self.case_edge(block, to) else {
            return Ok(unused());
        };
        match self.graph.edges().get(number as usize) {
            Some(edge) => self.way_by(number, edge, word),
            None => Ok(unused()),
        }
    }

    // The piece of an entry, where the entry at `place` is the first that leads to its word.
    fn case_piece(
        &self,
        found: &OpenSwitch,
        place: u32,
        entry: usize,
        word: WordNo,
    ) -> Result<Shape, NoMemory>
        requires block { found.now.block < length self.now.graph.now.blocks.firsts }
        requires place { place ≡ place_in_of found.now.targets word.0 }
        requires word { word.0 < length self.now.text.now.words }
        ensures { IfOk result (λ p. p ≡ shape_of self.now.text.now self.now.graph.now self.now.table.0 self.now.cases.0
            (entry_label found.now entry word.0)) }
    {
        if place as usize == entry {
            self.case_by(found.block(), word)
        } else {
            Ok(unused())
        }
    }

    // Adds the pieces of the entries of an open switch, and the numbers of those to which they lead.
    fn push_cases_of(
        &self,
        alloc: Global,
        list: &mut Vec<Piece>,
        numbers: &mut Vec<PieceNo>,
        number: usize,
        found: &OpenSwitch,
    ) -> Result<(), NoMemory>
        requires found { slice_get self.now.graph.now.opens number ≡ Some found.now }
        ensures list { OnOk result (list.new.items ≡ list.old.items
            ++ pieces_for self.now (entry_labels found.now)) }
        ensures numbers { OnOk result (map (λ (n : PieceNo). n.0) numbers.new.items
            ≡ map (λ (n : PieceNo). n.0) numbers.old.items
            ++ cases_of self.now.text.now self.now.graph.now found.now) }
    {
        let first = u64::from(self.behind()) + u64::from(self.entry(number));
        let places = first_entries(alloc, found.targets())?;
        self.push_entries(alloc, list, numbers, number, found, first, &places)?;
        Ok(())
    }

    // Adds the pieces of a switch's Case edges, which begin at `first`, by the first entries that lead to their words.
    fn push_entries(
        &self,
        alloc: Global,
        list: &mut Vec<Piece>,
        numbers: &mut Vec<PieceNo>,
        number: usize,
        found: &OpenSwitch,
        first: u64,
        places: &IndexMap<u32, u32>,
    ) -> Result<(), NoMemory>
        requires found { slice_get self.now.graph.now.opens number ≡ Some found.now }
        requires first { first ≡ open_begin self.now.text.now self.now.graph.now (length self.now.graph.now.opens)
            + first_entry self.now.text.now self.now.graph.now number }
        requires low { first < 2 ^ 33 }
        requires places { (word : ℕ) → get nat_eq places.now word ≡ position (λ t. t == word) found.now.targets }
        ensures list { OnOk result (list.new.items ≡ list.old.items
            ++ pieces_for self.now (entry_labels found.now)) }
        ensures numbers { OnOk result (map (λ (n : PieceNo). n.0) numbers.new.items
            ≡ map (λ (n : PieceNo). n.0) numbers.old.items
            ++ cases_of self.now.text.now self.now.graph.now found.now) }
    {
        for (entry, word) in found.targets().iter().enumerate() {
            let place = place_in(places, word.0);
            let number = piece(first + u64::from(place))?;
            numbers.push(number)?;
            let shape = self.case_piece(found, place, entry, *word)?;
            push_piece(alloc, list, self.codes, shape)?;
        }
        Ok(())
    }

    /// Adds the pieces of all entries, and answers their numbers.
    pub(crate) fn push_cases(
        &self,
        alloc: Global,
        list: &mut Vec<Piece>,
    ) -> Result<Vec<PieceNo>, NoMemory>
        ensures list { OnOk result (list.new.items ≡ list.old.items
            ++ pieces_for self.now (flat_map entry_labels self.now.graph.now.opens)) }
        ensures numbers { IfOk result (λ v. map (λ (n : PieceNo). n.0) v.items
            ≡ case_numbers self.now.text.now self.now.graph.now) }
    {
        let mut numbers = Vec::new(alloc);
        for (number, found) in self.graph.opens().iter().enumerate() {
            self.push_cases_of(alloc, list, &mut numbers, number, found)?;
        }
        Ok(numbers)
    }
}
