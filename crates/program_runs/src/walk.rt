//! The walk of a program's run over its flow graph, as notes have the graph: one step at a time, and shared with no
//! analysis of the editor's.
use crate::job::Refusal;
use eel_base::{Addr, MemSink, WordNo};
use elf32_sparc::read_image;
use notes::Notes;
use std::alloc::Global;
use v8_alu::{Codes, holds};
use v8_decode::{AluOp, Cond, Instr, decode};
use v8_process::load;
use v8_runner::run;
use v8_step::Machine;

/// How many bytes a program may put out.
const OUTPUT_LIMIT: usize = 64 << 10;

// The kinds of edges, by their numbers in notes.
const FALL: u32 = 0;

const TAKEN: u32 = 1;

const UNTAKEN: u32 = 2;

const CALL: u32 = 3;

const OUT: u32 = 4;

const LAND: u32 = 5;

const CASE: u32 = 6;

/// The condition of `ba`.
const ALWAYS: u8 = 8;

/// A program that is run a step at a time.
#[derive(Drop)]
pub struct Runs {
    pub machine: Machine,
    out: MemSink,
    err: MemSink,
}

impl Runs {
    pub fn new(alloc: Global, file: &[u8], input: &[u8]) -> Result<Runs, Refusal> {
        let machine = load(alloc, file, &[], Vec::from_slice(alloc, input)?)?;
        let out = MemSink::new(alloc, OUTPUT_LIMIT, Vec::new(alloc))?;
        let err = MemSink::new(alloc, OUTPUT_LIMIT, Vec::new(alloc))?;
        Ok(Runs { machine, out, err })
    }

    pub fn step(&mut self) {
        run(&mut self.machine, 1, &mut self.out, &mut self.err);
    }
}

/// A program's run, the node in which its walk stands, and how often the walk has gone along each edge.
#[derive(Drop)]
pub struct Walk {
    pub run: Runs,
    pub counts: Vec<u64>,
    text: Vec<u32>,
    node: u32,
    /// Within a delay slot the kind of the edge that ends behind it.
    slot: Option<u32>,
}

impl Walk {
    pub fn new(
        alloc: Global,
        program: &[u8],
        input: &[u8],
        notes: &Notes,
    ) -> Result<Walk, Refusal> {
        let image = read_image(alloc, program)?;
        let mut text = Vec::new(alloc);
        for number in 0..image.text().len() {
            text.push(image.text().word(WordNo(number)))?;
        }
        Ok(Walk {
            run: Runs::new(alloc, program, input)?,
            counts: vec![in alloc; 0; notes.edges.len()]?,
            text,
            node: notes.entry,
            slot: None,
        })
    }

    /// Makes a step of the run, and goes along the edges that it completes.
    pub fn step(&mut self, notes: &Notes) {
        let at = self.run.machine.pc();
        let codes = self.run.machine.codes();
        self.run.step();
        if self.run.machine.ending().is_none() {
            match self.slot.take() {
                Some(kind) => self.leave_slot(notes, kind),
                None => self.leave_word(notes, at, codes),
            }
        }
    }

    /// Goes along the first edge of this kind from here, to a node where one is named.
    fn along(&mut self, notes: &Notes, kind: u32, to: Option<u32>) {
        for (edge, count) in notes.edges.iter().zip(self.counts.iter_mut()) {
            if edge.from == self.node && edge.kind == kind && to.unwrap_or(edge.to) == edge.to {
                *count = count.saturating_add(1);
                self.node = edge.to;
                return;
            }
        }
    }

    /// A delay slot was run: its edge is completed, and behind a jump into the text the landing. A jump that has edges for
    /// cases goes along one of these.
    fn leave_slot(&mut self, notes: &Notes, kind: u32) {
        let landed = self.landed(notes);
        if kind == OUT && has_cases(notes, self.node) {
            self.along(notes, CASE, landed);
            return;
        }
        self.along(notes, kind, None);
        if kind == OUT && landed.is_some() {
            self.along(notes, LAND, landed);
        }
    }

    /// Where the run stands in the text, the node at which a landing there goes on: the landed copy of the block, if it has
    /// one, but for the words of a comparison's block up to the comparison.
    fn landed(&self, notes: &Notes) -> Option<u32> {
        let word = word_at(notes, self.run.machine.pc())?;
        let block = node_of(notes, Some(word));
        let copy = copy_of(notes, block);
        if is_node(notes, copy)
            && (has_cases(notes, block) || !self.is_compared_from(notes, word))
        {
            Some(copy)
        } else {
            Some(block)
        }
    }

    /// Whether a comparison stands in the block of a word, from there on.
    fn is_compared_from(&self, notes: &Notes, word: u32) -> bool {
        let block = node_of(notes, Some(word));
        for next in word..notes.words {
            if node_of(notes, Some(next)) != block {
                return false;
            }
            if compares(self.text.get(next as usize)) {
                return true;
            }
        }
        false
    }

    /// An instruction outside delay slots was run.
    fn leave_word(&mut self, notes: &Notes, at: Addr, codes: Codes) {
        let word = word_at(notes, at).and_then(|word| self.text.get(word as usize));
        match decode(word.copied().unwrap_or(0)) {
            Instr::Branch { cond, annul, .. } => self.leave_branch(notes, cond, annul, codes),
            Instr::Call { .. } => self.slot = Some(CALL),
            Instr::Jmpl { .. } => self.slot = Some(OUT),
            _ => {
                let next = Addr(at.0.wrapping_add(4));
                if node_of(notes, word_at(notes, at)) != node_of(notes, word_at(notes, next)) {
                    self.along(notes, FALL, None);
                }
            }
        }
    }

    /// A branch was run; where it annulled its slot, its edge is completed at once.
    fn leave_branch(&mut self, notes: &Notes, cond: Cond, annul: bool, codes: Codes) {
        let taken = holds(cond, codes);
        let kind = if taken { TAKEN } else { UNTAKEN };
        if annul && (cond.number() == ALWAYS || !taken) {
            self.along(notes, kind, None);
        } else {
            self.slot = Some(kind);
        }
    }
}

/// SUBcc.
fn compares(word: Option<&u32>) -> bool {
    match decode(word.copied().unwrap_or(0)) {
        Instr::Alu { op, cc, .. } => op == AluOp::SUB && cc,
        _ => false,
    }
}

/// Whether a node has edges for cases.
fn has_cases(notes: &Notes, node: u32) -> bool {
    notes
        .edges
        .iter()
        .any(|edge| edge.from == node && edge.kind == CASE)
}

/// The landed copy of a block.
fn copy_of(notes: &Notes, block: u32) -> u32 {
    node_of(notes, None).wrapping_add(1).wrapping_add(block)
}

/// Whether an edge or a place has the node.
fn is_node(notes: &Notes, node: u32) -> bool {
    notes
        .edges
        .iter()
        .any(|edge| edge.from == node || edge.to == node)
        || notes.ranges.iter().any(|range| range.node == node)
}

/// The word of the text at an address.
fn word_at(notes: &Notes, address: Addr) -> Option<u32> {
    let distance = address.0.checked_sub(notes.start)?;
    if distance % 4 == 0 && distance / 4 < notes.words {
        Some(distance / 4)
    } else {
        None
    }
}

/// The block that holds a word, or the node after the blocks.
fn node_of(notes: &Notes, word: Option<u32>) -> u32 {
    let blocks = notes.blocks.len();
    let node = match word {
        Some(word) => notes
            .blocks
            .iter()
            .filter(|first| **first <= word)
            .count()
            .saturating_sub(1),
        None => blocks,
    };
    u32::try_from(node).unwrap_or(u32::MAX)
}
