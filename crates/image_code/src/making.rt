//! The pieces of a text.

ghost use Rattle.addr_translate.specs.Table.{size_of as table_size_of};
ghost use Rattle.std.specs.Prelude.{◌≡◌, ℕ, ◌+◌, ◌^◌, ◌<◌, ◌≤◌, ◌%◌, [], length, map, Some, All, IfOk, OnOk};
ghost use Rattle.cfg_blocks.specs.Blocks.{below};
ghost use Rattle.cfg_normal.specs.Graph.{node_of};
ghost use Rattle.image_code.specs.Codes.{CodeDoes};
ghost use Rattle.image_code.specs.Graphs.{IsGraphOf};
ghost use Rattle.image_code.specs.Made.{jumps_at, lands_at, piece_list};
ghost use Rattle.image_code.specs.Labels.{case_numbers, enter_number, foreign_number as foreign_number_of};
ghost use Rattle.image_code.specs.Lookups.{AreFound};
ghost use Rattle.image_code.specs.Private.{code_at, code_in};
ghost use Rattle.image_code.specs.SnippetWords.{codes_of as codes_in};
ghost use Rattle.liveness.specs.Sets.{dead_on};
ghost use Rattle.snippet_code.specs.Laws.{EndLow};

use crate::expansion::{Codes, codes_of};
use crate::lookups::{Lookups, lookups_of};
use crate::maker::PieceMaker;
use crate::shape::{Exit, bare, push_piece};
use addr_translate::table_size;
use cfg_normal::{FlowGraph, Node};
use eel_base::{Addr, NoMemory, PieceNo, Text, WordNo};
use layout::Piece;
use liveness::LiveSets;
use snippets::Snippet;
use std::alloc::Global;

/// Where the data stands that new code uses.
#[derive(Clone, Copy)]
pub struct DataAddresses {
    /// The first cell.
    pub cells: Addr,
    /// The table from addresses of the original to addresses of new code. The jumps' table of two levels follows it.
    pub table: Addr,
    /// The words with the addresses of the Case edges' pieces, one for each entry of each open switch's table.
    pub cases: Addr,
}

/// The pieces that a text becomes.
#[derive(Drop)]
pub struct PieceList {
    pub list: Vec<Piece>,
    /// For each word of the text, the piece to which the table leads its address.
    pub landing: Vec<PieceNo>,
    /// The piece at which the written program starts.
    pub entry: PieceNo,
    /// The piece to which the table leads each address outside the text.
    pub foreign: PieceNo,
    /// For each entry of each open switch's table, the piece of its Case edge.
    pub cases: Vec<PieceNo>,
}

/// What the pieces of a text take of its edges' snippets: their code, and where the table leads.
#[derive(Drop)]
pub struct SnippetCode {
    codes: Codes,
    lookups: Lookups,
    landing: Vec<PieceNo>,
}

// Where the jumps' table stands: behind the other one.
fn jumps_of(text: &Text, table: Addr) -> Addr
    requires { table.0 + table_size_of text.now ≤ 2 ^ 31 }
    ensures { result.0 ≡ jumps_at text.now table.0 }
{
    Addr(table.0 + table_size(text))
}

impl PieceMaker<'_> {
    // Adds all pieces to an empty list, and answers the numbers of those of Case edges.
    fn push_all(&self, alloc: Global, list: &mut Vec<Piece>) -> Result<Vec<PieceNo>, NoMemory>
        requires empty { list.old.items ≡ [] }
        ensures list { OnOk result (list.new.items ≡ piece_list self.now.text.now self.now.graph.now self.now.table.0
            self.now.cases.0 (code_at self.now.codes.now)) }
        ensures cases { IfOk result (λ v. map (λ (n : PieceNo). n.0) v.items
            ≡ case_numbers self.now.text.now self.now.graph.now) }
    {
        self.push_images(alloc, list)?;
        self.push_ways(alloc, list)?;
        self.push_landings(alloc, list)?;
        self.push_opens(alloc, list)?;
        let cases = self.push_cases(alloc, list)?;
        push_piece(alloc, list, self.codes, bare(None, Exit::Foreign))?;
        Ok(cases)
    }

    // All pieces, and the numbers of those that the entry and tables lead to, where those for the words are known.
    fn pieces(
        &self,
        alloc: Global,
        landing: Vec<PieceNo>,
        entry: WordNo,
    ) -> Result<PieceList, NoMemory>
        requires entry { entry.0 < length self.now.text.now.words }
        ensures list { IfOk result (λ p. p.list.items ≡ piece_list self.now.text.now self.now.graph.now self.now.table.0
            self.now.cases.0 (code_at self.now.codes.now)) }
        ensures landing { IfOk result (λ p. p.landing ≡ landing) }
        ensures entry { IfOk result (λ p. p.entry.0 ≡ enter_number self.now.text.now self.now.graph.now
            (node_of self.now.graph.now.blocks (Some entry.0)) entry.0) }
        ensures foreign { IfOk result (λ p. p.foreign.0 ≡ foreign_number_of self.now.text.now self.now.graph.now) }
        ensures cases { IfOk result (λ p. map (λ (n : PieceNo). n.0) p.cases.items
            ≡ case_numbers self.now.text.now self.now.graph.now) }
    {
        let foreign = self.foreign()?;
        let mut list = Vec::with_capacity(alloc, foreign.0 as usize + 1)?;
        let cases = self.push_all(alloc, &mut list)?;
        let node = Node::Block(self.graph.holding(entry));
        Ok(PieceList {
            list,
            landing,
            entry: self.enter(node, entry)?,
            foreign,
            cases,
        })
    }
}

/// Makes of the snippets on a graph's edges, which may use what is dead behind them, all that their pieces take. So the
/// snippets and the live sets may go before the pieces come.
pub fn snippet_code(
    alloc: Global,
    text: &Text,
    graph: &FlowGraph,
    snips: &[Snippet],
    live: &LiveSets,
    addresses: DataAddresses,
) -> Result<SnippetCode, NoMemory>
    requires graph { IsGraphOf text.now graph.now }
    requires snips { length snips.now ≡ length graph.now.edges }
    requires aligned { addresses.cells.0 % 4 ≡ 0 }
    requires cells { All (λ ops. EndLow addresses.cells.0 ops) snips.now }
    requires low { addresses.table.0 + table_size_of text.now ≤ 2 ^ 31 }
    ensures words { IfOk result (λ code. (edge : ℕ)
        → code_in code edge ≡ codes_in addresses.cells.0 (dead_on live.now) snips.now edge) }
    ensures does { IfOk result (λ code. (edge : ℕ) → CodeDoes addresses.cells.0 (dead_on live.now) snips.now edge) }
    ensures found { IfOk result (λ code. AreFound text.now graph.now code.lookups) }
    ensures landing { IfOk result (λ code. map (λ (n : PieceNo). n.0) code.landing.items
        ≡ map (lands_at text.now graph.now snips.now) (below (length text.now.words))) }
{
    // The invariants of the text and of its graph.
    let _words = text.len();
    let _edges = graph.edges();
    let codes = codes_of(alloc, snips, live, addresses.cells)?;
    let lookups = lookups_of(alloc, text, graph)?;
    let maker = PieceMaker {
        text,
        graph,
        lookups: &lookups,
        codes: &codes,
        table: addresses.table,
        jumps: jumps_of(text, addresses.table),
        cases: addresses.cases,
    };
    let landing = maker.landings(alloc, snips)?;
    Ok(SnippetCode {
        codes,
        lookups,
        landing,
    })
}

/// Makes the pieces of new code that a text becomes, where what they take of the snippets was made before.
pub fn pieces_with<'a>(
    alloc: Global,
    text: &'a Text,
    graph: &'a FlowGraph,
    entry: WordNo,
    code: SnippetCode,
    addresses: DataAddresses,
) -> Result<PieceList, NoMemory>
    requires entry { entry.0 < length text.now.words }
    requires low { addresses.table.0 + table_size_of text.now ≤ 2 ^ 31 }
    requires found { AreFound text.now graph.now code.lookups }
    ensures list { IfOk result (λ p. p.list.items ≡ piece_list text.now graph.now addresses.table.0 addresses.cases.0
        (code_in code)) }
    ensures landing { IfOk result (λ p. p.landing ≡ code.landing) }
    ensures entry { IfOk result (λ p. p.entry.0
        ≡ enter_number text.now graph.now (node_of graph.now.blocks (Some entry.0)) entry.0) }
    ensures foreign { IfOk result (λ p. p.foreign.0 ≡ foreign_number_of text.now graph.now) }
    ensures cases { IfOk result (λ p. map (λ (n : PieceNo). n.0) p.cases.items ≡ case_numbers text.now graph.now) }
{
    let SnippetCode {
        codes,
        lookups,
        landing,
    } = code;
    let maker = PieceMaker {
        text,
        graph,
        lookups: &lookups,
        codes: &codes,
        table: addresses.table,
        jumps: jumps_of(text, addresses.table),
        cases: addresses.cases,
    };
    let pieces = maker.pieces(alloc, landing, entry)?;
    Ok(pieces)
}

/// Makes the pieces of new code that a text becomes. There are five kinds:
///
/// - an image for each word and each node whose block holds it: it carries the word out and falls through to the next
///   word's image. The image of a transfer only decides where control goes;
/// - a way along each edge that is no landing (along a Case edge, one for each entry of the table): a copy of the delay
///   slot, where the edge has one, and then the edge's snippet;
/// - a landing at each word: the snippet of the landing edge, and a jump to the word's image;
/// - for each open switch, the words that keep the address of its load, right before the load's image;
/// - the foreign piece, for every address outside the text.
pub fn pieces(
    alloc: Global,
    text: &Text,
    graph: &FlowGraph,
    entry: WordNo,
    snips: &[Snippet],
    live: &LiveSets,
    addresses: DataAddresses,
) -> Result<PieceList, NoMemory>
    requires graph { IsGraphOf text.now graph.now }
    requires entry { entry.0 < length text.now.words }
    requires snips { length snips.now ≡ length graph.now.edges }
    requires aligned { addresses.cells.0 % 4 ≡ 0 }
    requires cells { All (λ ops. EndLow addresses.cells.0 ops) snips.now }
    requires low { addresses.table.0 + table_size_of text.now ≤ 2 ^ 31 }
    ensures list { IfOk result (λ p. p.list.items ≡ piece_list text.now graph.now addresses.table.0 addresses.cases.0
        (codes_in addresses.cells.0 (dead_on live.now) snips.now)) }
    ensures codes { IfOk result (λ p. (edge : ℕ) → CodeDoes addresses.cells.0 (dead_on live.now) snips.now edge) }
    ensures landing { IfOk result (λ p. map (λ (n : PieceNo). n.0) p.landing.items
        ≡ map (lands_at text.now graph.now snips.now) (below (length text.now.words))) }
    ensures entry { IfOk result (λ p. p.entry.0
        ≡ enter_number text.now graph.now (node_of graph.now.blocks (Some entry.0)) entry.0) }
    ensures foreign { IfOk result (λ p. p.foreign.0 ≡ foreign_number_of text.now graph.now) }
    ensures cases { IfOk result (λ p. map (λ (n : PieceNo). n.0) p.cases.items ≡ case_numbers text.now graph.now) }
{
    let code = snippet_code(alloc, text, graph, snips, live, addresses)?;
    let made = pieces_with(alloc, text, graph, entry, code, addresses)?;
    Ok(made)
}
