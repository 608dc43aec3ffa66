//! The new code of a program, and the tables that lead to it.
ghost use Rattle.std.specs.Prelude.{◌≡◌, ◌+◌, ◌-◌, ◌*◌, ◌%◌, ◌^◌, ◌<◌, ◌≤◌, ◌++◌, ℕ, length, map, slice_index, All, IfOk, OnOk};
ghost use Rattle.layout.specs.Laid.{ArePieces, long_bytes};
ghost use Rattle.edit_core.specs.Written.{addr, cells_size as cells_size_of, entry_number, table_after, tables_size as tables_size_of, whole_pages, AreTablesOf, TablesMatch};
ghost use Rattle.edit_core.specs.Private.{placement_in, AreInside, AreLaid, AreMade, HasRoom, IsBuilt};

use crate::addresses::{AddressMap, cells_size, tables_size};
use crate::requests::Request;
use crate::segments::zeros;
use addr_translate::{build, build_halves, table_size};
use cfg_normal::FlowGraph;
use eel_base::{Addr, NoMemory, PieceNo, Text};
use elf32_sparc::Image;
use elf32_write::put_words;
use image_code::{PieceList, pieces_with, snippet_code};
use layout::{LayoutFault, Piece, Placed, place};
use liveness::live;
use std::alloc::Global;

/// Code, where it is entered, and the bytes of the tables that lead to it.
#[derive(Drop)]
pub(crate) struct NewCode {
    pub placed: Placed,
    pub entry: Addr,
    pub tables: Vec<u8>,
}

/// The cells stand above a program's segments, the tables of the program behind them, and the images of its words right
/// behind those, where there is as much room as an edit asks for.
pub(crate) fn new_code(
    alloc: Global,
    image: &Image,
    graph: &FlowGraph,
    request: Request,
) -> Result<NewCode, NoMemory>
    requires { HasRoom image.now graph.now request }
    ensures built { IfOk result (λ new. IsBuilt image.now.text graph.now image.now.base request.cells
        request.snips.items (placement_in new.placed)) }
    ensures entry { IfOk result (λ new. new.entry.0 ≡ slice_index (placement_in new.placed).at
        (entry_number image.now.text graph.now image.now.entry)) }
    ensures leads { IfOk result (λ new.
        TablesMatch image.now.text graph.now request.snips.items (placement_in new.placed)
        (record { base = table_after image.now.base request.cells; bytes = new.tables.items })) }
{
    let cells = request.cells;
    let made = make_pieces(alloc, image, graph, request)?;
    let new = place_code(alloc, image, cells, &made)?;
    Ok(new)
}

// The pieces of a program's words, with snippets that take what is dead behind them.
fn make_pieces(
    alloc: Global,
    image: &Image,
    graph: &FlowGraph,
    request: Request,
) -> Result<PieceList, NoMemory>
    requires { HasRoom image.now graph.now request }
    ensures { IfOk result (λ made. AreMade image.now graph.now request made.list.items made.landing.items
        made.cases.items made.foreign made.entry) }
{
    let text = image.text();
    let addresses = AddressMap::above(image, request.cells).data_addresses(text);
    let live = live(alloc, text, graph, &request.snips)?;
    let code = snippet_code(alloc, text, graph, &request.snips, &live, addresses)?;
    drop(live);
    drop(request);
    let made = pieces_with(alloc, text, graph, image.entry(), code, addresses)?;
    Ok(made)
}

// Pieces that have room above a program, placed behind so many cells and the tables that lead to them.
fn place_code(
    alloc: Global,
    image: &Image,
    cells: u32,
    made: &PieceList,
) -> Result<NewCode, NoMemory>
    requires inside { AreInside (length made.now.list.items) made.now.landing.items made.now.cases.items
        made.now.foreign made.now.entry }
    requires pieces { ArePieces made.now.list.items }
    requires landing { length made.now.landing.items ≡ length image.now.text.words }
    requires cases { length made.now.cases.items ≤ 2 ^ 22 }
    requires cells { cells ≤ 2 ^ 23 }
    requires room { cells_size_of cells + (tables_size_of image.now.text
        + cells_size_of (length made.now.cases.items)) + long_bytes made.now.list.items ≤ image.now.room }
    requires base { image.now.base % 4096 ≡ 0 }
    requires low { image.now.base + image.now.room ≤ 2 ^ 31 }
    ensures laid { IfOk result (λ new. (p : ℕ → ℕ → ℕ)
        × AreLaid made.now.list.items (table_after image.now.base cells
        + (tables_size_of image.now.text + cells_size_of (length made.now.cases.items))) (placement_in new.placed) p) }
    ensures entry { IfOk result (λ new.
        new.entry.0 ≡ slice_index (placement_in new.placed).at made.now.entry.0) }
    ensures leads { IfOk result (λ new. AreTablesOf image.now.text
        (map (λ piece. addr (slice_index (placement_in new.placed).at piece.0)) made.now.landing.items)
        (addr (slice_index (placement_in new.placed).at made.now.foreign.0))
        (map (λ piece. slice_index (placement_in new.placed).at piece.0) made.now.cases.items)
        (record { base = table_after image.now.base cells; bytes = new.tables.items })) }
{
    let text = image.text();
    let addresses = AddressMap::above(image, cells);
    let size = segment_size(text, &made.cases);
    let placed = place_pieces(alloc, &made.list, addresses, image.room(), size)?;
    let targets = places_of(alloc, &placed.at, &made.landing)?;
    let foreign = place_of(&placed.at, made.foreign);
    let cases = words_of(alloc, &placed.at, &made.cases)?;
    let tables = tables_for(alloc, text, &targets, foreign, &cases, addresses.table())?;
    let entry = place_of(&placed.at, made.entry);
    Ok(NewCode {
        placed,
        entry,
        tables,
    })
}

// The table of all addresses, to stand at `base`, right behind it that of two levels, and then the words with the
// places of the pieces of Case edges.
fn tables_for(
    alloc: Global,
    text: &Text,
    targets: &[Addr],
    foreign: Addr,
    cases: &[u32],
    base: Addr,
) -> Result<Vec<u8>, NoMemory>
    requires targets { length targets.now ≡ length text.now.words }
    requires cases { length cases.now ≤ 2 ^ 22 }
    requires aligned { base.0 % 4096 ≡ 0 }
    requires room { base.0 + tables_size_of text.now + cells_size_of (length cases.now) ≤ 2 ^ 31 }
    ensures { IfOk result (λ v. AreTablesOf text.now targets.now foreign cases.now
        (record { base = base.0; bytes = v.items })) }
{
    let first = build(alloc, text, targets, foreign, base)?;
    let behind = Addr(base.0 + table_size(text));
    let second = build_halves(alloc, text, targets, foreign, behind)?;
    let mut tables = Vec::new(alloc);
    tables.extend_from_slice(first.bytes())?;
    tables.extend_from_slice(&second)?;
    put_pages(alloc, &mut tables, cases)?;
    Ok(tables)
}

// Adds words, and zeros up to a whole page.
fn put_pages(alloc: Global, out: &mut Vec<u8>, words: &[u32]) -> Result<(), NoMemory>
    requires { length words.now ≤ 2 ^ 22 }
    ensures { OnOk result (out.new.items ≡ out.old.items ++ whole_pages words.now) }
{
    let count = words.len() as u32;
    let zeros = zeros(alloc, cells_size(count) - 4 * count)?;
    put_words(out, words)?;
    out.extend_from_slice(&zeros)?;
    Ok(())
}

// How many bytes the tables have, with a word for each of these pieces.
fn segment_size(text: &Text, cases: &[PieceNo]) -> u32
    requires cases { length cases.now ≤ 2 ^ 22 }
    requires fits { tables_size_of text.now + cells_size_of (length cases.now) < 2 ^ 32 }
    ensures { result ≡ tables_size_of text.now + cells_size_of (length cases.now) }
{
    tables_size(text) + cells_size(cases.len() as u32)
}

// Pieces that need no more room than an edit asks for, placed behind tables of so many bytes.
fn place_pieces(
    alloc: Global,
    list: &[Piece],
    addresses: AddressMap,
    room: u32,
    size: u32,
) -> Result<Placed, NoMemory>
    requires pieces { ArePieces list.now }
    requires cells { addresses.cells ≤ 2 ^ 23 }
    requires whole { size % 4096 ≡ 0 }
    requires room { cells_size_of addresses.cells + size + long_bytes list.now ≤ room }
    requires base { addresses.base.0 % 4096 ≡ 0 }
    requires low { addresses.base.0 + room ≤ 2 ^ 31 }
    ensures { IfOk result (λ placed. (p : ℕ → ℕ → ℕ)
        × AreLaid list.now (table_after addresses.base.0 addresses.cells + size) (placement_in placed) p) }
{
    let code = addresses.code(size);
    let left = room - (code.0 - addresses.base.0);
    match place(alloc, list, code, left) {
        Ok(placed) => Ok(placed),
        Err(LayoutFault::Room { .. }) => unreachable!(),
        Err(LayoutFault::NoMemory) => Err(NoMemory),
    }
}

// Where pieces were placed.
fn places_of(alloc: Global, at: &[Addr], pieces: &[PieceNo]) -> Result<Vec<Addr>, NoMemory>
    requires { All (λ piece. piece.0 < length at.now) pieces.now }
    ensures { IfOk result (λ v. v.items
        ≡ map (λ piece. addr (slice_index (map (λ a. a.0) at.now) piece.0)) pieces.now) }
{
    let mut places = Vec::with_capacity(alloc, pieces.len())?;
    for piece in pieces {
        places.push(place_of(at, *piece))?;
    }
    Ok(places)
}

// The places of pieces as words.
fn words_of(alloc: Global, at: &[Addr], pieces: &[PieceNo]) -> Result<Vec<u32>, NoMemory>
    requires { All (λ piece. piece.0 < length at.now) pieces.now }
    ensures { IfOk result (λ v. v.items
        ≡ map (λ piece. slice_index (map (λ a. a.0) at.now) piece.0) pieces.now) }
{
    let mut words = Vec::with_capacity(alloc, pieces.len())?;
    for piece in pieces {
        words.push(place_of(at, *piece).0)?;
    }
    Ok(words)
}

// Where a piece was placed.
fn place_of(at: &[Addr], piece: PieceNo) -> Addr
    requires { piece.0 < length at.now }
    ensures { result ≡ addr (slice_index (map (λ a. a.0) at.now) piece.0) }
{
    at[piece.0 as usize]
}
