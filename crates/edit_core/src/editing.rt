//! The edit of a file.
ghost use Rattle.std.specs.Prelude.{◌≡◌, [], ◌∷◌, ◌++◌, ◌+◌, ◌*◌, ◌<◌, ◌≤◌, ◌^◌, length, map, All, IfErr, IfOk, None, OnOk};
ghost use Rattle.elf32_write.specs.Headers.{segment_seen};
ghost use Rattle.elf32_write.specs.Laws.{AreBytes};
ghost use Rattle.elf32_sparc.specs.FileFault.{fault};
ghost use Rattle.cfg_blocks.specs.Marks.{numbers};
ghost use Rattle.cfg_view.specs.View.{view_of};
ghost use Rattle.cfg_view.specs.Code.{view_seen};
ghost use Rattle.tool_kit.specs.Code.{IsPlanOf};
ghost use Rattle.tool_kit.specs.Plans.{Plan};
ghost use Rattle.edit_core.specs.Taken.{CanEdit};
ghost use Rattle.edit_core.specs.declared.requests.EditFault.TheVariants as faults;
ghost use Rattle.edit_core.specs.Code.{EditRefuses, IsEdited, AsksOf, CountsEdges};
ghost use Rattle.edit_core.specs.Faithful.{AreCounted};
ghost use Rattle.edit_core.specs.Outwardly.{DoesTheSame};
ghost use Rattle.edit_core.specs.Written.{cells_at, code_at, if_any, page_segment as page_segment_of, table_after, table_at, CanDo, IsTheEdit, IsWorkable, IsWritten};
ghost use Rattle.edit_core.specs.Private.{plan_of, IsViewOf};

use crate::addresses::AddressMap;
use crate::building::{NewCode, new_code};
use crate::noting::notes;
use crate::requests::{EditFault, Request, bound};
use crate::segments::{cells_segment, code_segment, page_segment, tables_segment};
use cfg_normal::FlowGraph;
use cfg_view::{View, look};
use eel_base::NoMemory;
use elf32_sparc::Image;
use elf32_write::{NewSegment, write_around};
use notes::write_notes;
use std::alloc::Global;
use tool_kit::{Chooser, Tool, snips};

/// Edits a file with a tool: the written file does what the original does, and on each edge that its run completes it
/// carries out the snippet that the tool asks for. The snippets of a profile must be counters.
pub fn edit_bytes<F: Chooser>(
    alloc: Global,
    bytes: &[u8],
    tool: &Tool<F>,
) -> Result<Vec<u8>, EditFault>
    requires limit { length bytes.now ≤ 2 ^ 26 }
    requires counters { CountsEdges F.says tool.now bytes.now }
    ensures refused { IfErr result (EditRefuses bytes.now (AsksOf F.says tool.now bytes.now)) }
    ensures edited { IfOk result (λ file. (plan : Plan) × AsksOf F.says tool.now bytes.now plan
        × CanEdit bytes.now plan × IsEdited bytes.now plan file.items × IsTheEdit bytes.now plan file.items) }
    ensures same { IfOk result (λ file. DoesTheSame bytes.now file.items) }
{
    let view = look(alloc, bytes, tool.marks())?;
    edit_view(alloc, bytes, &view, tool)
}

/// Edits a file without a fault, of which there is a view with the marks of the tool.
pub fn edit_view<F: Chooser>(
    alloc: Global,
    bytes: &[u8],
    view: &View,
    tool: &Tool<F>,
) -> Result<Vec<u8>, EditFault>
    requires limit { length bytes.now ≤ 2 ^ 26 }
    requires sound { fault bytes.now ≡ None }
    requires view { view_seen view.now ≡ view_of bytes.now (numbers tool.now.marks) }
    requires counters { CountsEdges F.says tool.now bytes.now }
    ensures refused { IfErr result (EditRefuses bytes.now (AsksOf F.says tool.now bytes.now)) }
    ensures edited { IfOk result (λ file. (plan : Plan) × AsksOf F.says tool.now bytes.now plan
        × CanEdit bytes.now plan × IsEdited bytes.now plan file.items × IsTheEdit bytes.now plan file.items) }
    ensures same { IfOk result (λ file. DoesTheSame bytes.now file.items) }
{
    let request = ask(alloc, tool, &view.graph)?;
    let text = view.image.text();
    let needed = bound(
        alloc,
        text,
        &view.graph,
        request.kind,
        request.cells,
        &request.snips,
    )?;
    keep_room(needed, u64::from(view.image.room()))?;
    let file = write_edit(alloc, bytes, &view.image, &view.graph, tool, request)?;
    Ok(file)
}

// Refuses an edit that needs more room than there is.
fn keep_room(needed: u64, had: u64) -> Result<(), EditFault>
    ensures room { OnOk result (needed ≤ had) }
    ensures refused { IfErr result (λ fault. (fault ≡ faults.Room needed had) × (had < needed)) }
{
    if had < needed {
        return Err(EditFault::Room { needed, had });
    }
    Ok(())
}

// What a tool asks of a graph, where the snippets of a profile count edges.
fn ask<F: Chooser>(alloc: Global, tool: &Tool<F>, graph: &FlowGraph) -> Result<Request, NoMemory>
    requires { (plan : Plan) → IsPlanOf F.says tool.now graph.now.edges plan → AreCounted 2 plan }
    ensures plan { IfOk result (λ request.
        IsPlanOf F.says tool.now graph.now.edges (plan_of (numbers tool.now.marks) request)) }
    ensures work { IfOk result (λ request. IsWorkable graph.now request.kind request.cells request.snips.items) }
{
    Ok(Request {
        kind: tool.kind(),
        cells: tool.cells(),
        snips: snips(alloc, tool, graph)?,
    })
}

// The file that is written of a program.
fn write_edit<F: Chooser>(
    alloc: Global,
    bytes: &[u8],
    image: &Image,
    graph: &FlowGraph,
    tool: &Tool<F>,
    request: Request,
) -> Result<Vec<u8>, NoMemory>
    requires limit { length bytes.now ≤ 2 ^ 26 }
    requires asked { IsPlanOf F.says tool.now graph.now.edges (plan_of (numbers tool.now.marks) request) }
    requires view { IsViewOf bytes.now (plan_of (numbers tool.now.marks) request) image.now graph.now }
    requires can { CanEdit bytes.now (plan_of (numbers tool.now.marks) request) }
    requires work { CanDo bytes.now (plan_of (numbers tool.now.marks) request) }
    ensures { IfOk result (λ file. IsWritten bytes.now (plan_of (numbers tool.now.marks) request) file.items) }
{
    let addresses = AddressMap::above(image, request.cells);
    let NewCode {
        placed,
        entry,
        tables,
    } = new_code(alloc, image, graph, request)?;
    let added = added_segments(alloc, addresses, tables, &placed.code)?;
    let noted = notes(alloc, bytes, image, graph, tool, placed, &added)?;
    let notes = write_notes(alloc, &noted)?;
    drop(noted);
    let file = write_around(alloc, bytes, image, &added, entry, &notes)?;
    Ok(file)
}

// The segments of cells, if there are any, of the tables and of the code, and the editor's page.
fn added_segments(
    alloc: Global,
    addresses: AddressMap,
    tables: Vec<u8>,
    code: &[u32],
) -> Result<Vec<NewSegment>, NoMemory>
    requires few { addresses.cells ≤ 2 ^ 23 }
    requires low { table_after addresses.base.0 addresses.cells + length tables.items + 4 * length code.now ≤ 2 ^ 31 }
    ensures segments { IfOk result (λ v. map segment_seen v.items
        ≡ if_any addresses.cells (cells_at addresses.base.0 addresses.cells)
        ++ table_at (record { base = table_after addresses.base.0 addresses.cells; bytes = tables.items })
        ∷ code_at (table_after addresses.base.0 addresses.cells + length tables.items) code.now
        ∷ page_segment_of ∷ []) }
    ensures tables { OnOk result (AreBytes tables.items) }
    ensures code { OnOk result (All (λ word. word < 2 ^ 32) code.now) }
{
    let mut added = Vec::new(alloc);
    if addresses.cells > 0 {
        added.push(cells_segment(alloc, addresses.base, addresses.cells))?;
    }
    let above = addresses.code(tables.len() as u32);
    added.push(tables_segment(addresses.table(), tables))?;
    added.push(code_segment(alloc, above, code)?)?;
    added.push(page_segment(alloc)?)?;
    Ok(added)
}
