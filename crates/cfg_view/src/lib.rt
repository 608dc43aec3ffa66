//! What an analysis of a program's file sees: its image, routines, blocks, flow graph and switches.
#![tactic(auto)]

ghost use Rattle.std.specs.Prelude.{◌≡◌, ◌<◌, ◌++◌, length, map, IfOk};
ghost use Rattle.std.specs.List.{All};
ghost use Rattle.elf32_sparc.specs.FileFault.{fault};
ghost use Rattle.elf32_sparc.specs.Code.{refusal};
ghost use Rattle.routines.specs.Routines.{routines_of};
ghost use Rattle.cfg_blocks.specs.Entries.{entered_of};
ghost use Rattle.cfg_blocks.specs.Marks.{numbers, AreWords};
ghost use Rattle.cfg_blocks.specs.Switches.{switches_of};
ghost use Rattle.cfg_normal.specs.Code.{IsTableIn};
ghost use Rattle.cfg_view.specs.View.{given_in, graph_with, marks_in, starts_of, view_of, view_with};
ghost use Rattle.cfg_view.specs.Code.{view_seen, IsView};

use cfg_blocks::{BlockList, Switch, blocks};
use cfg_normal::{FlowGraph, graph};
use eel_base::{NoMemory, Text, WordNo};
use elf32_sparc::{Image, ReadFault, read_image};
use jump_slice::switches;
use routines::{Routine, Routines, find};
use std::alloc::Global;

/// A program's image, its routines, its blocks, its flow graph with open switches, and all its switches in address order
/// of their jumps.
#[derive(Drop)]
pub struct View {
    pub image: Image,
    pub routines: Routines,
    pub blocks: BlockList,
    pub graph: FlowGraph,
    pub switches: Vec<Switch>,
}

/// The view of a file, or its first fault. Marked words begin blocks, as the words do at which routines start; marks
/// outside the text are passed over.
#[tactic(auto, unfolding(crate::specs::View::view_of))]
pub fn look(alloc: Global, bytes: &[u8], marks: &[WordNo]) -> Result<View, ReadFault>
    ensures fault { refusal result ≡ fault bytes.now }
    ensures view { IfOk result (λ view. view_seen view ≡ view_of bytes.now (numbers marks.now)) }
    ensures whole { IfOk result IsView }
{
    let image = read_image(alloc, bytes)?;
    let view = view_image(alloc, image, marks)?;
    Ok(view)
}

/// The view of an image. Marked words are taken as by `look`.
pub fn view_image(alloc: Global, image: Image, marks: &[WordNo]) -> Result<View, NoMemory>
    ensures view { IfOk result (λ view. view_seen view ≡ view_with image (given_in image (numbers marks.now))) }
    ensures whole { IfOk result IsView }
{
    let parts = parts_of(alloc, &image, marks)?;
    let (routines, blocks, flow) = parts;
    let (graph, switches) = flow;
    Ok(View {
        image,
        routines,
        blocks,
        graph,
        switches,
    })
}

/// A flow graph and its switches.
type Flow = (FlowGraph, Vec<Switch>);

/// The routines of an image, its blocks, and its flow graph.
fn parts_of(
    alloc: Global,
    image: &Image,
    marks: &[WordNo],
) -> Result<(Routines, BlockList, Flow), NoMemory>
    ensures routines { IfOk result (λ parts. parts.0 ≡ routines_of image.now) }
    ensures starts { IfOk result (λ parts. All (λ routine. routine.start.0 < length image.now.text.words) parts.0) }
    ensures blocks { IfOk result (λ parts. parts.1 ≡ entered_of image.now.text (given_in image.now (numbers marks.now))) }
    ensures graph { IfOk result (λ parts. parts.2.0 ≡ graph_with image.now.text parts.1 image.now.entry) }
    ensures switches { IfOk result (λ parts. parts.2.1.items ≡ switches_of image.now.text parts.1 image.now.entry) }
    ensures tables { IfOk result (λ parts. All (IsTableIn image.now.text) parts.2.1.items) }
{
    let routines = find(alloc, image)?;
    let blocks = blocks_of(alloc, image.text(), routines.list(), marks)?;
    let flow = flow_of(alloc, image.text(), &blocks, image.entry())?;
    Ok((routines, blocks, flow))
}

/// The blocks of a text with these routines, at whose starts words lead, as marked ones do.
fn blocks_of(
    alloc: Global,
    text: &Text,
    routines: &[Routine],
    marks: &[WordNo],
) -> Result<BlockList, NoMemory>
    requires { All (λ routine. routine.start.0 < length text.now.words) routines.now }
    ensures { IfOk result (λ list. list ≡ entered_of text.now (starts_of routines.now ++ marks_in text.now (numbers marks.now))) }
{
    let starts = starts(alloc, routines)?;
    let marks = marks_in(alloc, text, marks)?;
    let blocks = blocks(alloc, text, &starts, &marks)?;
    Ok(blocks)
}

/// The flow graph of a text that was cut into blocks, and its switches.
fn flow_of(alloc: Global, text: &Text, blocks: &BlockList, entry: WordNo) -> Result<Flow, NoMemory>
    requires { blocks.now.blocks.words ≡ length text.now.words }
    ensures graph { IfOk result (λ flow. flow.0 ≡ graph_with text.now blocks.now entry.0) }
    ensures switches { IfOk result (λ flow. flow.1.items ≡ switches_of text.now blocks.now entry.0) }
    ensures tables { IfOk result (λ flow. All (IsTableIn text.now) flow.1.items) }
{
    let switches = switches(alloc, blocks, text, entry)?;
    let graph = graph(alloc, text, blocks, entry, &switches)?;
    Ok((graph, switches))
}

/// The words at which routines start.
fn starts(alloc: Global, routines: &[Routine]) -> Result<Vec<WordNo>, NoMemory>
    ensures { IfOk result (λ starts. starts.items ≡ map (λ routine. routine.start) routines.now) }
{
    let starts = routines.iter().map(|routine| routine.start).collect(alloc)?;
    Ok(starts)
}

/// The marks that are words of the text.
fn marks_in(alloc: Global, text: &Text, marks: &[WordNo]) -> Result<Vec<WordNo>, NoMemory>
    ensures marks { IfOk result (λ inside. numbers inside.items ≡ marks_in text.now (numbers marks.now)) }
    ensures inside { IfOk result (λ inside. AreWords text.now inside.items) }
{
    let words = text.len();
    let marks = marks
        .iter()
        .copied()
        .filter(|mark| mark.0 < words)
        .collect(alloc)?;
    Ok(marks)
}
