//! The shapes of pieces: what stands in a piece's Mark, the edge whose snippet runs behind that, and where control goes
//! on.

ghost use Rattle.std.specs.Prelude.{◌≡◌, ◌<◌, IfOk, OnOk, [], ◌∷◌, ◌++◌, ◌+◌, ◌≤◌, map, option_to_list};
ghost use Rattle.image_code.specs.Made.{save_by, unused as unused_of};
ghost use Rattle.image_code.specs.Private.{code_at};
ghost use Rattle.image_code.specs.Shapes.{bare as bare_of, exit_items, head_items, items_of, mark_items, marked as marked_of};
ghost use Rattle.jump_code.specs.Links.{link};
ghost use Rattle.jump_code.specs.Pieces.{word_items};
ghost use Rattle.v8_decode.specs.Words.{decode_of};
ghost use Rattle.v8_step.specs.Items.{is_transfer as is_transfer_of};
ghost use Rattle.layout.specs.declared.items.Item.TheVariants as it;

use crate::expansion::Codes;
use eel_base::{Addr, NoMemory, PieceNo};
use jump_code::{
    call_code, foreign_code, jump_by_case_code, jump_translated_code, link_code, long_jump_code,
    save_load_address_code,
};
use layout::{Item, Piece};
use std::alloc::Global;
use std::marker::Model;
use v8_decode::{Cond, Instr, Reg, decode};
use v8_encode::register;

/// `nop`.
pub(crate) const NOP: u32 = 0x0100_0000;

// `ba` to the word after the next one. Two of them within one Mark stand for a transfer in a delay slot: the second
// stands in the slot of the first, so that it ends the run as a couple, as the original does.
const COUPLE: u32 = 0x1080_0002;

/// What a word stands for: an instruction of the original, by its address, at a node.
#[derive(Clone, Copy)]
pub struct SourceWord {
    pub address: Addr,
    pub node: u32,
}

/// What stands in the Mark of a visit.
#[derive(Clone, Copy)]
pub enum Head {
    /// The instruction's own word, or a nop.
    Word(u32),
    Branch { cond: Cond, to: PieceNo },
    /// The link of a CALL.
    Call,
    /// What looks up the target of a JMPL, and then its link.
    LookUp { code: [u32; 12], rd: Reg },
    /// The link of an open switch's JMPL, and then what goes on at the address in the word that lies so far above the
    /// kept address.
    SwitchJump { rd: Reg, distance: u32 },
    /// A transfer in a delay slot, which ends the run.
    Couple,
}

/// Where control goes on.
#[derive(Clone, Copy)]
pub enum Exit {
    /// At the piece that comes next.
    Behind,
    Piece(PieceNo),
    /// At an address outside the text.
    Far(Addr),
    /// At what a JMPL looked up.
    Found,
    /// Outside the text, at the address that a JMPL computed.
    Foreign,
    /// At the piece that comes next, the image of a load: these words keep its address.
    Saved([u32; 3]),
}

/// A piece: the Mark with which it begins, if it has one, the edge whose snippet runs behind that, and where control goes
/// on.
#[derive(Drop)]
pub struct Shape {
    pub mark: Option<(SourceWord, Head)>,
    pub edge: Option<u32>,
    pub exit: Exit,
}

impl Model for Shape {
    ghost use Rattle.std.specs.Prelude.{option_to_list};
    ghost use Rattle.image_code.specs.Shapes.{Shape as ShapeOf};

    ghost Value = { ShapeOf };

    ghost view = { λ s. record { mark = s.mark; edges = option_to_list s.edge; exit = s.exit } };
}

// ---- items

fn push_words(items: &mut Vec<Item>, words: &[u32]) -> Result<(), NoMemory>
    ensures { OnOk result (items.new.items ≡ items.old.items ++ map it.Word words.now) }
{
    for word in words {
        items.push(Item::Word(*word))?;
    }
    Ok(())
}

// The link of a JMPL; one whose rd is %g0 has none.
fn push_link(items: &mut Vec<Item>, rd: Reg, address: Addr) -> Result<(), NoMemory>
    ensures { OnOk result (items.new.items ≡ items.old.items ++ word_items (link rd address.0)) }
{
    if rd.number() == 0 {
        return Ok(());
    }
    push_words(items, &link_code(rd, address))?;
    Ok(())
}

fn push_head(items: &mut Vec<Item>, address: Addr, head: Head) -> Result<(), NoMemory>
    ensures { OnOk result (items.new.items ≡ items.old.items ++ head_items address head) }
{
    match head {
        Head::Word(word) => items.push(Item::Word(word))?,
        Head::Branch { cond, to } => items.push(Item::Branch { cond, to })?,
        Head::Call => push_words(items, &call_code(address))?,
        Head::LookUp { code, rd } => {
            push_words(items, &code)?;
            push_link(items, rd, address)?;
        }
        Head::SwitchJump { rd, distance } => {
            push_link(items, rd, address)?;
            push_words(items, &jump_by_case_code(distance))?;
        }
        Head::Couple => push_words(items, &[COUPLE, COUPLE])?,
    }
    Ok(())
}

fn push_mark(items: &mut Vec<Item>, mark: Option<(SourceWord, Head)>) -> Result<(), NoMemory>
    ensures { OnOk result (items.new.items ≡ items.old.items ++ mark_items mark []) }
{
    if let Some((visit, head)) = mark {
        items.push(Item::Mark {
            address: visit.address,
            node: visit.node,
        })?;
        push_head(items, visit.address, head)?;
        items.push(Item::EndMark)?;
    }
    Ok(())
}

fn push_exit(items: &mut Vec<Item>, exit: Exit) -> Result<(), NoMemory>
    ensures { OnOk result (items.new.items ≡ items.old.items ++ exit_items exit) }
{
    match exit {
        Exit::Behind => {}
        Exit::Piece(piece) => items.push(Item::Jump(piece))?,
        Exit::Far(to) => push_words(items, &long_jump_code(to))?,
        Exit::Found => push_words(items, &jump_translated_code(register(1)))?,
        Exit::Foreign => push_words(items, &foreign_code())?,
        Exit::Saved(code) => push_words(items, &code)?,
    }
    Ok(())
}

// How many items a Mark takes at most, with what stands in it.
fn mark_room(mark: Option<(SourceWord, Head)>) -> usize
    ensures few { result ≤ 16 }
{
    match mark {
        Some((_, Head::Word(_) | Head::Branch { .. })) => 3,
        Some((_, Head::Call | Head::Couple)) => 4,
        Some(_) => 16,
        None => 0,
    }
}

// How many items the way on takes.
fn exit_room(exit: Exit) -> usize
    ensures few { result ≤ 4 }
{
    match exit {
        Exit::Behind => 0,
        Exit::Piece(_) => 1,
        Exit::Found | Exit::Saved(_) => 3,
        Exit::Far(_) | Exit::Foreign => 4,
    }
}

fn assemble(alloc: Global, codes: &Codes, shape: &Shape) -> Result<Piece, NoMemory>
    ensures { IfOk result (λ p. p ≡ items_of (code_at codes.now) shape.now) }
{
    let code = codes.code_on(shape.edge);
    let room = mark_room(shape.mark) + code.len() + exit_room(shape.exit);
    let mut items = Vec::with_capacity(alloc, room)?;
    push_mark(&mut items, shape.mark)?;
    push_words(&mut items, code)?;
    push_exit(&mut items, shape.exit)?;
    Ok(Piece { items })
}

/// Adds the piece of a shape.
pub fn push_piece(
    alloc: Global,
    list: &mut Vec<Piece>,
    codes: &Codes,
    shape: Shape,
) -> Result<(), NoMemory>
    ensures { OnOk result (list.new.items ≡ list.old.items ++ items_of (code_at codes.now) shape ∷ []) }
{
    list.push(assemble(alloc, codes, &shape)?)?;
    Ok(())
}

// ---- shapes

/// What stands in the Mark of a visit, the snippet on an edge, and the way on.
pub fn marked(visit: SourceWord, head: Head, edge: Option<u32>, exit: Exit) -> Shape
    ensures { result ≡ marked_of visit head (option_to_list edge) exit }
{
    Shape {
        mark: Some((visit, head)),
        edge,
        exit,
    }
}

/// The snippet on an edge, and the way on.
pub fn bare(edge: Option<u32>, exit: Exit) -> Shape
    ensures { result ≡ bare_of (option_to_list edge) exit }
{
    Shape {
        mark: None,
        edge,
        exit,
    }
}

/// A piece that is never run.
pub fn unused() -> Shape
    ensures { result ≡ unused_of }
{
    bare(None, Exit::Piece(PieceNo(0)))
}

/// The words before the load of an open switch, which keep the load's address in the editor's page.
pub fn save_address(word: u32) -> Shape
    ensures { result ≡ save_by (decode_of word) }
{
    match decode(word) {
        Instr::Load { rs1, op2, .. } => bare(None, Exit::Saved(save_load_address_code(rs1, op2))),
        _ => bare(None, Exit::Behind),
    }
}

/// Whether a word is a transfer.
pub fn is_transfer(word: u32) -> bool
    ensures { result ≡ is_transfer_of (decode_of word) }
{
    matches!(
        decode(word),
        Instr::Branch { .. } | Instr::Call { .. } | Instr::Jmpl { .. },
    )
}
