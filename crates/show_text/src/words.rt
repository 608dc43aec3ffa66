//! The words of lines.
ghost use Rattle.std.specs.Prelude.{◌≡◌, ◌<◌, ◌≤◌, ◌++◌, ◌∷◌, [], length};
ghost use Rattle.eel_base.specs.Fields.{hex_of};
ghost use Rattle.cfg_normal.specs.Code.{IsNodeIn, IsSlotIn};
ghost use Rattle.cfg_view.specs.Code.{IsView};
ghost use Rattle.show_text.specs.Lines.{address_text, block_text, kind_text, name_text, node_text, printed, slot_text};

use cfg_blocks::EdgeKind;
use cfg_normal::{Node, Slot};
use cfg_view::View;
use eel_base::{Addr, BlockNo, WordNo, hex8};

/// Room for an address.
pub(crate) type Digits = [u8; 8];

/// Room for a node: an address, and a plus.
pub type NodeBytes = [u8; 9];

/// Room for a name.
pub(crate) type NameBytes = [u8; 255];

/// The address of a word of the text.
pub(crate) fn address_text(view: &View, word: WordNo) -> Digits
    requires { word.0 < length view.now.image.text.words }
    ensures { result ≡ address_text view.now.image.text word.0 }
{
    hex8(view.image.text().address(word).0)
}

/// The address of a table.
pub(crate) fn table_text<'a>(table: Addr, digits: &'a mut Digits) -> &'a [u8]
    ensures { result.now ≡ hex_of table.0 }
{
    *digits = hex8(table.0);
    digits
}

/// The address of a block's first word.
pub(crate) fn block_text(view: &View, block: BlockNo) -> Digits
    requires view { IsView view.now }
    requires block { block.0 < length view.now.graph.blocks.firsts }
    ensures { result ≡ block_text view.now.image.text view.now.graph.blocks block.0 }
{
    address_text(view, view.graph.first(block))
}

/// A byte of a name: `?` where it isn't a printed character other than the space.
fn printed(byte: u8) -> u8
    ensures { result ≡ printed byte }
{
    match byte {
        0x21..=0x7e => byte,
        _ => b'?',
    }
}

/// A name as it is printed, or `-` where there is none.
pub(crate) fn name_text<'a>(name: &[u8], bytes: &'a mut NameBytes) -> &'a [u8]
    requires { length name.now ≤ 255 }
    ensures { result.now ≡ name_text name.now }
{
    if name.is_empty() {
        return b"-";
    }
    for (i, byte) in name.iter().enumerate() {
        bytes[i] = printed(*byte);
    }
    &bytes[..name.len()]
}

/// The word of a kind.
pub fn kind_text(kind: EdgeKind) -> &'static [u8]
    ensures { result.now ≡ kind_text kind }
{
    match kind {
        EdgeKind::Fall => b"fall",
        EdgeKind::Taken => b"taken",
        EdgeKind::Untaken => b"untaken",
        EdgeKind::Call => b"call",
        EdgeKind::Out => b"out",
        EdgeKind::Land => b"land",
        EdgeKind::Case => b"case",
    }
}

/// Digits, and a plus behind them.
pub(crate) fn plus_text(digits: Digits) -> NodeBytes
    ensures { result ≡ digits ++ 43 ∷ [] }
{
    let mut bytes = [b'+'; 9];
    bytes[..8].copy_from_slice(&digits);
    bytes
}

/// A node: the address of its block, with a plus behind it where it is the landed copy, or `x`.
pub fn node_text<'a>(view: &View, node: Node, bytes: &'a mut NodeBytes) -> &'a [u8]
    requires view { IsView view.now }
    requires node { IsNodeIn view.now.graph.blocks view.now.graph.opens node }
    ensures { result.now ≡ node_text view.now.image.text view.now.graph.blocks node }
{
    match node {
        Node::Block(block) => {
            *bytes = plus_text(block_text(view, block));
            &bytes[..8]
        }
        Node::Landed(block) => {
            *bytes = plus_text(block_text(view, block));
            bytes
        }
        Node::X => b"x",
    }
}

/// A slot: the address of its word, or why it has none.
pub(crate) fn slot_text<'a>(view: &View, slot: Slot, digits: &'a mut Digits) -> &'a [u8]
    requires view { IsView view.now }
    requires slot { IsSlotIn view.now.graph.blocks slot }
    ensures { result.now ≡ slot_text view.now.image.text slot }
{
    match slot {
        Slot::Nothing => b"-",
        Slot::Word(word) => {
            *digits = address_text(view, word);
            digits
        }
        Slot::Off => b"off",
    }
}
