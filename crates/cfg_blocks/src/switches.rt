//! Switches: jumps through a table of addresses whose index was compared with a limit. These are the types of
//! their definition.
use eel_base::{Addr, BlockNo, WordNo};

/// A jump through a table: the word of the JMPL, the block of the comparison, the address of the table's first
/// entry, and how many entries it has.
#[derive(Clone, Copy, Drop)]
pub struct Switch {
    pub jump: WordNo,
    pub compare: BlockNo,
    pub table: Addr,
    pub count: u32,
}

/// What is known of a register behind a comparison: nothing, a number, that it is the number compared (the
/// index), a number and four times the index, or the word that stands at such an address.
#[derive(Clone, Copy, Drop)]
pub enum Value {
    Unknown,
    Const(u32),
    Index,
    Place(u32),
    Entry(u32),
}

/// A comparison of a register with a limit, and the word at which it stands.
#[derive(Clone, Copy, Drop)]
pub struct Compare {
    pub word: u32,
    pub register: u8,
    pub limit: u32,
}

/// The words from a comparison to a jump: the last of the comparison's block, how many of the slot are run, and
/// the first and the last of the jump's block.
#[derive(Clone, Copy, Drop)]
pub struct Approach {
    pub compare: Compare,
    pub last: u32,
    pub slot: u32,
    pub first: u32,
    pub jump: u32,
}
