//! The places of new code.
use crate::numbers::Addr;

/// A place: from `lo` to `hi` stands the instruction that the original has at `address`, for a visit of `node`. A node
/// is the number of a block, the number of blocks for all that lies outside the text, or a greater one for the landed
/// copy of a block.
#[derive(Clone, Copy, Debug, PartialEq, Eq)]
pub struct Range {
    pub lo: Addr,
    pub hi: Addr,
    pub address: Addr,
    pub node: u32,
}
