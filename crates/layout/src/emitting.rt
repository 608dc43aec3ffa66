//! The words of a layout.

ghost use Rattle.std.specs.Prelude.{◌≡◌, ◌+◌, ◌*◌, ◌^◌, ◌<◌, ◌++◌, true, false, length, slice_get, Some, OnOk, IfOk, IfSome};
ghost use Rattle.layout.specs.declared.items.Item.TheVariants as it;
ghost use Rattle.layout.specs.declared.entries.Entry.TheVariants as en;
ghost use Rattle.layout.specs.Forms.{far, target as target_of};
ghost use Rattle.layout.specs.Private.{entry_code, far_of, forms_in, goal_in, has_condition, or_zero, IsEmitted, IsOffsets};

use crate::Item;
use crate::assembler::Assembler;
use crate::entries::{Cursor, Entry};
use crate::forms::width;
use crate::words::{put_branch, put_jump};
use eel_base::PieceNo;
use std::alloc::{AllocError, Global};

// Appends a Jump to a piece, unless that is laid next.
fn put_jump_before(
    code: &mut Vec<u32>,
    base: u32,
    piece: PieceNo,
    left: &Cursor,
    from: u64,
    to: u64,
    long: bool,
) -> Result<(), AllocError>
    requires from { from < 2 ^ 62 }
    requires near { long ≡ false → far from to ≡ false }
    requires low { base + 4 * to < 2 ^ 32 }
    ensures { OnOk result (code.new.items
        ≡ code.old.items ++ entry_code base long from to (Some (en.Item (it.Jump piece)))
        (slice_get left.now 0)) }
{
    if !left.starts(piece) {
        put_jump(code, base, from, to, long)?;
    }
    Ok(())
}

// Appends an entry's words.
fn put_entry(
    code: &mut Vec<u32>,
    base: u32,
    entry: &Entry,
    left: &Cursor,
    from: u64,
    at: &[u64],
    long: bool,
) -> Result<(), AllocError>
    requires leads { IfSome (target_of (Some entry.now)) (λ k. k < length at.now) }
    requires from { from < 2 ^ 62 }
    requires low { IfSome (goal_in at.now entry.now) (λ to. base + 4 * to < 2 ^ 32) }
    requires near { long ≡ false → far_of from (goal_in at.now entry.now) ≡ false }
    ensures code { OnOk result (code.new.items
        ≡ code.old.items ++ entry_code base long from (or_zero (goal_in at.now entry.now)) (Some entry.now)
        (slice_get left.now 0)) }
    ensures condition { OnOk result (has_condition (Some entry.now) ≡ true) }
{
    match entry {
        Entry::Item(Item::Word(word)) => code.push(*word)?,
        Entry::Item(Item::Jump(piece)) => {
            let to = at[piece.0 as usize];
            put_jump_before(code, base, *piece, left, from, to, long)?
        }
        Entry::Item(Item::Branch { cond, to }) => {
            put_branch(code, base, *cond, from, at[to.0 as usize], long)?
        }
        _ => {}
    }
    Ok(())
}

impl Assembler<'_> {
    /// The words of the entries, where a list has how many words come before each piece.
    pub(crate) fn emit(&self, alloc: Global, at: &[u64]) -> Result<Vec<u32>, AllocError>
        requires { IsOffsets self.now.entries.now (forms_in self.now.forms.now) at.now }
        ensures { IfOk result (λ code. IsEmitted self.now.base.0 self.now.entries.now (forms_in self.now.forms.now)
            code.items (length self.now.entries.now)) }
    {
        let mut code = Vec::with_capacity(alloc, self.all as usize)?;
        let mut left = self.entries.cursor();
        let mut here = 0;
        for long in self.forms {
            let entry = left.next();
            put_entry(&mut code, self.base.0, &entry, &left, here, at, *long)?;
            here += width(&entry, &left, *long);
        }
        Ok(code)
    }
}
