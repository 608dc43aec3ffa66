//! The ranges of marks.

ghost use Rattle.std.specs.Prelude.{◌≡◌, ◌+◌, ◌*◌, ◌≤◌, ◌++◌, ◌^◌, None, OnOk, IfOk};
ghost use Rattle.layout.specs.Private.{address_of, closed, closes, forms_in, opens, ranges_from};

use crate::Item;
use crate::assembler::Assembler;
use crate::entries::Entry;
use crate::forms::width;
use eel_base::{Addr, Range};
use std::alloc::{AllocError, Global};

/// The range of a Mark without its end: where its words begin, and what it says.
#[derive(Clone, Copy)]
pub struct OpenRange {
    pub lo: Addr,
    pub address: Addr,
    pub node: u32,
}

// Appends the range of a Mark that ends, if it covers a word.
fn close(
    ranges: &mut Vec<Range>,
    open_mark: Option<OpenRange>,
    here: Addr,
) -> Result<(), AllocError>
    ensures { OnOk result (ranges.new.items ≡ ranges.old.items ++ closed open_mark here.0) }
{
    if let Some(mark) = open_mark {
        if mark.lo.0 < here.0 {
            ranges.push(Range {
                lo: mark.lo,
                hi: here,
                address: mark.address,
                node: mark.node,
            })?;
        }
    }
    Ok(())
}

// Passes an entry, and appends the range of the Mark that it ends.
fn put_entry(
    ranges: &mut Vec<Range>,
    open_mark: Option<OpenRange>,
    here: Addr,
    entry: &Entry,
) -> Result<Option<OpenRange>, AllocError>
    ensures ranges { OnOk result (ranges.new.items ≡ ranges.old.items ++ closes here.0 open_mark entry.now) }
    ensures mark { IfOk result (λ next. next ≡ opens here.0 open_mark entry.now) }
{
    match entry {
        Entry::Item(Item::Mark { address, node }) => Ok(Some(OpenRange {
            lo: here,
            address: *address,
            node: *node,
        })),
        Entry::Item(Item::EndMark) => {
            close(ranges, open_mark, here)?;
            Ok(None)
        }
        _ => Ok(open_mark),
    }
}

/// The address at which an entry stands that has so many words before it.
pub fn address(base: Addr, words: u64) -> Addr
    requires low { base.0 + 4 * words ≤ 2 ^ 31 }
    ensures { result.0 ≡ base.0 + 4 * words }
{
    Addr(base.0 + 4 * words as u32)
}

impl Assembler<'_> {
    /// The ranges of the entries, most likely no more than so many.
    pub(crate) fn ranges_of(&self, alloc: Global, likely: usize) -> Result<Vec<Range>, AllocError>
        ensures { IfOk result (λ ranges. ranges.items
            ≡ ranges_from (address_of self.now.base.0 self.now.entries.now (forms_in self.now.forms.now)) 0 None
            self.now.entries.now) }
    {
        let mut ranges = Vec::with_capacity(alloc, likely)?;
        let mut left = self.entries.cursor();
        let mut open_mark = None;
        let mut here = 0;
        for long in self.forms {
            let entry = left.next();
            open_mark = put_entry(&mut ranges, open_mark, address(self.base, here), &entry)?;
            here += width(&entry, &left, *long);
        }
        Ok(ranges)
    }
}
