//! What is put together into words, addresses and ranges.

ghost use Rattle.std.specs.Prelude.{◌≡◌, ◌+◌, ◌*◌, ◌^◌, ◌≤◌, length};
ghost use Rattle.layout.specs.Forms.{offset, NoneLeft};
ghost use Rattle.layout.specs.Private.{forms_in};

use crate::entries::Listing;
use eel_base::Addr;

/// Entries in forms none of which is to be widened, and how many words they have. There is room for all from `base` on.
#[derive(Clone, Copy)]
pub struct Assembler<'a> {
    pub base: Addr,
    pub entries: &'a Listing<'a>,
    pub forms: &'a [bool],
    pub all: u64,
    ghost small: { length entries.now ≤ 2 ^ 42 },
    ghost formed: { length forms.now ≡ length entries.now },
    ghost none_left: { NoneLeft entries.now (forms_in forms.now) },
    ghost whole: { all ≡ offset entries.now (forms_in forms.now) (length entries.now) },
    ghost low: { base.0 + 4 * offset entries.now (forms_in forms.now) (length entries.now) ≤ 2 ^ 31 },
}
