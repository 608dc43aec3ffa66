//! The flags of a segment.
ghost use Rattle.std.specs.Prelude.{⊤, [], ◌∷◌, codes};

use bitflags::{Flag, Flags, bitflag_items};

/// The whole p_flags word of a segment. Bits without a name are kept and mean nothing.
#[derive(Clone, Copy, PartialEq, Eq, Debug)]
pub struct SegFlags(pub u32);

bitflag_items! {
    impl SegFlags: u32 {
        const PF_X = 1;
        const PF_W = 2;
        const PF_R = 4;
    }
}

impl Flags for SegFlags {
    type Bits = u32;

    ghost exact = { ⊤ };

    ghost table = { (codes "PF_X", 1) ∷ (codes "PF_W", 2) ∷ (codes "PF_R", 4) ∷ [] };

    ghost set_of = { λ flags. flags.0 };

    fn flags<'a>() -> &'a [Flag<SegFlags>] {
        SegFlags::FLAGS
    }

    fn bits(&self) -> u32 {
        self.0
    }

    fn from_bits_retain(bits: u32) -> SegFlags {
        SegFlags(bits)
    }
}
