// Sets of registers, codes and Y.

ghost use Rattle.std.specs.Prelude.{◌≡◌, ◌<◌, ◌≤◌, true, not, ◌&&◌, ◌||◌, [], ◌∷◌, ◌++◌, length};
ghost use Rattle.v8_decode.specs.declared.Part.{Part};
ghost use Rattle.v8_decode.specs.Parts.{every_part, has, is_member, is_same, set_of};
ghost use Rattle.v8_decode.specs.Private.{is_part};
ghost use Rattle.v8_decode.specs.Code.{minus, without};
ghost use Rattle.v8_decode.specs.Masks.{place_of};

use crate::Part;
use std::marker::Model;

/// A set of the registers %g1 to %i7, the integer condition codes and Y. The register %g0, which
/// holds nothing, is in no set.
#[derive(Clone, Copy, PartialEq, Eq, Debug, Drop)]
pub struct RegSet {
    // bit r for register r, bit 32 for the codes, bit 33 for Y
    mask: u64,
}

impl Model for RegSet {
    ghost use Rattle.std.specs.Prelude.{◌≡◌, List, ◌<◌, ◌^◌, ◌%◌};
    ghost use Rattle.v8_decode.specs.declared.Part.{Part};
    ghost use Rattle.v8_decode.specs.Private.{mask_of};
    ghost use Rattle.v8_decode.specs.Masks.{parts_of};

    ghost Value = { List Part };

    ghost view = { λ s. parts_of s.mask };

    ghost invariant = { λ s. (s.mask < 2 ^ 34) × (s.mask % 2 ≡ 0) };

    ghost inverse = { λ ps. record { mask = mask_of ps } };

    ghost use Rattle.v8_decode.specs.MaskLaws.{mask_of-inside};

    ghost inverse_ok = { λ a h. mask_of-inside a h.0 h.1 };
}

#[inline]
fn place(p: Part) -> u32
    ensures value { result ≡ place_of p }
    ensures part { is_part p ≡ true }
    ensures range { result < 34 }
{
    match p {
        Part::Reg(r) => r.number() as u32,
        Part::Icc => 32,
        Part::Y => 33,
    }
}

impl RegSet {
    /// The set of nothing.
    #[inline]
    pub fn empty() -> RegSet
        ensures { result ≡ [] }
    {
        RegSet { mask: 0 }
    }

    /// The set of everything.
    #[inline]
    pub fn all() -> RegSet
        ensures { result ≡ every_part }
    {
        RegSet {
            mask: (1 << 34) - 2,
        }
    }

    /// Whether the set has this part.
    #[inline]
    pub fn has(self, p: Part) -> bool
        ensures value { result ≡ has self p }
        ensures set { set_of self ≡ self }
    {
        (self.mask >> place(p)) & 1 == 1
    }

    /// The set with this part too.
    #[inline]
    pub fn with(self, p: Part) -> RegSet
        ensures value { result ≡ set_of (p ∷ self) }
        ensures has { (q : Part) → has result q ≡ (is_member q && (is_same q p || has self q)) }
    {
        let place = place(p);
        if place == 0 {
            self
        } else {
            RegSet {
                mask: self.mask | 1 << place,
            }
        }
    }

    /// The set without this part.
    #[inline]
    pub fn without(self, p: Part) -> RegSet
        ensures value { result ≡ without self p }
        ensures has { (q : Part) → has result q ≡ (has self q && not (is_same q p)) }
    {
        RegSet {
            mask: self.mask & !(1 << place(p)),
        }
    }

    /// What is in this set, in the other, or in both.
    #[inline]
    pub fn union(self, other: RegSet) -> RegSet
        ensures value { result ≡ set_of (self ++ other) }
        ensures has { (q : Part) → has result q ≡ (has self q || has other q) }
    {
        RegSet {
            mask: self.mask | other.mask,
        }
    }

    /// What is in this set and not in the other.
    #[inline]
    pub fn minus(self, other: RegSet) -> RegSet
        ensures value { result ≡ minus self other }
        ensures has { (q : Part) → has result q ≡ (has self q && not (has other q)) }
    {
        RegSet {
            mask: self.mask & (self.mask ^ other.mask),
        }
    }

    /// How many parts the set has.
    #[inline]
    pub fn count(self) -> u8
        ensures members { result ≡ length self }
        ensures range { result ≤ 33 }
        ensures set { set_of self ≡ self }
    {
        self.mask.count_ones() as u8
    }
}
