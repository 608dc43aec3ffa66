//! What is kept of each block to tell where control lands there.
ghost use Rattle.std.specs.Prelude.{◌≡◌, ℕ, ◌<◌, ◌++◌, [], ◌∷◌, List, length, slice_index_or};
ghost use Rattle.cfg_normal.specs.Private.{has_copy, is_jump_block, lands_by, noted, with_compare};
ghost use Rattle.cfg_normal.specs.Landings.{AreLandings};
ghost use Rattle.cfg_normal.specs.Opens.{Open};
ghost use Rattle.cfg_normal.specs.declared.landings.LandingRule.TheVariants.{Home};

use crate::OpenSwitch;
use eel_base::BlockNo;

/// Which words of a block land at its landed copy: none, those behind a comparison, or all, since the jump of the
/// open switch of this number ends it.
#[derive(Clone, Copy, Drop)]
pub(crate) enum LandingRule {
    Home,
    Behind(u32),
    Copied(usize),
}

/// What is kept of a block.
pub(crate) fn landing_of(landings: &[LandingRule], block: BlockNo) -> LandingRule
    requires { block.0 < length landings.now }
    ensures { result ≡ slice_index_or landings.now block.0 Home }
{
    landings[block.0 as usize]
}

/// Whether a word of the block lands at the copy.
pub(crate) fn lands_there(landing: LandingRule, word: u32) -> bool
    ensures { result ≡ lands_by landing word }
{
    match landing {
        LandingRule::Home => false,
        LandingRule::Behind(compare) => compare < word,
        LandingRule::Copied(_) => true,
    }
}

/// Whether the jump of an open switch ends the block.
pub(crate) fn is_jump_block(landing: LandingRule) -> bool
    ensures { result ≡ is_jump_block landing }
{
    matches!(landing, LandingRule::Copied(_))
}

/// Whether the block has a landed copy.
pub(crate) fn has_copy(landing: LandingRule) -> bool
    ensures { result ≡ has_copy landing }
{
    !matches!(landing, LandingRule::Home)
}

// With a comparison more.
fn with_compare(landing: LandingRule, compare: u32) -> LandingRule
    ensures { result ≡ with_compare landing compare }
{
    match landing {
        LandingRule::Home => LandingRule::Behind(compare),
        LandingRule::Behind(other) => {
            if compare < other {
                LandingRule::Behind(compare)
            } else {
                LandingRule::Behind(other)
            }
        }
        LandingRule::Copied(_) => landing,
    }
}

// Notes the blocks of an open switch, the one of this number.
fn put_landings(landings: &mut [LandingRule], number: usize, found: &OpenSwitch)
    requires block { found.now.block < length landings.old }
    requires compare { found.now.switch.compare.0 < length landings.old }
    ensures long { length landings.new ≡ length landings.old }
    ensures each { (k : ℕ) → slice_index_or landings.new k Home
        ≡ noted found.now number k (slice_index_or landings.old k Home) }
{
    let from = found.switch().compare.0 as usize;
    landings[from] = with_compare(landings[from], found.approach().compare.word);
    landings[found.block().0 as usize] = LandingRule::Copied(number);
}

/// Notes the blocks of an open switch that comes after so many.
pub(crate) fn note_landings(landings: &mut [LandingRule], number: usize, found: &OpenSwitch)
    requires block { found.now.block < length landings.old }
    requires compare { found.now.switch.compare.0 < length landings.old }
    ensures { (opens : List Open) → length opens ≡ number → AreLandings (length landings.old) opens landings.old
        → AreLandings (length landings.old) (opens ++ found.now ∷ []) landings.new }
{
    put_landings(landings, number, found);
}
