//! The words to which CALLs lead.
ghost use Rattle.std.specs.Prelude.{◌≡◌, ◌<◌, length};
ghost use Rattle.eel_base.specs.CodeText.{numbered};
ghost use Rattle.routines.specs.Routines.{called_at};

use eel_base::{Text, WordNo};
use v8_decode::{Instr, decode};

/// The word to which the CALL at `w` leads, where there is one and the text has that word.
#[tactic(auto, unfolding(crate::specs::Routines::called_at))]
pub(crate) fn called_at(text: &Text, w: WordNo) -> Option<WordNo>
    requires { w.0 < length text.now.words }
    ensures { result ≡ numbered (called_at text.now w.0) }
{
    match decode(text.word(w)) {
        Instr::Call { disp30 } => text.target(w, disp30),
        _ => None,
    }
}
