//! The text of a program.
ghost use Rattle.std.specs.Prelude.{◌≡◌, ◌≢◌, ℕ, ◌+◌, ◌<◌, ◌≤◌, length, slice_index, IfSome, IfNone};
ghost use Rattle.std.specs.Option.{SomeIff};
ghost use Rattle.eel_base.specs.CodeText.{Words, address_of, numbered, target_of, word_at};
ghost use Rattle.eel_base.specs.Code.{IsText};

use crate::numbers::{Addr, WordNo};
use std::marker::Model;

const MAX_WORDS: usize = 1 << 20;

/// The executable words of a program, one after the other from an aligned address: 1 to 2^20 words from
/// 0x1000 on, which end at 0x80000000 at most.
#[derive(Drop)]
pub struct Text {
    start: Addr,
    words: Vec<u32>,
}

impl Model for Text {
    ghost use Rattle.eel_base.specs.CodeText.{Words};
    ghost use Rattle.eel_base.specs.Code.{IsText};

    ghost Value = { Words };

    ghost view = { λ t. record { start = t.start.0; words = t.words.items } };

    ghost invariant = { λ t. IsText (record { start = t.start.0; words = t.words.items }) };
}

impl Text {
    /// The words from `start` on, or None where they can be no text.
    pub fn new(start: Addr, words: Vec<u32>) -> Option<Text>
        ensures { let text : Words = record { start = start.0; words = words.items } in SomeIff result (IsText text) text }
    {
        let is_aligned = start.0 % 4 == 0 && start.0 >= 0x1000;
        if !is_aligned || words.is_empty() || words.len() > MAX_WORDS {
            return None;
        }
        if start.0 as usize + 4 * words.len() > 0x8000_0000 {
            return None;
        }
        Some(Text { start, words })
    }

    /// The address of the first word.
    #[inline]
    pub fn start(&self) -> Addr
        ensures { result.0 ≡ self.now.start }
    {
        self.start
    }

    /// How many words there are.
    #[inline]
    pub fn len(&self) -> u32
        ensures count { result ≡ length self.now.words }
        ensures text { IsText self.now }
    {
        self.words.len() as u32
    }

    /// The word `w`.
    #[inline]
    pub fn word(&self, w: WordNo) -> u32
        requires { w.0 < length self.now.words }
        ensures { result ≡ slice_index self.now.words w.0 }
    {
        self.words[w.0 as usize]
    }

    /// The address of the word `w`, or of the text's end.
    #[inline]
    pub fn address(&self, w: WordNo) -> Addr
        requires { w.0 ≤ length self.now.words }
        ensures { result.0 ≡ address_of self.now w.0 }
    {
        Addr(self.start.0 + 4 * w.0)
    }

    /// The word at the address `a`.
    #[inline]
    pub fn find(&self, a: Addr) -> Option<WordNo>
        ensures word { IfSome result (λ w. w.0 < length self.now.words) }
        ensures address { IfSome result (λ w. address_of self.now w.0 ≡ a.0) }
        ensures none { IfNone result ((w : ℕ) → w < length self.now.words → address_of self.now w ≢ a.0) }
        ensures exact { result ≡ numbered (word_at self.now a.0) }
    {
        let distance = a.0.checked_sub(self.start.0)?;
        if distance % 4 == 0 && (distance as usize) < 4 * self.words.len() {
            Some(WordNo(distance / 4))
        } else {
            None
        }
    }

    /// The word to which a transfer at the word `w` leads, whose displacement counts words.
    #[inline]
    pub fn target(&self, w: WordNo, displacement: i32) -> Option<WordNo>
        requires { w.0 < length self.now.words }
        ensures { result ≡ numbered (target_of self.now w.0 displacement) }
    {
        let distance = displacement.cast_unsigned().wrapping_mul(4);
        self.find(Addr(self.address(w).0.wrapping_add(distance)))
    }
}
