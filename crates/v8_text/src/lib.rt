//! The text of instruction words, and the words of texts. `specs/Texts.antt` has the spelling.
#![tactic(auto)]

ghost use Rattle.v8_text.specs.Laws.{TextsReadBack};
ghost use Rattle.v8_text.specs.Code.{ListingsReadBack};

mod listings;
mod names;
mod operands;
mod reading;
mod writing;

pub use listings::{ListFault, listing, read_listing};
pub use reading::word_of;
pub use writing::text_of;

/// Every word's text reads back to the word, wherever it stands.
pub fn texts_read_back()
    ensures { TextsReadBack }
{}

/// The listing of a text reads back to its words, and no line of it is bad.
pub fn listings_read_back()
    ensures { ListingsReadBack }
{}
