//! The images of words: where a machine stands that visits one, and that each image follows the original's step.
#![tactic(auto)]

ghost use Rattle.image_code.specs.Fit.{PiecesFit, PlacesSay};
ghost use Rattle.image_code.specs.Made.{PiecesMakeImages};

mod expansion;
mod first_images;
mod firsts;
mod images;
mod landing;
mod loads;
mod lookups;
mod maker;
mod making;
mod numbering;
mod shape;
mod switches;
mod ways;

pub use making::{DataAddresses, PieceList, SnippetCode, pieces, pieces_with, snippet_code};

/// The pieces that `pieces` makes of a text simulate the original, however they are placed.
pub fn pieces_make_images()
    ensures { PiecesMakeImages }
{}

/// The pieces of a text can be placed in 500 bytes a word, 128 bytes an operation and half a MiB.
pub fn pieces_fit()
    ensures { PiecesFit }
{}

/// Wherever the pieces are placed, the place of each instruction that is no transfer holds the original's word.
pub fn places_say()
    ensures { PlacesSay }
{}
