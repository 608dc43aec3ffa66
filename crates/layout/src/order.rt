//! The order in which pieces are laid.

ghost use Rattle.std.specs.Prelude.{◌≡◌, ℕ, ◌+◌, ◌-◌, ◌^◌, ◌<◌, ◌≤◌, not, ◌&&◌, true, false, [], ◌∷◌, ◌++◌, length, replicate, slice_get, slice_index_or, Some, IfOk, OnOk};
ghost use Rattle.layout.specs.Order.{behind, compact_order, ends_in_jump, exit_at as exit_of_piece, exit_of, first_laid, next_piece};
ghost use Rattle.layout.specs.Laying.{LeadsInside, IsLowestLeft, IsMarking, IsWhole};

use crate::{Item, Piece};
use eel_base::PieceNo;
use std::alloc::{AllocError, Global};

// Where the Jump leads that is a piece's last item.
fn exit(piece: &Piece) -> Option<PieceNo>
    ensures { result ≡ exit_of piece.now }
{
    match piece.items.last() {
        Some(Item::Jump(to)) => Some(*to),
        _ => None,
    }
}

// The first place from `from` on that is not marked, or the number of places.
fn first_free(marks: &[bool], from: usize) -> usize
    requires from { from ≤ length marks.now }
    ensures within { result ≤ length marks.now }
    ensures above { from ≤ result }
    ensures passed { (k : ℕ) → from ≤ k → k < result → slice_index_or marks.now k false ≡ true }
    ensures free { result < length marks.now → slice_index_or marks.now result false ≡ false }
{
    for k in from..marks.len() {
        if !marks[k] {
            return k;
        }
    }
    marks.len()
}

// Where the Jump leads that is the last item of the piece with this number.
fn exit_at(pieces: &[Piece], k: usize) -> Option<PieceNo>
    requires inside { k < length pieces.now }
    ensures { result ≡ exit_of_piece pieces.now k }
{
    exit(&pieces[k])
}

// Whether a Jump to this piece may be laid before it: it isn't laid, and nothing falls into it.
fn may_follow(pieces: &[Piece], marks: &[bool], to: usize) -> bool
    requires inside { to < length pieces.now }
    requires marks { length marks.now ≡ length pieces.now }
    ensures { result ≡ (not (slice_index_or marks.now to false) && ends_in_jump pieces.now (to - 1)) }
{
    !marks[to] && exit_at(pieces, to.saturating_sub(1)).is_some()
}

// The piece that comes behind the last one.
fn behind(pieces: &[Piece], laid: &[u32], marks: &[bool], last: usize, lowest: usize) -> usize
    requires leads { LeadsInside pieces.now }
    requires marking { IsMarking pieces.now laid.now marks.now lowest }
    requires lowest { IsLowestLeft pieces.now laid.now lowest }
    requires last { last < length pieces.now }
    ensures { result ≡ behind pieces.now laid.now last (exit_of_piece pieces.now last) }
{
    match exit_at(pieces, last) {
        None => if last + 1 < pieces.len() {
            last + 1
        } else {
            lowest
        },
        Some(to) => if may_follow(pieces, marks, to.0 as usize) {
            to.0 as usize
        } else {
            lowest
        },
    }
}

// The piece that comes when these are laid, where `lowest` is the lowest piece left.
fn next(pieces: &[Piece], laid: &[u32], marks: &[bool], lowest: usize) -> usize
    requires leads { LeadsInside pieces.now }
    requires marking { IsMarking pieces.now laid.now marks.now lowest }
    requires lowest { IsLowestLeft pieces.now laid.now lowest }
    requires more { length laid.now < length pieces.now }
    ensures value { result ≡ next_piece pieces.now laid.now }
    ensures inside { result < length pieces.now }
{
    match laid.last() {
        None => 0,
        Some(last) => behind(pieces, laid, marks, *last as usize, lowest),
    }
}

// Lays one piece more, where `lowest` is the lowest piece left.
fn lay(
    pieces: &[Piece],
    laid: &mut Vec<u32>,
    marks: &mut Vec<bool>,
    lowest: usize,
) -> Result<(), AllocError>
    requires few { length pieces.now ≤ 2 ^ 28 }
    requires leads { LeadsInside pieces.now }
    requires marking { IsMarking pieces.now laid.old.items marks.old.items lowest }
    requires lowest { IsLowestLeft pieces.now laid.old.items lowest }
    requires more { length laid.old.items < length pieces.now }
    ensures laid { OnOk result (laid.new.items ≡ laid.old.items ++ next_piece pieces.now laid.old.items ∷ []) }
    ensures marking { OnOk result (IsMarking pieces.now laid.new.items marks.new.items lowest) }
    ensures count { OnOk result (length laid.new.items ≡ length laid.old.items + 1) }
{
    let next = next(pieces, laid, marks, lowest);
    marks[next] = true;
    laid.push(next as u32)?;
    Ok(())
}

// The lowest piece left.
fn lowest_left(pieces: &[Piece], laid: &[u32], marks: &[bool], lowest: usize) -> usize
    requires marking { IsMarking pieces.now laid.now marks.now lowest }
    requires more { length laid.now < length pieces.now }
    ensures lowest { IsLowestLeft pieces.now laid.now result }
    ensures marking { IsMarking pieces.now laid.now marks.now result }
{
    first_free(marks, lowest)
}

fn unmarked(alloc: Global, count: usize) -> Result<Vec<bool>, AllocError>
    ensures { IfOk result (λ marks. marks.items ≡ replicate count false) }
{
    vec![in alloc; false; count]
}

/// The pieces in the order in which a compact layout has them.
pub fn order_of(alloc: Global, pieces: &[Piece]) -> Result<Vec<u32>, AllocError>
    requires few { length pieces.now ≤ 2 ^ 28 }
    requires leads { LeadsInside pieces.now }
    ensures order { IfOk result (λ order. order.items ≡ compact_order pieces.now) }
    ensures whole { IfOk result (λ order. IsWhole pieces.now order.items) }
{
    let mut marks = unmarked(alloc, pieces.len())?;
    let mut laid = Vec::with_capacity(alloc, pieces.len())?;
    let mut lowest = 0;
    for _ in 0..pieces.len() {
        lowest = lowest_left(pieces, &laid, &marks, lowest);
        lay(pieces, &mut laid, &mut marks, lowest)?;
    }
    Ok(laid)
}
