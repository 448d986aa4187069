//! All pieces of a file in one overlay.
ghost use Rattle.std.specs.Prelude.{◌≡◌, ℕ, ◌*◌, ◌<◌, ◌≤◌, ◌^◌, IfOk, length, All};
ghost use Rattle.std.specs.List.Sorted.{IsNonDecreasingBy};
ghost use Rattle.jfrag.specs.Pieces.{end_of};
ghost use Rattle.jfrag.specs.Overlays.{IsHighestAt};

use super::overlays::Overlay;
use super::piece::Piece;
use std::alloc::{AllocError, Global};

/// All of the pieces overlaid on one another: at each place the highest version that covers it is
/// visible. Pieces are overlaid in the order of their versions, so that n of them take O(n log n)
/// in any order of arrival, if those of one version are equal or lie apart. (Else each takes a step
/// more for each interval of its own version in its range.)
///
/// # Errors
/// Out of memory.
pub fn overlay<'a, O: Overlay<'a>>(alloc: Global, pieces: &[Piece<'a>]) -> Result<O, AllocError>
    requires { All (λ piece. end_of piece < 2 ^ 32) pieces.now }
    ensures highest { IfOk result
        (λ o. (place : ℕ) → IsHighestAt pieces.now place (O.visible_at o place)) }
    ensures ends { IfOk result (λ o. O.ends o ≤ 2 * length pieces.now) }
{
    let mut by_version = copies(alloc, pieces)?;
    by_version.sort_unstable_by_key(|piece| piece.version);
    overlay_in_turn(alloc, &by_version)
}

fn copies<'a>(alloc: Global, pieces: &[Piece<'a>]) -> Result<Vec<Piece<'a>>, AllocError>
    ensures { IfOk result (λ copies. copies.items ≡ pieces.now) }
{
    let mut copies = Vec::with_capacity(alloc, pieces.len())?;
    for piece in pieces {
        copies.push(piece.copied())?;
    }
    Ok(copies)
}

// The pieces overlaid on one another in the order of the list, which is that of their versions: in
// any other order it would take a step for each piece that one covers.
fn overlay_in_turn<'a, O: Overlay<'a>>(alloc: Global, pieces: &[Piece<'a>]) -> Result<O, AllocError>
    requires within { All (λ piece. end_of piece < 2 ^ 32) pieces.now }
    requires by_version { IsNonDecreasingBy (λ piece. piece.version) pieces.now }
    ensures highest { IfOk result
        (λ o. (place : ℕ) → IsHighestAt pieces.now place (O.visible_at o place)) }
    ensures ends { IfOk result (λ o. O.ends o ≤ 2 * length pieces.now) }
{
    let mut overlaid = O::new(alloc);
    for piece in pieces {
        overlaid.add(piece.copied())?;
    }
    Ok(overlaid)
}
