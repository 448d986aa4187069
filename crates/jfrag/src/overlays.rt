//! What an overlay is, however it is stored.
ghost use Rattle.std.specs.Prelude.{◌≡◌, ℕ, ◌+◌, ◌*◌, ◌<◌, ◌≤◌, ◌^◌, OnOk, OnErr, None, Option, length};
ghost use Rattle.flashbase.specs.Lists.{each_below};
ghost use Rattle.jfrag.specs.Pieces.{end_of};
ghost use Rattle.jfrag.specs.Overlays.{Visible, overlaid, byte_at};

use super::piece::Piece;
use std::alloc::{AllocError, Global};

/// Pieces of one file overlaid on one another: at each place the highest version that covers it is
/// visible.
///
/// Contracts see what is visible at each place (a version and a byte, or nothing) and a number of
/// ends: places where an interval begins or ends, at most.
pub trait Overlay<'a>: Drop {
    /// The version and the byte that are visible at each place, or nothing.
    ghost visible_at: { Self → ℕ → Visible };

    /// How many ends of pieces are kept apart.
    ghost ends: { Self → ℕ };

    /// Nothing is visible anywhere.
    fn new(alloc: Global) -> Self
        ensures nothing { (place : ℕ) → visible_at result place ≡ None }
        ensures no_ends { ends result ≡ 0 };

    /// Overlays one more piece on what is visible: it wins the places that it covers where nothing
    /// or a lower version is visible, whatever the order of arrival.
    ///
    /// # Errors
    /// Out of memory: then nothing changes.
    fn add(&mut self, piece: Piece<'a>) -> Result<(), AllocError>
        requires { end_of piece < 2 ^ 32 }
        ensures overlaid { OnOk result ((place : ℕ)
            → visible_at self.new place
            ≡ overlaid place piece.entry (visible_at self.old place)) }
        ensures two_ends { OnOk result (ends self.new ≤ ends self.old + 2) }
        ensures same { OnErr result
            ((place : ℕ) → visible_at self.new place ≡ visible_at self.old place) }
        ensures same_ends { OnErr result (ends self.new ≡ ends self.old) };

    /// Fills the slice with the file's bytes from a place on: those that are visible, and 0 where
    /// nothing is.
    fn read_at(&self, place: u64, out: &mut [u8])
        ensures { out.new
            ≡ each_below (length out.old)
            (λ index. byte_at (visible_at self.now (place + index))) };

    /// How many pieces or intervals are stored.
    fn pieces(&self) -> usize
        ensures { result ≤ ends self.now };
}
