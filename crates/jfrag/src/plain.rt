//! An overlay that is the list of its pieces.
ghost use Rattle.std.specs.Prelude.{◌≡◌, ℕ, ◌+◌, ◌*◌, ◌<◌, ◌≤◌, ◌^◌, length, slice_index, EachIndex, vec_len, All};
ghost use Rattle.jfrag.specs.Pieces.{end_of};
ghost use Rattle.jfrag.specs.Overlays.{visible, byte_at};

use super::overlays::Overlay;
use super::piece::Piece;
use std::alloc::{AllocError, Global};

/// The pieces in the order of arrival; each byte is looked up among all of them. An `add` takes no
/// time to speak of, reading m bytes goes m times over the pieces.
#[derive(Drop)]
pub struct PlainOverlay<'a> {
    pieces: Vec<Piece<'a>>,
    ghost fit: { All (λ piece. end_of piece < 2 ^ 32) pieces.items },
}

impl<'a> Overlay<'a> for PlainOverlay<'a> {
    ghost use Rattle.std.specs.Prelude.{OnOk, OnErr, ◌++◌, ◌∷◌, []};
    ghost use Rattle.jfrag.specs.Overlays.{overlaid};
    ghost use Rattle.jfrag.specs.Plain.{pieces_of};

    ghost visible_at = { λ s place. visible (pieces_of s) place };

    ghost ends = { λ s. 2 * length (pieces_of s) };

    fn new(alloc: Global) -> Self {
        PlainOverlay {
            pieces: Vec::new(alloc),
        }
    }

    fn add(&mut self, piece: Piece<'a>) -> Result<(), AllocError>
        requires { end_of piece < 2 ^ 32 }
        ensures added { OnOk result (pieces_of self.new ≡ pieces_of self.old ++ piece.entry ∷ []) }
        ensures overlaid { OnOk result ((place : ℕ)
            → visible (pieces_of self.new) place
            ≡ overlaid place piece.entry (visible (pieces_of self.old) place)) }
        ensures two_ends { OnOk result
            (2 * length (pieces_of self.new) ≤ 2 * length (pieces_of self.old) + 2) }
        ensures unchanged { OnErr result (pieces_of self.new ≡ pieces_of self.old) }
        ensures same { OnErr result
            ((place : ℕ)
            → visible (pieces_of self.new) place ≡ visible (pieces_of self.old) place) }
        ensures same_ends { OnErr result
            (2 * length (pieces_of self.new) ≡ 2 * length (pieces_of self.old)) }
    {
        self.pieces.push(piece)?;
        Ok(())
    }

    fn read_at(&self, place: u64, out: &mut [u8]) {
        fill(&self.pieces, place, out);
    }

    /// How many pieces were added.
    fn pieces(&self) -> usize
        ensures exact { result ≡ length (pieces_of self.now) }
        ensures bound { result ≤ 2 * length (pieces_of self.now) }
    {
        self.pieces.len()
    }
}

// Fills the slice with the bytes that are visible from a place on. No piece reaches 2 ^ 32.
fn fill(pieces: &[Piece<'_>], place: u64, out: &mut [u8])
    requires { All (λ piece. end_of piece < 2 ^ 32) pieces.now }
    ensures { EachIndex out.new
        (λ k. slice_index out.new k ≡ byte_at (visible pieces.now (place + k))) }
{
    for k in 0..out.len() {
        let there = visible_in(pieces, place.saturating_add(k as u64));
        out[k] = byte_at(there);
    }
}

// The byte that a reader gets.
fn byte_at(there: Option<(u32, u8)>) -> u8
    ensures { result ≡ byte_at there }
{
    there.map_or(0, |(_, byte)| byte)
}

// What is visible at the place: the byte of the highest version that covers it.
fn visible_in(pieces: &[Piece<'_>], place: u64) -> Option<(u32, u8)>
    ensures { result ≡ visible pieces.now place }
{
    let mut top = None;
    for piece in pieces {
        top = piece.overlaid_on(top, place);
    }
    top
}
