//! How the intervals of an overlay are stored.
ghost use Rattle.std.specs.Prelude.{◌≡◌, ◌*◌, ℕ, ◌+◌, ◌<◌, ◌≤◌, ◌^◌, true, false, IfOk, OnOk, OnErr, length, slice_index, EachIndex};
ghost use Rattle.std.specs.BTreeMap.{btree_map_len};
ghost use Rattle.jfrag.specs.Pieces.{end_of};
ghost use Rattle.jfrag.specs.Overlays.{byte_at};
ghost use Rattle.jfrag.specs.IntervalMap.{interval_at, is_hole, seen, overwritten, IsCovered, IsSettled, IsTight};
ghost use Rattle.jfrag.specs.Intervals.{IsIntervalCount};
ghost use Rattle.jfrag.specs.Layouts.{IsSoundLayout, laid_at, laid_ends, of_one};

use super::interval_map::{self, Intervals, show_part};
use super::piece::Piece;
use std::alloc::{AllocError, Global};
use std::collections::BTreeMap;

/// Most files have one piece or none, for which a map would take memory for many.
#[derive(Drop)]
pub enum Layout<'a> {
    Empty,
    /// One piece, of one byte at least.
    One(Piece<'a>),
    Map(Intervals<'a>),
}

// Overlays one more piece.
pub(crate) fn add<'a>(
    alloc: Global,
    layout: &mut Layout<'a>,
    piece: Piece<'a>,
) -> Result<(), AllocError>
    requires fits { end_of piece < 2 ^ 32 }
    requires whole { IsSoundLayout layout.old }
    ensures overwritten { OnOk result
        ((i : ℕ) → laid_at layout.new i ≡ overwritten piece.entry i (laid_at layout.old i)) }
    ensures whole { IsSoundLayout layout.new }
    ensures ends { OnOk result (laid_ends layout.new ≤ laid_ends layout.old + 2) }
    ensures same { OnErr result ((i : ℕ) → laid_at layout.new i ≡ laid_at layout.old i) }
    ensures same_ends { OnErr result (laid_ends layout.new ≡ laid_ends layout.old) }
{
    match layout {
        Layout::Empty => {
            if piece.offset < piece.end() {
                *layout = Layout::One(piece);
            }
            Ok(())
        }
        Layout::One(first) => {
            let intervals = map_of(alloc, first, &piece)?;
            *layout = Layout::Map(intervals);
            Ok(())
        }
        Layout::Map(intervals) => interval_map::overlay_piece(intervals, &piece),
    }
}

// The map of two pieces, the second overlaid on the first.
fn map_of<'a>(
    alloc: Global,
    first: &Piece<'a>,
    second: &Piece<'a>,
) -> Result<Intervals<'a>, AllocError>
    requires first { end_of first.now < 2 ^ 32 }
    requires second { end_of second.now < 2 ^ 32 }
    ensures overwritten { IfOk result
        (λ map. (i : ℕ)
        → interval_at map.entries i ≡ overwritten second.now i (of_one first.now i)) }
    ensures covered { IfOk result (λ map. IsCovered map.entries) }
    ensures settled { IfOk result (λ map. IsSettled map.entries) }
    ensures tight { IfOk result IsTight }
    ensures ends { IfOk result (λ map. btree_map_len map ≤ 4) }
{
    let mut intervals = BTreeMap::new(alloc);
    interval_map::overlay_piece(&mut intervals, first)?;
    interval_map::overlay_piece(&mut intervals, second)?;
    Ok(intervals)
}

// Fills the slice with what is visible from a place on. Nothing is visible from 2 ^ 32 - 1 on.
pub(crate) fn read(layout: &Layout<'_>, place: u64, out: &mut [u8])
    requires { IsSoundLayout layout.now }
    ensures { EachIndex out.new
        (λ k. slice_index out.new k ≡ byte_at (seen (laid_at layout.now (place + k)) (place + k))) }
{
    match layout {
        Layout::Empty => out.fill(0),
        Layout::One(piece) => {
            if place < u64::from(u32::MAX) {
                read_one(piece, place as u32, out);
            } else {
                out.fill(0);
            }
        }
        Layout::Map(intervals) => interval_map::read(intervals, place, out),
    }
}

// Fills the slice with a piece's bytes from a place on, and with 0 beside the piece.
fn read_one(piece: &Piece<'_>, from: u32, out: &mut [u8])
    requires { end_of piece.now < 2 ^ 32 }
    ensures { EachIndex out.new
        (λ k. slice_index out.new k ≡ byte_at (seen (of_one piece.now (from + k)) (from + k))) }
{
    let count = out.len();
    let start = index_of(piece.offset, from, count);
    let end = index_of(piece.end(), from, count);
    show_part(&None, from, 0, start, out);
    if start < end {
        show_part(&Some(piece.copied()), from, start, end, out);
    }
    show_part(&None, from, end, count, out);
}

// How many of so many places from `from` on lie before a place.
fn index_of(place: u32, from: u32, count: usize) -> usize
    ensures before { (k : ℕ) → k < result → from + k < place }
    ensures after { (k : ℕ) → result ≤ k → k < count → place ≤ from + k }
    ensures most { result ≤ count }
{
    let past = place.saturating_sub(from) as usize;
    past.min(count)
}

// Where the interval at a place ends that shows zeros, 2 ^ 32 - 1 at most; the place itself where
// it shows bytes.
pub(crate) fn hole_end(layout: &Layout<'_>, at: u32) -> u32
    requires whole { IsSoundLayout layout.now }
    requires place { at < 4294967295 }
    ensures from { at ≤ result }
    ensures holes { (i : ℕ) → at ≤ i → i < result → is_hole (laid_at layout.now i) ≡ true }
    ensures bytes { result ≡ at → is_hole (laid_at layout.now at) ≡ false }
{
    match layout {
        Layout::Empty => u32::MAX,
        Layout::One(piece) => hole_beside(piece, at),
        Layout::Map(intervals) => interval_map::hole_end(intervals, at),
    }
}

// The same where one piece is all that there is.
fn hole_beside(piece: &Piece<'_>, at: u32) -> u32
    requires fits { end_of piece.now < 2 ^ 32 }
    requires place { at < 4294967295 }
    ensures from { at ≤ result }
    ensures holes { (i : ℕ) → at ≤ i → i < result → is_hole (of_one piece.now i) ≡ true }
    ensures bytes { result ≡ at → is_hole (of_one piece.now at) ≡ false }
{
    if at < piece.offset {
        piece.offset
    } else if at >= piece.end() {
        u32::MAX
    } else if piece.is_zeros() {
        piece.end()
    } else {
        at
    }
}

// How many intervals there are.
pub(crate) fn count(layout: &Layout<'_>) -> usize
    requires { IsSoundLayout layout.now }
    ensures exact { IsIntervalCount (laid_at layout.now) result }
    ensures bound { result ≤ laid_ends layout.now }
{
    match layout {
        Layout::Empty => 0,
        Layout::One(_) => 1,
        Layout::Map(intervals) => interval_map::count(intervals),
    }
}
