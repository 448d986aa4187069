//! Where nodes go in a row of openings.

ghost use Rattle.std.specs.Prelude.{◌≡◌, ◌≤◌, ◌+◌, length, IsTrue};
ghost use Rattle.std.specs.List.{AllByRecursion};
ghost use Rattle.flashbase.specs.Bytes.{pad4_of};
ghost use Rattle.jnode.specs.Writing.{totlen_most};
ghost use Rattle.jlog.specs.Places.{is_writable_flash};
ghost use Rattle.jopenings.specs.Stretches.{AreStretches};
ghost use Rattle.jupdate.specs.Rows.{IsOpen, FindsSpot, ends_of, free_in, left_at, left_in};

use flashbase::pad4;
use jlog::{Blocks, free, place_of};
use jopenings::Stretch;

/// Where a log goes on in a row of openings.
#[derive(Clone, Copy)]
pub(crate) struct Cursor {
    /// How many of them were passed.
    pub passed: usize,
    /// Where the next one goes on in its block.
    pub place: u32,
}

/// Where a node goes in a row of openings.
#[derive(Clone, Copy)]
pub(crate) struct Spot {
    /// Which opening takes it, and from where that goes on.
    pub cursor: Cursor,
    /// The number of its block.
    pub block: u32,
    /// The node's place in the block.
    pub at: u32,
}

/// Where an opening goes on; or the end of the row.
pub(crate) fn begin_of(flash: Blocks, stretches: &[Stretch], passed: usize) -> Cursor
    requires flash { IsTrue (is_writable_flash flash.size flash.count) }
    requires stretches { AreStretches flash.size 0 flash.count stretches.now }
    ensures left { left_at (ends_of stretches.now) result ≡ left_in passed stretches.now }
    ensures passed { result.passed ≡ passed }
{
    match stretches.get(passed) {
        Some(stretch) => Cursor {
            passed,
            place: stretch.place + stretch.len,
        },
        None => Cursor { passed, place: 0 },
    }
}

/// Where the next node, of `len` bytes, goes: into the first opening, from the cursor on, whose
/// block it does not cross.
pub(crate) fn find(flash: Blocks, stretches: &[Stretch], cursor: Cursor, len: u32) -> Option<Spot>
    requires flash { IsTrue (is_writable_flash flash.size flash.count) }
    requires stretches { AreStretches flash.size 0 flash.count stretches.now }
    requires openings { AllByRecursion (IsOpen flash.size flash.count)
        (left_at (ends_of stretches.now) cursor) }
    requires len { len ≤ totlen_most }
    ensures { FindsSpot flash.size (ends_of stretches.now) cursor len result }
{
    let mut next = cursor;
    while next.passed < stretches.len() {
        if let Some(at) = place_of(flash.size, 1, next.place, len) {
            return Some(Spot {
                cursor: next,
                block: stretches[next.passed].block,
                at,
            });
        }
        next = begin_of(flash, stretches, next.passed + 1);
    }
    None
}

/// Where a log goes on behind a node of `len` bytes.
pub(crate) fn behind(spot: Spot, len: u32) -> Cursor
    requires at { spot.at ≤ totlen_most }
    requires len { len ≤ totlen_most }
    ensures passed { result.passed ≡ spot.cursor.passed }
    ensures place { result.place ≡ spot.at + pad4_of len }
{
    Cursor {
        passed: spot.cursor.passed,
        place: spot.at + pad4(len) as u32,
    }
}

/// The bytes that are left, less a marker for each block that is not begun.
pub(crate) fn free_in(flash: Blocks, stretches: &[Stretch], cursor: Cursor) -> u64
    requires flash { IsTrue (is_writable_flash flash.size flash.count) }
    requires stretches { AreStretches flash.size 0 flash.count stretches.now }
    requires openings { AllByRecursion (IsOpen flash.size flash.count)
        (left_at (ends_of stretches.now) cursor) }
    requires few { length (left_at (ends_of stretches.now) cursor) ≤ flash.count }
    ensures { result ≡ free_in flash.size (left_at (ends_of stretches.now) cursor) }
{
    let mut sum = 0;
    let mut next = cursor;
    while next.passed < stretches.len() {
        sum += free(flash.size, 1, next.place);
        next = begin_of(flash, stretches, next.passed + 1);
    }
    sum
}
