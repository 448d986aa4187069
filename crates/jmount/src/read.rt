//! The bytes of an object.

ghost use Rattle.std.specs.Prelude.{◌≡◌, ◌≢◌, ℕ, ◌-◌, ◌<◌, ◌≤◌, ◌++◌, false, Some, length, max, min, slice_index, take, drop};
ghost use Rattle.flashbase.specs.Sinks.{PutsTo};
ghost use Rattle.jfrag.specs.IntervalMap.{is_hole};
ghost use Rattle.jfrag.specs.Intervals.{piece_at};
ghost use Rattle.jmount.specs.Shown.{bytes_if, IsZeroRun};
ghost use Rattle.jmount.specs.Stored.{stored_object};

use crate::shown::has_bytes;
use crate::stored::Stored;
use flashbase::{DeviceFault, PutFault, Sink, put_all};
use jfrag::Overlay;

/// An object's bytes go out in pieces of this many.
const PIECE: usize = 4096;

/// Among so many of a node's next bytes zeros are looked for.
const GLANCE: usize = 64;

/// Fills the front of the slice with an object's bytes from an offset on, and says how many there
/// were.
pub fn read_stored(stored: &Stored<'_>, offset: u64, out: &mut [u8]) -> usize
    ensures count { result
        ≡ min (length out.old) (length (bytes_if (Some (stored_object stored.now))) - offset) }
    ensures bytes { out.new ≡ take result (drop offset (bytes_if (Some (stored_object stored.now))))
        ++ drop result out.old }
{
    if !has_bytes(stored.mode) {
        return 0;
    }
    let left = u64::from(stored.size).saturating_sub(offset) as usize;
    let count = left.min(out.len());
    stored.bytes.read_at(offset, &mut out[..count]);
    count
}

/// From an offset on, where the zeros end that no node has: a gap between its pieces, or one piece
/// of zeros. It is the offset itself where a node's byte is there.
pub fn hole_end_stored(stored: &Stored<'_>, offset: u64) -> u64
    ensures from { offset ≤ result }
    ensures within { result ≤ max offset (length (bytes_if (Some (stored_object stored.now)))) }
    ensures zeros { (i : ℕ) → offset ≤ i → i < result
        → slice_index (bytes_if (Some (stored_object stored.now))) i ≡ 0 }
    ensures bytes { result ≡ offset → offset < length (bytes_if (Some (stored_object stored.now)))
        → is_hole (piece_at stored.now.bytes offset) ≡ false }
{
    if !has_bytes(stored.mode) {
        return offset;
    }
    if offset >= u64::from(stored.size) {
        return offset;
    }
    let end = stored.bytes.hole_end(offset as u32);
    u64::from(end.min(stored.size))
}

/// How many zeros there are before the first byte that is none.
fn zero_run(bytes: &[u8]) -> usize
    ensures { IsZeroRun bytes.now result }
{
    bytes
        .iter()
        .position(|byte| *byte != 0)
        .unwrap_or(bytes.len())
}

/// From an offset on, where the zeros end that are found at once: those that no node has, or else
/// those at the front of a node's next bytes. It is the offset itself only if the byte there is no
/// zero, or at the end.
pub fn zeros_end_stored(stored: &Stored<'_>, offset: u64) -> u64
    ensures from { offset ≤ result }
    ensures within { result ≤ max offset (length (bytes_if (Some (stored_object stored.now)))) }
    ensures zeros { (i : ℕ) → offset ≤ i → i < result
        → slice_index (bytes_if (Some (stored_object stored.now))) i ≡ 0 }
    ensures stops { result ≡ offset → offset < length (bytes_if (Some (stored_object stored.now)))
        → slice_index (bytes_if (Some (stored_object stored.now))) offset ≢ 0 }
{
    let size = u64::from(stored.size);
    if size <= offset {
        return offset;
    }
    let hole = hole_end_stored(stored, offset);
    if offset < hole {
        return hole;
    }
    let mut next = [0u8; GLANCE];
    let count = read_stored(stored, offset, &mut next);
    offset + zero_run(&next[..count]) as u64
}

/// Puts all of an object's bytes, piece by piece.
pub fn put_stored<T: Sink>(stored: &Stored<'_>, sink: &mut T) -> Result<(), DeviceFault>
    ensures { PutsTo T.Sink sink.old sink.new (bytes_if (Some (stored_object stored.now))) result }
{
    if !has_bytes(stored.mode) {
        return Ok(());
    }
    let size = u64::from(stored.size);
    let mut piece = [0u8; PIECE];
    let mut offset = 0u64;
    while offset < size {
        let count = read_stored(stored, offset, &mut piece);
        match put_all(sink, &piece[..count]) {
            Ok(()) => offset += count as u64,
            Err(PutFault { .. }) => return Err(DeviceFault),
        }
    }
    Ok(())
}
