//! Whether there is room for the nodes of steps.

ghost use Rattle.std.specs.Prelude.{◌≡◌, ◌≤◌, ◌+◌, ◌*◌, ◌%◌, ℕ, IsTrue, length};
ghost use Rattle.jscan.specs.Pages.{IsPage};
ghost use Rattle.jsteps.specs.Planning.{most_steps};
ghost use Rattle.jlog.specs.Places.{is_writable_flash, fit, last_end_within, least_blocks, needed, free};
ghost use Rattle.jlog.specs.Running.{written, CanWriteAll, CanWriteIn};

use crate::node::node_len;
use crate::place::place_of;
use flashbase::pad4;
use jnode::{MARKER_LEN, Order};
use jscan::GREATEST_IMAGE;
use jsteps::{Index, Step};

/// Where the last of the nodes of steps ends, where they fit; 0 of no steps.
fn last_end<E: Order>(
    _index: &Index,
    block: u32,
    blocks: u32,
    cursor: u32,
    steps: &[Step<'_>],
) -> Option<u32>
    requires flash { IsTrue (is_writable_flash block blocks) }
    requires within { cursor ≤ blocks * block }
    requires word { cursor % 4 ≡ 0 }
    requires steps { CanWriteIn block E.order _index.now steps.now }
    ensures { result
        ≡ last_end_within block blocks cursor (written E.order _index.now steps.now) }
{
    let mut last = 0;
    let mut end = cursor;
    let mut i = 0;
    while i < steps.len() {
        let len = node_len(&steps[i]) as u32;
        match place_of(block, blocks, end, len) {
            Some(at) => {
                last = last.max(at + len);
                end = at + pad4(len) as u32;
            }
            None => return None,
        }
        i += 1;
    }
    Some(last)
}

/// Whether the nodes of steps fit.
pub fn has_room<E: Order>(
    index: &Index,
    block: u32,
    blocks: u32,
    cursor: u32,
    steps: &[Step<'_>],
) -> bool
    requires flash { IsTrue (is_writable_flash block blocks) }
    requires within { cursor ≤ blocks * block }
    requires word { cursor % 4 ≡ 0 }
    requires steps { CanWriteIn block E.order index.now steps.now }
    ensures { result ≡ fit block blocks cursor (written E.order index.now steps.now) }
{
    last_end::<E>(index, block, blocks, cursor, steps).is_some()
}

/// The least number of blocks that hold the nodes of steps, where the greatest flash does.
pub fn least_blocks<E: Order>(
    index: &Index,
    block: u32,
    blocks: u32,
    cursor: u32,
    steps: &[Step<'_>],
) -> Option<u32>
    requires flash { IsTrue (is_writable_flash block blocks) }
    requires within { cursor ≤ blocks * block }
    requires word { cursor % 4 ≡ 0 }
    requires steps { CanWriteIn block E.order index.now steps.now }
    ensures { result ≡ least_blocks block cursor (written E.order index.now steps.now) }
{
    let most = (GREATEST_IMAGE / block as usize) as u32;
    match last_end::<E>(index, block, most, cursor, steps) {
        Some(end) => Some(end.div_ceil(block)),
        None => None,
    }
}

/// The bytes that the nodes of steps need.
pub fn needed<E: Order>(_index: &Index, steps: &[Step<'_>]) -> u64
    requires steps { (page : ℕ) × IsPage page × CanWriteAll page E.order _index.now steps.now }
    requires few { length steps.now ≤ most_steps }
    ensures { result ≡ needed (written E.order _index.now steps.now) }
{
    let mut sum = 0;
    let mut i = 0;
    while i < steps.len() {
        sum += pad4(node_len(&steps[i]) as u32);
        i += 1;
    }
    sum
}

/// The bytes that are left, less a marker for each block that is not begun.
pub fn free(block: u32, blocks: u32, cursor: u32) -> u64
    requires flash { IsTrue (is_writable_flash block blocks) }
    requires within { cursor ≤ blocks * block }
    ensures { result ≡ free block blocks cursor }
{
    let begun = cursor.div_ceil(block);
    let left = u64::from(blocks) * u64::from(block) - u64::from(cursor);
    left - MARKER_LEN as u64 * u64::from(blocks - begun)
}
