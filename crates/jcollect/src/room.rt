//! Whether there is room for nodes.

ghost use Rattle.std.specs.Prelude.{◌≡◌, ◌≢◌, ◌≤◌, ◌+◌, Some, IfSome, IfOk, IfErr, OnOk, IsTrue, length};
ghost use Rattle.std.specs.List.{AllByRecursion};
ghost use Rattle.flashbase.specs.Bytes.{pad4_of};
ghost use Rattle.jnode.specs.Writing.{totlen_most};
ghost use Rattle.jlog.specs.Places.{is_writable_flash};
ghost use Rattle.jcollect.specs.Collecting.{FitBlocks};
ghost use Rattle.jcollect.specs.Planning.{IsWriteCursor, IsSoundNodeAt, IsRoomBehind, tiles_fault};
ghost use Rattle.jcollect.specs.Tiles.{copied_image};
ghost use Rattle.jcollect.specs.declared.fault.CollectFault.TheVariants.{OutOfMemory};

use crate::fault::CollectFault;
use crate::tile::tile_at;
use flashbase::pad4;
use jlog::{free, place_of};
use jnode::{MARKER_LEN, Order};
use jscan::Geometry;

/// What is known of nodes that were counted.
#[derive(Clone, Copy)]
pub(crate) struct Tally {
    /// The bytes that they need.
    pub needed: u64,
    /// Where the next one may begin, while there is room.
    pub room: Option<u32>,
}

/// Where the node after one of `len` bytes may begin, if there is room for that one.
fn room_after(geometry: Geometry, blocks: u32, room: Option<u32>, len: u32) -> Option<u32>
    requires flash { IsTrue (is_writable_flash geometry.block blocks) }
    requires room { IfSome room (IsWriteCursor geometry.block blocks) }
    requires len { len ≤ totlen_most }
    ensures { IsRoomBehind geometry.block blocks room len result }
{
    let from = room?;
    let at = place_of(geometry.block, blocks, from, len)?;
    Some(at + pad4(len) as u32)
}

/// What is known with a node of `len` bytes more. More than 64 bits count take more memory than
/// there is.
fn with_node(tally: Tally, geometry: Geometry, blocks: u32, len: u32) -> Result<Tally, CollectFault>
    requires flash { IsTrue (is_writable_flash geometry.block blocks) }
    requires room { IfSome tally.room (IsWriteCursor geometry.block blocks) }
    requires len { len ≤ totlen_most }
    ensures needed { IfOk result (λ new. new.needed ≡ tally.needed + pad4_of len) }
    ensures room { IfOk result
        (λ new. IsRoomBehind geometry.block blocks tally.room len new.room) }
    ensures memory { IfErr result (λ fault. fault ≡ OutOfMemory) }
{
    match tally.needed.checked_add(pad4(len)) {
        Some(needed) => Ok(Tally {
            needed,
            room: room_after(geometry, blocks, tally.room, len),
        }),
        None => Err(CollectFault::OutOfMemory),
    }
}

/// How many bytes the image of the nodes at these addresses has, which go out from the start of an
/// erased flash of so many blocks on.
///
/// # Errors
/// `TooLong`: of the nodes that no block holds the first. Else `Full`. More than 64 bits count are
/// needed: out of memory.
pub fn bytes_needed<E: Order>(
    image: &[u8],
    geometry: Geometry,
    blocks: u32,
    addresses: &[u32],
) -> Result<u32, CollectFault>
    requires flash { IsTrue (is_writable_flash geometry.block blocks) }
    requires nodes { AllByRecursion (IsSoundNodeAt E.order geometry.block image.now) addresses.now }
    ensures room { OnOk result
        (FitBlocks E.order geometry.block blocks image.now addresses.now) }
    ensures bytes { IfOk result (λ bytes. bytes
        ≡ length (copied_image E.order geometry.block image.now addresses.now)) }
    ensures refused { IfErr result (λ fault. fault ≢ OutOfMemory
        → tiles_fault E.order geometry.block blocks image.now addresses.now ≡ Some fault) }
{
    let mut tally = Tally {
        needed: 0,
        room: Some(0),
    };
    for addr in addresses {
        let len = tile_at::<E>(image, geometry, *addr).len() as u32;
        if geometry.block < MARKER_LEN as u32 + len {
            return Err(CollectFault::TooLong { addr: *addr });
        }
        tally = match with_node(tally, geometry, blocks, len) {
            Ok(tally) => tally,
            Err(fault) => return Err(fault),
        };
    }
    match tally.room {
        Some(end) => Ok(end),
        None => Err(CollectFault::Full {
            needed: tally.needed,
            free: free(geometry.block, blocks, 0),
        }),
    }
}
