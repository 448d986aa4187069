//! Data, packed.

ghost use Rattle.std.specs.Prelude.{◌≡◌, ◌≤◌, length, Some, IfOk, IfErr, IfSome, IsTrue};
ghost use Rattle.jcompr.specs.Zlib.{zlib_of};
ghost use Rattle.jnode.specs.Writing.{totlen_most};
ghost use Rattle.jpacked.specs.Forms.{IsStreamOf, is_worth};

use flashbase::{Part, pad4};
use jnode::INODE_LEN;
use jpack::{Packer, compress};
use std::alloc::{AllocError, Global};

/// A node of this length spells the magic of a header.
const SPELLING: usize = 0x1985;

/// Where data are packed: the memory of a compressor, and data of a node put together.
#[derive(Drop)]
pub struct Packing {
    packer: Packer,
    /// Data of which the end is missing.
    whole: Vec<u8>,
}

impl Packing {
    pub(crate) fn new(alloc: Global) -> Result<Packing, AllocError> {
        match Packer::new(alloc) {
            Ok(packer) => Ok(Packing {
                packer,
                whole: Vec::new(alloc),
            }),
            Err(_) => Err(AllocError),
        }
    }
}

/// Whether so many bytes of packed data make a node of fewer words than so many bytes as they are,
/// and of a length that does not spell the magic.
fn is_worth(packed: usize, plain: usize) -> bool
    requires packed { packed ≤ totlen_most }
    requires plain { plain ≤ totlen_most }
    ensures { result ≡ is_worth packed plain }
{
    0 < packed
        && pad4((INODE_LEN + packed) as u32) < pad4((INODE_LEN + plain) as u32)
        && INODE_LEN + packed != SPELLING
}

fn pack_bytes<'p>(
    alloc: Global,
    bytes: &[u8],
    packer: &'p mut Packer,
) -> Result<Option<&'p [u8]>, AllocError>
    ensures { IfOk result
        (λ answer. IfSome answer (λ stream. IsStreamOf bytes.now stream.now)) }
{
    match compress(alloc, bytes, packer) {
        Ok(Some(stream)) => {
            if is_worth(stream.len(), bytes.len()) {
                Ok(Some(stream))
            } else {
                Ok(None)
            }
        }
        Ok(None) => Ok(None),
        Err(_) => Err(AllocError),
    }
}

/// Packs the data of a node, where it is worth it.
pub(crate) fn pack<'p>(
    alloc: Global,
    part: &Part<'_>,
    packing: &'p mut Packing,
) -> Result<Option<&'p [u8]>, AllocError>
    ensures { IfOk result
        (λ answer. IfSome answer (λ stream. IsStreamOf part.now stream.now)) }
{
    let Packing { packer, whole } = packing;
    let present = part.present();
    if present.len() == part.len() {
        return pack_bytes(alloc, present, packer);
    }
    whole.clear();
    whole.reserve(part.len())?;
    part.put_onto(whole);
    pack_bytes(alloc, whole, packer)
}
