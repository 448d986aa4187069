//! The size and the digest of the bytes of an object.

ghost use Rattle.std.specs.Prelude.{◌≡◌, ◌==◌, ◌||◌, length, option_map};
ghost use Rattle.sha2.specs.Sha256.{sha256};
ghost use Rattle.jmount.specs.Shown.{readable};
ghost use Rattle.jmount.specs.Tree.{object, regular_bits, symlink_bits, type_bits};
ghost use Rattle.jpast.specs.Pasts.{body_if, content_summed};

use crate::past::Content;
use jmount::{Mounted, Object, REGULAR_BITS, type_bits};
use sha2::{Digest, Sha256};

/// Bits 12 to 15 of the mode of a symlink (Linux, `include/uapi/linux/stat.h`).
const SYMLINK_BITS: u32 = 10;

/// So many bytes are read at a time.
const PIECE: usize = 4096;

/// The digest of the bytes of an object, which has so many.
fn digest_of(mounted: &Mounted<'_>, ino: u32, size: u32) -> [u8; 32]
    requires { length (readable mounted.now.state ino) ≡ size }
    ensures { result ≡ sha256 (readable mounted.now.state ino) }
{
    let mut hasher = Sha256::new();
    let mut piece = [0u8; PIECE];
    let mut offset = 0u64;
    while offset < u64::from(size) {
        let count = mounted.read_at(ino, offset, &mut piece);
        hasher.update(&piece[..count]);
        offset += count as u64;
    }
    hasher.finalize()
}

/// Whether an object is a regular file or a symlink.
fn has_body(object: &Object) -> bool
    ensures { result ≡ ((type_bits object.now.mode == regular_bits)
        || (type_bits object.now.mode == symlink_bits)) }
{
    matches!(type_bits(object.mode), REGULAR_BITS | SYMLINK_BITS)
}

/// What the bytes of an object are, if it is a regular file or a symlink. Takes no memory.
pub(crate) fn content_of(mounted: &Mounted<'_>, ino: u32) -> Option<Content>
    ensures { result ≡ option_map content_summed (body_if (object mounted.now.state ino)) }
{
    let Some(object) = mounted.object(ino) else {
        return None;
    };
    if !has_body(&object) {
        return None;
    }
    Some(Content {
        size: object.size,
        digest: digest_of(mounted, ino, object.size),
    })
}
