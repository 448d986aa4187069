//! What the bytes of an extent are.

ghost use Rattle.std.specs.Prelude.{◌≡◌, ◌<◌, ◌≤◌, AllPairs, length};
ghost use Rattle.jmap.specs.ByteKinds.{byte_kind, is_kept_address, node_kind};
ghost use Rattle.jmap.specs.MapText.{kind_mark};
ghost use Rattle.jmap.specs.Picture.{kind_word};

use jnode::Seen;
use jscan::{Extent, ExtentKind};

/// What a byte of an image is.
#[derive(Clone, Copy, Debug, PartialEq, Eq)]
pub enum ByteKind {
    /// Of a node that is kept.
    Live,
    /// Of another sound node.
    Superseded,
    /// Of a node that is marked obsolete.
    Obsolete,
    /// Of a damaged node, or of no node.
    Damaged,
    /// Erased, or of a clean marker.
    Free,
}

impl ByteKind {
    /// Its character in a bar.
    pub(crate) fn mark(self) -> u8
        ensures { result ≡ kind_mark self }
    {
        match self {
            ByteKind::Live => b'#',
            ByteKind::Superseded => b'-',
            ByteKind::Obsolete => b'o',
            ByteKind::Damaged => b'!',
            ByteKind::Free => b'.',
        }
    }

    /// What it is called.
    pub(crate) fn word(self) -> &'static [u8]
        ensures word { result.now ≡ kind_word self }
        ensures short { length result.now ≤ 10 }
    {
        match self {
            ByteKind::Live => b"live",
            ByteKind::Superseded => b"superseded",
            ByteKind::Obsolete => b"obsolete",
            ByteKind::Damaged => b"damaged",
            ByteKind::Free => b"free",
        }
    }
}

/// Whether the node at an address is kept.
fn is_kept(kept: &[u32], addr: u32) -> bool
    requires { AllPairs (λ a b. a < b) kept.now }
    ensures { result ≡ is_kept_address kept.now addr }
{
    kept.binary_search(&addr).is_ok()
}

fn node_kind(kept: &[u32], addr: u32, seen: &Seen<'_>) -> ByteKind
    requires { AllPairs (λ a b. a < b) kept.now }
    ensures { result ≡ node_kind kept.now addr seen.now }
{
    match seen {
        Seen::Marker => ByteKind::Free,
        Seen::Obsolete => ByteKind::Obsolete,
        Seen::Damaged { .. } => ByteKind::Damaged,
        _ => {
            if is_kept(kept, addr) {
                ByteKind::Live
            } else {
                ByteKind::Superseded
            }
        }
    }
}

/// What the bytes of an extent are, if the nodes at these addresses are kept.
pub(crate) fn byte_kind(kept: &[u32], extent: &Extent<'_>) -> ByteKind
    requires { AllPairs (λ a b. a < b) kept.now }
    ensures { result ≡ byte_kind kept.now extent.now }
{
    match &extent.kind {
        ExtentKind::Tiled(seen) => node_kind(kept, extent.addr, seen),
        ExtentKind::Erased => ByteKind::Free,
        ExtentKind::OtherOrder | ExtentKind::Dirt => ByteKind::Damaged,
    }
}
