//! The row of a finding.

ghost use Rattle.std.specs.Prelude.{◌≡◌};
ghost use Rattle.jcalls.specs.FindingRows as rows;

use jnode::Seen;
use jscan::{Extent, ExtentKind};

/// What was found at an address: 1 a damaged node, 2 one of extended attributes, 3 one after which
/// nothing may be written, 4 words of the other byte order, 5 other words, 6 a node that may not be
/// skipped, 7 a sound inode node whose data are compressed.
#[repr(C)]
#[derive(Clone, Copy)]
pub struct FindingRow {
    pub address: u32,
    /// In bytes.
    pub length: u32,
    pub kind: u32,
    /// At 1 the check that failed (1 the node's checksum, 2 the name's, 3 the data's, 4 a length, 5
    /// a range), at 3 and 6 the type, at 7 the number of the compression; else 0.
    pub detail: u32,
}

fn node_finding(seen: &Seen<'_>) -> Option<(u32, u32)>
    ensures { result ≡ rows.node_finding seen.now }
{
    match seen {
        Seen::Damaged { which } => Some((1, which.number())),
        Seen::Attribute => Some((2, 0)),
        Seen::ReadOnly { nodetype } => Some((3, u32::from(*nodetype))),
        Seen::Incompatible { nodetype } => Some((6, u32::from(*nodetype))),
        Seen::Compressed { compr } => Some((7, u32::from(*compr))),
        Seen::Entry(_)
        | Seen::Inode(_)
        | Seen::Marker
        | Seen::Padding
        | Seen::Obsolete
        | Seen::Skippable { .. } => None,
    }
}

fn found_kind(kind: &ExtentKind<'_>) -> Option<(u32, u32)>
    ensures { result ≡ rows.found_kind kind.now }
{
    match kind {
        ExtentKind::Tiled(seen) => node_finding(seen),
        ExtentKind::OtherOrder => Some((4, 0)),
        ExtentKind::Dirt => Some((5, 0)),
        ExtentKind::Erased => None,
    }
}

/// The row of an extent that is found.
pub(crate) fn found_row(extent: &Extent<'_>) -> Option<FindingRow>
    ensures { result ≡ rows.found_row extent.now }
{
    let (kind, detail) = found_kind(&extent.kind)?;
    Some(FindingRow {
        address: extent.addr,
        length: extent.len,
        kind,
        detail,
    })
}
