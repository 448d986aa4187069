//! What a scan finds beside the nodes, and what it refuses.

ghost use Rattle.std.specs.Prelude.{◌≡◌};
ghost use Rattle.jscan.specs.Findings.{found_node, found, finding_of, refused_node, refusal_of};

use crate::extent::{Extent, ExtentKind};
use crate::geometry::ScanFault;
use jnode::{Damage, Seen};

/// Something in an image that is no node of its file system, nor erased.
#[derive(Clone, Copy, Debug, PartialEq, Eq)]
pub struct Finding {
    /// Where it begins, in bytes from the start of the image.
    pub addr: u32,
    pub kind: FindingKind,
}

/// What a finding is.
#[derive(Clone, Copy, Debug, PartialEq, Eq)]
pub enum FindingKind {
    /// A node that fails a check.
    Damaged(Damage),
    /// A node of extended attributes.
    Attribute,
    /// A node of this unknown type, after which nothing may be written.
    ReadOnly(u16),
    /// Words that begin with the magic number of the other byte order.
    OtherOrder,
    /// Words of any other bytes.
    Dirt,
}

fn found_node(seen: &Seen<'_>) -> Option<FindingKind>
    ensures { result ≡ found_node seen.now }
{
    match seen {
        Seen::Damaged { which } => Some(FindingKind::Damaged(*which)),
        Seen::Attribute => Some(FindingKind::Attribute),
        Seen::ReadOnly { nodetype } => Some(FindingKind::ReadOnly(*nodetype)),
        _ => None,
    }
}

fn found(kind: &ExtentKind<'_>) -> Option<FindingKind>
    ensures { result ≡ found kind.now }
{
    match kind {
        ExtentKind::Tiled(seen) => found_node(seen),
        ExtentKind::Erased => None,
        ExtentKind::OtherOrder => Some(FindingKind::OtherOrder),
        ExtentKind::Dirt => Some(FindingKind::Dirt),
    }
}

fn refused_node(addr: u32, seen: &Seen<'_>) -> Option<ScanFault>
    ensures { result ≡ refused_node addr seen.now }
{
    match seen {
        Seen::Incompatible { nodetype } => Some(ScanFault::Incompatible {
            addr,
            nodetype: *nodetype,
        }),
        Seen::Compressed { compr } => Some(ScanFault::Compressed {
            addr,
            compr: *compr,
        }),
        _ => None,
    }
}

impl Extent<'_> {
    /// The finding that an extent is, if it is one.
    pub fn finding(&self) -> Option<Finding>
        ensures { result ≡ finding_of self.now }
    {
        let kind = found(&self.kind)?;
        Some(Finding {
            addr: self.addr,
            kind,
        })
    }

    /// Why no image may have this extent, if that is so: a node that may not be skipped is
    /// `Incompatible`, and a sound one whose data are compressed is `Compressed`.
    pub fn refusal(&self) -> Option<ScanFault>
        ensures { result ≡ refusal_of self.now }
    {
        match &self.kind {
            ExtentKind::Tiled(seen) => refused_node(self.addr, seen),
            _ => None,
        }
    }
}
