//! The other node of a clash: that of the lowest address.

ghost use Rattle.std.specs.Prelude.{◌≡◌, ◌↔◌, ◌==◌, IsTrue, None, Some, if◌then◌else◌};
ghost use Rattle.jnode.specs.Reading.{node_in};
ghost use Rattle.jnode.specs.declared.node.NodeRef.{NodeRef};
ghost use Rattle.jscan.specs.Image.{nodes};
ghost use Rattle.jscan.specs.Scans.{IsScannable};
ghost use Rattle.jmount.specs.Clash.{NodesClash};
ghost use Rattle.jclash.specs.Lowest.{IsClashBelow, IsLowestAmong, IsNodeOfAddress};

use crate::sameness::{is_same_entry, is_same_inode, is_same_part};
use jnode::{NodeRef, Order, Seen};
use jscan::{Geometry, Sightings};

/// The node that is seen, if one is.
fn node_in<'a>(seen: Seen<'a>) -> Option<NodeRef<'a>>
    ensures { result ≡ node_in seen.entry }
{
    match seen {
        Seen::Entry(entry) => Some(NodeRef::Entry(entry)),
        Seen::Inode(inode) => Some(NodeRef::Inode(inode)),
        _ => None,
    }
}

/// The same where it is seen at this address.
fn node_in_at<'a>(seen: Seen<'a>, at: u32, addr: u32) -> Option<NodeRef<'a>>
    ensures { result ≡ (if at == addr then node_in seen.entry else None) }
{
    if at == addr { node_in(seen) } else { None }
}

/// The node at an address.
fn node_at<'a, E: Order>(image: &'a [u8], geometry: Geometry, addr: u32) -> Option<NodeRef<'a>>
    requires { IsScannable geometry.block image.now }
    ensures { IsNodeOfAddress (nodes E.order geometry.block image.now) addr result }
{
    let Ok(sightings) = Sightings::<E>::new(image, geometry) else {
        return None;
    };
    for (at, seen) in sightings {
        if let Some(node) = node_in_at(seen, at, addr) {
            return Some(node);
        }
    }
    None
}

/// Whether two nodes clash.
fn clash(a: &NodeRef<'_>, b: &NodeRef<'_>) -> bool
    ensures { IsTrue result ↔ NodesClash a.now b.now }
{
    match (a, b) {
        (NodeRef::Entry(a), NodeRef::Entry(b)) => {
            a.pino == b.pino
                && a.version == b.version
                && is_same_part(&a.name, &b.name)
                && !is_same_entry(a, b)
        }
        (NodeRef::Inode(a), NodeRef::Inode(b)) => {
            a.ino == b.ino && a.version == b.version && !is_same_inode(a, b)
        }
        _ => false,
    }
}

/// Whether what is seen is a node that clashes with this one.
fn clashes_seen(seen: Seen<'_>, node: &NodeRef<'_>) -> bool
    ensures { IsTrue result ↔ ((other : NodeRef) × (node_in seen.entry ≡ Some other)
        × NodesClash other node.now) }
{
    match node_in(seen) {
        Some(other) => clash(&other, node),
        None => false,
    }
}

/// The lowest address of a node that clashes with this one.
fn lowest_clash<E: Order>(image: &[u8], geometry: Geometry, node: &NodeRef<'_>) -> Option<u32>
    requires { IsScannable geometry.block image.now }
    ensures { IsLowestAmong (nodes E.order geometry.block image.now) node.now result }
{
    let Ok(sightings) = Sightings::<E>::new(image, geometry) else {
        return None;
    };
    for (at, seen) in sightings {
        if clashes_seen(seen, node) {
            return Some(at);
        }
    }
    None
}

/// The lowest address of a node of an image that clashes with the one at this address, where it is
/// below that one. It takes no memory, and goes over the image at most twice.
pub fn clash_below<E: Order>(image: &[u8], geometry: Geometry, addr: u32) -> Option<u32>
    requires { IsScannable geometry.block image.now }
    ensures { IsClashBelow (nodes E.order geometry.block image.now) addr result }
{
    let Some(node) = node_at::<E>(image, geometry, addr) else {
        return None;
    };
    let Some(below) = lowest_clash::<E>(image, geometry, &node) else {
        return None;
    };
    if below >= addr {
        return None;
    }
    Some(below)
}
