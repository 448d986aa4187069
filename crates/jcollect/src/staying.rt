//! Which nodes of an image stay where some clash, and the file system that they make.

ghost use Rattle.std.specs.Prelude.{◌≡◌, ◌==◌, ◌||◌, ℕ, not, filter, IfOk, IfSome, OnOk};
ghost use Rattle.std.specs.BTreeSet.{contains};
ghost use Rattle.std.specs.Ordering.{nat_cmp};
ghost use Rattle.jclash.specs.Parting.{AreByAddress};
ghost use Rattle.jmount.specs.Collected.{without_addresses};
ghost use Rattle.jthrough.specs.MountsThrough.{AnswersAlone};
ghost use Rattle.jthrough.specs.View.{IsViewOf};
ghost use Rattle.jcollect.specs.Staying.{AnswersStaying, StayPlaced, is_left_out};

use jclash::{LeftOut, Parted, without_clashing};
use jmount::{MountFault, Mounted, mount_nodes};
use jnode::{NodeRef, Order};
use jscan::{Finding, Geometry};
use jthrough::{View, ViewFault, nodes_of};
use std::alloc::{AllocError, Global};
use std::collections::BTreeSet;

/// The file system of the nodes that stay, these nodes, and those that are left out.
#[derive(Drop)]
pub struct Stayed<'a> {
    pub mounted: Mounted<'a>,
    /// The nodes that stay, each with its address.
    pub nodes: Vec<(u32, NodeRef<'a>)>,
    pub left: Vec<LeftOut>,
    /// How many sound nodes the image has.
    pub count: usize,
}

/// Adds an address.
fn add(out: &mut BTreeSet<u32>, addr: u32) -> Result<(), AllocError>
    ensures { OnOk result ((a : ℕ) → contains nat_cmp out.new a
        ≡ ((addr == a) || contains nat_cmp out.old a)) }
{
    out.insert(addr)?;
    Ok(())
}

/// The addresses of nodes that are left out.
fn addresses_left(alloc: Global, left: &[LeftOut]) -> Result<BTreeSet<u32>, AllocError>
    ensures { IfOk result (λ out. (a : ℕ) → contains nat_cmp out a ≡ is_left_out left.now a) }
{
    let mut out = BTreeSet::new(alloc);
    for one in left {
        add(&mut out, one.addr)?;
    }
    Ok(out)
}

/// Those of some nodes that are at none of these addresses.
fn elsewhere<'a>(
    addresses: &BTreeSet<u32>,
    nodes: Vec<(u32, NodeRef<'a>)>,
) -> Vec<(u32, NodeRef<'a>)>
    ensures { result.items
        ≡ filter (λ n. not (contains nat_cmp addresses.now n.0)) nodes.entry.items }
{
    let mut kept = nodes;
    kept.retain(|node| !addresses.contains(&node.0));
    kept
}

/// Nodes as a mount takes them. No two of them clash, so it tells no address.
fn unplaced<'a>(
    alloc: Global,
    nodes: Vec<NodeRef<'a>>,
) -> Result<Vec<(u32, NodeRef<'a>)>, AllocError>
    ensures { IfOk result
        (λ placed. without_addresses placed.items ≡ nodes.entry.items) }
{
    let mut placed = Vec::new(alloc);
    for node in nodes {
        placed.push((0, node))?;
    }
    Ok(placed)
}

/// The nodes that stay, with their addresses and once more without, and those that are left out.
fn stay_of<'a>(
    alloc: Global,
    nodes: Vec<(u32, NodeRef<'a>)>,
) -> Result<(Vec<(u32, NodeRef<'a>)>, Parted<'a>), AllocError>
    requires { AreByAddress nodes.items }
    ensures stay { IfOk result
        (λ parted. StayPlaced nodes.entry.items parted.0.items parted.1.left.items) }
    ensures same { IfOk result
        (λ parted. without_addresses parted.0.items ≡ parted.1.stay.items) }
{
    let parted = without_clashing(alloc, &nodes)?;
    let out = addresses_left(alloc, &parted.left)?;
    Ok((elsewhere(&out, nodes), parted))
}

/// Mounts the nodes of a view that stay where some clash: all but those that one of a higher address
/// clashes with. `contents` are those that `view_image` left. O(n log n) for n nodes.
///
/// # Errors
/// What refuses the view; else `RootKind`. `OutOfMemory` may come at any time.
pub fn mount_staying<'a, E: Order>(
    alloc: Global,
    image: &'a [u8],
    geometry: Geometry,
    view: View<'a>,
    contents: &'a [u8],
) -> Result<Stayed<'a>, ViewFault>
    requires viewed { IsViewOf E.order geometry.block image.now contents.now view }
    requires refused { IfSome view.refused (AnswersAlone E.order geometry.block image.now) }
    ensures { AnswersStaying E.order geometry.block image.now result }
{
    let View {
        tiles,
        findings,
        read_only,
        refused,
        ..
    } = view;
    if let Some(why) = refused {
        return Err(why);
    }
    let nodes = nodes_of::<E>(alloc, image, geometry, tiles, contents)?;
    let count = nodes.len();
    let parted = stay_of(alloc, nodes)?;
    let (nodes, Parted { stay, left }) = parted;
    let placed = unplaced(alloc, stay)?;
    match mount_nodes(alloc, image, placed, findings, read_only) {
        Ok(mounted) => Ok(Stayed {
            mounted,
            nodes,
            left,
            count,
        }),
        Err(why) => Err(ViewFault::from(why)),
    }
}
