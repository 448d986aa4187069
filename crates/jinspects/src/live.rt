//! Which nodes of an image matter, through its compression.
ghost use Rattle.std.specs.Prelude.{◌≡◌, IfOk, map};
ghost use Rattle.jview.specs.Through.{IsMountThroughOf};
ghost use Rattle.jinspects.specs.Live.{AreLive, HoldsContents};

use jmount::Mounted;
use jnode::{NodeRef, Order};
use jscan::Geometry;
use jthrough::nodes_through;
use std::alloc::{AllocError, Global};

/// Where nodes lie.
fn addresses_of(alloc: Global, nodes: &[(u32, NodeRef<'_>)]) -> Result<Vec<u32>, AllocError>
    ensures { IfOk result (λ found. found.items ≡ map (λ n. n.0) nodes.now) }
{
    let mut addresses = Vec::new(alloc);
    for node in nodes {
        addresses.push(node.0)?;
    }
    Ok(addresses)
}

/// Where the nodes of a mounted image lie that matter. `contents` are those that `view_image` left.
pub(crate) fn live_addresses<E: Order>(
    alloc: Global,
    mounted: &Mounted<'_>,
    geometry: Geometry,
    contents: &[u8],
) -> Result<Vec<u32>, AllocError>
    requires mount { IsMountThroughOf E.order geometry.block mounted.now }
    requires held { HoldsContents E.order geometry.block mounted.now.image contents.now }
    ensures { IfOk result
        (λ live. AreLive E.order geometry.block mounted.now.image live.items) }
{
    let nodes = nodes_through::<E>(alloc, mounted.image(), geometry, contents)?;
    let kept = jcompact::kept(alloc, mounted, nodes)?;
    addresses_of(alloc, &kept)
}
