//! What is known of an image before its map is printed.
ghost use Rattle.std.specs.Prelude.{◌≡◌, ◌<◌, true, IfOk, OnOk};
ghost use Rattle.std.specs.List.{AllPairs};
ghost use Rattle.jscan.specs.Scans.{IsScannable};
ghost use Rattle.jedge.specs.Acts.{seen_as};
ghost use Rattle.jview.specs.Through.{IsMountThroughOf};
ghost use Rattle.jinspects.specs.Live.{AreLive, HoldsContents};
ghost use Rattle.jinspects.specs.ShownPaths.{AreShownPaths};
ghost use Rattle.jinspects.specs.Surveying.{Surveys, surveyed};

use crate::live::live_addresses;
use crate::paths::paths_of;
use jcommand::Options;
use jedge::fault::Fault;
use jedge::found::Found;
use jedge::mounting::view_refusal;
use jedge::subject::read_found;
use jmap::Paths;
use jmount::Mounted;
use jnode::Order;
use jscan::Geometry;
use jthrough::{mount_view, view_image};
use std::alloc::{AllocError, Global};
use std::collections::BTreeMap;

/// What is known of an image before its map is printed.
#[derive(Drop)]
pub struct Survey {
    /// Where the nodes lie that matter, in order.
    pub live: Vec<u32>,
    /// Where objects are in the tree, if a picture is asked for.
    pub paths: Paths,
    /// What the command comes to.
    pub found: Found<'static>,
}

/// For a picture where objects are in the tree; for a text nothing is looked for.
fn paths_for(alloc: Global, svg: bool, mounted: &Mounted<'_>) -> Result<Paths, AllocError>
    ensures { IfOk result (λ paths. svg ≡ true → AreShownPaths mounted.now.state paths) }
{
    if svg {
        return paths_of(alloc, mounted);
    }
    Ok(BTreeMap::new(alloc))
}

/// What is known of a mounted image: `contents` are those that `view_image` left.
fn survey_mounted<E: Order>(
    alloc: Global,
    mounted: &Mounted<'_>,
    geometry: Geometry,
    contents: &[u8],
    svg: bool,
) -> Result<(Vec<u32>, Paths), AllocError>
    requires mount { IsMountThroughOf E.order geometry.block mounted.now }
    requires held { HoldsContents E.order geometry.block mounted.now.image contents.now }
    ensures live { IfOk result
        (λ known. AreLive E.order geometry.block mounted.now.image known.0.items) }
    ensures paths { IfOk result
        (λ known. svg ≡ true → AreShownPaths mounted.now.state known.1) }
{
    let live = live_addresses::<E>(alloc, mounted, geometry, contents)?;
    Ok((live, paths_for(alloc, svg, mounted)?))
}

/// Mounts an image through its compression, and finds out which of its nodes matter, and for a
/// picture where its objects are. If no node is found in it, `others` is how many the other byte
/// order has.
pub(crate) fn survey_of<E: Order>(
    alloc: Global,
    image: &[u8],
    options: Options,
    others: Option<u64>,
    svg: bool,
) -> Result<Survey, Fault>
    requires { options.endian ≡ E.order }
    ensures survey { Surveys svg E.order options.geometry.block image.now others
        (seen_as surveyed result) }
    ensures scannable { OnOk result (IsScannable options.geometry.block image.now) }
    ensures ordered { IfOk result (λ s. AllPairs (λ a b. a < b) s.live.items) }
{
    let geometry = options.geometry;
    let mut contents = Vec::new(alloc);
    let view = match view_image::<E>(alloc, image, geometry, &mut contents) {
        Ok(view) => view,
        Err(why) => return Err(Fault::Refused(view_refusal(why))),
    };
    let mounted = match mount_view::<E>(alloc, image, geometry, view, &contents) {
        Ok(mounted) => mounted,
        Err(why) => return Err(Fault::Refused(view_refusal(why))),
    };
    match survey_mounted::<E>(alloc, &mounted, geometry, &contents, svg) {
        Ok((live, paths)) => Ok(Survey {
            live,
            paths,
            found: read_found(&mounted, options, others),
        }),
        Err(_) => Err(Fault::OutOfMemory),
    }
}
