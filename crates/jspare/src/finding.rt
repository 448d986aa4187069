//! The layout of a dump of which nobody says it.

ghost use Rattle.std.specs.Prelude.{◌≡◌, ◌<◌, IfOk};
ghost use Rattle.jspare.specs.Finding.{IsSpareOf, sound_nodes, usual_layouts};
ghost use Rattle.jspare.specs.Spare.{without_spare};

use crate::dropping::drop_spare;
use crate::layout::{LAYOUTS, PageLayout};
use jinfo::info_of;
use jscan::GREATEST_IMAGE;
use std::alloc::{AllocError, Global};

/// How many sound entries and inode nodes an image has in its own byte order.
#[tactic(auto, unfolding(crate::specs::Finding::sound_nodes))]
fn sound_nodes(image: &[u8]) -> u128
    ensures { result ≡ sound_nodes image.now }
{
    if image.len() > GREATEST_IMAGE {
        return 0;
    }
    let nodes = info_of(image).census.nodes;
    u128::from(nodes.entries) + u128::from(nodes.inodes)
}

/// The same of the image that a dump has by a layout.
fn sound_without(alloc: Global, dump: &[u8], layout: PageLayout) -> Result<u128, AllocError>
    requires { 0 < layout.page }
    ensures { IfOk result (λ count. count ≡ sound_nodes (without_spare layout dump.now)) }
{
    let mut image = dump.to_vec(alloc)?;
    drop_spare(&mut image, layout);
    Ok(sound_nodes(&image))
}

/// The layout of a dump, of the usual ones: the one by which most of its nodes are sound. None, if
/// by none of them more are sound than without it. It takes the memory of the dump, and time linear
/// in its bytes.
pub fn spare_of(alloc: Global, dump: &[u8]) -> Result<Option<PageLayout>, AllocError>
    ensures { IfOk result (λ found. IsSpareOf usual_layouts dump.now found) }
{
    let mut best = None;
    let mut most = sound_nodes(dump);
    for layout in &LAYOUTS {
        let count = sound_without(alloc, dump, *layout)?;
        if most < count {
            best = Some(*layout);
            most = count;
        }
    }
    Ok(best)
}
