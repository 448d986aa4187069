//! What the nodes of an image are in one byte order.

ghost use Rattle.std.specs.Prelude.{◌≡◌, ◌≤◌, ◌<◌, ◌%◌, ◌^◌, length};
ghost use Rattle.jscan.specs.Extents.{extents};
ghost use Rattle.jscan.specs.Image.{greatest_image};
ghost use Rattle.jnode.specs.Writing.{filled};
ghost use Rattle.jinfo.specs.Infos.{census_of};
ghost use Rattle.jinfo.specs.Tallies.{TallyHasRoom, TallyOf, TallyWith, no_tally};

use crate::highest::Highest;
use crate::marks::Marks;
use crate::nodes::NodeCounts;
use crate::sizes::SizeRange;
use crate::storage::DataCounts;
use flashbase::{Part, pad4};
use jnode::Order;
use jscan::{Extent, Extents};

/// What the nodes of an image are in one byte order.
#[derive(Clone, Copy, Debug, PartialEq, Eq)]
pub struct Census {
    pub nodes: NodeCounts,
    pub storage: DataCounts,
    /// Clean markers.
    pub markers: u64,
    /// The sizes that the blocks may have, where that is known.
    pub sizes: Option<SizeRange>,
    pub highest: Highest,
}

/// What is counted so far.
#[derive(Clone, Copy, Debug, PartialEq, Eq)]
pub(crate) struct Tally {
    pub nodes: NodeCounts,
    pub storage: DataCounts,
    pub marks: Marks,
    pub highest: Highest,
}

/// The image as one block, filled up to whole words.
#[tactic(auto, unfolding(flashbase::specs::Bytes::pad4_of))]
fn filled(image: &[u8]) -> Part<'_>
    requires { length image.now ≤ greatest_image }
    ensures { result ≡ filled image.now }
{
    let len = pad4(image.len() as u32) as usize;
    Part::new(image, len - image.len())
}

impl Tally {
    fn none() -> Tally
        ensures { result ≡ no_tally }
    {
        Tally {
            nodes: NodeCounts {
                all: 0,
                entries: 0,
                inodes: 0,
                obsolete: 0,
                damaged: 0,
                other: 0,
            },
            storage: DataCounts {
                none: 0,
                zero: 0,
                rtime: 0,
                zlib: 0,
                lzo: 0,
                lzma: 0,
                other: 0,
            },
            marks: Marks::none(),
            highest: Highest { ino: 0, version: 0 },
        }
    }

    /// The same with one extent more of this block.
    fn with<E: Order>(self, block: &Part<'_>, extent: &Extent<'_>) -> Tally
        requires room { TallyHasRoom self }
        ensures { TallyWith E.order block.now self extent.now result }
    {
        Tally {
            nodes: self.nodes.with(&extent.kind),
            storage: self.storage.with(&extent.kind),
            marks: self.marks.with(extent),
            highest: self.highest.with::<E>(block, extent),
        }
    }
}

/// What is counted of a block of whole words at address 0.
fn tally_of<E: Order>(block: &Part<'_>) -> Tally
    requires whole_words { length block.now % 4 ≡ 0 }
    requires addressed { length block.now < 2 ^ 32 }
    ensures { TallyOf E.order block.now (extents E.order 0 block.now) result }
{
    let mut tally = Tally::none();
    for extent in Extents::<E>::of_part(0, block.copied()) {
        tally = tally.with::<E>(block, &extent);
    }
    tally
}

/// What the nodes of an image are in one byte order.
pub(crate) fn census_of<E: Order>(image: &[u8]) -> Census
    requires { length image.now ≤ greatest_image }
    ensures { result ≡ census_of E.order image.now }
{
    let tally = tally_of::<E>(&filled(image));
    Census {
        nodes: tally.nodes,
        storage: tally.storage,
        markers: tally.marks.markers,
        sizes: tally.marks.range(),
        highest: tally.highest,
    }
}
