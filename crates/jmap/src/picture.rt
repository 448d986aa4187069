//! The map of an image, as a picture.

ghost use Rattle.std.specs.Prelude.{◌≡◌, ◌%◌, ◌^◌, ◌+◌, ◌<◌, ◌≤◌, ◌++◌, AllPairs, IsTrue, length};
ghost use Rattle.std.specs.List.{flat_map};
ghost use Rattle.flashbase.specs.Lists.{below};
ghost use Rattle.flashbase.specs.Sinks.{PutsTo, change_of};
ghost use Rattle.jscan.specs.Extents.{extents};
ghost use Rattle.jscan.specs.Image.{block_count, greatest_image, is_block_size};
ghost use Rattle.jmap.specs.MapText.{PutsMap};
ghost use Rattle.jmap.specs.Picture.{block_row, picture_text, rect_text, svg_legend, svg_start};

use crate::fault::MapFault;
use crate::places::{Paths, put_two};
use crate::rects::{put_rect, start_of_row, start_of_svg};
use flashbase::{DeviceFault, Part, Sink};
use jline::put_text;
use jnode::Order;
use jscan::{Extents, GREATEST_IMAGE, Geometry, block_at};

const SVG_END: &[u8] = b"</svg>\n";

/// Colours, and what they mean.
const LEGEND: &[u8] = b"<title>Where the nodes of a JFFS2 image lie</title>\n\
<style>.live{fill:#2b8a3e}.superseded{fill:#f59f00}.obsolete{fill:#868e96}\
.damaged{fill:#e03131}.free{fill:#e9ecef}</style>\n\
<rect width='100%' height='100%' fill='#ffffff'/>\n\
<rect class='live' x='80' y='16' width='12' height='12'/>\
<text x='98' y='26'>live</text>\n\
<rect class='superseded' x='180' y='16' width='12' height='12'/>\
<text x='198' y='26'>superseded</text>\n\
<rect class='obsolete' x='320' y='16' width='12' height='12'/>\
<text x='338' y='26'>obsolete</text>\n\
<rect class='damaged' x='440' y='16' width='12' height='12'/>\
<text x='458' y='26'>damaged</text>\n\
<rect class='free' x='560' y='16' width='12' height='12'/>\
<text x='578' y='26'>free</text>\n";

/// Puts the rectangles of the block whose bytes begin at the address `start`.
fn put_rects<E: Order, T: Sink>(
    image: &[u8],
    start: u32,
    block: Part<'_>,
    kept: &[u32],
    paths: &Paths,
    sink: &mut T,
) -> Result<(), DeviceFault>
    requires ascending { AllPairs (λ a b. a < b) kept.now }
    requires image { length image.now ≤ greatest_image }
    requires whole_words { length block % 4 ≡ 0 }
    requires addressed { start + length block < 2 ^ 32 }
    ensures { PutsTo T.Sink sink.old sink.new
        (flat_map (rect_text E.order image.now start kept.now paths.now)
        (extents E.order start block.entry))
        result }
{
    for extent in Extents::<E>::of_part(start, block) {
        put_rect::<E, T>(image, start, kept, paths, &extent, sink)?;
    }
    Ok(())
}

/// Puts the row of block `k` of an image.
#[tactic(auto, unfolding(crate::specs::Picture::block_row))]
fn put_row<E: Order, T: Sink>(
    image: &[u8],
    size: usize,
    k: usize,
    kept: &[u32],
    paths: &Paths,
    sink: &mut T,
) -> Result<(), DeviceFault>
    requires ascending { AllPairs (λ a b. a < b) kept.now }
    requires size { IsTrue (is_block_size size) }
    requires small { length image.now ≤ greatest_image }
    requires next { k < block_count size image.now }
    ensures { PutsTo T.Sink sink.old sink.new
        (block_row E.order size image.now kept.now paths.now k) result }
{
    let start = k * size;
    put_text(sink, start_of_row(size as u64, k as u64).as_slice())?;
    put_rects::<E, T>(
        image,
        start as u32,
        block_at(image, start, size),
        kept,
        paths,
        sink,
    )?;
    put_text(sink, SVG_END)
}

/// Puts the rows of all blocks.
fn put_rows<E: Order, T: Sink>(
    image: &[u8],
    size: usize,
    kept: &[u32],
    paths: &Paths,
    sink: &mut T,
) -> Result<(), DeviceFault>
    requires ascending { AllPairs (λ a b. a < b) kept.now }
    requires size { IsTrue (is_block_size size) }
    requires small { length image.now ≤ greatest_image }
    ensures { PutsTo T.Sink sink.old sink.new
        (flat_map (block_row E.order size image.now kept.now paths.now)
        (below (block_count size image.now)))
        result }
{
    for k in 0..image.len().div_ceil(size) {
        put_row::<E, T>(image, size, k, kept, paths, sink)?;
    }
    Ok(())
}

/// Puts the picture of an image that can be scanned.
#[tactic(auto, unfolding(crate::specs::Picture::picture_text))]
fn put_svg<E: Order, T: Sink>(
    image: &[u8],
    size: usize,
    kept: &[u32],
    paths: &Paths,
    sink: &mut T,
) -> Result<(), DeviceFault>
    requires ascending { AllPairs (λ a b. a < b) kept.now }
    requires size { IsTrue (is_block_size size) }
    requires small { length image.now ≤ greatest_image }
    ensures { PutsTo T.Sink sink.old sink.new
        (picture_text E.order size image.now kept.now paths.now) result }
{
    let blocks = image.len().div_ceil(size) as u64;
    put_two(start_of_svg(blocks).as_slice(), LEGEND, sink)?;
    put_rows::<E, T>(image, size, kept, paths, sink)?;
    put_text(sink, SVG_END)
}

/// Puts a picture of an image of which the nodes at these addresses are kept, as SVG: a row for
/// each block, a rectangle for each node and each run of words, of the colour of its kind, with a
/// title that says what it is, and where in the tree, if the path is known. It takes no memory.
///
/// # Errors
/// `BlockSize`, `TooLarge`: nothing was put. `Output`: the sink failed, and took a beginning.
pub fn put_picture<E: Order, T: Sink>(
    image: &[u8],
    geometry: Geometry,
    kept: &[u32],
    paths: &Paths,
    sink: &mut T,
) -> Result<(), MapFault>
    requires { AllPairs (λ a b. a < b) kept.now }
    ensures { PutsMap geometry.block image.now
        (picture_text E.order geometry.block image.now kept.now paths.now)
        (change_of T.Sink sink.old sink.new) result }
{
    if !geometry.is_readable() {
        return Err(MapFault::BlockSize);
    }
    if GREATEST_IMAGE < image.len() {
        return Err(MapFault::TooLarge);
    }
    put_svg::<E, T>(image, geometry.block as usize, kept, paths, sink)?;
    Ok(())
}
