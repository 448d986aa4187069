//! The lines of a picture, written into a line buffer.

ghost use Rattle.std.specs.Prelude.{◌≡◌, ◌+◌, ◌-◌, ◌*◌, ◌<◌, ◌≤◌, ◌++◌, AllPairs, length};
ghost use Rattle.flashbase.specs.Sinks.{PutsTo};
ghost use Rattle.jscan.specs.Image.{greatest_image};
ghost use Rattle.jmap.specs.NodeTexts.{titled_name};
ghost use Rattle.jmap.specs.Picture.{rect_box, rect_start, rect_text, svg_row_start, svg_start, title_start, title_text};

use crate::kind::{ByteKind, byte_kind};
use crate::places::{Paths, put_place};
use crate::texts::what_line;
use flashbase::{DeviceFault, Sink};
use jline::{LineBuffer, put_text};
use jnode::Order;
use jscan::Extent;

const RECT_END: &[u8] = b"</title></rect>\n";

/// What the rectangle of a stretch begins with, up to its title.
fn push_box(line: &mut LineBuffer, place: u32, len: u32, kind: ByteKind)
    requires { length line.old ≡ 0 }
    ensures text { line.new ≡ line.old ++ rect_box place len kind }
    ensures short { length line.new ≤ 100 }
{
    line.push_text(b"<rect class='");
    line.push_text(kind.word());
    line.push_text(b"' x='");
    line.push_decimal(u64::from(place));
    line.push_text(b"' width='");
    line.push_decimal(u64::from(len));
    line.push_text(b"' height='1'>");
}

/// What its title begins with.
fn push_title(line: &mut LineBuffer, addr: u32, len: u32, kind: ByteKind)
    requires { length line.old ≤ 100 }
    ensures { line.new ≡ line.old ++ title_start addr len kind }
{
    line.push_text(b"<title>");
    line.push_text(kind.word());
    line.push_text(b" at ");
    line.push_hex(8, u64::from(addr));
    line.push_text(b", ");
    line.push_decimal(u64::from(len));
    line.push_text(b" bytes: ");
}

/// What the rectangle of a stretch begins with.
#[tactic(auto, unfolding(crate::specs::Picture::rect_start))]
fn start_of_rect(place: u32, addr: u32, len: u32, kind: ByteKind) -> LineBuffer
    ensures { result ≡ rect_start place addr len kind }
{
    let mut line = LineBuffer::new();
    push_box(&mut line, place, len, kind);
    push_title(&mut line, addr, len, kind);
    line
}

/// Puts what an extent is, and where in the tree.
fn put_title<E: Order, T: Sink>(
    image: &[u8],
    paths: &Paths,
    extent: &Extent<'_>,
    sink: &mut T,
) -> Result<(), DeviceFault>
    requires image { length image.now ≤ greatest_image }
    requires name { length (titled_name extent.now.kind) ≤ 255 }
    ensures { PutsTo T.Sink sink.old sink.new
        (title_text E.order image.now paths.now extent.now) result }
{
    put_text(sink, what_line::<E>(image, extent).as_slice())?;
    put_place::<E, T>(image, paths, extent, sink)
}

/// Puts the rectangle of an extent of the block that begins at `start`.
#[tactic(auto, unfolding(crate::specs::Picture::rect_text))]
pub(crate) fn put_rect<E: Order, T: Sink>(
    image: &[u8],
    start: u32,
    kept: &[u32],
    paths: &Paths,
    extent: &Extent<'_>,
    sink: &mut T,
) -> Result<(), DeviceFault>
    requires ascending { AllPairs (λ a b. a < b) kept.now }
    requires image { length image.now ≤ greatest_image }
    requires name { length (titled_name extent.now.kind) ≤ 255 }
    requires inside { start ≤ extent.now.addr }
    ensures { PutsTo T.Sink sink.old sink.new
        (rect_text E.order image.now start kept.now paths.now extent.now) result }
{
    let kind = byte_kind(kept, extent);
    let begin = start_of_rect(extent.addr - start, extent.addr, extent.len, kind);
    put_text(sink, begin.as_slice())?;
    put_title::<E, T>(image, paths, extent, sink)?;
    put_text(sink, RECT_END)
}

/// What the row of block `k` begins with.
#[tactic(auto, unfolding(crate::specs::Picture::svg_row_start))]
pub(crate) fn start_of_row(size: u64, k: u64) -> LineBuffer
    requires address { k * size ≤ greatest_image }
    requires number { k ≤ greatest_image }
    ensures { result ≡ svg_row_start size k }
{
    let mut line = LineBuffer::new();
    line.push_text(b"<text x='8' y='");
    line.push_decimal(14 * k + 74);
    line.push_text(b"'>");
    line.push_hex(8, k * size);
    line.push_text(b"</text><svg x='80' y='");
    line.push_decimal(14 * k + 64);
    line.push_text(b"' width='1000' height='12' viewBox='0 0 ");
    line.push_decimal(size);
    line.push_text(b" 1' preserveAspectRatio='none'>\n");
    line
}

/// What the picture of so many blocks begins with.
pub(crate) fn start_of_svg(blocks: u64) -> LineBuffer
    requires { blocks ≤ greatest_image }
    ensures { result ≡ svg_start blocks }
{
    let mut line = LineBuffer::new();
    line.push_text(b"<svg xmlns='http://www.w3.org/2000/svg' width='1088' height='");
    line.push_decimal(14 * blocks + 72);
    line.push_text(b"' font-family='monospace' font-size='11'>\n");
    line
}
