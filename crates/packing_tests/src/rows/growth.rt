//! A growth that is refused to a session in the row of a compressed image is told as such, and what
//! stands after it.

ghost use Rattle.std.specs.Prelude.{◌≡◌, ◌≤◌, ◌*◌, true};
ghost use Rattle.jnode.specs.declared.order.Endian.TheVariants.{Little};
ghost use Rattle.jscan.specs.Image.{is_block_size, greatest_image};
ghost use Rattle.jrow.specs.Row.{blank_blocks};
ghost use Rattle.jpacked.specs.View.{base_of_mount};
ghost use Rattle.jview.specs.Through.{IsMountThroughOf};

use crate::checks::expect;
use crate::packed::cases::SMALL;
use crate::packed::growth::{Log, Wanted, are_applied, are_run, output_of};
use crate::rows::grounds::AROUND;
use crate::rows::sessions::{Way, run_with};
use byteorder::LittleEndian;
use jlog::Flash;
use jmount::Mounted;
use jpacked::NodeForms;
use jrow::Row;
use jsteps::Op;
use jthrough::mount_through;
use std::alloc::Global;
use test_operations::{BY, ops_of};
use test_support::{Matcher, Taker};

const BASE_LINES: [&str; 2] = ["file /a 644 5001", "file /b 600 300"];

/// Packed nodes, plain ones, and a name that an index cannot keep without memory.
const LINES: [&str; 4] = [
    "text /a 4000 abcdefgh",
    "put /name-of-more-than-sixteen-bytes 644 300",
    "write /a 0 5000",
    "remove-if /b",
];

/// Four blocks: the row is those about the base.
const WAY: Way = Way {
    flash: Flash { blocks: 4, ..SMALL },
    forms: NodeForms::Packed,
};

/// What operations put into the row of an image; none where a growth is refused.
fn output_in_row(alloc: Global, image: &[u8], way: Way, ops: &[Op<'_>]) -> Option<Vec<u8>>
    requires readable { is_block_size way.flash.geometry.block ≡ true }
    requires small { way.flash.blocks * way.flash.geometry.block ≤ greatest_image }
{
    let Flash {
        geometry,
        blocks,
        ..
    } = way.flash;
    let mut contents = Vec::new(alloc);
    let Ok(mounted) = mount_through::<LittleEndian>(alloc, image, geometry, &mut contents) else {
        return None;
    };
    let Ok(row) = Row::of::<LittleEndian>(alloc, mounted.image(), geometry, blocks) else {
        return None;
    };
    let sink = Taker::new(alloc);
    match run_with::<LittleEndian>(alloc, &mounted, way, &row, sink, ops) {
        Ok(run) if run.report.stopped.is_none() => Some(run.output),
        _ => None,
    }
}

/// Two blank blocks, and a compressed base.
fn image_of(alloc: Global) -> Option<Vec<u8>> {
    let ops = ops_of(alloc, &BASE_LINES, BY).ok()?;
    let base = output_of(alloc, &ops)?;
    AROUND.image(alloc, 8192, &base).ok()
}

/// A session in the row of a mounted image. One that is refused its memory hands its sink back, and
/// is asked for again.
fn log_in_row<'b>(
    alloc: Global,
    mounted: &Mounted<'_>,
    way: Way,
    row: &Row,
    sink: Matcher<'b>,
) -> Result<Log<'b>, Matcher<'b>>
    requires through { IsMountThroughOf Little way.flash.geometry.block mounted.now }
    requires row { row.now ≡ blank_blocks Little way.flash.geometry.block way.flash.blocks
        (base_of_mount mounted.now) }
{
    let Way { flash, forms } = way;
    match Log::resume_in_row(alloc, mounted, flash, row, forms, sink) {
        Ok(log) => Ok(log),
        Err((_, sink)) => {
            Log::resume_in_row(alloc, mounted, flash, row, forms, sink).map_err(|(_, sink)| sink)
        }
    }
}

/// How operations are put: one by one, or in one run.
#[derive(Clone, Copy)]
enum Calls {
    Each,
    One,
}

/// Whether a session in the row of an image puts these bytes for these operations. Where the image
/// or its row is refused its memory, nothing is run.
fn are_put(
    alloc: Global,
    image: &[u8],
    way: Way,
    ops: &[Op<'_>],
    wanted: Wanted<'_>,
    calls: Calls,
) -> bool
    requires readable { is_block_size way.flash.geometry.block ≡ true }
    requires small { way.flash.blocks * way.flash.geometry.block ≤ greatest_image }
{
    let Flash {
        geometry,
        blocks,
        ..
    } = way.flash;
    let mut contents = Vec::new(alloc);
    let Ok(mounted) = mount_through::<LittleEndian>(alloc, image, geometry, &mut contents) else {
        return true;
    };
    let Ok(row) = Row::of::<LittleEndian>(alloc, mounted.image(), geometry, blocks) else {
        return true;
    };
    let sink = Matcher {
        rest: wanted.bytes,
        failures: 0,
    };
    match (log_in_row(alloc, &mounted, way, &row, sink), calls) {
        (Ok(log), Calls::Each) => are_applied(alloc, log, ops, wanted),
        (Ok(log), Calls::One) => are_run(alloc, log, ops, wanted),
        (Err(_), _) => false,
    }
}

/// Passes with each allocation failing in turn too.
#[test]
fn refused_growth_of_sessions_in_a_row(rt: HostRuntime) {
    let (Some(image), Ok(ops)) = (image_of(rt.alloc()), ops_of(rt.alloc(), &LINES, BY)) else {
        return;
    };
    if let Some(whole) = output_in_row(rt.alloc(), &image, WAY, &ops) {
        let wanted = Wanted {
            bytes: &whole,
            from: 8192,
        };
        for calls in [Calls::Each, Calls::One] {
            expect(&rt, are_put(rt.alloc(), &image, WAY, &ops, wanted, calls));
        }
    }
}
