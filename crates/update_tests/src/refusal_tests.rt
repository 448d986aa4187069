//! Images and flashes on which no session begins: its sink comes back as it was.

ghost use Rattle.std.specs.Prelude.{◌≡◌, ◌≤◌, ◌*◌, true};
ghost use Rattle.jnode.specs.declared.order.Endian.TheVariants.{Little};
ghost use Rattle.jscan.specs.Image.{is_block_size, greatest_image};
ghost use Rattle.jrests.specs.Openings.{AreOpeningsOf};
ghost use Rattle.jpacked.specs.View.{base_of_mount};
ghost use Rattle.jview.specs.Through.{IsMountThroughOf};

use crate::checks::expect_at;
use crate::grounds::FLASH;
use crate::placed::has_openings;
use crate::sessions::{Rows, openings_in};
use byteorder::LittleEndian;
use jlog::{Flash, SessionFault};
use jmount::Mounted;
use jpacked::NodeForms;
use jrests::Opening;
use jscan::Page;
use jthrough::mount_through;
use jupdate::OpeningSession;
use std::alloc::Global;
use std::test::Fail;
use test_support::{FORBIDS, Taker};

/// An image, the flash, and why no session begins.
#[derive(Clone, Copy)]
struct Refused {
    about: &'static str,
    image: &'static [u8],
    flash: Flash,
    fault: Option<SessionFault>,
}

fn rows() -> &'static [Refused] {
    &[
        Refused {
            about: "a flash without a node",
            image: &[],
            flash: FLASH,
            fault: None,
        },
        Refused {
            about: "an image that may not be written",
            image: &FORBIDS,
            flash: FLASH,
            fault: Some(SessionFault::ReadOnly),
        },
        Refused {
            about: "that is told before a page that a block does not hold",
            image: &FORBIDS,
            flash: Flash {
                page: Page::P8192,
                ..FLASH
            },
            fault: Some(SessionFault::ReadOnly),
        },
        Refused {
            about: "a page that a block does not hold",
            image: &[],
            flash: Flash {
                page: Page::P8192,
                ..FLASH
            },
            fault: Some(SessionFault::Geometry),
        },
        Refused {
            about: "an image larger than the flash",
            image: &[0xFF; 8193],
            flash: Flash { blocks: 1, ..FLASH },
            fault: Some(SessionFault::Geometry),
        },
        Refused {
            about: "a flash of no block",
            image: &[],
            flash: Flash { blocks: 0, ..FLASH },
            fault: Some(SessionFault::Geometry),
        },
    ]
}

/// Whether no session begins, for this reason, and the sink comes back with what it had.
fn is_refused(
    alloc: Global,
    mounted: &Mounted<'_>,
    flash: Flash,
    row: Vec<Opening>,
    sink: Taker,
    fault: Option<SessionFault>,
) -> bool
    requires through { IsMountThroughOf Little flash.geometry.block mounted.now }
    requires row { AreOpeningsOf Little flash.geometry.block flash.blocks
        (base_of_mount mounted.now) row.items }
{
    let forms = NodeForms::Packed;
    match OpeningSession::<LittleEndian, Taker>::resume(alloc, mounted, flash, row, forms, sink) {
        Ok(session) => fault.is_none() && session.finish().took(0, b"before"),
        Err((found, sink)) => fault == Some(found) && sink.took(0, b"before"),
    }
}

fn is_refused_in(alloc: Global, wanted: &Refused) -> Result<bool, Fail> {
    let Refused {
        image,
        flash,
        fault,
        ..
    } = *wanted;
    if !has_openings(flash) {
        return Err(Fail::from("no openings"));
    }
    let mut sink = Taker::new(alloc);
    sink.bytes.extend_from_slice(b"before")?;
    let mut contents = Vec::new(alloc);
    let mounted = mount_through::<LittleEndian>(alloc, image, flash.geometry, &mut contents)?;
    let row = openings_in::<LittleEndian>(alloc, mounted.image(), flash, Rows::All)?;
    Ok(is_refused(alloc, &mounted, flash, row, sink, fault))
}

#[test]
fn no_session_begins(rt: HostRuntime) -> Result<(), Fail> {
    for wanted in rows() {
        expect_at(&rt, is_refused_in(rt.alloc(), wanted)?, wanted.about);
    }
    Ok(())
}
