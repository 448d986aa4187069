//! The folder is read whole, and its listing is written on an empty base.
ghost use Rattle.std.specs.Prelude.{◌≡◌, None};
ghost use Rattle.jnode.specs.declared.order.Endian.{Endian};
ghost use Rattle.jcommand.specs.Parsed.{packing_view};
ghost use Rattle.jedge.specs.Acts.{DoesFrom, seen_as};
ghost use Rattle.jmakes.specs.Commands.{writes_text};
ghost use Rattle.jmakes.specs.Seen.{image_to_write};
ghost use Rattle.jpacks.specs.Packing.{blocks_packed, filling_packed, most_packed, image_packed, pack_act, writes_listed};
ghost use Rattle.jpacks.specs.Seen.{packed_seen};

use jcommand::Packing;
use jedge::fault::Fault;
use jfolders::host::FolderHost;
use jfolders::keeping::{Listed, read_whole};
use jfolders::reading::settings_of;
use jlog::Flash;
use jmakes::asked::ImageToWrite;
use jmakes::host::FileHost;
use jmakes::texts::write_text;
use jmakes::wanted::{Filling, Wanted};
use jmakes::written::Written;
use jnode::Order;
use jreads::files_host::FilesHost;
use jscan::GREATEST_IMAGE;

/// How many objects of the folder were left out, and what is noted of the image.
#[derive(Drop)]
pub struct Packed {
    pub left_out: u64,
    pub written: Written,
}

/// The greatest number of blocks of this size that a flash may have, and at least one.
fn most_packed(block: u32) -> u32
    ensures { result ≡ most_packed block }
{
    if block == 0 {
        return 1;
    }
    (GREATEST_IMAGE as u32 / block).max(1)
}

/// The number of blocks that is given, or the greatest.
fn blocks_of(block: u32, given: Option<u32>) -> u32
    ensures { result ≡ blocks_packed block given }
{
    match given {
        Some(blocks) => blocks,
        None => most_packed(block),
    }
}

/// The end of the flash, or where the number of its blocks is left out, of the last one that is
/// written.
pub fn filling_of(pad: bool, block: u32, given: Option<u32>) -> Option<Filling>
    ensures { result ≡ filling_packed pad block given }
{
    if !pad {
        return None;
    }
    match given {
        Some(blocks) => Some(Filling::Length(u64::from(blocks) * u64::from(block))),
        None => Some(Filling::Block(block)),
    }
}

/// The image that is asked for.
pub fn image_of<'a>(asked: Packing<&'a str>) -> ImageToWrite<'a>
    ensures { (e : Endian) → image_to_write e result ≡ image_packed e (packing_view asked.entry) }
{
    let block = asked.options.geometry.block;
    ImageToWrite {
        flash: Flash {
            geometry: asked.options.geometry,
            blocks: blocks_of(block, asked.blocks),
            page: asked.page,
        },
        file: Wanted {
            name: asked.output,
            atomic: asked.placing.atomic,
            filling: filling_of(asked.placing.pad, block, asked.blocks),
        },
        weak: asked.weak,
    }
}

/// Writes the listing of a folder that was read.
fn write_listed<E: Order, H: FolderHost + FilesHost + FileHost>(
    host: &mut H,
    image: ImageToWrite<'_>,
    listed: Listed,
) -> Result<Packed, Fault>
    ensures { DoesFrom (H.history host.old) (H.history host.new)
        (writes_listed (writes_text (image_to_write E.order image.entry) None) listed)
        (seen_as packed_seen result) }
{
    let Listed {
        text,
        left_out,
        files,
    } = listed;
    let before = files.into_parts();
    match write_text::<E, H>(host, image, None, before, text.as_slice()) {
        Ok(written) => Ok(Packed { left_out, written }),
        Err(fault) => Err(fault),
    }
}

/// `pack`.
pub fn pack<E: Order, H: FolderHost + FilesHost + FileHost>(
    host: &mut H,
    asked: Packing<&str>,
) -> Result<Packed, Fault>
    ensures { DoesFrom (H.history host.old) (H.history host.new)
        (pack_act E.order (packing_view asked.entry)) (seen_as packed_seen result) }
{
    let settings = settings_of(asked.owner, asked.time);
    match read_whole(host, asked.folder, asked.quiet, &settings) {
        Ok(listed) => write_listed::<E, H>(host, image_of(asked), listed),
        Err(fault) => Err(fault),
    }
}
