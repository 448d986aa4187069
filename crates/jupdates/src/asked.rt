//! What is asked for.
ghost use Rattle.std.specs.Prelude.{◌≡◌, ◌≤◌, length};
ghost use Rattle.jscan.specs.Image.{greatest_image};
ghost use Rattle.jcommand.specs.Parsed.{target_view, updating_view};
ghost use Rattle.jmakes.specs.Making.{wanted_file};
ghost use Rattle.jupdates.specs.Asked.{device_built, device_packed, device_to_write, device_wanted, filling_updated, flash_updated};

use jcommand::{Target, Updating, blocks_asked};
use jdevice::DevicePlan;
use jlog::Flash;
use jmakes::wanted::{Filling, Wanted};

/// How a flash is written, the file that is made, and whether it is noted that few blank blocks are
/// left.
#[derive(Clone, Copy)]
pub struct DeviceToWrite<'a> {
    pub on: DevicePlan,
    pub file: Wanted<'a>,
    pub notes_left: bool,
}

/// The flash that is written.
fn flash_of(asked: Updating<&str>, image: &[u8]) -> Flash
    requires { length image.now ≤ greatest_image }
    ensures { result ≡ flash_updated (updating_view asked.entry) image.now }
{
    let geometry = asked.options.geometry;
    Flash {
        geometry,
        blocks: blocks_asked(asked.blocks, geometry, image),
        page: asked.page,
    }
}

/// Up to where its file is filled.
fn filling_of(pad: bool, flash: Flash) -> Option<Filling>
    ensures { result ≡ filling_updated pad flash }
{
    if pad {
        let block = u64::from(flash.geometry.block);
        Some(Filling::Length(u64::from(flash.blocks) * block))
    } else {
        None
    }
}

/// All that is asked for, of an image.
pub fn device_of<'a>(asked: Updating<&'a str>, image: &[u8]) -> DeviceToWrite<'a>
    requires { length image.now ≤ greatest_image }
    ensures { device_to_write result ≡ device_wanted (updating_view asked.entry) image.now }
{
    let flash = flash_of(asked, image);
    DeviceToWrite {
        on: DevicePlan {
            flash,
            plain: asked.plain,
            tail: asked.tail,
        },
        file: Wanted {
            name: asked.output,
            atomic: asked.placing.atomic,
            filling: filling_of(asked.placing.pad, flash),
        },
        notes_left: true,
    }
}

/// A blank flash, which new nodes go to compressed where that is shorter, and this file.
pub fn device_packed<'a>(flash: Flash, file: Wanted<'a>) -> DeviceToWrite<'a>
    ensures { device_to_write result ≡ device_packed flash (wanted_file file.entry) }
{
    DeviceToWrite {
        on: DevicePlan {
            flash,
            plain: false,
            tail: false,
        },
        file,
        notes_left: false,
    }
}

/// The same of what `build` is asked for.
pub fn device_built<'a>(target: Target<&'a str>) -> DeviceToWrite<'a>
    ensures { device_to_write result ≡ device_built (target_view target.entry) }
{
    let flash = Flash {
        geometry: target.options.geometry,
        blocks: target.blocks,
        page: target.page,
    };
    let file = Wanted {
        name: target.output,
        atomic: target.placing.atomic,
        filling: filling_of(target.placing.pad, flash),
    };
    device_packed(flash, file)
}
