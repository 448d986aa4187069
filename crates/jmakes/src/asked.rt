//! An image that is asked for.
ghost use Rattle.std.specs.Prelude.{◌≡◌};
ghost use Rattle.jnode.specs.declared.order.Endian.{Endian};
ghost use Rattle.jcommand.specs.Parsed.{appending_view, target_view};
ghost use Rattle.jmakes.specs.Keeping.{base_asked, base_of};
ghost use Rattle.jmakes.specs.Making.{wanted_file};
ghost use Rattle.jmakes.specs.Seen.{image_to_write};
ghost use Rattle.jmakes.specs.Writing.{file_asked, filling_asked, flash_of_asked, image_asked};

use crate::wanted::{Filling, Wanted};
use jcommand::{Appending, Target};
use jlog::Flash;

/// The flash that is written, the file that is made, and whether weak nodes are noted.
#[derive(Clone, Copy)]
pub struct ImageToWrite<'a> {
    pub flash: Flash,
    pub file: Wanted<'a>,
    pub weak: bool,
}

/// The image that is gone on from. With `decompress` a base is made of it, which replaces it only
/// with `force` if it lacks something.
#[derive(Clone, Copy)]
pub struct Base<'a> {
    pub image: &'a str,
    pub decompress: bool,
    pub force: bool,
}

/// The one of `append`.
pub(crate) fn base_of<'a>(asked: &Appending<&'a str>) -> Base<'a>
    ensures { base_asked result ≡ base_of (appending_view asked.now) }
{
    Base {
        image: asked.image,
        decompress: asked.decompress,
        force: asked.force,
    }
}

/// The flash that is written.
fn flash_of(target: Target<&str>) -> Flash
    ensures { result ≡ flash_of_asked (target_view target.entry) }
{
    Flash {
        geometry: target.options.geometry,
        blocks: target.blocks,
        page: target.page,
    }
}

/// Up to where its file is filled.
fn filling_of(target: Target<&str>) -> Option<Filling>
    ensures { result ≡ filling_asked (target_view target.entry) }
{
    if target.placing.pad {
        let block = u64::from(target.options.geometry.block);
        Some(Filling::Length(u64::from(target.blocks) * block))
    } else {
        None
    }
}

/// The file that is made.
fn file_of<'a>(target: Target<&'a str>) -> Wanted<'a>
    ensures { wanted_file result ≡ file_asked (target_view target.entry) }
{
    Wanted {
        name: target.output,
        atomic: target.placing.atomic,
        filling: filling_of(target),
    }
}

/// All that is asked for.
pub(crate) fn image_of<'a>(target: Target<&'a str>) -> ImageToWrite<'a>
    ensures { (e : Endian) → image_to_write e result ≡ image_asked e (target_view target.entry) }
{
    ImageToWrite {
        flash: flash_of(target),
        file: file_of(target),
        weak: target.weak,
    }
}
