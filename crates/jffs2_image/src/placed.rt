//! What a command is given that makes an image of another one.
ghost use Rattle.std.specs.Prelude.{◌≡◌};
ghost use Rattle.jcommand.specs.Parsed.{conversion_view};
ghost use Rattle.jremakes.specs.Asked.{remaking_of};
ghost use Rattle.jffs2_image.specs.Running.{remaking_asked};

use jcommand::Conversion;
use jmakes::wanted::Wanted;
use jpacks::packing::filling_of;
use jremakes::asked::Remaking;

/// An image, and the file that is made of it, of so many blocks where they are given.
pub(crate) fn remaking<'a>(asked: Conversion<&'a str>, blocks: Option<u32>) -> Remaking<'a>
    ensures asked { remaking_of result ≡ remaking_asked blocks (conversion_view asked.entry) }
    ensures options { result.options ≡ asked.entry.options }
{
    Remaking {
        options: asked.options,
        force: asked.force,
        image: asked.image,
        output: Wanted {
            name: asked.output,
            atomic: asked.placing.atomic,
            filling: filling_of(asked.placing.pad, asked.options.geometry.block, blocks),
        },
    }
}
