//! The image is read and mounted, then the folder is read, and both are compared.
ghost use Rattle.std.specs.Prelude.{◌≡◌};
ghost use Rattle.jcommand.specs.Parsed.{packing_view, verification_view};
ghost use Rattle.jedge.specs.Acts.{DoesFrom, seen_as};
ghost use Rattle.jedge.specs.Told.{found_told};
ghost use Rattle.jverifies.specs.Verifying.{compares_folder, flash_verified, packing_verified, verify_act};

use crate::comparing::{Against, compare_listed};
use jcommand::{Packing, Placing, Verification};
use jdiff::Comparing;
use jedge::fault::Fault;
use jedge::found::Found;
use jedge::mounting::{judge_nodes, mounted_as};
use jedge::reading::load;
use jfolders::host::FolderHost;
use jfolders::keeping::read_whole;
use jfolders::reading::settings_of;
use jlog::Flash;
use jmount::Mounted;
use jnode::Order;
use jpacks::packing::image_of;
use jreads::files_host::FilesHost;
use jscan::Page;

/// `pack` of the folder with these words. No file is made, so its name is empty.
fn packing_of<'a>(asked: Verification<&'a str>) -> Packing<&'a str>
    ensures { packing_view result ≡ packing_verified (verification_view asked.entry) }
{
    Packing {
        options: asked.options,
        blocks: None,
        page: Page::P4096,
        weak: false,
        placing: Placing {
            pad: false,
            atomic: false,
        },
        owner: asked.owner,
        time: asked.time,
        quiet: asked.quiet,
        folder: asked.folder,
        output: "",
    }
}

/// The flash that the image of the folder is made for.
fn flash_of(asked: Verification<&str>) -> Flash
    ensures { result ≡ flash_verified (verification_view asked.entry) }
{
    image_of(packing_of(asked)).flash
}

/// Reads the folder, and compares it with a mount. The bytes of its image take the place of those
/// in `made`.
fn compare_folder<'i, E: Order, H: FolderHost + FilesHost>(
    host: &mut H,
    asked: Verification<&str>,
    image: &Mounted<'i>,
    made: &'i mut Vec<u8>,
) -> Result<Found<'static>, Fault>
    requires { asked.options.endian ≡ E.order }
    ensures { DoesFrom (H.history host.old) (H.history host.new)
        (compares_folder E.order (verification_view asked.entry) image.now)
        (seen_as found_told result) }
{
    let settings = settings_of(asked.owner, asked.time);
    let against = Against {
        image,
        how: Comparing {
            times: asked.times,
            order: asked.options.endian,
        },
        flash: flash_of(asked),
    };
    match read_whole(host, asked.folder, asked.quiet, &settings) {
        Ok(listed) => compare_listed::<E, H>(host, listed, against, made),
        Err(fault) => Err(fault),
    }
}

/// `verify`.
pub fn verify<E: Order, H: FolderHost + FilesHost>(
    host: &mut H,
    asked: Verification<&str>,
) -> Result<Found<'static>, Fault>
    requires { asked.options.endian ≡ E.order }
    ensures { DoesFrom (H.history host.old) (H.history host.new)
        (verify_act E.order (verification_view asked.entry)) (seen_as found_told result) }
{
    let geometry = asked.options.geometry;
    let image = match load(host, asked.image) {
        Ok(image) => image,
        Err(fault) => return Err(fault),
    };
    let bytes = image.as_slice();
    match judge_nodes::<E>(host.alloc(), bytes, geometry, Some(asked.image)) {
        Ok(()) => {}
        Err(fault) => return Err(fault),
    }
    let mut contents = Vec::new(host.alloc());
    let mut made = Vec::new(host.alloc());
    match mounted_as::<E>(host.alloc(), bytes, geometry, true, &mut contents) {
        Ok(mounted) => compare_folder::<E, H>(host, asked, &mounted, &mut made),
        Err(fault) => Err(fault),
    }
}
