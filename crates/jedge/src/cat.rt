//! `cat`: the bytes of a file.
ghost use Rattle.std.specs.Prelude.{◌≡◌};
ghost use Rattle.jreport.specs.Content.{content_of};
ghost use Rattle.jedge.specs.Acts.{DoesFrom, prints, seen_as};
ghost use Rattle.jscan.specs.Scans.{IsScannable};
ghost use Rattle.jedge.specs.Commands.{cat_act, cat_says};
ghost use Rattle.jedge.specs.Showing.{Contains};
ghost use Rattle.jedge.specs.Told.{found_told};

use crate::fault::Fault;
use crate::found::{Found, finished};
use crate::host::Host;
use crate::list::put_found;
use crate::missing::count_missing;
use crate::mounting::mounted_object;
use crate::reading::load;
use crate::subject::{content_found, path_named};
use jcommand::FileContent;
use jmount::Mounted;
use jnode::Order;
use jreport::{content, others_if_none};

/// Prints the bytes of the file that a path names.
fn print_bytes<H: Host>(
    host: &mut H,
    mounted: &Mounted<'_>,
    path: &[u8],
    found: Found<'static>,
) -> Result<Found<'static>, Fault>
    ensures { DoesFrom (H.history host.old) (H.history host.new)
        (prints (Contains (content_of mounted.now.state path.now) (found_told found.entry)))
        (seen_as found_told result) }
{
    let mut out = match host.output() {
        Ok(out) => out,
        Err(fault) => return Err(fault),
    };
    let put = content(mounted, path, &mut out);
    let closed = host.close(out);
    finished(put_found(put, found), closed)
}

/// Prints them, and counts those that no node has.
fn print_content<E: Order, H: Host>(
    host: &mut H,
    asked: FileContent<&str>,
    mounted: &Mounted<'_>,
    path: &[u8],
    others: Option<u64>,
) -> Result<Found<'static>, Fault>
    requires scannable { IsScannable asked.options.geometry.block mounted.now.image }
    requires order { asked.options.endian ≡ E.order }
    ensures { DoesFrom (H.history host.old) (H.history host.new)
        (prints (cat_says E.order asked.entry.options.geometry.block asked.entry.strict path.now
        others mounted.now)) (seen_as found_told result) }
{
    let geometry = asked.options.geometry;
    match count_missing::<E>(host.alloc(), mounted, geometry, path) {
        Ok(missing) => {
            let found = content_found(mounted, asked.options, others, missing, asked.strict);
            print_bytes(host, mounted, path, found)
        }
        Err(fault) => Err(fault),
    }
}

/// `cat`.
pub fn cat<E: Order, H: Host>(
    host: &mut H,
    asked: FileContent<&str>,
) -> Result<Found<'static>, Fault>
    requires { asked.options.endian ≡ E.order }
    ensures { DoesFrom (H.history host.old) (H.history host.new)
        (cat_act asked.entry.options asked.entry.decompress asked.entry.strict
        asked.entry.image.now asked.entry.path.now) (seen_as found_told result) }
{
    let path = match path_named(host.alloc(), asked.path) {
        Ok(path) => path,
        Err(fault) => return Err(fault),
    };
    let image = match load(host, asked.image) {
        Ok(image) => image,
        Err(fault) => return Err(fault),
    };
    let bytes = image.as_slice();
    let geometry = asked.options.geometry;
    let others = others_if_none::<E>(bytes, geometry);
    let mut contents = Vec::new(host.alloc());
    let names = path.as_slice();
    match mounted_object::<E>(
        host.alloc(),
        bytes,
        geometry,
        asked.decompress,
        names,
        &mut contents,
    ) {
        Ok(mounted) => print_content::<E, H>(host, asked, &mounted, names, others),
        Err(fault) => Err(fault),
    }
}
