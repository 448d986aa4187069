//! `compact --clashes higher`: an image of the nodes that matter goes to a file, without the nodes
//! that one of a higher address clashes with.
ghost use Rattle.std.specs.Prelude.{◌≡◌};
ghost use Rattle.jedge.specs.Acts.{DoesFrom, seen_as};
ghost use Rattle.jmakes.specs.Making.{wanted_file};
ghost use Rattle.jremakes.specs.Asked.{remaking_of};
ghost use Rattle.jremakes.specs.Commands.{compact_apart_act, compacts_apart};
ghost use Rattle.jremakes.specs.Leaving.{apart_told};

use crate::apart::ApartDone;
use crate::asked::Remaking;
use crate::compact::make_image;
use crate::line::print_compacted;
use crate::original::take;
use crate::planning::{compact_blocks, plan_staying};
use crate::remaking::take_memory;
use jcollect::Collected;
use jedge::fault::Fault;
use jmakes::host::FileHost;
use jmakes::wanted::Wanted;
use jnode::Order;
use jreport::found_in;
use jscan::Geometry;

/// Makes a file of an image that was read, for so many blocks, and prints the line on it.
fn collect<E: Order, H: FileHost>(
    host: &mut H,
    file: Wanted<'_>,
    image: &[u8],
    geometry: Geometry,
    blocks: u32,
) -> Result<ApartDone, Fault>
    ensures { DoesFrom (H.history host.old) (H.history host.new)
        (compacts_apart E.order geometry.block blocks (wanted_file file.entry) image.now)
        (seen_as apart_told result) }
{
    let planned = match plan_staying::<E>(host.alloc(), image, geometry, blocks) {
        Ok(planned) => planned,
        Err(fault) => return Err(fault),
    };
    let (name, out) = match take_memory(host, file.name) {
        Ok(taken) => taken,
        Err(fault) => return Err(fault),
    };
    let addresses = planned.plan.addresses.as_slice();
    match make_image::<E, H>(host, file, name, image, geometry, addresses) {
        Ok(()) => {}
        Err(fault) => return Err(fault),
    }
    let told = Collected {
        kept: planned.plan.addresses.len(),
        nodes: planned.plan.nodes,
        bytes: planned.plan.bytes,
    };
    match print_compacted(host, out, told) {
        Ok(()) => Ok(ApartDone {
            found: found_in::<E>(image, geometry),
            left: planned.left,
        }),
        Err(fault) => Err(fault),
    }
}

/// `compact --clashes higher`, to a flash of so many blocks, or else to the greatest. The image is
/// held in memory before the file is made, so the two may be one.
pub fn compact_apart<E: Order, H: FileHost>(
    host: &mut H,
    asked: Remaking<'_>,
    blocks: Option<u32>,
) -> Result<ApartDone, Fault>
    requires { asked.options.endian ≡ E.order }
    ensures { DoesFrom (H.history host.old) (H.history host.new)
        (compact_apart_act (remaking_of asked.entry) blocks)
        (seen_as apart_told result) }
{
    let geometry = asked.options.geometry;
    let blocks = compact_blocks(geometry, blocks);
    match take::<E, H>(host, asked) {
        Ok(image) => collect::<E, H>(host, asked.output, image.as_slice(), geometry, blocks),
        Err(fault) => Err(fault),
    }
}
