//! `compact`: an image of the nodes that matter of another one goes to a file.
ghost use Rattle.std.specs.Prelude.{◌≡◌, string_bytes};
ghost use Rattle.flashbase.specs.Sinks.{change_of};
ghost use Rattle.jcollect.specs.Planning.{MayPut};
ghost use Rattle.jcollect.specs.Tiles.{copied_image};
ghost use Rattle.jedge.specs.Acts.{DoesFrom, seen_as};
ghost use Rattle.jmakes.specs.Making.{wanted_file};
ghost use Rattle.jremakes.specs.Asked.{remaking_of};
ghost use Rattle.jremakes.specs.Commands.{compact_act, compacts};
ghost use Rattle.jremakes.specs.Leaving.{remade_told};
ghost use Rattle.jremakes.specs.Putting.{PutsAll, PutsInto, remakes};

use crate::asked::Remaking;
use crate::line::print_compacted;
use crate::original::take;
use crate::planning::{compact_blocks, plan};
use crate::remaking::{Unput, remade, take_memory};
use flashbase::Sink;
use jcollect::{Collected, put};
use jedge::fault::Fault;
use jedge::host::Host;
use jmakes::host::FileHost;
use jmakes::wanted::Wanted;
use jnode::Order;
use jreport::{Found, found_in};
use jscan::Geometry;
use std::alloc::Global;

/// Puts an image of the nodes at these addresses.
fn put_image<E: Order, S: Sink>(
    image: &[u8],
    geometry: Geometry,
    addresses: &[u32],
    sink: &mut S,
) -> Result<(), Unput>
    requires may { MayPut E.order geometry.block image.now addresses.now }
    requires sound { S.failures sink.old ≡ 0 }
    ensures { PutsInto
        (PutsAll (copied_image E.order geometry.block image.now addresses.now) (tt {0}))
        (change_of S.Sink sink.old sink.new) result }
{
    match put::<E, S>(image, geometry, addresses, sink) {
        Ok(()) => Ok(()),
        Err(_) => Err(Unput::File),
    }
}

/// Makes the file of it.
pub(crate) fn make_image<E: Order, H: FileHost>(
    host: &mut H,
    file: Wanted<'_>,
    name: String,
    image: &[u8],
    geometry: Geometry,
    addresses: &[u32],
) -> Result<(), Fault>
    requires named { string_bytes name ≡ file.name.now }
    requires may { MayPut E.order geometry.block image.now addresses.now }
    ensures { DoesFrom (H.history host.old) (H.history host.new) (remakes (wanted_file file.entry)
        (PutsAll (copied_image E.order geometry.block image.now addresses.now) (tt {0})))
        result }
{
    let (opened, mut made) = match host.create(file) {
        Ok(made) => made,
        Err(fault) => return Err(fault),
    };
    let put = put_image::<E, H::Made>(image, geometry, addresses, &mut made);
    let closed = host.close_file(opened, made, file.filling, put.is_ok());
    remade(name, put, closed)
}

/// Makes a file of an image that was read, for so many blocks, and prints the line on it. Answers
/// what is found in the image.
fn collect<E: Order, H: FileHost>(
    host: &mut H,
    file: Wanted<'_>,
    image: &[u8],
    geometry: Geometry,
    blocks: u32,
) -> Result<Found, Fault>
    ensures { DoesFrom (H.history host.old) (H.history host.new)
        (compacts E.order geometry.block blocks (wanted_file file.entry) image.now)
        (seen_as remade_told result) }
{
    let planned = match plan::<E>(host.alloc(), image, geometry, blocks) {
        Ok(planned) => planned,
        Err(fault) => return Err(fault),
    };
    let (name, out) = match take_memory(host, file.name) {
        Ok(taken) => taken,
        Err(fault) => return Err(fault),
    };
    match make_image::<E, H>(
        host,
        file,
        name,
        image,
        geometry,
        planned.addresses.as_slice(),
    ) {
        Ok(()) => {}
        Err(fault) => return Err(fault),
    }
    let told = Collected {
        kept: planned.addresses.len(),
        nodes: planned.nodes,
        bytes: planned.bytes,
    };
    match print_compacted(host, out, told) {
        Ok(()) => Ok(found_in::<E>(image, geometry)),
        Err(fault) => Err(fault),
    }
}

/// `compact`, to a flash of so many blocks, or else to the greatest. The image is held in memory
/// before the file is made, so the two may be one.
pub fn compact<E: Order, H: FileHost>(
    host: &mut H,
    asked: Remaking<'_>,
    blocks: Option<u32>,
) -> Result<Found, Fault>
    requires { asked.options.endian ≡ E.order }
    ensures { DoesFrom (H.history host.old) (H.history host.new)
        (compact_act (remaking_of asked.entry) blocks) (seen_as remade_told result) }
{
    let geometry = asked.options.geometry;
    let blocks = compact_blocks(geometry, blocks);
    match take::<E, H>(host, asked) {
        Ok(image) => collect::<E, H>(host, asked.output, image.as_slice(), geometry, blocks),
        Err(fault) => Err(fault),
    }
}
