//! `compress`: an image of the same nodes, compressed, goes to a file.
ghost use Rattle.std.specs.Prelude.{◌≡◌, None, string_bytes};
ghost use Rattle.flashbase.specs.Sinks.{change_of};
ghost use Rattle.jconvert.specs.Converting.{convert_fault};
ghost use Rattle.jedge.specs.Acts.{DoesFrom, seen_as};
ghost use Rattle.jmakes.specs.Making.{wanted_file};
ghost use Rattle.jremakes.specs.Asked.{remaking_of};
ghost use Rattle.jremakes.specs.Commands.{compress_act, packs};
ghost use Rattle.jremakes.specs.Leaving.{remade_told};
ghost use Rattle.jremakes.specs.Putting.{PutsCompressed, PutsInto, remakes};

use crate::asked::Remaking;
use crate::judging::judge_packed;
use crate::line::print_packed;
use crate::original::take;
use crate::remaking::{Unput, remade, take_memory, unput_of};
use flashbase::Sink;
use jconvert::{Converted, write_packed};
use jedge::fault::Fault;
use jedge::host::Host;
use jmakes::host::FileHost;
use jmakes::wanted::Wanted;
use jnode::Order;
use jreport::{Found, found_in};
use jscan::Geometry;
use std::alloc::Global;

/// Puts an image of the nodes of one that is not refused. Answers how many of them are compressed,
/// and its length.
fn put_image<E: Order, S: Sink>(
    alloc: Global,
    image: &[u8],
    geometry: Geometry,
    sink: &mut S,
) -> Result<(u64, u64), Unput>
    requires accepted { convert_fault E.order geometry.block image.now ≡ None }
    requires sound { S.failures sink.old ≡ 0 }
    ensures { PutsInto (PutsCompressed E.order geometry.block image.now)
        (change_of S.Sink sink.old sink.new) result }
{
    match write_packed::<E, S>(alloc, image, geometry, sink) {
        Ok(done) => Ok(done),
        Err(fault) => Err(unput_of(fault)),
    }
}

/// Makes the file of it.
fn make_image<E: Order, H: FileHost>(
    host: &mut H,
    file: Wanted<'_>,
    name: String,
    image: &[u8],
    geometry: Geometry,
) -> Result<(u64, u64), Fault>
    requires named { string_bytes name ≡ file.name.now }
    requires accepted { convert_fault E.order geometry.block image.now ≡ None }
    ensures { DoesFrom (H.history host.old) (H.history host.new) (remakes (wanted_file file.entry)
        (PutsCompressed E.order geometry.block image.now)) result }
{
    let (opened, mut made) = match host.create(file) {
        Ok(made) => made,
        Err(fault) => return Err(fault),
    };
    let put = put_image::<E, H::Made>(host.alloc(), image, geometry, &mut made);
    let closed = host.close_file(opened, made, file.filling, put.is_ok());
    remade(name, put, closed)
}

/// Makes a file of an image that was read, and prints the line on it. Answers what is found in the
/// image.
fn pack<E: Order, H: FileHost>(
    host: &mut H,
    file: Wanted<'_>,
    image: &[u8],
    geometry: Geometry,
) -> Result<Found, Fault>
    ensures { DoesFrom (H.history host.old) (H.history host.new)
        (packs E.order geometry.block (wanted_file file.entry) image.now)
        (seen_as remade_told result) }
{
    let nodes = match judge_packed::<E>(host.alloc(), image, geometry) {
        Ok(nodes) => nodes,
        Err(fault) => return Err(fault),
    };
    let (name, out) = match take_memory(host, file.name) {
        Ok(taken) => taken,
        Err(fault) => return Err(fault),
    };
    let (changed, bytes) = match make_image::<E, H>(host, file, name, image, geometry) {
        Ok(done) => done,
        Err(fault) => return Err(fault),
    };
    let told = Converted {
        changed,
        nodes,
        bytes,
    };
    match print_packed(host, out, told) {
        Ok(()) => Ok(found_in::<E>(image, geometry)),
        Err(fault) => Err(fault),
    }
}

/// `compress`. The image is held in memory before the file is made, so the two may be one.
pub fn compress<E: Order, H: FileHost>(host: &mut H, asked: Remaking<'_>) -> Result<Found, Fault>
    requires { asked.options.endian ≡ E.order }
    ensures { DoesFrom (H.history host.old) (H.history host.new)
        (compress_act (remaking_of asked.entry)) (seen_as remade_told result) }
{
    match take::<E, H>(host, asked) {
        Ok(image) => pack::<E, H>(host, asked.output, image.as_slice(), asked.options.geometry),
        Err(fault) => Err(fault),
    }
}
