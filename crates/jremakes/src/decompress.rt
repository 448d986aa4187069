//! `decompress`: an image of the same nodes, whose data are not compressed, goes to a file.
ghost use Rattle.std.specs.Prelude.{◌≡◌, None, string_bytes};
ghost use Rattle.flashbase.specs.Sinks.{change_of};
ghost use Rattle.jconvert.specs.Converting.{convert_fault, converted_image};
ghost use Rattle.jconvert.specs.Holding.{IsHeldOf};
ghost use Rattle.jedge.specs.Acts.{DoesFrom, seen_as};
ghost use Rattle.jmakes.specs.Making.{wanted_file};
ghost use Rattle.jremakes.specs.Asked.{remaking_of};
ghost use Rattle.jremakes.specs.Commands.{converts, decompress_act};
ghost use Rattle.jremakes.specs.Leaving.{remade_told};
ghost use Rattle.jremakes.specs.Putting.{PutsAll, PutsInto, remakes};

use crate::asked::Remaking;
use crate::judging::judge_converted;
use crate::line::print_converted;
use crate::original::take;
use crate::remaking::{Unput, remade, take_memory, unput_of};
use flashbase::Sink;
use jconvert::{HELD_MOST, write_converted};
use jedge::fault::Fault;
use jedge::host::Host;
use jmakes::host::FileHost;
use jmakes::wanted::Wanted;
use jnode::Order;
use jreport::{Found, found_in};
use jscan::Geometry;
use std::alloc::Global;

/// Puts what is made of an image that is not refused.
fn put_image<E: Order, S: Sink>(
    alloc: Global,
    image: &[u8],
    geometry: Geometry,
    held: &[u8],
    sink: &mut S,
) -> Result<(), Unput>
    requires accepted { convert_fault E.order geometry.block image.now ≡ None }
    requires held { IsHeldOf E.order geometry.block image.now held.now }
    requires sound { S.failures sink.old ≡ 0 }
    ensures { PutsInto (PutsAll (converted_image E.order geometry.block image.now) (tt {0}))
        (change_of S.Sink sink.old sink.new) result }
{
    match write_converted::<E, S>(alloc, image, geometry, held, sink) {
        Ok(()) => Ok(()),
        Err(fault) => Err(unput_of(fault)),
    }
}

/// Makes the file of it.
fn make_image<E: Order, H: FileHost>(
    host: &mut H,
    file: Wanted<'_>,
    name: String,
    image: &[u8],
    geometry: Geometry,
    held: &[u8],
) -> Result<(), Fault>
    requires named { string_bytes name ≡ file.name.now }
    requires accepted { convert_fault E.order geometry.block image.now ≡ None }
    requires held { IsHeldOf E.order geometry.block image.now held.now }
    ensures { DoesFrom (H.history host.old) (H.history host.new) (remakes (wanted_file file.entry)
        (PutsAll (converted_image E.order geometry.block image.now) (tt {0}))) result }
{
    let (opened, mut made) = match host.create(file) {
        Ok(made) => made,
        Err(fault) => return Err(fault),
    };
    let put = put_image::<E, H::Made>(host.alloc(), image, geometry, held, &mut made);
    let closed = host.close_file(opened, made, file.filling, put.is_ok());
    remade(name, put, closed)
}

/// Makes a file of an image that was read, and prints the line on it. Answers what is found in the
/// image.
fn convert<E: Order, H: FileHost>(
    host: &mut H,
    file: Wanted<'_>,
    image: &[u8],
    geometry: Geometry,
) -> Result<Found, Fault>
    ensures { DoesFrom (H.history host.old) (H.history host.new)
        (converts E.order geometry.block (wanted_file file.entry) image.now)
        (seen_as remade_told result) }
{
    let judged = match judge_converted::<E>(host.alloc(), image, geometry, HELD_MOST) {
        Ok(judged) => judged,
        Err(fault) => return Err(fault),
    };
    let (name, out) = match take_memory(host, file.name) {
        Ok(taken) => taken,
        Err(fault) => return Err(fault),
    };
    match make_image::<E, H>(host, file, name, image, geometry, judged.held.as_slice()) {
        Ok(()) => {}
        Err(fault) => return Err(fault),
    }
    match print_converted(host, out, judged.told) {
        Ok(()) => Ok(found_in::<E>(image, geometry)),
        Err(fault) => Err(fault),
    }
}

/// `decompress`. The image is held in memory before the file is made, so the two may be one.
pub fn decompress<E: Order, H: FileHost>(host: &mut H, asked: Remaking<'_>) -> Result<Found, Fault>
    requires { asked.options.endian ≡ E.order }
    ensures { DoesFrom (H.history host.old) (H.history host.new)
        (decompress_act (remaking_of asked.entry)) (seen_as remade_told result) }
{
    match take::<E, H>(host, asked) {
        Ok(image) => {
            convert::<E, H>(host, asked.output, image.as_slice(), asked.options.geometry)
        }
        Err(fault) => Err(fault),
    }
}
