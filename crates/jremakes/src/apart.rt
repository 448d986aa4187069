//! `decompress --clashes higher`: an image without the nodes that one of a higher address clashes
//! with goes to a file.
ghost use Rattle.std.specs.Prelude.{◌≡◌, ◌≤◌, IsTrue, None, string_bytes};
ghost use Rattle.flashbase.specs.Sinks.{change_of};
ghost use Rattle.jscan.specs.Image.{is_block_size};
ghost use Rattle.jclash.specs.Parting.{Parts};
ghost use Rattle.jconvert.specs.Apart.{located_nodes};
ghost use Rattle.jconvert.specs.Converting.{convert_fault};
ghost use Rattle.jedge.specs.Acts.{DoesFrom, seen_as};
ghost use Rattle.jmakes.specs.Making.{wanted_file};
ghost use Rattle.jremakes.specs.Asked.{remaking_of};
ghost use Rattle.jremakes.specs.Commands.{apart_act, leaves_out};
ghost use Rattle.jremakes.specs.Leaving.{apart_told};
ghost use Rattle.jremakes.specs.Putting.{PutsInto, PutsNodes, remakes};

use crate::asked::Remaking;
use crate::judging::{judge_converted, parted};
use crate::line::print_converted;
use crate::original::take;
use crate::remaking::{Unput, remade, take_memory, unput_of};
use flashbase::Sink;
use jconvert::{Converted, LeftOut, Parted, write_nodes};
use jedge::fault::Fault;
use jedge::host::Host;
use jmakes::host::FileHost;
use jmakes::wanted::Wanted;
use jnode::{NodeRef, Order};
use jreport::{Found, found_in};
use jscan::Geometry;
use std::alloc::Global;

/// What came of an image without nodes that clash: what is found in the image that was read, and
/// the nodes that are left out.
#[derive(Drop)]
pub struct ApartDone {
    pub found: Found,
    pub left: Vec<LeftOut>,
}

/// Puts an image of the nodes that stay of one that is not refused. Answers its length.
fn put_image<E: Order, S: Sink>(
    alloc: Global,
    image: &[u8],
    parted: &Parted<'_>,
    geometry: Geometry,
    sink: &mut S,
) -> Result<u64, Unput>
    requires accepted { convert_fault E.order geometry.block image.now ≡ None }
    requires parts { Parts (located_nodes E.order geometry.block image.now) parted.now.stay.items
        parted.now.left.items }
    requires sound { S.failures sink.old ≡ 0 }
    ensures { PutsInto (PutsNodes E.order geometry.block parted.now.stay.items)
        (change_of S.Sink sink.old sink.new) result }
{
    match write_nodes::<E, S>(alloc, parted.stay.as_slice(), geometry, sink) {
        Ok(end) => Ok(end),
        Err(fault) => Err(unput_of(fault)),
    }
}

/// Makes the file of it.
fn make_image<E: Order, H: FileHost>(
    host: &mut H,
    file: Wanted<'_>,
    name: String,
    image: &[u8],
    parted: &Parted<'_>,
    geometry: Geometry,
) -> Result<u64, Fault>
    requires named { string_bytes name ≡ file.name.now }
    requires accepted { convert_fault E.order geometry.block image.now ≡ None }
    requires parts { Parts (located_nodes E.order geometry.block image.now) parted.now.stay.items
        parted.now.left.items }
    ensures { DoesFrom (H.history host.old) (H.history host.new) (remakes (wanted_file file.entry)
        (PutsNodes E.order geometry.block parted.now.stay.items)) result }
{
    let (opened, mut made) = match host.create(file) {
        Ok(made) => made,
        Err(fault) => return Err(fault),
    };
    let put = put_image::<E, H::Made>(host.alloc(), image, parted, geometry, &mut made);
    let closed = host.close_file(opened, made, file.filling, put.is_ok());
    remade(name, put, closed)
}

/// Makes a file of an image that was read, and prints the line on it.
fn leave_out<E: Order, H: FileHost>(
    host: &mut H,
    file: Wanted<'_>,
    image: &[u8],
    geometry: Geometry,
) -> Result<ApartDone, Fault>
    ensures { DoesFrom (H.history host.old) (H.history host.new)
        (leaves_out E.order geometry.block (wanted_file file.entry) image.now)
        (seen_as apart_told result) }
{
    let judged = match judge_converted::<E>(host.alloc(), image, geometry, usize::MAX) {
        Ok(judged) => judged,
        Err(fault) => return Err(fault),
    };
    let parted = match parted::<E>(host.alloc(), image, geometry, judged.held.as_slice()) {
        Ok(parted) => parted,
        Err(fault) => return Err(fault),
    };
    let (name, out) = match take_memory(host, file.name) {
        Ok(taken) => taken,
        Err(fault) => return Err(fault),
    };
    let bytes = match make_image::<E, H>(host, file, name, image, &parted, geometry) {
        Ok(bytes) => bytes,
        Err(fault) => return Err(fault),
    };
    let told = Converted {
        changed: judged.told.changed,
        nodes: parted.stay.len() as u64,
        bytes,
    };
    match print_converted(host, out, told) {
        Ok(()) => Ok(ApartDone {
            found: found_in::<E>(image, geometry),
            left: parted.left,
        }),
        Err(fault) => Err(fault),
    }
}

/// `decompress --clashes higher`. The image is held in memory before the file is made, so the two
/// may be one.
pub fn apart<E: Order, H: FileHost>(host: &mut H, asked: Remaking<'_>) -> Result<ApartDone, Fault>
    requires { asked.options.endian ≡ E.order }
    ensures { DoesFrom (H.history host.old) (H.history host.new)
        (apart_act (remaking_of asked.entry)) (seen_as apart_told result) }
{
    match take::<E, H>(host, asked) {
        Ok(image) => {
            leave_out::<E, H>(host, asked.output, image.as_slice(), asked.options.geometry)
        }
        Err(fault) => Err(fault),
    }
}
