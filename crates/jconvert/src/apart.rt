//! Decompressing an image without the nodes that one of a higher address clashes with.

ghost use Rattle.std.specs.Prelude.{◌≡◌, None, Some, Ok, Err, IfOk, IfErr};
ghost use Rattle.jclash.specs.Parting.{Parts};
ghost use Rattle.jexpand.specs.declared.fault.ConvertFault.TheVariants.{OutOfMemory};
ghost use Rattle.jconvert.specs.Apart.{located_nodes, DecompressesApart, HaveRoom};
ghost use Rattle.jconvert.specs.Converting.{convert_fault};
ghost use Rattle.jconvert.specs.Holding.{IsHeldOf};
ghost use Rattle.flashbase.specs.Sinks.{change_of};

use crate::converted::Converted;
use crate::judging::judge;
use crate::keeping::write_nodes;
use crate::locating::located;
use flashbase::Sink;
use jclash::{LeftOut, Parted, without_clashing};
use jexpand::ConvertFault;
use jnode::Order;
use jscan::Geometry;
use std::alloc::Global;

/// What is told of an image that went out without nodes that clash, and the nodes that were left
/// out.
#[derive(Drop)]
pub struct Apart {
    pub told: Converted,
    pub left: Vec<LeftOut>,
}

/// The expanded nodes of an image that `judge` did not refuse: those that stay, and those that one
/// of a higher address clashes with. `held` is what it left: where that is not all that the data
/// stand for, memory is wanting.
///
/// # Errors
/// Only memory can be wanting.
pub fn part<'a, E: Order>(
    alloc: Global,
    image: &'a [u8],
    geometry: Geometry,
    held: &'a [u8],
) -> Result<Parted<'a>, ConvertFault>
    requires accepted { convert_fault E.order geometry.block image.now ≡ None }
    requires held { IsHeldOf E.order geometry.block image.now held.now }
    ensures parts { IfOk result
        (λ parted. Parts (located_nodes E.order geometry.block image.now) parted.stay.items
        parted.left.items) }
    // There is room for those that stay, since there is for all.
    ensures room { IfOk result
        (λ parted. HaveRoom E.order geometry.block parted.stay.items) }
    ensures memory { IfErr result (λ fault. fault ≡ OutOfMemory) }
{
    let nodes = match located::<E>(alloc, image, geometry, held) {
        Ok(nodes) => nodes,
        Err(_) => return Err(ConvertFault::OutOfMemory),
    };
    match without_clashing(alloc, &nodes) {
        Ok(parted) => Ok(parted),
        Err(_) => Err(ConvertFault::OutOfMemory),
    }
}

/// Decompresses an image into a sink, which comes back in any case, without the nodes that one of a
/// higher address clashes with. It takes the memory of all that the data stand for.
///
/// # Errors
/// As `judge`, before a byte is put, and then as `write_nodes`.
pub fn decompress_apart<E: Order, S: Sink>(
    alloc: Global,
    image: &[u8],
    geometry: Geometry,
    mut sink: S,
) -> Result<(S, Apart), (ConvertFault, Option<S>)>
    ensures ok { IfOk result (λ done. DecompressesApart E.order geometry.block image.now
        (change_of S.Sink sink done.0) (Ok done.1)) }
    ensures err { IfErr result (λ refused. (back : S) × (refused.1 ≡ Some back)
        × DecompressesApart E.order geometry.block image.now
        (record {
          old = S.taken sink;
          new = S.taken back;
          before = S.failures sink;
          now = S.failures back;
        }) (Err refused.0)) }
{
    let judged = match judge::<E>(alloc, image, geometry, usize::MAX) {
        Ok(judged) => judged,
        Err(fault) => return Err((fault, Some(sink))),
    };
    let Parted { stay, left } = match part::<E>(alloc, image, geometry, &judged.held) {
        Ok(parted) => parted,
        Err(_) => return Err((ConvertFault::OutOfMemory, Some(sink))),
    };
    match write_nodes::<E, S>(alloc, &stay, geometry, &mut sink) {
        Ok(bytes) => {
            let told = Converted {
                changed: judged.told.changed,
                nodes: stay.len() as u64,
                bytes,
            };
            Ok((sink, Apart { told, left }))
        }
        Err(fault) => Err((fault, Some(sink))),
    }
}
