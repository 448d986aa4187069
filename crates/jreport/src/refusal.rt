//! Why an image does not mount, as the program tells it.

ghost use Rattle.std.specs.Prelude.{Ok, Err, IfOk, IfErr};
ghost use Rattle.jmount.specs.Mounts.{Answers};
ghost use Rattle.jreport.specs.Refusal.{IsRefusalTold};

use crate::faults::ProgramFault;
use jclash::clash_below;
use jmount::{MountFault, Mounted, mount};
use jnode::Order;
use jscan::Geometry;
use std::alloc::Global;

/// What is told where the mount of an image is refused: of nodes that clash both addresses.
fn told<E: Order>(image: &[u8], geometry: Geometry, fault: MountFault) -> ProgramFault<'static>
    requires { Answers E.order geometry.block image.now (Err fault) }
    ensures { IsRefusalTold E.order geometry.block image.now result }
{
    match fault {
        MountFault::Clash { addr } => match clash_below::<E>(image, geometry, addr) {
            Some(other) => ProgramFault::Clash { addr, other },
            None => ProgramFault::Mount(fault),
        },
        _ => ProgramFault::Mount(fault),
    }
}

/// Mounts an image, as `jmount::mount` does.
///
/// # Errors
/// As it, but that of nodes that clash the fault has both addresses.
pub fn mount_or_tell<'a, E: Order>(
    alloc: Global,
    image: &'a [u8],
    geometry: Geometry,
) -> Result<Mounted<'a>, ProgramFault<'static>>
    ensures mounts { IfOk result (λ m. Answers E.order geometry.block image.now (Ok m)) }
    ensures told { IfErr result (IsRefusalTold E.order geometry.block image.now) }
{
    match mount::<E>(alloc, image, geometry) {
        Ok(mounted) => Ok(mounted),
        Err(fault) => Err(told::<E>(image, geometry, fault)),
    }
}
