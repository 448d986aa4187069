//! The image that a command takes to make another one of it.
ghost use Rattle.std.specs.Prelude.{◌≡◌, Ok};
ghost use Rattle.jedge.specs.Acts.{DoesFrom, seen_as};
ghost use Rattle.jremakes.specs.Asked.{MayBeReplaced, remaking_of, takes_original};

use crate::asked::Remaking;
use jedge::fault::Fault;
use jedge::host::Host;
use jedge::mounting::judge_nodes;
use jedge::reading::load;
use jmakes::host::FileHost;
use jmakes::keeping::findings_of;
use jnode::Order;
use jreport::{found_in, refuse_findings};
use std::alloc::Global;

/// Refuses an image with findings that would be replaced: it is the file that is made if `over` is
/// so.
pub(crate) fn judge_replaced<E: Order>(
    alloc: Global,
    asked: Remaking<'_>,
    over: bool,
    image: &[u8],
) -> Result<(), Fault>
    ensures { MayBeReplaced E.order (remaking_of asked.entry) over image.now result }
{
    if !over {
        return Ok(());
    }
    if asked.force {
        return Ok(());
    }
    let geometry = asked.options.geometry;
    match refuse_findings::<E>(image, geometry, asked.image) {
        Ok(()) => Ok(()),
        Err(_) => {
            let findings = found_in::<E>(image, geometry).count();
            Err(findings_of(alloc, asked.image, findings))
        }
    }
}

/// The image of a file. It is refused if no node is found in it, or if it has findings and would be
/// replaced.
pub(crate) fn take<E: Order, H: FileHost>(
    host: &mut H,
    asked: Remaking<'_>,
) -> Result<Vec<u8>, Fault>
    ensures { DoesFrom (H.history host.old) (H.history host.new)
        (takes_original E.order (remaking_of asked.entry)) (seen_as (λ image. image.items) result) }
{
    let over = host.is_one_file(asked.image, asked.output.name);
    let image = match load(host, asked.image) {
        Ok(image) => image,
        Err(fault) => return Err(fault),
    };
    match judge_nodes::<E>(host.alloc(), image.as_slice(), asked.options.geometry, None) {
        Ok(()) => {}
        Err(fault) => return Err(fault),
    }
    match judge_replaced::<E>(host.alloc(), asked, over, image.as_slice()) {
        Ok(()) => Ok(image),
        Err(fault) => Err(fault),
    }
}
