//! `cuts --decompress`, `cuts --compress` and `cuts --update` as the program runs them.
ghost use Rattle.std.specs.Prelude.{Ok};
ghost use Rattle.jcommand.specs.Parsed.{cuts_through_view, update_cuts_view};
ghost use Rattle.jedge.specs.Acts.{DoesFrom};
ghost use Rattle.jedge.specs.Commands.{reported};
ghost use Rattle.jforetells.specs.Foretelling.{cuts_through_act, cuts_update_act};

use crate::foretelling::{cuts_through, cuts_update};
use jcommand::{CutsThrough, Outcome, UpdateCuts};
use jedge::reporting::report;
use jnode::Order;
use jreads::files_host::FilesHost;

/// `cuts` of an image that is mounted through its compression, or of nodes that are compressed.
pub fn run_cuts_through<E: Order, H: FilesHost>(host: &mut H, asked: CutsThrough<&str>) -> Outcome
    ensures { DoesFrom (H.history host.old) (H.history host.new)
        (reported (cuts_through_act E.order (cuts_through_view asked.entry))) (Ok result) }
{
    let answer = cuts_through::<E, H>(host, asked);
    report(host, answer)
}

/// `cuts --update`.
pub fn run_cuts_update<E: Order, H: FilesHost>(host: &mut H, asked: UpdateCuts<&str>) -> Outcome
    ensures { DoesFrom (H.history host.old) (H.history host.new)
        (reported (cuts_update_act E.order (update_cuts_view asked.entry))) (Ok result) }
{
    let answer = cuts_update::<E, H>(host, asked);
    report(host, answer)
}
