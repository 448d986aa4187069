//! The commands as the program runs them: each is gone through, and its answer told.
ghost use Rattle.std.specs.Prelude.{◌≡◌, Ok, option_map};
ghost use Rattle.jedge.specs.Acts.{DoesFrom};
ghost use Rattle.jedge.specs.Commands.{reported};
ghost use Rattle.jreads.specs.Cutting.{cuts_act};
ghost use Rattle.jreads.specs.Scanning.{scan_act};

use crate::cuts::cuts;
use crate::files_host::FilesHost;
use crate::scan::scan;
use crate::stream_host::StreamHost;
use jcommand::{Cuts, Image, Outcome};
use jedge::reporting::report;
use jnode::Order;

/// `cuts`.
pub fn run_cuts<E: Order, H: FilesHost>(host: &mut H, asked: Cuts<&str>) -> Outcome
    requires { asked.options.endian ≡ E.order }
    ensures { DoesFrom (H.history host.old) (H.history host.new)
        (reported (cuts_act asked.entry.options asked.entry.blocks asked.entry.page
        (option_map (λ name. name.now) asked.entry.on) asked.entry.listing.now)) (Ok result) }
{
    let answer = cuts::<E, H>(host, asked);
    report(host, answer)
}

/// `check --scan`.
pub fn run_scan<E: Order, H: StreamHost>(host: &mut H, asked: Image<&str>) -> Outcome
    requires { asked.options.endian ≡ E.order }
    ensures { DoesFrom (H.history host.old) (H.history host.new)
        (reported (scan_act asked.entry.options asked.entry.image.now)) (Ok result) }
{
    let answer = scan::<E, H>(host, asked.options, asked.image);
    report(host, answer)
}
