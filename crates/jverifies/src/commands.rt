//! `verify` as the program runs it: its answer is told.
ghost use Rattle.std.specs.Prelude.{◌≡◌, Ok};
ghost use Rattle.jedge.specs.Acts.{DoesFrom};
ghost use Rattle.jedge.specs.Commands.{reported};
ghost use Rattle.jcommand.specs.Parsed.{verification_view};
ghost use Rattle.jverifies.specs.Verifying.{verify_act};

use crate::verifying::verify;
use jcommand::{Outcome, Verification};
use jedge::reporting::report;
use jfolders::host::FolderHost;
use jnode::Order;
use jreads::files_host::FilesHost;

/// `verify`.
pub fn run_verify<E: Order, H: FolderHost + FilesHost>(
    host: &mut H,
    asked: Verification<&str>,
) -> Outcome
    requires { asked.options.endian ≡ E.order }
    ensures { DoesFrom (H.history host.old) (H.history host.new)
        (reported (verify_act E.order (verification_view asked.entry))) (Ok result) }
{
    let answer = verify::<E, H>(host, asked);
    report(host, answer)
}
