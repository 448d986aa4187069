//! `pack` and `pack --compress` as the program runs them: the answer is told.
ghost use Rattle.std.specs.Prelude.{◌≡◌, ◌==◌, Ok, if◌then◌else◌};
ghost use Rattle.jcommand.specs.Parsed.{packing_view};
ghost use Rattle.jcommand.specs.declared.outcome.Outcome.{Outcome};
ghost use Rattle.jedge.specs.Acts.{DoesFrom, seen_as};
ghost use Rattle.jedge.specs.Commands.{ends, reported};
ghost use Rattle.jpacks.specs.Packing.{pack_act, pack_compressed_act};
ghost use Rattle.jpacks.specs.Seen.{packed_seen};

use crate::compressed::pack_compressed;
use crate::packing::{Packed, pack};
use jcommand::{Outcome, Packing};
use jedge::fault::Fault;
use jedge::host::Host;
use jedge::reporting::report;
use jfolders::host::FolderHost;
use jmakes::host::FileHost;
use jmakes::reporting::report_written;
use jnode::Order;
use jreads::files_host::FilesHost;

/// How a run ends that left out so many objects, and else ends so.
fn outcome_with(left_out: u64, outcome: Outcome) -> Outcome
    ensures { result ≡ (if left_out == 0 then outcome else Outcome.Found) }
{
    match left_out {
        0 => outcome,
        _ => Outcome::Found,
    }
}

/// Tells an answer on standard error, and how the program ends with it. What was left out is told
/// before.
fn report_packed<H: Host>(host: &mut H, answer: Result<Packed, Fault>) -> Outcome
    ensures { DoesFrom (H.history host.old) (H.history host.new)
        (ends (seen_as packed_seen answer)) (Ok result) }
{
    match answer {
        Ok(packed) => {
            let outcome = report_written(host, Ok(packed.written));
            outcome_with(packed.left_out, outcome)
        }
        Err(fault) => report_written(host, Err(fault)),
    }
}

/// `pack`.
pub fn run_pack<E: Order, H: FolderHost + FilesHost + FileHost>(
    host: &mut H,
    asked: Packing<&str>,
) -> Outcome
    ensures { DoesFrom (H.history host.old) (H.history host.new)
        (reported (pack_act E.order (packing_view asked.entry))) (Ok result) }
{
    let answer = pack::<E, H>(host, asked);
    report_packed(host, answer)
}

/// `pack --compress`.
pub fn run_pack_compressed<E: Order, H: FolderHost + FilesHost + FileHost>(
    host: &mut H,
    asked: Packing<&str>,
) -> Outcome
    ensures { DoesFrom (H.history host.old) (H.history host.new)
        (reported (pack_compressed_act E.order (packing_view asked.entry))) (Ok result) }
{
    let answer = pack_compressed::<E, H>(host, asked);
    report(host, answer)
}
