//! The commands as the program runs them: each is gone through, and its answer told.
ghost use Rattle.std.specs.Prelude.{◌≡◌, Ok};
ghost use Rattle.jedge.specs.Acts.{DoesFrom};
ghost use Rattle.jedge.specs.Commands.{reported};
ghost use Rattle.jremakes.specs.Asked.{remaking_of};
ghost use Rattle.jremakes.specs.Commands.{apart_act, compact_act, compact_apart_act, compress_act, decompress_act};

use crate::apart::apart;
use crate::asked::Remaking;
use crate::compact::compact;
use crate::compact_apart::compact_apart;
use crate::compress::compress;
use crate::decompress::decompress;
use crate::leaving::{report_apart, report_remade};
use jcommand::Outcome;
use jmakes::host::FileHost;
use jnode::Order;

/// `decompress`.
pub fn run_decompress<E: Order, H: FileHost>(host: &mut H, asked: Remaking<'_>) -> Outcome
    requires { asked.options.endian ≡ E.order }
    ensures { DoesFrom (H.history host.old) (H.history host.new)
        (reported (decompress_act (remaking_of asked.entry))) (Ok result) }
{
    let answer = decompress::<E, H>(host, asked);
    report_remade(host, answer)
}

/// `compress`.
pub fn run_compress<E: Order, H: FileHost>(host: &mut H, asked: Remaking<'_>) -> Outcome
    requires { asked.options.endian ≡ E.order }
    ensures { DoesFrom (H.history host.old) (H.history host.new)
        (reported (compress_act (remaking_of asked.entry))) (Ok result) }
{
    let answer = compress::<E, H>(host, asked);
    report_remade(host, answer)
}

/// `decompress --clashes higher`.
pub fn run_apart<E: Order, H: FileHost>(host: &mut H, asked: Remaking<'_>) -> Outcome
    requires { asked.options.endian ≡ E.order }
    ensures { DoesFrom (H.history host.old) (H.history host.new)
        (reported (apart_act (remaking_of asked.entry))) (Ok result) }
{
    let answer = apart::<E, H>(host, asked);
    report_apart(host, answer)
}

/// `compact`, to a flash of so many blocks, or else to the greatest.
pub fn run_compact<E: Order, H: FileHost>(
    host: &mut H,
    asked: Remaking<'_>,
    blocks: Option<u32>,
) -> Outcome
    requires { asked.options.endian ≡ E.order }
    ensures { DoesFrom (H.history host.old) (H.history host.new)
        (reported (compact_act (remaking_of asked.entry) blocks)) (Ok result) }
{
    let answer = compact::<E, H>(host, asked, blocks);
    report_remade(host, answer)
}

/// `compact --clashes higher`, to a flash of so many blocks, or else to the greatest.
pub fn run_compact_apart<E: Order, H: FileHost>(
    host: &mut H,
    asked: Remaking<'_>,
    blocks: Option<u32>,
) -> Outcome
    requires { asked.options.endian ≡ E.order }
    ensures { DoesFrom (H.history host.old) (H.history host.new)
        (reported (compact_apart_act (remaking_of asked.entry) blocks)) (Ok result) }
{
    let answer = compact_apart::<E, H>(host, asked, blocks);
    report_apart(host, answer)
}
