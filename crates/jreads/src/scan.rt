//! `check --scan`, which reads an image as a stream and prints the report of it meanwhile.
ghost use Rattle.std.specs.Prelude.{◌≡◌, IsTrue};
ghost use Rattle.flashbase.specs.Sinks.{change_of};
ghost use Rattle.jscan.specs.Image.{is_block_size};
ghost use Rattle.jedge.specs.Acts.{DoesFrom, seen_as};
ghost use Rattle.jedge.specs.Told.{found_told};
ghost use Rattle.jreads.specs.Scanning.{scan_act, scan_closed, scans_open};
ghost use Rattle.jreads.specs.Streaming.{PutsScan};

use crate::stream_host::StreamHost;
use flashbase::Sink;
use jcommand::Options;
use jedge::fault::Fault;
use jedge::found::{Found, finished};
use jedge::mounting::judge_block_size;
use jnode::Order;
use jreport::{ProgramFault, stream_lines};
use jscan::Geometry;

/// What a scan comes to, by what was put and how the file was closed.
fn scan_closed(
    put: Result<u64, ProgramFault<'static>>,
    closed: Result<(), Fault>,
) -> Result<Found<'static>, Fault>
    ensures { seen_as found_told result ≡ scan_closed put.entry closed }
{
    match closed {
        Ok(()) => match put {
            Ok(findings) => Ok(Found {
                counted: findings,
                note: None,
            }),
            Err(fault) => Err(Fault::of(fault)),
        },
        Err(fault) => Err(fault),
    }
}

/// Puts the report of a file that is open, as it is read, and closes it.
fn put_scan<E: Order, H: StreamHost, T: Sink>(
    host: &mut H,
    input: H::Input,
    geometry: Geometry,
    sink: &mut T,
) -> Result<Found<'static>, Fault>
    requires { IsTrue (is_block_size geometry.block) }
    ensures { PutsScan E.order geometry.block (H.Input.name input) (H.history host.old)
        (H.history host.new) (change_of T.Sink sink.old sink.new) (seen_as found_told result) }
{
    let (streamed, source) = host.stream(input);
    let (put, left) = stream_lines::<E, _, _>(host.alloc(), source, geometry, sink);
    match left {
        Some(source) => {
            let closed = host.close_stream(streamed, source);
            scan_closed(put, closed)
        }
        None => scan_closed(put, Ok(())),
    }
}

/// Prints the report of a file that is open.
fn print_scan<E: Order, H: StreamHost>(
    host: &mut H,
    input: H::Input,
    geometry: Geometry,
) -> Result<Found<'static>, Fault>
    requires { IsTrue (is_block_size geometry.block) }
    ensures { DoesFrom (H.history host.old) (H.history host.new)
        (scans_open E.order geometry.block (H.Input.name input)) (seen_as found_told result) }
{
    let mut out = match host.output() {
        Ok(out) => out,
        Err(fault) => return Err(fault),
    };
    let answer = put_scan::<E, H, _>(host, input, geometry, &mut out);
    let closed = host.close(out);
    finished(answer, closed)
}

/// `check --scan`.
pub fn scan<E: Order, H: StreamHost>(
    host: &mut H,
    options: Options,
    image: &str,
) -> Result<Found<'static>, Fault>
    requires { options.endian ≡ E.order }
    ensures { DoesFrom (H.history host.old) (H.history host.new) (scan_act options image.now)
        (seen_as found_told result) }
{
    let input = match host.open(image) {
        Ok(input) => input,
        Err(fault) => return Err(fault),
    };
    match judge_block_size(options.geometry) {
        Ok(()) => print_scan::<E, H>(host, input, options.geometry),
        Err(fault) => Err(fault),
    }
}
