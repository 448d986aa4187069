//! `diff`: what the trees of two images differ in.
ghost use Rattle.std.specs.Prelude.{◌≡◌, option_map};
ghost use Rattle.jcommand.specs.Parsed.{comparison_view};
ghost use Rattle.jedge.specs.Acts.{DoesFrom, prints, seen_as};
ghost use Rattle.jedge.specs.Commands.{comparing, compares, diff_act};
ghost use Rattle.jedge.specs.Images.{MountsBoth};
ghost use Rattle.jedge.specs.Comparing.{Compares, both_noted, compared, lines_compared};
ghost use Rattle.jedge.specs.Told.{found_told, note_text};

use crate::damage::either;
use crate::fault::Fault;
use crate::found::{Found, Named, Note, finished};
use crate::host::Host;
use crate::mounting::{judge_nodes, mounted_as};
use crate::reading::load;
use jcommand::Comparison;
use jdiff::{Comparing, put_differences};
use jmount::Mounted;
use jnode::Order;
use jreport::{ProgramFault, noted};
use std::alloc::Global;

/// The notes on the findings of two images, if there are any.
fn both_noted<'a>(first: Named<'a>, second: Named<'a>) -> Option<Note<'a>>
    ensures { option_map note_text result ≡ both_noted first.entry.name.now first.entry.findings
        second.entry.name.now second.entry.findings }
{
    if first.findings == 0 && second.findings == 0 {
        None
    } else {
        Some(Note::Both(first, second))
    }
}

/// What a comparison comes to that has so many lines.
fn compared<'a>(
    asked: Comparison<&'a str>,
    left: &Mounted<'_>,
    right: &Mounted<'_>,
    lines: u64,
) -> Found<'a>
    ensures { found_told result ≡ compared asked.entry.first.now asked.entry.second.now left.now
        right.now lines }
{
    let first = Named {
        name: asked.first,
        findings: noted(left),
    };
    let second = Named {
        name: asked.second,
        findings: noted(right),
    };
    Found {
        counted: either(lines, either(first.findings, second.findings)),
        note: both_noted(first, second),
    }
}

/// The same, by what was put.
fn lines_compared<'a>(
    asked: Comparison<&'a str>,
    left: &Mounted<'_>,
    right: &Mounted<'_>,
    put: Result<u64, ProgramFault<'static>>,
) -> Result<Found<'a>, Fault>
    ensures { seen_as found_told result ≡ lines_compared (compared asked.entry.first.now
        asked.entry.second.now left.now right.now) put.entry }
{
    match put {
        Ok(lines) => Ok(compared(asked, left, right, lines)),
        Err(fault) => Err(Fault::of(fault)),
    }
}

/// Prints the lines on the trees of two mounts.
fn print_differences<'a, 'i, H: Host>(
    host: &mut H,
    asked: Comparison<&'a str>,
    left: Mounted<'i>,
    right: Mounted<'i>,
) -> Result<Found<'a>, Fault>
    ensures { DoesFrom (H.history host.old) (H.history host.new)
        (prints (Compares (comparing (comparison_view asked.entry)) left.entry right.entry
        (compared asked.entry.first.now asked.entry.second.now left.entry right.entry)))
        (seen_as found_told result) }
{
    let mut out = match host.output() {
        Ok(out) => out,
        Err(fault) => return Err(fault),
    };
    let how = Comparing {
        times: asked.times,
        order: asked.options.endian,
    };
    let put = put_differences(host.alloc(), &left, &right, how, &mut out);
    let closed = host.close(out);
    finished(lines_compared(asked, &left, &right, put), closed)
}

/// The mounts of two images, which borrow the bytes of `contents` and `others`.
fn mount_both<'i, E: Order>(
    alloc: Global,
    asked: Comparison<&str>,
    first: &'i [u8],
    second: &'i [u8],
    contents: &'i mut Vec<u8>,
    others: &'i mut Vec<u8>,
) -> Result<(Mounted<'i>, Mounted<'i>), Fault>
    ensures { MountsBoth asked.entry.decompress E.order asked.entry.options.geometry.block first.now
        second.now result }
{
    let geometry = asked.options.geometry;
    let through = asked.decompress;
    match mounted_as::<E>(alloc, first, geometry, through, contents) {
        Ok(left) => match mounted_as::<E>(alloc, second, geometry, through, others) {
            Ok(right) => Ok((left, right)),
            Err(fault) => Err(fault),
        },
        Err(fault) => Err(fault),
    }
}

/// Compares two images in which nodes are found.
fn compare<'a, 'i, E: Order, H: Host>(
    host: &mut H,
    asked: Comparison<&'a str>,
    first: &'i [u8],
    second: &'i [u8],
) -> Result<Found<'a>, Fault>
    requires { asked.options.endian ≡ E.order }
    ensures { DoesFrom (H.history host.old) (H.history host.new)
        (compares (comparison_view asked.entry) first.now second.now)
        (seen_as found_told result) }
{
    let geometry = asked.options.geometry;
    match judge_nodes::<E>(host.alloc(), first, geometry, Some(asked.first)) {
        Ok(()) => {}
        Err(fault) => return Err(fault),
    }
    match judge_nodes::<E>(host.alloc(), second, geometry, Some(asked.second)) {
        Ok(()) => {}
        Err(fault) => return Err(fault),
    }
    let mut contents = Vec::new(host.alloc());
    let mut others = Vec::new(host.alloc());
    match mount_both::<E>(
        host.alloc(),
        asked,
        first,
        second,
        &mut contents,
        &mut others,
    ) {
        Ok((left, right)) => print_differences(host, asked, left, right),
        Err(fault) => Err(fault),
    }
}

/// `diff`.
pub fn diff<'a, E: Order, H: Host>(
    host: &mut H,
    asked: Comparison<&'a str>,
) -> Result<Found<'a>, Fault>
    requires { asked.options.endian ≡ E.order }
    ensures { DoesFrom (H.history host.old) (H.history host.new)
        (diff_act (comparison_view asked.entry)) (seen_as found_told result) }
{
    let first = match load(host, asked.first) {
        Ok(image) => image,
        Err(fault) => return Err(fault),
    };
    match load(host, asked.second) {
        Ok(second) => compare::<E, H>(host, asked, first.as_slice(), second.as_slice()),
        Err(fault) => Err(fault),
    }
}
