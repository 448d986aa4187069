//! `ls`: the lines of a tree.
ghost use Rattle.std.specs.Prelude.{◌≡◌, option_map};
ghost use Rattle.flashbase.specs.Sinks.{change_of};
ghost use Rattle.jreport.specs.TreeText.{PutsTreeAt};
ghost use Rattle.jedge.specs.Acts.{DoesFrom, prints, seen_as};
ghost use Rattle.jedge.specs.Commands.{list_act};
ghost use Rattle.jedge.specs.Showing.{Lists, put_found};
ghost use Rattle.jedge.specs.Told.{found_told};

use crate::fault::Fault;
use crate::found::{Found, finished};
use crate::host::Host;
use crate::mounting::mounted_tree;
use crate::reading::load;
use crate::subject::{part_named, read_found};
use flashbase::Sink;
use jcommand::Options;
use jmount::Mounted;
use jnode::Order;
use jreport::{ProgramFault, others_if_none, put_subtree, tree_lines};
use std::alloc::Global;

/// Puts the lines of a tree, or of the part of it that a path names.
fn put_lines<T: Sink>(
    alloc: Global,
    mounted: &Mounted<'_>,
    part: &Option<Vec<u8>>,
    sink: &mut T,
) -> Result<(), ProgramFault<'static>>
    ensures { PutsTreeAt mounted.now.state (option_map (λ path. path.items) part.now)
        (change_of T.Sink sink.old sink.new) result }
{
    match part {
        Some(path) => put_subtree(alloc, mounted, path.as_slice(), sink),
        None => tree_lines(alloc, mounted, sink),
    }
}

/// What a command comes to that put all of a text, or why it did not.
pub fn put_found(
    put: Result<(), ProgramFault<'static>>,
    found: Found<'static>,
) -> Result<Found<'static>, Fault>
    ensures { seen_as found_told result ≡ put_found (found_told found.entry) put.entry }
{
    match put {
        Ok(()) => Ok(found),
        Err(fault) => Err(Fault::of(fault)),
    }
}

/// Prints those lines.
fn print_lines<H: Host>(
    host: &mut H,
    mounted: &Mounted<'_>,
    part: &Option<Vec<u8>>,
    found: Found<'static>,
) -> Result<Found<'static>, Fault>
    ensures { DoesFrom (H.history host.old) (H.history host.new)
        (prints (Lists mounted.now.state (option_map (λ path. path.items) part.now)
        (found_told found.entry))) (seen_as found_told result) }
{
    let mut out = match host.output() {
        Ok(out) => out,
        Err(fault) => return Err(fault),
    };
    let put = put_lines(host.alloc(), mounted, part, &mut out);
    let closed = host.close(out);
    finished(put_found(put, found), closed)
}

/// `ls`.
pub fn list<E: Order, H: Host>(
    host: &mut H,
    options: Options,
    decompress: bool,
    image: &str,
    path: Option<&str>,
) -> Result<Found<'static>, Fault>
    requires { options.endian ≡ E.order }
    ensures { DoesFrom (H.history host.old) (H.history host.new)
        (list_act options decompress image.now (option_map (λ p. p.now) path.entry))
        (seen_as found_told result) }
{
    let part = match part_named(host.alloc(), path) {
        Ok(part) => part,
        Err(fault) => return Err(fault),
    };
    let image = match load(host, image) {
        Ok(image) => image,
        Err(fault) => return Err(fault),
    };
    let bytes = image.as_slice();
    let geometry = options.geometry;
    let others = others_if_none::<E>(bytes, geometry);
    let mut contents = Vec::new(host.alloc());
    match mounted_tree::<E>(host.alloc(), bytes, geometry, decompress, &mut contents) {
        Ok(mounted) => print_lines(host, &mounted, &part, read_found(&mounted, options, others)),
        Err(fault) => Err(fault),
    }
}
