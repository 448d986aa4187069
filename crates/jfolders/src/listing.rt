//! `listing`: the listing that builds a folder.
ghost use Rattle.std.specs.Prelude.{◌≡◌};
ghost use Rattle.flashbase.specs.Sinks.{change_of};
ghost use Rattle.jfolder.specs.Text.{listing_text};
ghost use Rattle.jedge.specs.Acts.{DoesFrom, PutsBy, Whole, prints, seen_as};
ghost use Rattle.jedge.specs.Told.{found_told};
ghost use Rattle.jfolders.specs.Commands.{listing_told, listing_act};
ghost use Rattle.jfolders.specs.Reading.{listing_settings};

use crate::host::FolderHost;
use crate::reading::{read, settings_of};
use flashbase::{DeviceFault, Sink};
use jcommand::FolderListing;
use jedge::fault::Fault;
use jedge::found::{Found, finished};
use jfolder::{FolderTree, put_listing};

/// What a listing comes to.
fn listing_told(tree: &FolderTree) -> Found<'static>
    ensures { found_told result ≡ listing_told tree.now }
{
    Found {
        counted: tree.left_out,
        note: None,
    }
}

/// Puts the listing of a folder that was read.
fn put_tree<T: Sink>(tree: &FolderTree, sink: &mut T) -> Result<Found<'static>, Fault>
    ensures { PutsBy (Whole (listing_text tree.now.root tree.now.items.items)
        (listing_told tree.now)) (change_of T.Sink sink.old sink.new) (seen_as found_told result) }
{
    match put_listing(&tree.root, tree.items.as_slice(), sink) {
        Ok(()) => Ok(listing_told(tree)),
        Err(DeviceFault) => Err(Fault::Output),
    }
}

/// Prints it.
fn print_tree<H: FolderHost>(host: &mut H, tree: &FolderTree) -> Result<Found<'static>, Fault>
    ensures { DoesFrom (H.history host.old) (H.history host.new)
        (prints (Whole (listing_text tree.now.root tree.now.items.items) (listing_told tree.now)))
        (seen_as found_told result) }
{
    let mut out = match host.output() {
        Ok(out) => out,
        Err(fault) => return Err(fault),
    };
    let put = put_tree(tree, &mut out);
    let closed = host.close(out);
    finished(put, closed)
}

/// `listing`.
pub fn listing<H: FolderHost>(
    host: &mut H,
    asked: FolderListing<&str>,
) -> Result<Found<'static>, Fault>
    ensures { DoesFrom (H.history host.old) (H.history host.new)
        (listing_act (listing_settings asked.entry.owner asked.entry.time) asked.entry.quiet
        asked.entry.folder.now) (seen_as found_told result) }
{
    let options = settings_of(asked.owner, asked.time);
    match read(host, asked.folder, asked.quiet, &options) {
        Ok(tree) => print_tree(host, &tree),
        Err(fault) => Err(fault),
    }
}
