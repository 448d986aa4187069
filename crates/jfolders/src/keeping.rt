//! A folder that is read whole: its listing in memory, and the files in it.
ghost use Rattle.std.specs.Prelude.{◌≡◌, ◌⊎◌, IfErr, IfOk};
ghost use Rattle.jfolder.specs.Text.{listing_text};
ghost use Rattle.jedge.specs.Acts.{DoesFrom};
ghost use Rattle.jfolders.specs.Keeping.{IsKeptAs, IsListingKept, keeps_through, reads_folder};

use crate::host::{Closed, FolderHost};
use crate::kept::KeptFiles;
use crate::reading::{reading_fault, stop_of};
use jcuts::Held;
use jedge::fault::Fault;
use jfolder::{FolderTree, Options, ReadFault, put_listing, read_folder};
use std::alloc::{AllocError, Global};

/// The listing of a folder, how many objects were left out of it, and the files that were read as
/// they were found.
#[derive(Drop)]
pub struct Listed {
    pub text: Vec<u8>,
    pub left_out: u64,
    pub files: KeptFiles,
}

/// The text of a tree.
fn text_of(alloc: Global, tree: &FolderTree) -> Result<Vec<u8>, Fault>
    ensures text { IfOk result
        (λ text. text.items ≡ listing_text tree.now.root tree.now.items.items) }
    ensures memory { IfErr result (λ fault. fault ≡ Fault.OutOfMemory) }
{
    let mut held = Held::new(alloc);
    match put_listing(&tree.root, tree.items.as_slice(), &mut held) {
        Ok(()) => Ok(held.bytes),
        Err(_) => Err(Fault::OutOfMemory),
    }
}

/// What a folder that was read comes to.
fn listed_of(alloc: Global, closed: Closed, tree: &FolderTree) -> Result<Listed, Fault>
    ensures { IsListingKept closed tree.now result }
{
    match text_of(alloc, tree) {
        Ok(text) => Ok(Listed {
            text,
            left_out: tree.left_out,
            files: closed.files,
        }),
        Err(fault) => Err(fault),
    }
}

/// What a reading of the folder of a name comes to.
fn kept_as(
    alloc: Global,
    name: &str,
    answer: Result<FolderTree, ReadFault>,
    closed: Closed,
) -> Result<Listed, Fault>
    ensures { IsKeptAs name.now answer closed result }
{
    match answer {
        Ok(tree) => listed_of(alloc, closed, &tree),
        Err(why) => Err(reading_fault(alloc, name, closed.reason, why)),
    }
}

/// Looks through a folder that was asked for. Standard error is told what is left out.
fn keep_through<H: FolderHost>(
    host: &mut H,
    name: &str,
    options: &Options,
    folder: H::Whole,
) -> Result<Listed, Fault>
    ensures { DoesFrom (H.history host.old) (H.history host.new)
        (keeps_through name.now options.now (H.Whole.known folder)) result }
{
    let mut folder = folder;
    let mut errors = host.errors();
    let answer = read_folder(host.alloc(), &mut folder, options, &mut errors);
    let closed = host.close_whole(name, folder, stop_of(&answer));
    host.close_errors(errors);
    kept_as(host.alloc(), name, answer, closed)
}

/// The listing of the folder of a name, and the files in it.
pub fn read_whole<H: FolderHost>(
    host: &mut H,
    name: &str,
    quiet: bool,
    options: &Options,
) -> Result<Listed, Fault>
    ensures { DoesFrom (H.history host.old) (H.history host.new)
        (reads_folder name.now quiet options.now) result }
{
    match host.read_whole(name, quiet) {
        Ok(folder) => keep_through(host, name, options, folder),
        Err(fault) => Err(fault),
    }
}
