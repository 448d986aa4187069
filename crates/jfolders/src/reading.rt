//! A folder that is looked through.
ghost use Rattle.std.specs.Prelude.{◌≡◌, option_map};
ghost use Rattle.jedge.specs.Acts.{DoesFrom};
ghost use Rattle.jfolders.specs.Filling.{IsOfFolder, stop_of};
ghost use Rattle.jfolders.specs.Reading.{IsReadAs, IsFolderReadFault, looks_through, reads_tree, listing_settings};

use crate::host::FolderHost;
use jcommand::Owner;
use jedge::fault::{FailedFile, Fault};
use jfolder::{FolderTree, Options, ReadFault, read_folder};
use jreport::Reason;
use std::alloc::Global;

/// Why a call ended, if it did not go to its end.
pub(crate) fn stop_of<A, F: Copy>(answer: &Result<A, F>) -> Option<F>
    ensures { result ≡ stop_of answer.now }
{
    match answer {
        Ok(_) => None,
        Err(why) => Some(*why),
    }
}

/// The fault of the folder of a name, which the host refused.
pub(crate) fn folder_fault(alloc: Global, name: &str, reason: Reason) -> Fault
    ensures { IsOfFolder name.now reason result }
{
    match name.to_string(alloc) {
        Ok(name) => Fault::File(FailedFile { name, reason }),
        Err(_) => Fault::OutOfMemory,
    }
}

/// Why a reading of it ended.
pub(crate) fn reading_fault(alloc: Global, name: &str, reason: Reason, why: ReadFault) -> Fault
    ensures { IsFolderReadFault name.now reason why result }
{
    match why {
        ReadFault::Folder(_) => folder_fault(alloc, name, reason),
        ReadFault::Notes => Fault::Output,
        ReadFault::OutOfMemory => Fault::OutOfMemory,
    }
}

/// What a reading of it comes to.
fn read_as(
    alloc: Global,
    name: &str,
    reason: Reason,
    answer: Result<FolderTree, ReadFault>,
) -> Result<FolderTree, Fault>
    ensures { IsReadAs name.now reason answer result }
{
    match answer {
        Ok(tree) => Ok(tree),
        Err(why) => Err(reading_fault(alloc, name, reason, why)),
    }
}

/// What takes the place of owners and times of a folder.
pub fn settings_of(owner: Option<Owner>, time: Option<u32>) -> Options
    ensures { result ≡ listing_settings owner time }
{
    let owner = match owner {
        Some(Owner { uid, gid }) => Some(jfolder::Owner { uid, gid }),
        None => None,
    };
    Options { owner, time }
}

/// Looks through a folder that was asked for. Standard error is told what is left out.
fn look_through<H: FolderHost>(
    host: &mut H,
    name: &str,
    options: &Options,
    folder: H::Read,
) -> Result<FolderTree, Fault>
    ensures { DoesFrom (H.history host.old) (H.history host.new)
        (looks_through name.now options.now (H.Read.known folder)) result }
{
    let mut folder = folder;
    let mut errors = host.errors();
    let answer = read_folder(host.alloc(), &mut folder, options, &mut errors);
    let reason = host.close_read(name, folder, stop_of(&answer));
    host.close_errors(errors);
    read_as(host.alloc(), name, reason, answer)
}

/// The tree of the folder of a name.
pub fn read<H: FolderHost>(
    host: &mut H,
    name: &str,
    quiet: bool,
    options: &Options,
) -> Result<FolderTree, Fault>
    ensures { DoesFrom (H.history host.old) (H.history host.new)
        (reads_tree name.now quiet options.now) result }
{
    match host.read_folder(name, quiet) {
        Ok(folder) => look_through(host, name, options, folder),
        Err(fault) => Err(fault),
    }
}
