//! A new file that takes the place of the one of a name.
//!
//! Who may write in its folder may move it away and put anything under its name at any time. So all
//! that is done to it goes by the file that is open, and a name is never trusted to be it still.
ghost use Rattle.std.specs.Prelude.{◌≡◌, ◌≢◌, ◌<◌, true, IfOk, IsSome, string_bytes};
ghost use Rattle.std.specs.Fs.{new_options, permissions_mode, with_create_new, with_write};
ghost use Rattle.jsystem.specs.Beside.{beside_name, class_rights, mode_beside, mode_of_rights};

use std::alloc::{AllocError, Global};
use std::fs::{File, Metadata, OpenOptions, Permissions};
use std::io::ErrorKind;
use std::os::unix::fs::{MetadataExt, OpenOptionsExt, PermissionsExt, fchown};
use std::path::Path;
use std::{fs, io};

/// How many names are tried for a new file.
const TRIES: u32 = 100;

/// The most bytes of the last part of a name that another one beside it begins with: with `.tmp99`
/// they are the 255 that a name may have.
const LONGEST_NAME: usize = 249;

/// The mode of a new file that takes the place of another one, until it is complete.
const HIDDEN_MODE: u32 = 0o600;

/// The mode of one that takes the place of none. The system takes away the bits of the umask.
const OPEN_MODE: u32 = 0o666;

/// Which owners of a file are those of the one that it replaces.
#[derive(Clone, Copy, Debug, PartialEq, Eq)]
pub struct KeptOwners {
    pub user: bool,
    pub group: bool,
}

/// How a file is opened that is made: to be written, and only if nothing has its name, so never by
/// way of a link.
fn made_beside() -> OpenOptions
    ensures { result ≡ with_create_new (with_write new_options true) true }
{
    let mut how = OpenOptions::new();
    how.write(true).create_new(true);
    how
}

/// How what is no regular file is opened: to be written. It is not made, and not cut off.
fn written_in_place() -> OpenOptions
    ensures { result ≡ with_write new_options true }
{
    let mut how = OpenOptions::new();
    how.write(true);
    how
}

/// The beginning of a name beside which another one has room for what follows it.
fn beginning(name: &str) -> &str {
    let last = match Path::new(name).file_name() {
        Some(last) => last.len(),
        None => 0,
    };
    if last <= LONGEST_NAME {
        return name;
    }
    let end = name.len().saturating_sub(last - LONGEST_NAME);
    &name[..name.floor_char_boundary(end)]
}

/// A name beside this one.
fn beside_name(alloc: Global, name: &str, i: u32) -> Result<String, AllocError>
    ensures { IfOk result (λ beside. string_bytes beside ≡ beside_name name.now i) }
{
    if i == 0 {
        format!(in alloc; "{name}.tmp")
    } else {
        format!(in alloc; "{name}.tmp{i}")
    }
}

/// Makes a file that was not there. One that takes the place of another is for its owner alone
/// until it is complete.
fn create_new(rt: &HostRuntime, name: &str, replaces: bool) -> io::Result<File> {
    let mut how = made_beside();
    how.mode(if replaces { HIDDEN_MODE } else { OPEN_MODE });
    how.open(rt, name)
}

/// Makes a new file beside the one of a name, under this other name, if that is another one and
/// nothing has it.
fn create_other(
    rt: &HostRuntime,
    name: &str,
    other: &str,
    replaces: bool,
) -> io::Result<Option<File>>
    ensures { IfOk result (λ made. IsSome made → other.now ≢ name.now) }
{
    if other == name {
        return Ok(None);
    }
    match create_new(rt, other, replaces) {
        Ok(file) => Ok(Some(file)),
        Err(error) => {
            if error.kind() == ErrorKind::AlreadyExists {
                return Ok(None);
            }
            Err(error)
        }
    }
}

/// Makes a new file beside the one of a name, and answers its name.
pub(crate) fn create_beside(
    rt: &HostRuntime,
    name: &str,
    replaces: bool,
) -> io::Result<(File, String)>
    ensures { IfOk result (λ made. string_bytes made.1 ≢ name.now) }
{
    let begun = beginning(name);
    for i in 0..TRIES {
        let other = beside_name(rt.alloc(), begun, i)?;
        if let Some(file) = create_other(rt, name, other.as_str(), replaces)? {
            return Ok((file, other));
        }
    }
    Err(io::Error::from(ErrorKind::AlreadyExists))
}

/// Opens what is no regular file. One that took its place meanwhile is left alone.
pub(crate) fn open_in_place(rt: &HostRuntime, name: &str) -> io::Result<File> {
    let file = written_in_place().open(rt, name)?;
    if file.metadata()?.is_file() {
        return Err(io::Error::from(ErrorKind::ResourceBusy));
    }
    Ok(file)
}

pub(crate) fn is_same_file(one: &Metadata, other: &Metadata) -> bool {
    one.dev() == other.dev() && one.ino() == other.ino()
}

fn owners_kept(new: &Metadata, old: &Metadata) -> KeptOwners {
    KeptOwners {
        user: new.uid() == old.uid(),
        group: new.gid() == old.gid(),
    }
}

/// The rights in a mode of a class: of its owner (64), its group (8), everybody else (1).
fn class_rights(mode: u32, class: u32) -> u32
    requires { 0 < class }
    ensures value { result ≡ class_rights class mode }
    ensures few { result < 8 }
{
    mode / class % 8
}

/// The mode of these rights.
fn mode_of_rights(owner: u32, group: u32, others: u32) -> u32
    requires owner { owner < 8 }
    requires group { group < 8 }
    requires others { others < 8 }
    ensures { result ≡ mode_of_rights owner group others }
{
    owner * 64 + group * 8 + others
}

/// The mode of a file that takes the place of one of this mode, by the owners that it has of it.
fn mode_beside(mode: u32, kept: KeptOwners) -> u32
    ensures { result ≡ mode_beside mode kept.user kept.group }
{
    let owner = class_rights(mode, 64);
    let group = class_rights(mode, 8);
    let others = class_rights(mode, 1);
    match (kept.user, kept.group) {
        (true, true) => mode & 0o7777,
        (true, false) => mode_of_rights(owner, group & others, group & others),
        (false, true) => mode_of_rights(owner, owner & group, owner & others),
        (false, false) => { mode_of_rights(owner, owner & group & others, owner & group & others) }
    }
}

fn permissions_beside(mode: u32, kept: KeptOwners) -> Permissions
    ensures { permissions_mode result ≡ mode_beside mode kept.user kept.group }
{
    Permissions::from_mode(mode_beside(mode, kept))
}

/// Gives an open file the owners of another one as far as the host allows, and answers which of
/// them it has.
fn keep_owners(file: &File, old: &Metadata) -> io::Result<KeptOwners> {
    let kept = owners_kept(&file.metadata()?, old);
    if kept.user && kept.group {
        return Ok(kept);
    }
    if fchown(file, Some(old.uid()), Some(old.gid())).is_err() {
        let _ = fchown(file, None, Some(old.gid()));
    }
    Ok(owners_kept(&file.metadata()?, old))
}

/// Gives an open file the owners of another one, and then permissions that grant nobody more than
/// those of the other one.
pub(crate) fn take_after(file: &File, old: &Metadata) {
    if let Ok(kept) = keep_owners(file, old) {
        let _ = file.set_permissions(permissions_beside(old.mode(), kept));
    }
}

/// What is known of a file that was found under a name: as it is now, if it is still there.
pub(crate) fn known_now(rt: &HostRuntime, name: &str, found: Metadata) -> Metadata {
    match fs::symlink_metadata(rt, name) {
        Ok(now) if is_same_file(&now, &found) => now,
        _ => found,
    }
}

/// Renames a file that is open and complete, when it is on the disk. One whose name was given to
/// another file is left alone.
pub(crate) fn rename_open(rt: &HostRuntime, file: &File, from: &str, to: &str) -> io::Result<()> {
    file.sync_all()?;
    let named = fs::symlink_metadata(rt, from)?;
    if !is_same_file(&named, &file.metadata()?) {
        return Err(io::Error::from(ErrorKind::ResourceBusy));
    }
    fs::rename(rt, from, to)
}

/// Waits until the name of a file is on the disk, if the host can.
pub(crate) fn sync_folder(rt: &HostRuntime, name: &str) -> io::Result<()> {
    let parent = match Path::new(name).parent() {
        Some(parent) => parent.as_os_str(),
        None => "",
    };
    // A file of that name is none of a folder's.
    let folder = if parent.is_empty() {
        String::from_str(rt.alloc(), ".")?
    } else {
        format!(in rt.alloc(); "{parent}/.")?
    };
    fs::open(rt, folder.as_str())?.sync_all()
}

/// Removes a file, if the host can.
pub(crate) fn remove(rt: &HostRuntime, name: &str) {
    let _ = fs::remove_file(rt, name);
}
