//! Making one object.

ghost use Rattle.std.specs.Prelude.{◌≡◌, ◌==◌, ◌&&◌, not, [], ◌∷◌, Some, None, IfErr, IfOk, MatchOption, false, true, length, map, option_map, string_bytes};
ghost use Rattle.std.specs.List.{list_all};
ghost use Rattle.jmount.specs.Shown.{readable, shown};
ghost use Rattle.jmount.specs.Tree as tree;
ghost use Rattle.jextract.specs.Cells.{cells_of};
ghost use Rattle.jextract.specs.Folders.{Content, File};
ghost use Rattle.jextract.specs.Making.{Does, FirstsAfter, Follows, NotesFirst, Works, firsts_of};
ghost use Rattle.jextract.specs.Outcomes.{Complete, Make, attributes_of, is_directory_kind, is_target, loses_bits, lost_completed, made_at, mode_given, plan_again, plan_anew, plan_completed, plan_symlink, reason_of};
ghost use Rattle.jextract.specs.declared.making.MakeFault.TheVariants.{OutOfMemory};

use crate::contents::put_contents;
use crate::folder::{Attributes, Folder, FolderFault, Owner};
use crate::paths::host_path;
use crate::reason::Reason;
use jmount::{GREATEST_TARGET, Kind, Mounted, Object};
use std::alloc::{AllocError, AllocFailed, Global};
use std::collections::BTreeMap;

/// Why an object is not made.
#[derive(Clone, Copy, Debug, PartialEq, Eq)]
pub(crate) enum MakeFault {
    LeftOut(Reason),
    NoSpace,
    OutOfMemory,
}

impl From<FolderFault> for MakeFault {
    ghost use Rattle.jextract.specs.Making.{fault_of};

    ghost from_gives = { λ fault e. e ≡ fault_of fault };

    fn from(fault: FolderFault) -> MakeFault {
        match fault {
            FolderFault::Refused => MakeFault::LeftOut(Reason::Refused),
            FolderFault::NoSpace => MakeFault::NoSpace,
            FolderFault::OutOfMemory => MakeFault::OutOfMemory,
        }
    }
}

impl From<AllocError> for MakeFault {
    ghost use Rattle.jextract.specs.declared.making.MakeFault.TheVariants.{OutOfMemory};

    ghost from_gives = { λ _ e. e ≡ OutOfMemory };

    fn from(_error: AllocError) -> MakeFault {
        MakeFault::OutOfMemory
    }
}

impl<T: Drop> From<AllocFailed<T>> for MakeFault {
    ghost use Rattle.jextract.specs.declared.making.MakeFault.TheVariants.{OutOfMemory};

    ghost from_gives = { λ _ e. e ≡ OutOfMemory };

    fn from(_error: AllocFailed<T>) -> MakeFault {
        MakeFault::OutOfMemory
    }
}

/// The permissions that an object of the host gets of a mode.
fn mode_given(owners: bool, mode: u32) -> u32
    ensures { result ≡ mode_given owners mode }
{
    if owners { mode % 4096 } else { mode % 1024 }
}

/// Whether a mode loses one of its set-id bits by that.
fn loses_bits(owners: bool, mode: u32) -> bool
    ensures { result ≡ loses_bits owners mode }
{
    !owners && mode / 1024 % 4 != 0
}

/// Whether an object loses such a bit when it is made. A directory does when it is completed.
fn loses_when_made(owners: bool, object: &Object) -> bool
    ensures { result
        ≡ (not (is_directory_kind object.now.kind) && loses_bits owners object.now.mode) }
{
    object.kind != Kind::Directory && loses_bits(owners, object.mode)
}

/// What an object of the host gets of an object.
fn attributes_of(object: &Object, owners: bool) -> Attributes
    ensures { result ≡ attributes_of owners object.now }
{
    let owner = Owner {
        uid: u32::from(object.uid),
        gid: u32::from(object.gid),
    };
    Attributes {
        mode: mode_given(owners, object.mode),
        mtime: object.mtime,
        atime: object.atime,
        owner: owners.then_some(owner),
    }
}

/// Makes a file with its bytes and its attributes.
fn make_file<F: Folder>(
    mounted: &Mounted<'_>,
    ino: u32,
    size: u32,
    path: &str,
    attributes: Attributes,
    folder: &mut F,
) -> Result<(), FolderFault>
    requires { length (readable mounted.now.state ino) ≡ size }
    ensures { Does
        (record {
          old = F.made folder.old;
          new = F.made folder.new;
          before = F.failures folder.old;
          now = F.failures folder.new;
        })
        (made_at path.now
        (File ∷ Content (cells_of (readable mounted.now.state ino)) attributes ∷ [])) result }
{
    let mut file = folder.make_file(path)?;
    match put_contents(mounted, ino, size, &mut file) {
        Ok(()) => folder.finish_file(path, file, attributes),
        Err(fault) => {
            folder.give_up_file(path, file);
            Err(fault)
        }
    }
}

fn has_no_zero(bytes: &[u8]) -> bool
    ensures { result ≡ list_all (λ b. not (b == 0)) bytes.now }
{
    bytes.iter().all(|b| *b != 0)
}

/// The target that a symlink of the host may have.
fn target_of(bytes: &[u8]) -> Option<&str>
    ensures { MatchOption result (is_target bytes.now ≡ false)
        (λ target. (target.now ≡ bytes.now) × (is_target bytes.now ≡ true)) }
{
    if bytes.is_empty() || bytes.len() > GREATEST_TARGET || !has_no_zero(bytes) {
        return None;
    }
    match str::from_utf8(bytes) {
        Ok(target) => Some(target),
        Err(_) => None,
    }
}

/// Makes a symlink.
fn make_symlink<F: Folder>(
    mounted: &Mounted<'_>,
    ino: u32,
    size: u32,
    path: &str,
    attributes: Attributes,
    folder: &mut F,
) -> Result<(), MakeFault>
    requires { length (readable mounted.now.state ino) ≡ size }
    ensures { Follows
        (record {
          old = F.made folder.old;
          new = F.made folder.new;
          before = F.failures folder.old;
          now = F.failures folder.new;
        })
        path.now (plan_symlink (readable mounted.now.state ino) attributes) result }
{
    if size as usize > GREATEST_TARGET {
        return Err(MakeFault::LeftOut(Reason::BadTarget));
    }
    let mut bytes = [0u8; GREATEST_TARGET];
    let count = mounted.read_at(ino, 0, &mut bytes);
    let Some(target) = target_of(&bytes[..count]) else {
        return Err(MakeFault::LeftOut(Reason::BadTarget));
    };
    folder.make_symlink(path, target, attributes)?;
    Ok(())
}

/// Why an object that is no directory, file or symlink is left out.
fn reason_of(kind: Kind) -> Reason
    ensures { result ≡ reason_of kind }
{
    match kind {
        Kind::CharacterDevice => Reason::CharacterDevice,
        Kind::BlockDevice => Reason::BlockDevice,
        Kind::Fifo => Reason::Fifo,
        Kind::Socket => Reason::Socket,
        _ => Reason::UnknownKind,
    }
}

/// Makes an object that was not made before.
fn make_anew<F: Folder>(
    mounted: &Mounted<'_>,
    ino: u32,
    object: &Object,
    path: &str,
    attributes: Attributes,
    folder: &mut F,
) -> Result<(), MakeFault>
    requires { option_map shown (tree.object mounted.now.state ino) ≡ Some object.now }
    ensures { Follows
        (record {
          old = F.made folder.old;
          new = F.made folder.new;
          before = F.failures folder.old;
          now = F.failures folder.new;
        })
        path.now (plan_anew object.now.kind (readable mounted.now.state ino) attributes) result }
{
    match object.kind {
        Kind::Directory => folder.make_directory(path)?,
        Kind::Regular => make_file(mounted, ino, object.size, path, attributes, folder)?,
        Kind::Symlink => make_symlink(mounted, ino, object.size, path, attributes, folder)?,
        kind => return Err(MakeFault::LeftOut(reason_of(kind))),
    }
    Ok(())
}

/// Makes a further name of an object that was made at `first`.
fn make_again<F: Folder>(
    kind: Kind,
    path: &str,
    first: &str,
    folder: &mut F,
) -> Result<(), MakeFault>
    ensures { Follows
        (record {
          old = F.made folder.old;
          new = F.made folder.new;
          before = F.failures folder.old;
          now = F.failures folder.new;
        })
        path.now (plan_again kind first.now) result }
{
    match kind {
        Kind::Directory => return Err(MakeFault::LeftOut(Reason::Again)),
        Kind::Regular | Kind::Symlink => folder.make_link(path, first)?,
        kind => return Err(MakeFault::LeftOut(reason_of(kind))),
    }
    Ok(())
}

/// Notes where an object was made, if several names stand for it.
fn note_first(
    mounted: &Mounted<'_>,
    ino: u32,
    path: String,
    firsts: &mut BTreeMap<u32, String>,
) -> Result<(), MakeFault>
    requires there { tree.is_there mounted.now.state ino ≡ true }
    requires fresh { firsts_of firsts.old ino ≡ None }
    ensures notes { NotesFirst mounted.now.state (firsts_of firsts.old) (firsts_of firsts.new)
        (string_bytes path) ino result }
    ensures fault { IfErr result (λ fault. fault ≡ OutOfMemory) }
{
    if mounted.has_several_names(ino) {
        firsts.insert(ino, path)?;
    }
    Ok(())
}

/// Makes the object that a path leads to, and notes where, if it has further names. Answers whether
/// it lost a set-id bit.
pub(crate) fn make<F: Folder>(
    alloc: Global,
    mounted: &Mounted<'_>,
    owners: bool,
    names: &[&[u8]],
    ino: u32,
    firsts: &mut BTreeMap<u32, String>,
    folder: &mut F,
) -> Result<bool, MakeFault>
    ensures works { Works mounted.now.state owners (firsts_of firsts.old)
        (Make (map (λ name. name.now) names.now) ino)
        (record {
          old = F.made folder.old;
          new = F.made folder.new;
          before = F.failures folder.old;
          now = F.failures folder.new;
        }) result }
    ensures firsts { FirstsAfter mounted.now.state (firsts_of firsts.old) (firsts_of firsts.new)
        (map (λ name. name.now) names.now) ino result }
{
    let path = host_path(alloc, names)?;
    let Some(object) = mounted.object(ino) else {
        return Err(MakeFault::LeftOut(Reason::Missing));
    };
    if let Some(first) = firsts.get(&ino) {
        make_again(object.kind, path.as_str(), first.as_str(), folder)?;
        return Ok(false);
    }
    let attributes = attributes_of(&object, owners);
    make_anew(mounted, ino, &object, path.as_str(), attributes, folder)?;
    note_first(mounted, ino, path, firsts)?;
    Ok(loses_when_made(owners, &object))
}

/// Gives a directory its attributes. Answers whether it lost a set-id bit.
fn complete_at<F: Folder>(
    mounted: &Mounted<'_>,
    owners: bool,
    ino: u32,
    path: &str,
    folder: &mut F,
) -> Result<bool, MakeFault>
    ensures follows { Follows
        (record {
          old = F.made folder.old;
          new = F.made folder.new;
          before = F.failures folder.old;
          now = F.failures folder.new;
        })
        path.now (plan_completed owners (option_map shown (tree.object mounted.now.state ino)))
        result }
    ensures lost { IfOk result
        (λ lost. lost
        ≡ lost_completed owners (option_map shown (tree.object mounted.now.state ino))) }
{
    let Some(object) = mounted.object(ino) else {
        return Ok(false);
    };
    folder.finish_directory(path, attributes_of(&object, owners))?;
    Ok(loses_bits(owners, object.mode))
}

/// Gives the directory that a path leads to its attributes. Answers whether it lost a set-id bit.
pub(crate) fn complete<F: Folder>(
    alloc: Global,
    mounted: &Mounted<'_>,
    owners: bool,
    names: &[&[u8]],
    ino: u32,
    folder: &mut F,
) -> Result<bool, MakeFault>
    ensures { Works mounted.now.state owners (λ i. None)
        (Complete (map (λ name. name.now) names.now) ino)
        (record {
          old = F.made folder.old;
          new = F.made folder.new;
          before = F.failures folder.old;
          now = F.failures folder.new;
        }) result }
{
    let path = host_path(alloc, names)?;
    complete_at(mounted, owners, ino, path.as_str(), folder)
}
