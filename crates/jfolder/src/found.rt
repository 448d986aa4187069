//! What lies at a path of a folder of the host.

ghost use Rattle.std.specs.Prelude.{◌≡◌, ◌≤◌, ◌<◌, ℕ, List, Option, None, [], length, pos, IfErr, IfNone, IfOk, IfSome, IsSome};
ghost use Rattle.std.specs.String.{string_bytes};
ghost use Rattle.jfolder.specs.Actions.{AttributesFit, WhatFits};
ghost use Rattle.jfolder.specs.Complete.{NamesFit};
ghost use Rattle.jfolder.specs.Links.{IsIdentity};
ghost use Rattle.jfolder.specs.Known.{Known, Named};
ghost use Rattle.jfolder.specs.Objects.{HasObject, IsOfKind, IsWide, HasHostFile, device_bits, kind_bits, kind_number, major_of, minor_of};
ghost use Rattle.jfolder.specs.Reasons.{IsAttributesWhy, IsDeviceWhy, IsFileWhy, IsKindWhy, IsNoDirectory, IsObjectWhy, IsTargetWhy, IsWhy, SkipsFor};
ghost use Rattle.jfolder.specs.Trees.{HasTarget, LinksBack};
ghost use Rattle.jfolder.specs.Walking.{FoundFits, HasOptions, IsTold};

use crate::fault::FolderFault;
use crate::host::{HostFolder, Looked, Names};
use crate::reason::Reason;
use crate::tree::{Attributes, What};
use jmount::GREATEST_TARGET;
use jsteps::DeviceKind;
use std::alloc::{AllocError, AllocFailed};

/// The most bytes of a regular file: `build` takes no file of more.
const MAX_SIZE: u64 = 268_435_456;

/// An owner and a group.
#[derive(Clone, Copy)]
pub struct Owner {
    pub uid: u16,
    pub gid: u16,
}

/// What takes the place of what the host tells: one owner, and one time in seconds since 1970.
#[derive(Clone, Copy)]
pub struct Options {
    pub owner: Option<Owner>,
    pub time: Option<u32>,
}

/// Why a path gives no item.
#[derive(Clone, Copy)]
pub enum Skip {
    LeftOut(Reason),
    OutOfMemory,
}

impl From<Reason> for Skip {
    ghost use Rattle.jfolder.specs.declared.found.Skip.TheVariants.{LeftOut};

    ghost from_gives = { λ reason skip. skip ≡ LeftOut reason };

    fn from(reason: Reason) -> Skip {
        Skip::LeftOut(reason)
    }
}

impl From<FolderFault> for Skip {
    ghost use Rattle.jfolder.specs.Reasons.{skip_of};

    ghost from_gives = { λ fault skip. skip ≡ skip_of fault };

    fn from(fault: FolderFault) -> Skip {
        match fault {
            FolderFault::Refused => Skip::LeftOut(Reason::Refused),
            FolderFault::NoText => Skip::LeftOut(Reason::NoText),
            FolderFault::Output => Skip::LeftOut(Reason::Output),
            FolderFault::OutOfMemory => Skip::OutOfMemory,
        }
    }
}

impl From<AllocError> for Skip {
    ghost use Rattle.jfolder.specs.declared.found.Skip.TheVariants.{OutOfMemory};

    ghost from_gives = { λ _ skip. skip ≡ OutOfMemory };

    fn from(_error: AllocError) -> Skip {
        Skip::OutOfMemory
    }
}

impl<T: Drop> From<AllocFailed<T>> for Skip {
    ghost use Rattle.jfolder.specs.declared.found.Skip.TheVariants.{OutOfMemory};

    ghost from_gives = { λ _ skip. skip ≡ OutOfMemory };

    fn from(_error: AllocFailed<T>) -> Skip {
        Skip::OutOfMemory
    }
}

/// The kinds of objects that a listing has.
#[derive(Clone, Copy, PartialEq, Eq)]
pub enum HostKind {
    Directory,
    Regular,
    Fifo,
    Socket,
    Symlink,
    Character,
    Block,
}

/// The kind that bits 12 to 15 of a mode say.
pub fn kind_of(mode: u32) -> Result<HostKind, Reason>
    ensures kind { IfOk result (λ kind. kind_bits mode ≡ kind_number kind) }
    ensures why { IfErr result (IsKindWhy (kind_bits mode)) }
{
    match (mode >> 12) & 0xF {
        4 => Ok(HostKind::Directory),
        8 => Ok(HostKind::Regular),
        1 => Ok(HostKind::Fifo),
        12 => Ok(HostKind::Socket),
        10 => Ok(HostKind::Symlink),
        2 => Ok(HostKind::Character),
        6 => Ok(HostKind::Block),
        _ => Err(Reason::UnknownKind),
    }
}

/// Why an object of a mode is no directory, if it is none.
pub fn not_directory(mode: u32) -> Option<Reason>
    ensures none { IfNone result (kind_bits mode ≡ 4) }
    ensures why { IfSome result (IsNoDirectory (kind_bits mode)) }
{
    match (mode >> 12) & 0xF {
        4 => None,
        10 => Some(Reason::Symlink),
        _ => Some(Reason::NotDirectory),
    }
}

/// The owner and the group that an object gets.
fn owner_of(looked: &Looked, options: &Options) -> Result<Owner, Reason>
    ensures given { IfOk result (λ owner. IfSome options.now.owner (λ given. owner ≡ given)) }
    ensures own { IfOk result (λ owner. IfNone options.now.owner
        ((owner.uid ≡ looked.now.uid) × (owner.gid ≡ looked.now.gid))) }
    ensures why { IfErr result (IsAttributesWhy options.now looked.now) }
{
    if let Some(owner) = options.owner {
        return Ok(owner);
    }
    if looked.uid > 65535 || looked.gid > 65535 {
        return Err(Reason::Owner);
    }
    Ok(Owner {
        uid: looked.uid as u16,
        gid: looked.gid as u16,
    })
}

/// The time that an object gets.
fn time_of(looked: &Looked, options: &Options) -> Result<u32, Reason>
    ensures given { IfOk result (λ time. IfSome options.now.time (λ given. time ≡ given)) }
    ensures own { IfOk result (λ time. IfNone options.now.time (pos time ≡ looked.now.time)) }
    ensures why { IfErr result (IsAttributesWhy options.now looked.now) }
{
    if let Some(time) = options.time {
        return Ok(time);
    }
    let time = looked.time;
    if time < 0 || time > 4294967295 {
        return Err(Reason::Time);
    }
    Ok(time as u32)
}

/// The attributes that an object gets.
pub fn attributes_of(looked: &Looked, options: &Options) -> Result<Attributes, Reason>
    ensures fit { IfOk result AttributesFit }
    ensures options { IfOk result (HasOptions options.now) }
    ensures told { IfOk result (IsTold options.now looked.now) }
    ensures why { IfErr result (IsAttributesWhy options.now looked.now) }
{
    let owner = owner_of(looked, options)?;
    let time = time_of(looked, options)?;
    Ok(Attributes {
        mode: looked.mode & 0o7777,
        uid: owner.uid,
        gid: owner.gid,
        time,
    })
}

/// The name of a regular file on the host, which opens it.
pub fn file_of<F: HostFolder>(folder: &mut F, path: &str, size: u64) -> Result<String, Skip>
    ensures some { IfOk result (λ file. 0 < length (string_bytes file)) }
    ensures size { IfOk result (λ _. size ≤ 268435456) }
    ensures told { IfOk result
        (λ file. HasHostFile (F.known folder.old) path.now (string_bytes file)) }
    ensures why { IfErr result (SkipsFor (IsFileWhy (F.known folder.old) path.now size)) }
    ensures kept { F.known folder.new ≡ F.known folder.old }
{
    if size > MAX_SIZE {
        return Err(Skip::LeftOut(Reason::Large));
    }
    let name = folder.host_path(path)?;
    if name.is_empty() {
        return Err(Skip::LeftOut(Reason::Refused));
    }
    folder.open(path)?;
    Ok(name)
}

/// The target of a symlink.
fn target_of<F: HostFolder>(folder: &mut F, path: &str) -> Result<String, Skip>
    ensures fits { IfOk result (λ target. HasTarget (What.Symlink target)) }
    ensures told { IfOk result
        (λ target. HasObject (F.known folder.old) path.now (What.Symlink target)) }
    ensures why { IfErr result (SkipsFor (IsTargetWhy (F.known folder.old) path.now)) }
    ensures kept { F.known folder.new ≡ F.known folder.old }
{
    let target = folder.target(path)?;
    let bytes = target.as_bytes();
    if bytes.is_empty() || bytes.len() > GREATEST_TARGET || bytes.iter().any(|byte| *byte == 0) {
        return Err(Skip::LeftOut(Reason::Target));
    }
    Ok(target)
}

/// The two numbers of a device in the one that the host tells, where an image can have them.
fn numbers_of(number: u64) -> Option<(u16, u32)>
    ensures numbers { IfSome result
        (λ two. (major_of number ≡ two.0) × (minor_of number ≡ two.1)) }
    ensures limits { IfSome result (λ two. (two.0 ≤ 4095) × (two.1 ≤ 1048575)) }
    ensures wide { IfNone result (IsWide number) }
{
    let major = number / 256 % 4096 + number / 17592186044416 * 4096;
    let minor = number % 256 + number / 1048576 % 16777216 * 256;
    if major > 4095 || minor > 1048575 {
        return None;
    }
    Some((major as u16, minor as u32))
}

/// What lies at a path.
#[derive(Drop)]
pub struct Found {
    pub attributes: Attributes,
    pub what: What,
    /// The names in a directory.
    pub names: Option<Names>,
    /// By what other names of a regular file are known.
    pub identity: Option<(u64, u64)>,
}

/// What other names of a regular file are known by, if there are any.
pub fn identity_of(looked: &Looked) -> Option<(u64, u64)>
    ensures { IsIdentity looked.now result }
{
    if looked.links > 1 && kind_of(looked.mode) == Ok(HostKind::Regular) {
        return Some((looked.device, looked.number));
    }
    None
}

/// A device, where an image can have its numbers.
fn device_of(looked: &Looked, device: DeviceKind) -> Result<What, Reason>
    requires { kind_bits looked.now.mode ≡ device_bits device }
    ensures fits { IfOk result WhatFits }
    ensures target { IfOk result HasTarget }
    ensures link { IfOk result (LinksBack []) }
    ensures names { IfOk result (λ what. (known : Option Named) → NamesFit known what None) }
    ensures kind { IfOk result (IsOfKind looked.now) }
    ensures object { IfOk result (λ what. (known : Known) (path : List ℕ)
        → HasObject known path what) }
    ensures why { IfErr result (IsDeviceWhy looked.now) }
{
    let Some((major, minor)) = numbers_of(looked.special) else {
        return Err(match device {
            DeviceKind::Character => Reason::CharacterDevice,
            DeviceKind::Block => Reason::BlockDevice,
        });
    };
    Ok(What::Device {
        device,
        major,
        minor,
    })
}

/// What an object is, and the names in a directory.
fn object_of<F: HostFolder>(
    folder: &mut F,
    path: &str,
    looked: &Looked,
    kind: HostKind,
) -> Result<(What, Option<Names>), Skip>
    requires { kind_bits looked.now.mode ≡ kind_number kind }
    ensures fits { IfOk result (λ object. WhatFits object.0) }
    ensures target { IfOk result (λ object. HasTarget object.0) }
    ensures link { IfOk result (λ object. LinksBack [] object.0) }
    ensures names { IfOk result
        (λ object. NamesFit ((F.known folder.old).names path.now) object.0 object.1) }
    ensures kind { IfOk result (λ object. IsOfKind looked.now object.0) }
    ensures object { IfOk result (λ object. HasObject (F.known folder.old) path.now object.0) }
    ensures why { IfErr result (SkipsFor (IsObjectWhy (F.known folder.old) path.now looked.now)) }
    ensures kept { F.known folder.new ≡ F.known folder.old }
{
    match kind {
        HostKind::Directory => Ok((What::Directory, Some(folder.names(path)?))),
        HostKind::Regular => Ok((
            What::Regular {
                file: file_of(folder, path, looked.size)?,
            },
            None,
        )),
        HostKind::Character => Ok((device_of(looked, DeviceKind::Character)?, None)),
        HostKind::Block => Ok((device_of(looked, DeviceKind::Block)?, None)),
        HostKind::Fifo => Ok((What::Fifo, None)),
        HostKind::Socket => Ok((What::Socket, None)),
        HostKind::Symlink => Ok((
            What::Symlink {
                target: target_of(folder, path)?,
            },
            None,
        )),
    }
}

/// What lies at a path, by its first name.
pub fn first_found<F: HostFolder>(
    folder: &mut F,
    path: &str,
    looked: &Looked,
    options: &Options,
) -> Result<Found, Skip>
    ensures found { IfOk result (FoundFits options.now []) }
    ensures told { IfOk result (λ found. IsTold options.now looked.now found.attributes) }
    ensures names { IfOk result
        (λ found. NamesFit ((F.known folder.old).names path.now) found.what found.names) }
    ensures kind { IfOk result (λ found. IsOfKind looked.now found.what) }
    ensures object { IfOk result (λ found. HasObject (F.known folder.old) path.now found.what) }
    ensures identity { IfOk result (λ found. IsIdentity looked.now found.identity) }
    ensures why { IfErr result
        (SkipsFor (IsWhy (F.known folder.old) options.now path.now looked.now)) }
    ensures kept { F.known folder.new ≡ F.known folder.old }
{
    let kind = kind_of(looked.mode)?;
    let attributes = attributes_of(looked, options)?;
    let (what, names) = object_of(folder, path, looked, kind)?;
    Ok(Found {
        attributes,
        what,
        names,
        identity: identity_of(looked),
    })
}

/// A further name of a regular file.
pub fn link_to(first: String, looked: &Looked, options: &Options) -> Result<Found, Skip>
    ensures fit { IfOk result (λ found. AttributesFit found.attributes) }
    ensures options { IfOk result (λ found. HasOptions options.now found.attributes) }
    ensures told { IfOk result (λ found. IsTold options.now looked.now found.attributes) }
    ensures what { IfOk result (λ found. found.what ≡ What.Link first) }
    ensures names { IfOk result (λ found. found.names ≡ None) }
    ensures identity { IfOk result (λ found. found.identity ≡ None) }
    ensures why { IfErr result (SkipsFor (IsAttributesWhy options.now looked.now)) }
{
    let attributes = attributes_of(looked, options)?;
    Ok(Found {
        attributes,
        what: What::Link { first },
        names: None,
        identity: None,
    })
}
