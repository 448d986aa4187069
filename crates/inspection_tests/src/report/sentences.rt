//! The sentences after faults whose lines say no more than a name.

use super::faults::has_note;
use flashbase::LoadFault;
use jlog::SessionFault;
use jmount::{FindFault, MountFault};
use jreport::{Cause, ProgramFault, Reason, Refused};
use jscan::ScanFault;
use jsteps::OpFault;

const MEMORY: &str = "memory ran out; free some, or raise its limit";

const LENGTH: &str = "an image has at most 268435456 bytes";

const INCOMPATIBLE: &str = "no reader may skip the node, a later or different JFFS2 wrote it; \
    check --scan shows the others";

fn loads() -> &'static [(LoadFault, &'static str)] {
    &[
        (LoadFault::Device, "a file was not read to its end"),
        (
            LoadFault::TooLarge,
            "a file, and all files that a listing or a folder has, are at most 268435456 bytes",
        ),
        (LoadFault::OutOfMemory, MEMORY),
    ]
}

fn mounts() -> &'static [(MountFault, &'static str)] {
    &[
        (MountFault::TooLarge, LENGTH),
        (
            MountFault::Incompatible {
                addr: 12,
                nodetype: 0xE0F7,
            },
            INCOMPATIBLE,
        ),
        (
            MountFault::RootKind,
            "inode 1 is no directory; the image is damaged, or was not made as a file system",
        ),
        (MountFault::OutOfMemory, MEMORY),
    ]
}

fn scans() -> &'static [(ScanFault, &'static str)] {
    &[
        (ScanFault::TooLarge, LENGTH),
        (
            ScanFault::Incompatible {
                addr: 12,
                nodetype: 0xE0F7,
            },
            INCOMPATIBLE,
        ),
        (ScanFault::OutOfMemory, MEMORY),
    ]
}

fn paths() -> &'static [(FindFault, &'static str)] {
    &[
        (
            FindFault::BadPath,
            "a path begins with /, as ls prints it, and no name in it is empty, . or ..",
        ),
        (
            FindFault::NotFound,
            "a name on the path is not there, or leads to no object; ls shows those that do",
        ),
        (
            FindFault::NotDirectory,
            "the path goes on after something that is no directory, perhaps a symlink",
        ),
    ]
}

fn refusals() -> &'static [(OpFault, &'static str)] {
    &[
        (
            OpFault::BadPath,
            "a path begins with /, and no name in it is empty, . or ..; only attr takes / itself",
        ),
        (OpFault::NameTooLong, "a name has at most 254 bytes"),
        (
            OpFault::NotFound,
            "something on the path is not there; no line makes the directories above its path",
        ),
        (
            OpFault::NotDirectory,
            "a path goes on after something that is no directory, perhaps a symlink",
        ),
        (
            OpFault::Exists,
            "the new name is there; remove it by an earlier line, or use replace or put if it is no \
             directory",
        ),
        (
            OpFault::WrongKind,
            "write and truncate take regular files, link and replace no directory, attr no symlink \
             or device",
        ),
        (
            OpFault::NotEmpty,
            "the directory has names, perhaps some that lead to no object",
        ),
        (
            OpFault::IntoItself,
            "a directory is not moved into or below itself",
        ),
        (OpFault::TooLarge, "a file has at most 2147483647 bytes"),
        (
            OpFault::BadMode,
            "a mode is at most 7777, and the kind is no part of it",
        ),
        (
            OpFault::BadTarget,
            "the target of a symlink has 1 to 4095 bytes, none of them zero",
        ),
        (
            OpFault::Exhausted,
            "the image has the greatest inode number or version, 4294967295; make it again from \
             its files",
        ),
        (OpFault::OutOfMemory, MEMORY),
    ]
}

/// The faults of a session, its cause, and what is noted.
fn sessions() -> &'static [(SessionFault, Cause, &'static str)] {
    &[
        (
            SessionFault::ReadOnly,
            Cause::Unknown,
            "a node of a type that is not known forbids writing; check --scan shows it",
        ),
        (SessionFault::OutOfMemory, Cause::Unknown, MEMORY),
        (
            SessionFault::Broken,
            Cause::Unknown,
            "this is an error of the program itself",
        ),
        (
            SessionFault::Full {
                needed: 112,
                free: 0,
            },
            Cause::Blocks(3),
            "the operation fits into a flash of 3 blocks",
        ),
        (SessionFault::Sink, Cause::Host(Reason::NoSpace), "no space"),
    ]
}

#[test]
fn sentences_of_images(rt: HostRuntime) {
    for &(fault, note) in loads() {
        has_note(&rt, rt.alloc(), ProgramFault::Load(fault), note);
    }
    for &(fault, note) in mounts() {
        has_note(&rt, rt.alloc(), ProgramFault::Mount(fault), note);
    }
    for &(fault, note) in scans() {
        has_note(&rt, rt.alloc(), ProgramFault::Scan(fault), note);
    }
    for &(fault, note) in paths() {
        has_note(&rt, rt.alloc(), ProgramFault::Path(fault), note);
    }
}

#[test]
fn sentences_of_operations(rt: HostRuntime) {
    for &(fault, note) in refusals() {
        let (fault, cause) = (SessionFault::Refused(fault), Cause::Unknown);
        has_note(
            &rt,
            rt.alloc(),
            ProgramFault::from(Refused { fault, cause }),
            note,
        );
    }
    for &(fault, cause, note) in sessions() {
        has_note(
            &rt,
            rt.alloc(),
            ProgramFault::from(Refused { fault, cause }),
            note,
        );
    }
}

#[test]
fn sentences_of_the_program(rt: HostRuntime) {
    let faults = [
        (
            ProgramFault::NotRegular,
            "the path leads to something that is no regular file",
        ),
        (
            ProgramFault::Output,
            "standard output took no more; what it got is cut off",
        ),
        (ProgramFault::OutOfMemory, MEMORY),
        (
            ProgramFault::NoSpace("d"),
            "the device is full, or your quota is used up; what was made so far stays",
        ),
        (
            ProgramFault::Data { addr: 6 },
            "the data of the node break the rules of their method, or give another length",
        ),
        (
            ProgramFault::TooLong { addr: 6 },
            "the node does not fit into a block after its marker; a --block that is too small may \
             be the cause",
        ),
    ];
    for &(fault, note) in &faults {
        has_note(&rt, rt.alloc(), fault, note);
    }
}
