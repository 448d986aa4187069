//! A sentence for each fault whose line says no more than its name.

ghost use Rattle.std.specs.Prelude.{◌≡◌, ◌≤◌, length};
ghost use Rattle.jreport.specs.Sentences.{data_note, incompatible_note, length_note, load_note, memory_note, no_space_note, node_length_note, not_regular_note, output_note, path_note, refusal_note, root_note};

use flashbase::LoadFault;
use jmount::FindFault;
use jsteps::OpFault;

/// There is no memory.
#[tactic(auto, unfolding(crate::specs::Sentences::memory_note))]
pub(crate) fn memory_note() -> &'static [u8]
    ensures text { result.now ≡ memory_note }
    ensures short { length result.now ≤ 100 }
{
    b"memory ran out; free some, or raise its limit"
}

/// A file is not read, or too long.
#[tactic(auto, unfolding(crate::specs::Sentences::load_note))]
pub(crate) fn load_note(fault: LoadFault) -> &'static [u8]
    ensures text { result.now ≡ load_note fault }
    ensures short { length result.now ≤ 100 }
{
    match fault {
        LoadFault::Device => b"a file was not read to its end",
        LoadFault::TooLarge => {
            b"a file, and all files that a listing or a folder has, are at most 268435456 bytes"
        }
        LoadFault::OutOfMemory => memory_note(),
    }
}

/// An image is too long to be mounted.
#[tactic(auto, unfolding(crate::specs::Sentences::length_note))]
pub(crate) fn length_note() -> &'static [u8]
    ensures text { result.now ≡ length_note }
    ensures short { length result.now ≤ 100 }
{
    b"an image has at most 268435456 bytes"
}

/// It has a node of a type that is not known, and that its writer lets no reader skip.
#[tactic(auto, unfolding(crate::specs::Sentences::incompatible_note))]
pub(crate) fn incompatible_note() -> &'static [u8]
    ensures text { result.now ≡ incompatible_note }
    ensures short { length result.now ≤ 100 }
{
    b"no reader may skip the node, a later or different JFFS2 wrote it; \
      check --scan shows the others"
}

/// Its root is no directory.
#[tactic(auto, unfolding(crate::specs::Sentences::root_note))]
pub(crate) fn root_note() -> &'static [u8]
    ensures text { result.now ≡ root_note }
    ensures short { length result.now ≤ 100 }
{
    b"inode 1 is no directory; the image is damaged, or was not made as a file system"
}

/// The data of a node do not decompress.
#[tactic(auto, unfolding(crate::specs::Sentences::data_note))]
pub(crate) fn data_note() -> &'static [u8]
    ensures text { result.now ≡ data_note }
    ensures short { length result.now ≤ 100 }
{
    b"the data of the node break the rules of their method, or give another length"
}

/// They do not fit into a block then.
#[tactic(auto, unfolding(crate::specs::Sentences::node_length_note))]
pub(crate) fn node_length_note() -> &'static [u8]
    ensures text { result.now ≡ node_length_note }
    ensures short { length result.now ≤ 100 }
{
    b"the node does not fit into a block after its marker; \
      a --block that is too small may be the cause"
}

/// A path leads nowhere.
#[tactic(auto, unfolding(crate::specs::Sentences::path_note))]
pub(crate) fn path_note(fault: FindFault) -> &'static [u8]
    ensures text { result.now ≡ path_note fault }
    ensures short { length result.now ≤ 100 }
{
    match fault {
        FindFault::BadPath => {
            b"a path begins with /, as ls prints it, and no name in it is empty, . or .."
        }
        FindFault::NotFound => {
            b"a name on the path is not there, or leads to no object; ls shows those that do"
        }
        FindFault::NotDirectory => {
            b"the path goes on after something that is no directory, perhaps a symlink"
        }
    }
}

/// A path does not lead to a file with bytes.
#[tactic(auto, unfolding(crate::specs::Sentences::not_regular_note))]
pub(crate) fn not_regular_note() -> &'static [u8]
    ensures text { result.now ≡ not_regular_note }
    ensures short { length result.now ≤ 100 }
{
    b"the path leads to something that is no regular file"
}

/// Standard output failed.
#[tactic(auto, unfolding(crate::specs::Sentences::output_note))]
pub(crate) fn output_note() -> &'static [u8]
    ensures text { result.now ≡ output_note }
    ensures short { length result.now ≤ 100 }
{
    b"standard output took no more; what it got is cut off"
}

/// The device of the folder that is made is full.
#[tactic(auto, unfolding(crate::specs::Sentences::no_space_note))]
pub(crate) fn no_space_note() -> &'static [u8]
    ensures text { result.now ≡ no_space_note }
    ensures short { length result.now ≤ 100 }
{
    b"the device is full, or your quota is used up; what was made so far stays"
}

/// Why an operation is refused.
#[tactic(auto, unfolding(crate::specs::Sentences::refusal_note))]
pub(crate) fn refusal_note(fault: OpFault) -> &'static [u8]
    ensures text { result.now ≡ refusal_note fault }
    ensures short { length result.now ≤ 100 }
{
    match fault {
        OpFault::BadPath => {
            b"a path begins with /, and no name in it is empty, . or ..; only attr takes / itself"
        }
        OpFault::NameTooLong => b"a name has at most 254 bytes",
        OpFault::NotFound => {
            b"something on the path is not there; no line makes the directories above its path"
        }
        OpFault::NotDirectory => {
            b"a path goes on after something that is no directory, perhaps a symlink"
        }
        OpFault::Exists => {
            b"the new name is there; remove it by an earlier line, \
              or use replace or put if it is no directory"
        }
        OpFault::WrongKind => {
            b"write and truncate take regular files, link and replace no directory, \
              attr no symlink or device"
        }
        OpFault::NotEmpty => b"the directory has names, perhaps some that lead to no object",
        OpFault::IntoItself => b"a directory is not moved into or below itself",
        OpFault::TooLarge => b"a file has at most 2147483647 bytes",
        OpFault::BadMode => b"a mode is at most 7777, and the kind is no part of it",
        OpFault::BadTarget => b"the target of a symlink has 1 to 4095 bytes, none of them zero",
        OpFault::Exhausted => {
            b"the image has the greatest inode number or version, 4294967295; \
              make it again from its files"
        }
        OpFault::OutOfMemory => memory_note(),
    }
}
