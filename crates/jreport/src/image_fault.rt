//! Why a command does not go on with an image that it read.

ghost use Rattle.std.specs.Prelude.{◌≡◌, ◌≤◌, ◌++◌, [], length};
ghost use Rattle.jreport.specs.ImageFaults.{image_named, image_note, image_text, others_text, replaced_text};

use jline::LineBuffer;

/// Why a command does not go on with an image that it read.
#[derive(Clone, Copy, Debug, PartialEq, Eq)]
pub enum ImageFault<'a> {
    /// No node is found in it, though it is not blank; in the other byte order there are `others`.
    /// Where several images are read, it is the one of this name.
    NoNodes { name: Option<&'a str>, others: u64 },
    /// It has so many findings, and is the file of this name, which the command would write over.
    Findings { name: &'a str, findings: u64 },
    /// A part of it was read, and the command would write over the whole file.
    Part,
    /// It has no sound node of this inode, or none of the versions that are asked for.
    NoInode { ino: u32 },
    /// By these nodes the inode is neither a regular file nor a symlink.
    NoContent { ino: u32 },
}

/// What comes before the name in the fault's text, and the name.
#[tactic(auto, unfolding(crate::specs::ImageFaults::image_text))]
pub(crate) fn push_image_fault<'a>(line: &mut LineBuffer, fault: ImageFault<'a>) -> &'a str
    requires { line.old ≡ [] }
    ensures text { line.new ++ result.now ≡ image_text fault.entry }
{
    match fault {
        ImageFault::NoNodes { name: None, .. } => {
            line.push_text(b"I1 NoNodes");
            ""
        }
        ImageFault::NoNodes {
            name: Some(name),
            ..
        } => {
            line.push_text(b"I1 NoNodes ");
            name
        }
        ImageFault::Findings { .. } => {
            line.push_text(b"I2 Findings");
            ""
        }
        ImageFault::Part => {
            line.push_text(b"I3 Part");
            ""
        }
        ImageFault::NoInode { .. } => {
            line.push_text(b"I4 NoInode");
            ""
        }
        ImageFault::NoContent { .. } => {
            line.push_text(b"I5 NoContent");
            ""
        }
    }
}

/// What is said of so many nodes of the other byte order, behind their number.
fn others_text(others: u64) -> &'static [u8]
    ensures text { result.now ≡ others_text others }
    ensures short { length result.now ≤ 64 }
{
    match others {
        1 => b" node, see --endian and info",
        _ => b" nodes, see --endian and info",
    }
}

/// What is said of so many findings, behind their number.
fn replaced_text(findings: u64) -> &'static [u8]
    ensures text { result.now ≡ replaced_text findings }
    ensures short { length result.now ≤ 64 }
{
    match findings {
        1 => b" finding, see check --scan; --force does it all the same",
        _ => b" findings, see check --scan; --force does it all the same",
    }
}

/// The file that the note is on, if it is on one.
#[tactic(auto, unfolding(crate::specs::ImageFaults::image_named))]
pub(crate) fn image_named<'a>(fault: ImageFault<'a>) -> &'a str
    ensures { result.now ≡ image_named fault.entry }
{
    match fault {
        ImageFault::NoNodes { .. }
        | ImageFault::Part
        | ImageFault::NoInode { .. }
        | ImageFault::NoContent { .. } => "",
        ImageFault::Findings { name, .. } => name,
    }
}

/// What is said of the fault beside its line.
#[tactic(auto, unfolding(crate::specs::ImageFaults::image_note))]
pub(crate) fn push_image_note(line: &mut LineBuffer, fault: ImageFault<'_>)
    requires { line.old ≡ [] }
    ensures text { line.new ≡ image_note fault.entry }
    ensures short { length line.new ≤ 200 }
{
    match fault {
        ImageFault::NoNodes { others: 0, .. } => {
            line.push_text(b"no node is found in either byte order, see info");
        }
        ImageFault::NoNodes { others, .. } => {
            line.push_text(b"the other byte order has ");
            line.push_decimal(others);
            line.push_text(others_text(others));
        }
        ImageFault::Findings { findings, .. } => {
            line.push_text(b" would be replaced, and has ");
            line.push_decimal(findings);
            line.push_text(replaced_text(findings));
        }
        ImageFault::Part => {
            line.push_text(
                b"IMAGE and OUT are one file, and a part of it is read; give another OUT",
            );
        }
        ImageFault::NoInode { ino } => {
            line.push_text(b"no sound node of these versions is of inode ");
            line.push_decimal(u64::from(ino));
            line.push_text(b"; history prints all");
        }
        ImageFault::NoContent { ino } => {
            line.push_text(b"by these nodes neither a file nor a symlink: inode ");
            line.push_decimal(u64::from(ino));
        }
    }
}
