//! What a file begins with that is no image of flash.

ghost use Rattle.std.specs.Prelude.{◌≡◌, ◌≤◌, length};
ghost use Rattle.std.specs.List.{find};
ghost use Rattle.flashbase.specs.Sinks.{PutsTo};
ghost use Rattle.jinfo.specs.Containers.{begins_as, container_line, container_magic, container_name, container_note, container_of};

use flashbase::{DeviceFault, Sink};
use jline::{LineBuffer, put_text};

/// What holds an image of flash, or is another file system.
#[derive(Clone, Copy, Debug, PartialEq, Eq)]
pub enum Container {
    Gzip,
    Xz,
    Ubi,
    Squashfs,
    Trx,
    UImage,
}

const CONTAINERS: [Container; 6] = [
    Container::Gzip,
    Container::Xz,
    Container::Ubi,
    Container::Squashfs,
    Container::Trx,
    Container::UImage,
];

impl Container {
    /// The bytes that it begins with.
    fn magic(self) -> &'static [u8]
        ensures { result.now ≡ container_magic self }
    {
        match self {
            Container::Gzip => &[0x1F, 0x8B],
            Container::Xz => &[0xFD, 0x37, 0x7A, 0x58, 0x5A, 0],
            Container::Ubi => &[0x55, 0x42, 0x49, 0x23],
            Container::Squashfs => &[0x68, 0x73, 0x71, 0x73],
            Container::Trx => &[0x48, 0x44, 0x52, 0x30],
            Container::UImage => &[0x27, 0x05, 0x19, 0x56],
        }
    }

    fn name(self) -> &'static [u8]
        ensures name { result.now ≡ container_name self }
        ensures short { length result.now ≤ 20 }
    {
        match self {
            Container::Gzip => b"gzip",
            Container::Xz => b"xz",
            Container::Ubi => b"UBI",
            Container::Squashfs => b"squashfs",
            Container::Trx => b"a TRX header",
            Container::UImage => b"a uImage header",
        }
    }
}

/// Whether the file begins as this does.
fn begins_as(file: &[u8], container: Container) -> bool
    ensures { result ≡ begins_as file.now container }
{
    file.starts_with(container.magic())
}

/// The first of these that the file begins as.
fn first_of(containers: &[Container], file: &[u8]) -> Option<Container>
    ensures { result ≡ find (begins_as file.now) containers.now }
{
    containers
        .iter()
        .copied()
        .find(|container| begins_as(file, *container))
}

/// What the file begins as, if it begins as one of these.
pub fn container_of(file: &[u8]) -> Option<Container>
    ensures { result ≡ container_of file.now }
{
    first_of(&CONTAINERS, file)
}

/// Writes the note that the file begins as this does.
#[tactic(auto, unfolding(crate::specs::Containers::container_line))]
fn write_container(line: &mut LineBuffer, container: Container)
    ensures { line.new ≡ container_line container }
{
    line.clear();
    line.push_text(b"jffs2_image: note: the file begins as ");
    line.push_text(container.name());
    line.push_text(b" does\n");
}

/// Puts the note that the file begins as this does, as it is on standard error; where it begins as
/// nothing known, puts nothing.
pub fn put_container_note<S: Sink>(
    container: Option<Container>,
    sink: &mut S,
) -> Result<(), DeviceFault>
    ensures { PutsTo S.Sink sink.old sink.new (container_note container) result }
{
    match container {
        Some(container) => {
            let mut line = LineBuffer::new();
            write_container(&mut line, container);
            put_text(sink, line.as_slice())
        }
        None => Ok(()),
    }
}
