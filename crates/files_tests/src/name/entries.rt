//! Entries that are added, and all live names then.

ghost use Rattle.std.specs.Prelude.{◌<◌, ◌^◌, length};

use crate::checks::equal;
use jname::Names;
use jnode::{Dirent, Part};
use std::process::Abort;
use test_support::entry;

/// A live name: its directory, the name, and the number that it stands for.
#[derive(Clone, Copy)]
pub(crate) struct Live(pub(crate) u32, pub(crate) &'static [u8], pub(crate) u32);

/// An entry whose name is `content_at` and then bytes that the image lacks.
pub(crate) fn cut_entry(
    pino: u32,
    version: u32,
    ino: u32,
    present: &[u8],
    missing: u8,
) -> Dirent<'_>
    requires { length present.now < 2 ^ 32 }
{
    Dirent {
        name: Part::new(present, usize::from(missing)),
        ..entry(pino, version, ino, b"")
    }
}

/// Adds an entry that nothing hinders.
pub(crate) fn add<'a>(rt: &impl Abort, names: &mut Names<'a>, entry: &Dirent<'a>) {
    equal(rt, names.add(entry), Ok(()));
}

/// Whether these are all live names, in this order.
pub(crate) fn are_all(names: &Names<'_>, wanted: &[Live]) -> bool {
    let mut all = names.all();
    for &Live(directory, name, ino) in wanted {
        if all.next() != Some((directory, name, ino)) {
            return false;
        }
    }
    all.next().is_none()
}
