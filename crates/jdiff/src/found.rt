//! What a number leads to in a tree.

ghost use Rattle.std.specs.Prelude.{◌≡◌, IfOk, IfErr, OnOk};
ghost use Rattle.jreport.specs.Remembering.{Becomes, remembered};
ghost use Rattle.jdiff.specs.Walking.{directory_found, found_at, met_by};

use jmount::{Kind, Mounted, Object};
use jreport::{MetDirectories, ProgramFault};

/// An object of a tree.
#[derive(Clone, Copy)]
pub(crate) struct Found {
    pub ino: u32,
    pub object: Object,
    /// It is a directory that was met before.
    pub again: bool,
    /// It is a directory that is met for the first time.
    pub entered: bool,
}

/// The object of a number, if there is one. A directory is met.
pub(crate) fn look(
    mounted: &Mounted<'_>,
    ino: Option<u32>,
    met: &mut MetDirectories,
) -> Result<Option<Found>, ProgramFault<'static>>
    ensures found { IfOk result
        (λ found. found ≡ found_at mounted.now.state (remembered met.old) ino) }
    ensures met { OnOk result
        (Becomes met.old met.new (met_by mounted.now.state (remembered met.old) ino)) }
    ensures fault { IfErr result (λ fault. fault ≡ ProgramFault.OutOfMemory) }
{
    let Some(ino) = ino else {
        return Ok(None);
    };
    let Some(object) = mounted.object(ino) else {
        return Ok(None);
    };
    if object.kind != Kind::Directory {
        return Ok(Some(Found {
            ino,
            object,
            again: false,
            entered: false,
        }));
    }
    let entered = met.meet(ino)?;
    Ok(Some(Found {
        ino,
        object,
        again: !entered,
        entered,
    }))
}

/// The directory that is entered, if one is.
pub(crate) fn directory_of(found: Option<Found>) -> Option<u32>
    ensures { result ≡ directory_found found }
{
    match found {
        Some(found) if found.entered => Some(found.ino),
        _ => None,
    }
}
