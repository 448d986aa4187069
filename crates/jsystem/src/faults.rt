//! Why a file of the system is not made, or not read, as a command ends by it.
ghost use Rattle.std.specs.Prelude.{string_bytes};
ghost use Rattle.std.specs.IoError.{error_kind};
ghost use Rattle.jsystem.specs.Failing.{FailsMaking, FailsReading};

use flashbase::LoadFault;
use jedge::fault::{FailedFile, Fault};
use jreport::{ProgramFault, Reason};
use std::alloc::Global;
use std::io;
use std::io::ErrorKind;

/// The fault of the file of a name that is not made for this error.
pub(crate) fn unmade(alloc: Global, name: &str, error: &io::Error) -> Fault
    ensures { FailsMaking name.now (error_kind error.now) result }
{
    if error.kind() == ErrorKind::OutOfMemory {
        return Fault::OutOfMemory;
    }
    match name.to_string(alloc) {
        Ok(name) => Fault::File(FailedFile {
            name,
            reason: Reason::of(error),
        }),
        Err(_) => Fault::OutOfMemory,
    }
}

/// The fault of the file of a name that was not read to its end; `reason` is why it failed.
pub(crate) fn unread(name: String, reason: Reason, why: LoadFault) -> Fault
    ensures { FailsReading (string_bytes name) reason why result }
{
    match why {
        LoadFault::Device => Fault::NotRead(FailedFile { name, reason }),
        LoadFault::TooLarge => Fault::Refused(ProgramFault::Load(LoadFault::TooLarge)),
        LoadFault::OutOfMemory => Fault::Refused(ProgramFault::Load(LoadFault::OutOfMemory)),
    }
}
