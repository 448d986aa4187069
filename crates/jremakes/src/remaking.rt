//! An image that goes to a file, and what it comes to.
ghost use Rattle.std.specs.Prelude.{◌≡◌, [], IfErr, IfOk, IfSome, Some, string_bytes};
ghost use Rattle.jremakes.specs.Putting.{ComesTo, IsEndFault, end_reason, unput_of, unwritten_by};

use jconvert::ConvertFault;
use jedge::fault::{FailedFile, Fault};
use jedge::host::Host;
use jlog::SessionFault;
use jmakes::wanted::CloseFault;
use jreport::{Cause, ProgramFault, Reason};

/// Why an image was not put to its end.
#[derive(Clone, Copy, Debug, PartialEq, Eq)]
pub enum Unput {
    /// The file failed.
    File,
    OutOfMemory,
}

/// Why an image was not put that was not refused.
pub(crate) fn unput_of(fault: ConvertFault) -> Unput
    ensures { result ≡ unput_of fault }
{
    match fault {
        ConvertFault::OutOfMemory => Unput::OutOfMemory,
        _ => Unput::File,
    }
}

/// The fault of a file that failed when it was written.
fn unwritten_by(reason: Reason) -> Fault
    ensures { result ≡ unwritten_by reason }
{
    Fault::Refused(ProgramFault::Session {
        fault: SessionFault::Sink,
        line: None,
        cause: Cause::Host(reason),
    })
}

/// The fault of the file of this name, which ended badly.
fn end_fault(name: String, why: CloseFault) -> Fault
    ensures { IsEndFault (string_bytes name) why result }
{
    match why {
        CloseFault::NotWritten(reason) => unwritten_by(reason),
        CloseFault::NotNamed(reason) => Fault::File(FailedFile { name, reason }),
    }
}

/// Why a file ended badly that failed before.
fn end_reason(closed: Result<(), CloseFault>) -> Reason
    ensures { result ≡ end_reason closed }
{
    match closed {
        Ok(()) => Reason::Other,
        Err(CloseFault::NotWritten(reason) | CloseFault::NotNamed(reason)) => reason,
    }
}

/// What it comes to that an image was put into the file of this name, and the file ended.
pub(crate) fn remade<A: Drop>(
    name: String,
    put: Result<A, Unput>,
    closed: Result<(), CloseFault>,
) -> Result<A, Fault>
    ensures { ComesTo (string_bytes name) put closed result }
{
    match put {
        Ok(done) => match closed {
            Ok(()) => Ok(done),
            Err(why) => Err(end_fault(name, why)),
        },
        Err(Unput::File) => Err(unwritten_by(end_reason(closed))),
        Err(Unput::OutOfMemory) => {
            Err(Fault::Refused(ProgramFault::from(SessionFault::OutOfMemory)))
        }
    }
}

/// Memory for what is wanted when the file is there: its name, and the line that is printed.
pub(crate) fn take_memory<H: Host>(host: &mut H, name: &str) -> Result<(String, H::Output), Fault>
    ensures same { H.history host.new ≡ H.history host.old }
    ensures name { IfOk result (λ taken. string_bytes taken.0 ≡ name.now) }
    ensures sound { IfOk result (λ taken. H.Output.failures taken.1 ≡ 0) }
    ensures empty { IfOk result
        (λ taken. IfSome (H.history host.old) (λ _. H.Output.taken taken.1 ≡ Some [])) }
    ensures memory { IfErr result (λ fault. fault ≡ Fault.OutOfMemory) }
{
    match name.to_string(host.alloc()) {
        Ok(name) => match host.output() {
            Ok(out) => Ok((name, out)),
            Err(fault) => Err(fault),
        },
        Err(_) => Err(Fault::OutOfMemory),
    }
}
