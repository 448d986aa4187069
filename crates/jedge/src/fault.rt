//! Why a command ends early. A fault owns the names that it tells.
ghost use Rattle.std.specs.Prelude.{◌≡◌, option_map, string_bytes};
ghost use Rattle.jedge.specs.Faults.{IsToldAs, command_fault};

use jreport::{ImageFault, ProgramFault, Reason, Unopened};

/// A file that failed, by its name, and why.
#[derive(Drop)]
pub struct FailedFile {
    pub name: String,
    pub reason: Reason,
}

impl FailedFile {
    fn told(&self) -> Unopened<'_>
        ensures name { result.name.now ≡ string_bytes self.now.name }
        ensures reason { result.reason ≡ self.now.reason }
    {
        Unopened {
            name: self.name.as_str(),
            reason: self.reason,
        }
    }
}

/// Why a command ends early.
#[derive(Drop)]
pub enum Fault {
    /// This file can't be opened.
    File(FailedFile),
    /// This file was opened, and failed before its end was read.
    NotRead(FailedFile),
    /// No node is found in an image, though it is not blank; in the other byte order there are
    /// `others`. Where several images are read, it is the one of this name.
    NoNodes { name: Option<String>, others: u64 },
    /// The host has no room for what is still to be made in the folder of this name.
    NoSpace(String),
    /// An image has so many findings, and is the file of this name, which the command would write
    /// over.
    Findings { name: String, findings: u64 },
    /// What was read, or asked for, is refused for what it is. No name is told.
    Refused(ProgramFault<'static>),
    /// Standard output failed.
    Output,
    OutOfMemory,
}

/// A name that may be there.
fn name_of(name: &Option<String>) -> Option<&str>
    ensures { option_map (λ n. n.now) result ≡ option_map string_bytes name.now }
{
    match name {
        Some(name) => Some(name.as_str()),
        None => None,
    }
}

impl Fault {
    /// A fault of a library, as a command ends by it.
    pub fn of(fault: ProgramFault<'static>) -> Fault
        ensures { result ≡ command_fault fault.entry }
    {
        match fault {
            ProgramFault::Output => Fault::Output,
            ProgramFault::OutOfMemory => Fault::OutOfMemory,
            refused => Fault::Refused(refused),
        }
    }

    /// As the program tells it.
    pub fn told(&self) -> ProgramFault<'_>
        ensures { IsToldAs self.now result }
    {
        match self {
            Fault::File(file) => ProgramFault::File(file.told()),
            Fault::NotRead(file) => ProgramFault::NotRead(file.told()),
            Fault::NoNodes { name, others } => ProgramFault::Image(ImageFault::NoNodes {
                name: name_of(name),
                others: *others,
            }),
            Fault::NoSpace(folder) => ProgramFault::NoSpace(folder.as_str()),
            Fault::Findings { name, findings } => ProgramFault::Image(ImageFault::Findings {
                name: name.as_str(),
                findings: *findings,
            }),
            Fault::Refused(fault) => *fault,
            Fault::Output => ProgramFault::Output,
            Fault::OutOfMemory => ProgramFault::OutOfMemory,
        }
    }
}
