//! The files that a listing names.
ghost use Rattle.std.specs.Prelude.{◌≡◌, ◌≤◌, Ok, Err, IfErr, IfOk, OnOk, Option, List, ℕ, [], ◌∷◌, ◌++◌, ◌-◌, if◌then◌else◌, bytes_eq, Some, is_some, Result};
ghost use Rattle.jbuild.specs.HostFiles.{read_of};
ghost use Rattle.jedge.specs.Acts.{DoesFrom, seen_as};
ghost use Rattle.jedge.specs.declared.fault.Fault.{Fault};
ghost use Rattle.jreads.specs.Named.{Measured, each, files_named, loads_listed, loads_named, loads_one, measures_one};
ghost use Rattle.jreads.specs.Counting.{CountsTo, IsCountOf, MeasuresAll};

use crate::files_host::FilesHost;
use flashbase::LoadFault;
use jbuild::HostFiles;
use jedge::fault::Fault;
use jlisting::Line;
use jreport::ProgramFault;
use jscan::GREATEST_IMAGE;
use std::alloc::{AllocError, Global};

/// The files that were measured, by their names, and how long the others may be together.
#[derive(Drop)]
struct Count {
    files: HostFiles,
    left: u64,
}

impl Count {
    /// None is measured yet.
    fn new(alloc: Global) -> Count
        ensures { IsCountOf (read_of result.files) result.left [] }
    {
        Count {
            files: HostFiles::new(alloc),
            left: GREATEST_IMAGE as u64,
        }
    }

    /// One more file of a name, of which so many bytes are left.
    fn add(&mut self, alloc: Global, name: &str, length: u64) -> Result<(), AllocError>
        requires { length ≤ self.old.left }
        ensures { OnOk result ((files : List Measured)
            → IsCountOf (read_of self.old.files) self.old.left files
            → IsCountOf (read_of self.new.files) self.new.left
            (files ++ record { name = name.now; bytes = length } ∷ [])) }
    {
        let name = name.to_string(alloc)?;
        self.files.insert(name, &[])?;
        self.left -= length;
        Ok(())
    }
}

/// Measures the file of a name, unless it was measured.
fn measure<H: FilesHost>(host: &mut H, count: &mut Count, name: &str) -> Result<(), Fault>
    ensures { (files : List Measured) → IsCountOf (read_of count.old.files) count.old.left files
        → CountsTo (H.history host.old) (H.history host.new) (measures_one name.now files)
        (read_of count.new.files) count.new.left result }
{
    if count.files.has(name) {
        return Ok(());
    }
    let length = host.length(name);
    if count.left < length {
        return Err(Fault::Refused(ProgramFault::Load(LoadFault::TooLarge)));
    }
    match count.add(host.alloc(), name, length) {
        Ok(()) => Ok(()),
        Err(_) => Err(Fault::OutOfMemory),
    }
}

/// Measures the files that lines name, each once.
fn measure_named<H: FilesHost>(host: &mut H, lines: &[Line<'_>]) -> Result<(), Fault>
    ensures { MeasuresAll (H.history host.old) (H.history host.new) lines.now result }
{
    let mut count = Count::new(host.alloc());
    for line in lines {
        if let Some(name) = line.action.file() {
            match measure(host, &mut count, name) {
                Ok(()) => {}
                Err(fault) => return Err(fault),
            }
        }
    }
    Ok(())
}

/// Reads the file of a name, unless it was read.
fn load_one<H: FilesHost>(host: &mut H, files: &mut HostFiles, name: &str) -> Result<(), Fault>
    ensures { DoesFrom (H.history host.old) (H.history host.new) (loads_one name.now files.old)
        (seen_as (λ _. files.new) result) }
{
    if files.has(name) {
        return Ok(());
    }
    match host.open(name) {
        Ok(input) => host.read_with(input, files),
        Err(fault) => Err(fault),
    }
}

/// Reads the files that lines name, each once, but those that were read before.
fn load_each<H: FilesHost>(
    host: &mut H,
    lines: &[Line<'_>],
    before: HostFiles,
) -> Result<HostFiles, Fault>
    ensures { DoesFrom (H.history host.old) (H.history host.new)
        (each loads_one (files_named lines.now) before) result }
{
    let mut files = before;
    for line in lines {
        if let Some(name) = line.action.file() {
            match load_one(host, &mut files, name) {
                Ok(()) => {}
                Err(fault) => return Err(fault),
            }
        }
    }
    Ok(files)
}

/// Reads the files that lines name, each once, but those that were read before. None is read if
/// they are together longer than the greatest image, as the host says.
pub fn load_named<H: FilesHost>(
    host: &mut H,
    lines: &[Line<'_>],
    before: HostFiles,
) -> Result<HostFiles, Fault>
    ensures { DoesFrom (H.history host.old) (H.history host.new) (loads_named lines.now before)
        result }
{
    match measure_named(host, lines) {
        Ok(()) => load_each(host, lines, before),
        Err(fault) => Err(fault),
    }
}

/// The same where no file was read before.
pub fn load_listed<H: FilesHost>(host: &mut H, lines: &[Line<'_>]) -> Result<HostFiles, Fault>
    ensures { DoesFrom (H.history host.old) (H.history host.new) (loads_listed lines.now) result }
{
    let none = HostFiles::new(host.alloc());
    load_named(host, lines, none)
}
