//! A folder that is made and filled.
ghost use Rattle.std.specs.Prelude.{◌≡◌, [], Some, IfSome, string_bytes};
ghost use Rattle.flashbase.specs.Sinks.{change_of};
ghost use Rattle.jextract.specs.Extracts.{Extracts};
ghost use Rattle.jextract.specs.PartsOf.{IsPart};
ghost use Rattle.jedge.specs.Acts.{DoesFrom};
ghost use Rattle.jfolders.specs.Extracting.{state_of_part};
ghost use Rattle.jfolders.specs.Filling.{IsFilled, IsFillingFault, IsFolderFull, fills_folder, fills_asked, none_failed};

use crate::host::FolderHost;
use crate::reading::{folder_fault, stop_of};
use flashbase::Sink;
use jcommand::Extraction;
use jedge::fault::Fault;
use jextract::{ExtractFault, Folder, Part, Totals, extract, extract_part};
use jmount::Mounted;
use jreport::Reason;
use std::alloc::Global;

/// The fault of the folder of a name, for which the host has no more room.
fn full_fault(alloc: Global, name: &str) -> Fault
    ensures { IsFolderFull name.now result }
{
    match name.to_string(alloc) {
        Ok(name) => Fault::NoSpace(name),
        Err(_) => Fault::OutOfMemory,
    }
}

/// Why an extraction into it ended.
fn filling_fault(alloc: Global, name: &str, reason: Reason, why: ExtractFault) -> Fault
    ensures { IsFillingFault name.now reason why result }
{
    match why {
        ExtractFault::Folder => folder_fault(alloc, name, reason),
        ExtractFault::Notes => Fault::Output,
        ExtractFault::NoSpace => full_fault(alloc, name),
        ExtractFault::OutOfMemory => Fault::OutOfMemory,
    }
}

/// What an extraction into it comes to.
fn filled(
    alloc: Global,
    name: &str,
    reason: Reason,
    answer: Result<Totals, ExtractFault>,
) -> Result<Totals, Fault>
    ensures { IsFilled name.now reason answer result }
{
    match answer {
        Ok(totals) => Ok(totals),
        Err(why) => Err(filling_fault(alloc, name, reason, why)),
    }
}

/// Extracts the tree of a mounted image, or the part of it that is given.
fn extract_into<F: Folder, N: Sink>(
    alloc: Global,
    mounted: &Mounted<'_>,
    part: &Option<Part<'_>>,
    owners: bool,
    folder: &mut F,
    notes: &mut N,
) -> Result<Totals, ExtractFault>
    requires { IfSome part.now (IsPart mounted.now.state) }
    ensures { Extracts (state_of_part mounted.now.state part.now) owners
        (record {
          old = F.made folder.old;
          new = F.made folder.new;
          before = F.failures folder.old;
          now = F.failures folder.new;
        })
        (change_of N.Sink notes.old notes.new) result }
{
    match part {
        Some(part) => extract_part(alloc, mounted, part, owners, folder, notes),
        None => extract(alloc, mounted, owners, folder, notes),
    }
}

/// Fills a folder that was asked for. Standard error is told what is left out.
fn fill_asked<H: FolderHost>(
    host: &mut H,
    mounted: &Mounted<'_>,
    part: &Option<Part<'_>>,
    asked: Extraction<&str>,
    folder: H::Filled,
) -> Result<Totals, Fault>
    requires part { IfSome part.now (IsPart mounted.now.state) }
    requires sound { H.Filled.failures folder ≡ none_failed }
    requires empty { IfSome (H.history host.old) (λ _. H.Filled.made folder ≡ Some []) }
    ensures { DoesFrom (H.history host.old) (H.history host.new)
        (fills_asked asked.entry.folder.now asked.entry.owners
        (state_of_part mounted.now.state part.now)) result }
{
    let mut folder = folder;
    let mut errors = host.errors();
    let alloc = host.alloc();
    let answer = extract_into(alloc, mounted, part, asked.owners, &mut folder, &mut errors);
    let reason = host.close_filled(asked.folder, folder, stop_of(&answer));
    host.close_errors(errors);
    filled(host.alloc(), asked.folder, reason, answer)
}

/// Fills the folder that is asked for.
pub(crate) fn fill<H: FolderHost>(
    host: &mut H,
    mounted: &Mounted<'_>,
    part: &Option<Part<'_>>,
    asked: Extraction<&str>,
) -> Result<Totals, Fault>
    requires { IfSome part.now (IsPart mounted.now.state) }
    ensures { DoesFrom (H.history host.old) (H.history host.new)
        (fills_folder asked.entry.folder.now asked.entry.quiet asked.entry.owners
        (state_of_part mounted.now.state part.now)) result }
{
    match host.fill_folder(asked.folder, asked.quiet) {
        Ok(folder) => fill_asked(host, mounted, part, asked, folder),
        Err(fault) => Err(fault),
    }
}
