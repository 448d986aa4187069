//! Folders of the system that are filled or read.
ghost use Rattle.std.specs.Prelude.{◌≡◌, IfErr, IfOk, IsFalse, IsTrue};
ghost use Rattle.jfolders.specs.Filling.{none_failed};
ghost use Rattle.jhost.specs.FilledFolders.{filled_root};
ghost use Rattle.jhost.specs.ReadFolders.{read_root};
ghost use Rattle.jsystem.specs.Quiet.{is_filling_quiet, is_keeping_quiet, is_reading_quiet};

use crate::host::SystemHost;
use crate::opener::FileOpener;
use jedge::fault::Fault;
use jextract::{ExtractFault, Folder};
use jfolder::ReadFault;
use jfolders::host::{Closed, FolderHost};
use jfolders::keeper::{Keeper, KeepingFolder};
use jhost::{FilledFolder, ReadFolder};
use jreport::Reason;
use std::io::IsTerminal;

/// Whether it is printed how far work is: on a terminal, unless it is to be quiet.
fn tells(rt: &HostRuntime, quiet: bool) -> bool
    ensures { IsTrue quiet → IsFalse result }
{
    !quiet && rt.stderr().is_terminal()
}

/// The folder of a name, to be made and filled.
fn filled_of<'r>(
    rt: &'r HostRuntime,
    name: &str,
    quiet: bool,
) -> Result<FilledFolder<'r, HostRuntime>, Fault>
    ensures none { IfOk result (λ folder.
        ⟦<FilledFolder<'r, HostRuntime> as Folder>⟧.failures folder ≡ none_failed) }
    ensures silent { IsTrue quiet → IfOk result (λ folder. IsTrue (is_filling_quiet folder)) }
    ensures root { IfOk result (λ folder. filled_root folder ≡ name.now) }
    ensures memory { IfErr result (λ fault. fault ≡ Fault.OutOfMemory) }
{
    match FilledFolder::new(rt, name, tells(rt, quiet)) {
        Ok(folder) => Ok(folder),
        Err(_) => Err(Fault::OutOfMemory),
    }
}

/// The folder of a name, to be read.
fn folder_of<'r>(
    rt: &'r HostRuntime,
    name: &str,
    quiet: bool,
) -> Result<ReadFolder<'r, HostRuntime>, Fault>
    ensures silent { IsTrue quiet → IfOk result (λ folder. IsTrue (is_reading_quiet folder)) }
    ensures root { IfOk result (λ folder. read_root folder ≡ name.now) }
    ensures memory { IfErr result (λ fault. fault ≡ Fault.OutOfMemory) }
{
    match ReadFolder::new(rt, name, tells(rt, quiet)) {
        Ok(folder) => Ok(folder),
        Err(_) => Err(Fault::OutOfMemory),
    }
}

impl<'r> FolderHost for SystemHost<'r> {
    type Filled = FilledFolder<'r, HostRuntime>;

    type Read = ReadFolder<'r, HostRuntime>;

    type Whole = KeepingFolder<ReadFolder<'r, HostRuntime>, FileOpener<'r, HostRuntime>>;

    ghost fills_quietly = { is_filling_quiet };

    ghost reads_quietly = { is_reading_quiet };

    ghost keeps_quietly = { is_keeping_quiet };

    fn fill_folder(
        &mut self,
        name: &str,
        quiet: bool,
    ) -> Result<FilledFolder<'r, HostRuntime>, Fault> {
        filled_of(self.rt, name, quiet)
    }

    fn close_filled(
        &mut self,
        _name: &str,
        mut folder: FilledFolder<'r, HostRuntime>,
        _why: Option<ExtractFault>,
    ) -> Reason {
        folder.finish();
        Reason::of_kind(folder.kind())
    }

    fn read_folder(
        &mut self,
        name: &str,
        quiet: bool,
    ) -> Result<ReadFolder<'r, HostRuntime>, Fault> {
        folder_of(self.rt, name, quiet)
    }

    fn close_read(
        &mut self,
        _name: &str,
        mut folder: ReadFolder<'r, HostRuntime>,
        _why: Option<ReadFault>,
    ) -> Reason {
        folder.finish();
        Reason::of_kind(folder.kind())
    }

    fn read_whole(
        &mut self,
        name: &str,
        quiet: bool,
    ) -> Result<KeepingFolder<ReadFolder<'r, HostRuntime>, FileOpener<'r, HostRuntime>>, Fault> {
        match folder_of(self.rt, name, quiet) {
            Ok(folder) => {
                let keeper = Keeper::new(self.rt.alloc(), FileOpener::new(self.rt));
                Ok(KeepingFolder::new(self.rt.alloc(), folder, keeper))
            }
            Err(fault) => Err(fault),
        }
    }

    fn close_whole(
        &mut self,
        _name: &str,
        folder: KeepingFolder<ReadFolder<'r, HostRuntime>, FileOpener<'r, HostRuntime>>,
        _why: Option<ReadFault>,
    ) -> Closed {
        let (mut folder, files) = folder.into_parts();
        folder.finish();
        Closed {
            reason: Reason::of_kind(folder.kind()),
            files,
        }
    }
}
