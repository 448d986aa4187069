//! A host that has folders, too.
ghost use Rattle.std.specs.Prelude.{◌≡◌, [], Bool, List, Ok, Some, IfOk, IfSome, IsTrue};
ghost use Rattle.jextract.specs.Folders.{Made};
ghost use Rattle.jedge.specs.Acts.{DoesFrom, seen_as};
ghost use Rattle.jfolders.specs.Filling.{asks_to_fill, closes_filled};
ghost use Rattle.jfolders.specs.Keeping.{closes_whole};
ghost use Rattle.jfolders.specs.Reading.{asks_to_read, closes_read};

use crate::kept::KeptFiles;
use jedge::fault::Fault;
use jedge::host::Host;
use jextract::{ExtractFault, Folder};
use jfolder::{HostFolder, ReadFault};
use jreport::Reason;

/// Why the host refused last, and the files that were kept of a folder that was read.
#[derive(Drop)]
pub struct Closed {
    pub reason: Reason,
    pub files: KeptFiles,
}

/// A host that has folders. The contract of each call is its act.
///
/// How far the work on a folder is may be printed on standard error meanwhile, unless the folder is
/// quiet. When a folder is given back, that is taken away.
pub trait FolderHost: Host {
    /// A folder that is made and filled.
    type Filled: Folder;

    /// A folder that is read.
    type Read: HostFolder + Drop;

    /// A folder that is read, and the files in it as they are found.
    type Whole: HostFolder + Drop;

    /// Whether a folder prints nothing of how far the work on it is.
    ghost fills_quietly: { Self.Filled → Bool };

    ghost reads_quietly: { Self.Read → Bool };

    ghost keeps_quietly: { Self.Whole → Bool };

    /// The folder of a name, to be made and filled.
    fn fill_folder(&mut self, name: &str, quiet: bool) -> Result<Self::Filled, Fault>
        ensures asks { DoesFrom (Self.history self.old) (Self.history self.new)
            (asks_to_fill name.now quiet)
            (seen_as (λ folder. Self.Filled.failures folder) result) }
        ensures empty { IfOk result
            (λ folder. IfSome (Self.history self.old) (λ _. Self.Filled.made folder ≡ Some [])) }
        ensures silent { IsTrue quiet → IfOk result (λ folder. IsTrue (fills_quietly folder)) };

    /// Takes back a folder that was filled, or that an extraction gave up for this. Answers why the
    /// host refused last.
    fn close_filled(
        &mut self,
        name: &str,
        folder: Self::Filled,
        why: Option<ExtractFault>,
    ) -> Reason
        ensures { (made : List Made)
            → IfSome (Self.history self.old) (λ _. Self.Filled.made folder ≡ Some made)
            → DoesFrom (Self.history self.old) (Self.history self.new)
            (closes_filled name.now made why) (Ok result) };

    /// The folder of a name, to be read.
    fn read_folder(&mut self, name: &str, quiet: bool) -> Result<Self::Read, Fault>
        ensures asks { DoesFrom (Self.history self.old) (Self.history self.new)
            (asks_to_read name.now quiet) (seen_as (λ folder. Self.Read.known folder) result) }
        ensures silent { IsTrue quiet → IfOk result (λ folder. IsTrue (reads_quietly folder)) };

    /// Takes back a folder that was read, or that a reading gave up for this. Answers why the host
    /// refused last.
    fn close_read(&mut self, name: &str, folder: Self::Read, why: Option<ReadFault>) -> Reason
        ensures { DoesFrom (Self.history self.old) (Self.history self.new)
            (closes_read name.now why) (Ok result) };

    /// The folder of a name, to be read with the files in it.
    fn read_whole(&mut self, name: &str, quiet: bool) -> Result<Self::Whole, Fault>
        ensures asks { DoesFrom (Self.history self.old) (Self.history self.new)
            (asks_to_read name.now quiet) (seen_as (λ folder. Self.Whole.known folder) result) }
        ensures silent { IsTrue quiet → IfOk result (λ folder. IsTrue (keeps_quietly folder)) };

    /// Takes back such a folder, with the files that were kept.
    fn close_whole(&mut self, name: &str, folder: Self::Whole, why: Option<ReadFault>) -> Closed
        ensures { DoesFrom (Self.history self.old) (Self.history self.new)
            (closes_whole name.now why) (Ok result) };
}
