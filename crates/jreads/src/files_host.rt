//! A host that reads files beside one another, and says before how long they are.
ghost use Rattle.std.specs.Prelude.{Ok};
ghost use Rattle.jedge.specs.Acts.{DoesFrom, seen_as};
ghost use Rattle.jreads.specs.Named.{measures, reads_with};

use jbuild::HostFiles;
use jedge::fault::Fault;
use jedge::host::Host;

/// A host of files that are read beside one another.
pub trait FilesHost: Host {
    /// How long the file of a name is, as the host says before it is read. What is no regular file
    /// has the length 0.
    fn length(&mut self, name: &str) -> u64
        ensures { DoesFrom (Self.history self.old) (Self.history self.new) (measures name.now)
            (Ok result) };

    /// All bytes of a file, which are kept with those that were read before. The file is closed,
    /// also where it fails. At most the greatest image is kept of it.
    fn read_with(&mut self, input: Self::Input, files: &mut HostFiles) -> Result<(), Fault>
        ensures { DoesFrom (Self.history self.old) (Self.history self.new)
            (reads_with files.old (Self.Input.name input)) (seen_as (λ _. files.new) result) };
}
