//! Files of the system that were read when they were found in a folder.

ghost use Rattle.std.specs.Prelude.{◌≡◌, ◌≤◌, ℕ, List, Some, length};
ghost use Rattle.jscan.specs.Image.{greatest_image};
ghost use Rattle.jbuild.specs.HostFiles.{read_of};

use flashbase::{LoadFault, Source};
use jbuild::HostFiles;
use jscan::GREATEST_IMAGE;
use std::alloc::Global;

/// Files that were read, none of them longer than the greatest image.
#[derive(Drop)]
pub struct KeptFiles {
    parts: HostFiles,
    ghost within: { (name : List ℕ) → (bytes : List ℕ) → read_of parts name ≡ Some bytes
        → length bytes ≤ greatest_image },
}

impl KeptFiles {
    ghost use Rattle.std.specs.Prelude.{◌≡◌, ◌≤◌, ℕ, List, Some, None, length, string_bytes};
    ghost use Rattle.flashbase.specs.Device.{CountsLoad};
    ghost use Rattle.jscan.specs.Image.{greatest_image};
    ghost use Rattle.jbuild.specs.HostFiles.{ReadsPart, read_of};

    /// None yet.
    pub fn new(alloc: Global) -> KeptFiles
        ensures { (name : List ℕ) → read_of result.parts name ≡ None }
    {
        KeptFiles {
            parts: HostFiles::new(alloc),
        }
    }

    /// One more file: all that a source has left, if it is no more than the greatest image.
    ///
    /// # Errors
    /// As [`flashbase::load`] answers them: nothing changes.
    pub fn read<S: Source>(
        &mut self,
        alloc: Global,
        name: String,
        source: &mut S,
    ) -> Result<(), LoadFault>
        ensures reads { ReadsPart (S.rest source.old) greatest_image (string_bytes name)
            self.old.parts self.new.parts result }
        ensures count { CountsLoad (S.failures source.old) (S.failures source.new) result }
    {
        self.parts.read(alloc, name, source, GREATEST_IMAGE)
    }

    /// All of them.
    pub fn into_parts(self) -> HostFiles
        ensures all { result ≡ self.parts }
        ensures within { (name : List ℕ) → (bytes : List ℕ) → read_of result name ≡ Some bytes
            → length bytes ≤ greatest_image }
    {
        self.parts
    }
}
