//! A directory in memory of its own.

ghost use Rattle.std.specs.Prelude.{◌≡◌, ◌==◌, ◌&&◌, ℕ, List, Some, IfOk, OnOk, OnErr, if◌then◌else◌, bytes_eq};
ghost use Rattle.std.specs.Cow.{cow_slice_items};
ghost use Rattle.jname.specs.Versions.{Agrees, Differs};
ghost use Rattle.jname.specs.ContentsByName.{HasSameContents};
ghost use Rattle.jname.specs.NameMaps.{names_in};

use crate::NameFault;
use crate::directory::Directory;
use crate::versions::Content;
use std::alloc::{AllocError, Global};
use std::borrow::CowSlice;
use std::boxed::Box;

/// A directory in memory of its own: a map's leaf has room for fifteen values, and about half of it
/// is used.
#[derive(Drop)]
pub struct Apart<'a> {
    pub directory: Box<Directory<'a>>,
}

impl<'a> Apart<'a> {
    ghost use Rattle.jname.specs.Directories.{content_held};

    pub fn new(alloc: Global, directory: Directory<'a>) -> Result<Apart<'a>, AllocError>
        ensures { IfOk result (λ apart. apart.directory.value ≡ directory.entry) }
    {
        let directory = Box::new(alloc, directory)?;
        Ok(Apart { directory })
    }

    /// Holds a content under a name at a version.
    pub fn add(
        &mut self,
        alloc: Global,
        name: CowSlice<'a, u8>,
        version: u32,
        content: Content,
    ) -> Result<(), NameFault>
        ensures clash { result ≡ Err NameFault.Clash
            → Differs (content_held self.old (cow_slice_items name.entry) version) content }
        ensures alone { OnOk result
            (Agrees (content_held self.old (cow_slice_items name.entry) version) content) }
        ensures ok { OnOk result ((n : List ℕ) (v : ℕ)
            → content_held self.new n v ≡ (if bytes_eq (cow_slice_items name.entry) n
            && version == v then Some content else content_held self.old n v)) }
        ensures err { OnErr result (HasSameContents (names_in self.old.directory.value.names)
            (names_in self.new.directory.value.names)) }
    {
        self.directory.add(alloc, name, version, content)
    }
}
