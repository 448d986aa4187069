//! What is stored of one name: the contents of its entries, by version.

ghost use Rattle.std.specs.Prelude.{◌≡◌, ◌≢◌, ◌==◌, ℕ, Some, None, IfOk, OnOk, OnErr, if◌then◌else◌};

use crate::NameFault;
use crate::older::agree;
use crate::sorted::Sorted;
use std::alloc::Global;
use std::boxed::Box;

/// What an entry says besides its place: the fields in which two entries of one place can clash.
#[derive(Clone, Copy, PartialEq, Eq)]
pub struct Content {
    pub ino: u32,
    pub mctime: u32,
    pub kind: u8,
}

/// The contents of the entries of one name, by version. Most names have one, which takes no memory
/// of its own.
#[derive(Drop)]
pub enum Versions {
    One { version: u32, content: Content },
    Several(Box<Sorted>),
}

impl Versions {
    ghost use Rattle.jname.specs.Versions.{contents_of, version_at, newest_of, Agrees, Differs, IsLiveIn};

    /// One content, at a version.
    pub fn of_one(version: u32, content: Content) -> Self
        ensures { (v : ℕ) → version_at result v ≡ (if version == v then Some content else None) }
    {
        Versions::One { version, content }
    }

    /// Holds a content at a version.
    pub fn add(&mut self, alloc: Global, version: u32, content: Content) -> Result<(), NameFault>
        ensures clash { result ≡ Err NameFault.Clash
            → Differs (version_at self.old version) content }
        ensures alone { OnOk result (Agrees (version_at self.old version) content) }
        ensures ok { OnOk result ((v : ℕ) → version_at self.new v
            ≡ (if version == v then Some content else version_at self.old v)) }
        ensures err { OnErr result (contents_of self.new ≡ contents_of self.old) }
    {
        match self {
            Versions::One {
                version: first,
                content: only,
            } => {
                if version == *first {
                    return agree(*only, content);
                }
                let mut sorted = Box::new(alloc, Sorted::of_one(alloc, *first, *only))?;
                sorted.add(version, content)?;
                *self = Versions::Several(sorted);
                Ok(())
            }
            Versions::Several(sorted) => sorted.add(version, content),
        }
    }

    /// The inode number at the highest version, where it is not 0.
    pub fn live(&self) -> Option<u32>
        ensures { IsLiveIn (version_at self.now) result }
    {
        let ino = self.newest().ino;
        if ino == 0 { None } else { Some(ino) }
    }

    fn newest(&self) -> Content
        ensures { result ≡ newest_of self.now }
    {
        match self {
            Versions::One { content, .. } => *content,
            Versions::Several(sorted) => sorted.newest,
        }
    }
}
