//! A revision of an object.

/// An object as it was: by its nodes up to a version, as if they were all that there is. With the
/// version `u32::MAX` these are all of its nodes.
#[derive(Clone, Copy, Debug, PartialEq, Eq)]
pub struct Revision {
    /// The object's inode number.
    pub ino: u32,
    /// The highest version that counts.
    pub version: u32,
}

impl Revision {
    ghost use Rattle.std.specs.Prelude.{◌≡◌};
    ghost use Rattle.jversions.specs.Revisions.{is_upto};

    /// Whether an inode node of this number and version is one of the revision.
    pub(crate) fn has(self, ino: u32, version: u32) -> bool
        ensures { result ≡ is_upto self ino version }
    {
        ino == self.ino && version <= self.version
    }
}
