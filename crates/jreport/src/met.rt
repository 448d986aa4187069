//! The directories that a walk through a tree has met.

ghost use Rattle.jreport.specs.Remembering.{MeetsDirectory, RemembersNone};

use jmount::Mounted;
use std::alloc::{AllocError, Global};
use std::collections::BTreeSet;

/// The directories that a walk has met. In a tree that has its shape none is met twice, and none is
/// remembered.
#[derive(Drop)]
pub struct MetDirectories {
    /// Those that are remembered; nothing where none ever is.
    pub noted: Option<BTreeSet<u32>>,
}

impl MetDirectories {
    /// Those of a walk that begins, which has met none.
    pub fn new(alloc: Global, mounted: &Mounted<'_>) -> MetDirectories
        ensures { RemembersNone mounted.now.state result }
    {
        let noted = if mounted.has_shape() {
            None
        } else {
            Some(BTreeSet::new(alloc))
        };
        MetDirectories { noted }
    }

    /// Meets a directory. Answers whether that is for the first time, as far as is remembered.
    ///
    /// # Errors
    /// Out of memory. What is remembered stays.
    pub fn meet(&mut self, ino: u32) -> Result<bool, AllocError>
        ensures { MeetsDirectory self.old self.new ino result }
    {
        match &mut self.noted {
            Some(noted) => Ok(noted.insert(ino)?),
            None => Ok(true),
        }
    }
}
