//! A folder in memory, one of whose calls the host may refuse.

ghost use Rattle.jfolder.specs.Known.{nothing};

use jfolder::{FolderFault, HostFolder, Looked, Names};
use std::alloc::{AllocError, Global};

/// An object of the folder: its path, what is told of it, and its bytes or its target.
#[derive(Clone, Copy)]
pub struct Object {
    pub path: &'static str,
    pub looked: Looked,
    pub text: &'static str,
    /// How many names in a directory are no text.
    pub others: u64,
}

/// An object with one name.
pub fn make_object(
    path: &'static str,
    mode: u32,
    owner: (u32, u32),
    time: i64,
    text: &'static str,
) -> Object {
    Object {
        path,
        looked: Looked {
            mode,
            uid: owner.0,
            gid: owner.1,
            time,
            size: text.len() as u64,
            links: 1,
            device: 8,
            number: 0,
            special: 0,
        },
        text,
        others: 0,
    }
}

/// The content of a file that is not opened.
pub const UNREADABLE: &str = "-";

/// The folder. After `calls` calls one is refused.
#[derive(Drop)]
pub struct Memory<'a> {
    pub alloc: Global,
    pub objects: &'a [Object],
    pub calls: usize,
}

impl<'a> Memory<'a> {
    pub fn new(alloc: Global, objects: &'a [Object]) -> Memory<'a> {
        Memory {
            alloc,
            objects,
            calls: usize::MAX,
        }
    }

    fn find(&mut self, path: &str) -> Result<Object, FolderFault> {
        let is_refused = self.calls == 0;
        self.calls = self.calls.wrapping_sub(1);
        if is_refused {
            return Err(FolderFault::Refused);
        }
        for object in self.objects {
            if object.path == path {
                return Ok(*object);
            }
        }
        Err(FolderFault::Refused)
    }
}

/// The name that a path has in a directory.
fn name_in<'p>(directory: &str, path: &'p str) -> Option<&'p str> {
    let rest = if directory.is_empty() {
        path
    } else {
        path.strip_prefix(directory)?.strip_prefix("/")?
    };
    if rest.is_empty() || rest.contains("/") {
        return None;
    }
    Some(rest)
}

fn text_of(alloc: Global, text: &str) -> Result<String, AllocError> {
    String::from_str(alloc, text)
}

impl HostFolder for Memory<'_> {
    ghost known = { λ _. nothing };

    fn look(&mut self, path: &str) -> Result<Looked, FolderFault> {
        Ok(self.find(path)?.looked)
    }

    fn names(&mut self, path: &str) -> Result<Names, FolderFault> {
        let others = self.find(path)?.others;
        let mut texts = Vec::new(self.alloc);
        for object in self.objects {
            if let Some(name) = name_in(path, object.path) {
                texts.push(text_of(self.alloc, name)?)?;
            }
        }
        Ok(Names { texts, others })
    }

    fn target(&mut self, path: &str) -> Result<String, FolderFault> {
        let target = self.find(path)?.text;
        if target == "?" {
            return Err(FolderFault::NoText);
        }
        Ok(text_of(self.alloc, target)?)
    }

    fn host_path(&mut self, path: &str) -> Result<String, FolderFault> {
        let mut name = text_of(self.alloc, "host/")?;
        name.push_str(self.find(path)?.path)?;
        Ok(name)
    }

    fn open(&mut self, path: &str) -> Result<(), FolderFault> {
        match self.find(path)?.text {
            UNREADABLE => Err(FolderFault::Refused),
            _ => Ok(()),
        }
    }
}
