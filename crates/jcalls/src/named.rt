//! Files of the caller by their names.

ghost use Rattle.std.specs.Prelude.{◌≡◌, IfOk, length, option_map};
ghost use Rattle.jcalls.specs.Files.{AreWithin, HoldsFiles, bytes_named, file_in};

use crate::given::{Files, bytes_in_row, name_in};
use std::alloc::{AllocError, Global};
use std::collections::BTreeMap;

/// Files, to be found by their names. Of several of one name the first counts.
#[derive(Drop)]
pub(crate) struct ByName<'a> {
    pub(crate) files: Files<'a>,
    held: BTreeMap<&'a [u8], &'a [u8]>,
    ghost holds: { HoldsFiles files.bytes.now files.rows.now held },
}

impl<'a> ByName<'a> {
    /// These files. The last one comes first, so that the first one of a name stays.
    pub(crate) fn of(alloc: Global, files: Files<'a>) -> Result<Self, AllocError>
        requires { AreWithin (length files.bytes.now) files.rows.now }
        ensures { IfOk result (λ named. named.files ≡ files.entry) }
    {
        let mut held = BTreeMap::new(alloc);
        for i in (0..files.rows.len()).rev() {
            let row = files.rows[i];
            held.insert(name_in(files.bytes, row), bytes_in_row(files.bytes, row))?;
        }
        Ok(ByName { files, held })
    }

    /// The bytes of the file of a name, if there is one.
    pub(crate) fn file(&self, name: &[u8]) -> Option<&'a [u8]>
        ensures { option_map (λ content. content.now) result
            ≡ file_in self.now.files.bytes.now self.now.files.rows.now name.now }
    {
        self.held.get(name).copied()
    }

    /// The same; a file that is not there has none.
    pub(crate) fn bytes(&self, name: &[u8]) -> &'a [u8]
        ensures { result.now
            ≡ bytes_named self.now.files.bytes.now self.now.files.rows.now name.now }
    {
        match self.file(name) {
            Some(content) => content,
            None => &[],
        }
    }
}
