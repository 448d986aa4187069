//! Files of the host that a listing names.

ghost use Rattle.std.specs.Prelude.{ℕ, ◌≤◌, List, length};
ghost use Rattle.jbuild.specs.NamedSpans.{span_of};
ghost use Rattle.jbuild.specs.Spans.{end_of_span};

use crate::named_spans::NamedSpans;
use crate::reading::{read_behind, ready};
use crate::span::{Span, bytes_of_span};
use flashbase::{LoadFault, Source};
use std::alloc::{AllocError, Global};

/// Files of the host that were read: their bytes one after the other, and where each file has its
/// own, by their names.
#[derive(Drop)]
pub struct HostFiles {
    files: NamedSpans,
    bytes: Vec<u8>,
    /// What sources are read through, once one is.
    piece: Vec<u8>,
    ghost within: { (name : List ℕ) → end_of_span (span_of files name) ≤ length bytes.items },
}

impl HostFiles {
    ghost use Rattle.std.specs.Prelude.{◌≡◌, ℕ, List, bytes_eq, is_some, OnOk, OnErr, Some, None, if◌then◌else◌, string_bytes};
    ghost use Rattle.flashbase.specs.Device.{CountsLoad};
    ghost use Rattle.jbuild.specs.HostFiles.{ReadsPart, part_contents, read_of};

    /// None yet.
    pub fn new(alloc: Global) -> HostFiles
        ensures { (name : List ℕ) → read_of result name ≡ None }
    {
        HostFiles {
            files: NamedSpans::new(alloc),
            bytes: Vec::new(alloc),
            piece: Vec::new(alloc),
        }
    }

    /// Whether the file of a name was read.
    pub fn has(&self, name: &str) -> bool
        ensures { result ≡ is_some (read_of self.now name.now) }
    {
        self.files.get(name).is_some()
    }

    /// One more file, or new bytes of one.
    ///
    /// # Errors
    /// Out of memory: nothing changes.
    pub fn insert(&mut self, name: String, bytes: &[u8]) -> Result<(), AllocError>
        ensures ok { OnOk result ((n : List ℕ) → read_of self.new n
            ≡ (if bytes_eq (string_bytes name) n then Some bytes.now else read_of self.old n)) }
        ensures err { OnErr result ((n : List ℕ) → read_of self.new n ≡ read_of self.old n) }
    {
        let from = self.bytes.len();
        self.bytes.extend_from_slice(bytes)?;
        self.files.insert(
            name,
            Span {
                from,
                length: bytes.len(),
            },
        )?;
        Ok(())
    }

    /// One more file, or new bytes of one: all that a source has left, if it is at most `limit`
    /// bytes.
    ///
    /// # Errors
    /// As [`flashbase::load`] answers them: nothing changes.
    pub fn read<S: Source>(
        &mut self,
        alloc: Global,
        name: String,
        source: &mut S,
        limit: usize,
    ) -> Result<(), LoadFault>
        ensures reads { ReadsPart (S.rest source.old) limit (string_bytes name) self.old self.new
            result }
        ensures count { CountsLoad (S.failures source.old) (S.failures source.new) result }
    {
        ready(alloc, &mut self.piece)?;
        let start = self.bytes.len();
        read_behind(&mut self.bytes, source, &mut self.piece, limit)?;
        let length = self.bytes.len() - start;
        match self.files.insert(
            name,
            Span {
                from: start,
                length,
            },
        ) {
            Ok(()) => Ok(()),
            Err(_) => Err(LoadFault::OutOfMemory),
        }
    }

    /// The bytes of a file. One that was not read has none.
    pub(crate) fn bytes(&self, name: &str) -> &[u8]
        ensures { result.now ≡ part_contents self.now name.now }
    {
        match self.files.get(name) {
            Some(span) => bytes_of_span(&self.bytes, span),
            None => &[],
        }
    }
}
