//! Where the bytes of files stand, by their names.

ghost use Rattle.std.specs.Prelude.{All};
ghost use Rattle.jbuild.specs.Named.{StandsByName};

use crate::span::{Span, bytes_of_span};
use std::alloc::{AllocError, Global};
use std::cell::Cell;
use std::collections::BTreeMap;

/// A file: where its name stands among all names, and where its bytes stand.
#[derive(Clone, Copy)]
pub(crate) struct Named {
    pub(crate) name: Span,
    pub(crate) span: Span,
}

/// Where the bytes of files stand, by their names. Whoever asks for files in the order in which
/// they were added is answered without a search.
#[derive(Drop)]
pub(crate) struct NamedSpans {
    by_name: BTreeMap<String, Span>,
    /// The names, one after the other.
    names: Vec<u8>,
    /// NamedSpans in the order in which they were added.
    in_order: Vec<Named>,
    /// The place in that order of the file that is asked for next, if it goes on so.
    next: Cell<usize>,
    ghost named: { All (StandsByName by_name names.items) in_order.items },
}

impl NamedSpans {
    ghost use Rattle.std.specs.Prelude.{◌≡◌, ℕ, List, IfSome, None, OnErr, OnOk, Some, string_bytes};
    ghost use Rattle.jbuild.specs.NamedSpans.{AreSameSpans, SetsSpan, span_of};

    /// None yet.
    pub(crate) fn new(alloc: Global) -> NamedSpans
        ensures { (name : List ℕ) → span_of result name ≡ None }
    {
        NamedSpans {
            by_name: BTreeMap::new(alloc),
            names: Vec::new(alloc),
            in_order: Vec::new(alloc),
            next: Cell::new(0),
        }
    }

    /// The place in the order of the file that is asked for next.
    fn next_place(&self) -> usize {
        let next = self.next.get();
        if next < self.in_order.len() { next } else { 0 }
    }

    /// The span of a file, if it is the one that is asked for next.
    fn get_next(&self, name: &str) -> Option<Span>
        ensures { IfSome result (λ span. span_of self.now name.now ≡ Some span) }
    {
        let place = self.next_place();
        let named = self.in_order.get(place)?;
        if bytes_of_span(&self.names, named.name) != name.as_bytes() {
            return None;
        }
        self.next.set(place.wrapping_add(1));
        Some(named.span)
    }

    /// The span of the file of a name.
    pub(crate) fn get(&self, name: &str) -> Option<Span>
        ensures { result ≡ span_of self.now name.now }
    {
        match self.get_next(name) {
            Some(span) => Some(span),
            None => self.by_name.get(name).copied(),
        }
    }

    /// One more file, or a new span of one.
    ///
    /// # Errors
    /// Out of memory: nothing changes.
    pub(crate) fn insert(&mut self, name: String, span: Span) -> Result<(), AllocError>
        ensures ok { OnOk result (SetsSpan self.old self.new (string_bytes name) span) }
        ensures err { OnErr result (AreSameSpans self.old self.new) }
    {
        let place = Span {
            from: self.names.len(),
            length: name.len(),
        };
        self.names.extend_from_slice(name.as_bytes())?;
        if self.by_name.insert(name, span)?.is_some() {
            self.in_order.clear();
            return Ok(());
        }
        // Without memory for its place it is found by its name alone.
        let _ = self.in_order.push(Named { name: place, span });
        Ok(())
    }
}
