//! A host in memory. It has a file or two, its calls fail where a test wants it, and what happened is
//! known.
ghost use Rattle.std.specs.Prelude.{◌≡◌, ◌++◌, [], ◌∷◌, string_bytes};
ghost use Rattle.jedge.specs.Acts.{seen_as};
ghost use Rattle.jedge.specs.Calls.{Did, ReadPart, printed};
ghost use Rattle.edge_tests.specs.Events.{event_of, events_of, stream_to};
ghost use Rattle.edge_tests.specs.Changes.{AddsPrint, AddsRead};

use crate::happened::{Happened, To};
use crate::plan::{Lacking, Plan};
use flashbase::LoadFault;
use jedge::fault::{FailedFile, Fault};
use jedge::host::{Host, Input};
use jreport::ProgramFault;
use jscan::GREATEST_IMAGE;
use std::alloc::Global;
use std::process::Abort;
use test_support::Taker;

/// A file that was opened.
#[derive(Drop)]
pub(crate) struct Opened {
    name: String,
}

impl Input for Opened {
    ghost use Rattle.std.specs.Prelude.{string_bytes};

    ghost name = { λ input. string_bytes input.name };
}

/// What happened goes into memory of its own, and the test stops where there is none.
#[derive(Drop)]
pub(crate) struct MemoryHost<'a, R: Abort> {
    rt: &'a R,
    alloc: Global,
    plan: Plan<'a>,
    pub events: Vec<Happened<'a>>,
}

impl<'a, R: Abort> MemoryHost<'a, R> {
    pub(crate) fn new(rt: &'a R, alloc: Global, plan: Plan<'a>) -> Self {
        MemoryHost {
            rt,
            alloc,
            plan,
            events: Vec::new(alloc),
        }
    }

    /// Adds to what happened.
    fn note(&mut self, happened: Happened<'a>)
        ensures { events_of self.new.events.items
            ≡ events_of self.old.events.items ++ event_of happened.entry ∷ [] }
    {
        self.events.push(happened).expect(self.rt, "memory");
    }

    /// A name that is noted.
    fn copied(&self, name: &str) -> String
        ensures { string_bytes result ≡ name.now }
    {
        name.to_string(self.alloc).expect(self.rt, "memory")
    }

    /// Notes a text that is printed, where it is not empty.
    fn note_printed(&mut self, to: To, bytes: Vec<u8>)
        ensures { events_of self.new.events.items
            ≡ events_of self.old.events.items ++ printed (stream_to to) bytes.items }
    {
        if !bytes.is_empty() {
            self.note(Happened::Printed(to, bytes));
        }
    }

    /// Prints what a sink took, and answers whether all of it was.
    fn print(&mut self, to: To, out: Taker) -> bool
        ensures { AddsPrint (stream_to to) out.failures out.bytes.items
            (events_of self.old.events.items) (events_of self.new.events.items) result }
    {
        let stream = self.plan.stream(to);
        let Taker {
            bytes: text,
            failures,
            ..
        } = out;
        if failures == 0 && text.len() <= stream.prints {
            self.note_printed(to, text);
            return true;
        }
        let mut begun = text;
        begun.truncate(stream.prints);
        self.note_printed(to, begun);
        self.note(Happened::NotPrinted(to, stream.reason));
        false
    }

    /// A sink before a stream.
    fn taker(&self, to: To) -> Taker
        ensures failures { result.failures ≡ 0 }
        ensures bytes { result.bytes.items ≡ [] }
    {
        let stream = self.plan.stream(to);
        Taker {
            bytes: Vec::new(self.alloc),
            most: stream.most,
            limit: stream.limit,
            calls: usize::MAX,
            is_silent: false,
            failures: 0,
        }
    }

    /// Notes that reading ended before the end of the file.
    fn leave(&mut self, name: String, bytes: &'a [u8], why: LoadFault) -> Fault
        ensures events { events_of self.new.events.items ≡ events_of self.old.events.items
            ++ Did (ReadPart (string_bytes name) bytes.entry.now) ∷ [] }
        ensures fault { result ≡ Fault.Refused (ProgramFault.Load why) }
    {
        self.note(Happened::ReadPart(name, bytes));
        Fault::Refused(ProgramFault::Load(why))
    }

    /// Reads the file to its end.
    fn read_all(&mut self, name: String, bytes: &'a [u8]) -> Result<Vec<u8>, Fault>
        ensures { AddsRead (string_bytes name) (events_of self.old.events.items)
            (events_of self.new.events.items) (seen_as (λ bytes. bytes.items) result) }
    {
        if bytes.len() > GREATEST_IMAGE {
            return Err(self.leave(name, bytes, LoadFault::TooLarge));
        }
        if self.plan.lacking == Lacking::Bytes {
            return Err(self.leave(name, bytes, LoadFault::OutOfMemory));
        }
        match Vec::from_slice(self.alloc, bytes) {
            Ok(all) => {
                self.note(Happened::Read(name, bytes));
                Ok(all)
            }
            Err(_) => Err(self.leave(name, bytes, LoadFault::OutOfMemory)),
        }
    }
}

impl<'a, R: Abort> Host for MemoryHost<'a, R> {
    ghost use Rattle.std.specs.Prelude.{Some};
    ghost use Rattle.edge_tests.specs.Events.{events_of};

    ghost history = { λ host. Some (events_of host.events.items) };

    type Input = Opened;

    type Output = Taker;

    type Errors = Taker;

    fn alloc(&self) -> Global {
        self.alloc
    }

    fn open(&mut self, name: &str) -> Result<Opened, Fault> {
        let kept = self.copied(name);
        if self.plan.lacking == Lacking::Name {
            return Err(Fault::OutOfMemory);
        }
        let noted = self.copied(name);
        match self.plan.refusal(name) {
            Some(reason) => {
                self.note(Happened::NotOpened(noted, reason));
                Err(Fault::File(FailedFile { name: kept, reason }))
            }
            None => {
                self.note(Happened::Opened(noted));
                Ok(Opened { name: kept })
            }
        }
    }

    fn read(&mut self, input: Opened) -> Result<Vec<u8>, Fault> {
        let Opened { name } = input;
        let noted = self.copied(name.as_str());
        let (bytes, cut) = self.plan.file(name.as_str());
        match cut {
            Some((len, reason)) => {
                let part = &bytes[..len.min(bytes.len())];
                self.note(Happened::NotRead(noted, part, reason));
                Err(Fault::NotRead(FailedFile { name, reason }))
            }
            None => self.read_all(noted, bytes),
        }
    }

    fn output(&mut self) -> Result<Taker, Fault> {
        if self.plan.lacking == Lacking::Output {
            return Err(Fault::OutOfMemory);
        }
        Ok(self.taker(To::Answers))
    }

    fn close(&mut self, out: Taker) -> Result<(), Fault> {
        if self.print(To::Answers, out) {
            Ok(())
        } else {
            Err(Fault::Output)
        }
    }

    fn errors(&mut self) -> Taker {
        self.taker(To::Errors)
    }

    fn close_errors(&mut self, errors: Taker) {
        let _ = self.print(To::Errors, errors);
    }
}
