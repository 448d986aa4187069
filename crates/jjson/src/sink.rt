//! A sink that takes a text, and puts the JSON of its lines.
ghost use Rattle.std.specs.Prelude.{◌≡◌, ◌++◌, ◌<◌, ◌≤◌, [], true, false, IfOk, IfSome, IsErr, OnErr, OnOk, length, position, take, vec_capacity};
ghost use Rattle.std.specs.Io.KnownBytes.{Appends};
ghost use Rattle.flashbase.specs.Device.{PutsOnce, PutsPart};
ghost use Rattle.jjson.specs.Sinks.{PutsJson, failures_of, has_failed, line_begun, json_lines, own_failures, sink_below, taken_below};
ghost use Rattle.jjson.specs.Texts.{is_feed, json_after, json_line, unfinished};

use crate::line::put_line;
use crate::lines::Lines;
use flashbase::{DeviceFault, Sink};
use std::alloc::Global;

/// A sink over a text of a command: what goes below is the JSON of its lines, each when its line
/// feed comes. Without `Lines` all bytes go below as they are.
///
/// It takes memory for the longest line twice, and time linear in the bytes. No memory is a failure,
/// as one of the sink below is; after a failure it takes nothing more.
#[derive(Drop)]
pub struct JsonSink<S: Sink> {
    below: S,
    lines: Option<Lines>,
    /// The unfinished line.
    line: Vec<u8>,
    /// Room for its words.
    room: Vec<u8>,
    failures: u64,
    /// It failed, and takes nothing more.
    failed: bool,
}

impl<S: Sink> JsonSink<S> {
    pub fn new(alloc: Global, below: S, lines: Option<Lines>) -> Self
        ensures below { sink_below result ≡ below }
        ensures lines { json_lines result ≡ lines }
        ensures line { line_begun result ≡ [] }
        ensures sound { has_failed result ≡ false }
        ensures own { own_failures result ≡ 0 }
    {
        JsonSink {
            below,
            lines,
            line: Vec::new(alloc),
            room: Vec::new(alloc),
            failures: 0,
            failed: false,
        }
    }

    /// How often it failed over a text that becomes JSON, modulo 2^64.
    pub fn own_failures(&self) -> u64
        ensures { result ≡ own_failures self.now }
    {
        self.failures
    }

    /// The sink below, with what it took. An unfinished line is dropped.
    pub fn into_below(self) -> S
        ensures { result ≡ sink_below self }
    {
        self.below
    }
}

/// Adds bytes to a line.
fn add_to(line: &mut Vec<u8>, bytes: &[u8]) -> Result<(), DeviceFault>
    ensures { OnOk result (line.new.items ≡ line.old.items ++ bytes.now) }
{
    match line.extend_from_slice(bytes) {
        Ok(()) => Ok(()),
        Err(_) => Err(DeviceFault),
    }
}

/// Makes room for so many bytes.
fn make_room(room: &mut Vec<u8>, count: usize) -> Result<(), DeviceFault>
    ensures { OnOk result (count ≤ vec_capacity room.new) }
{
    room.clear();
    match room.reserve(count) {
        Ok(()) => Ok(()),
        Err(_) => Err(DeviceFault),
    }
}

/// Puts the JSON of a line that has come to its end.
fn end_line<S: Sink>(
    below: &mut S,
    lines: Lines,
    line: &mut Vec<u8>,
    room: &mut Vec<u8>,
) -> Result<(), DeviceFault>
    ensures ok { OnOk result
        (Appends (S.taken below.old) (S.taken below.new) (json_line lines line.old.items)) }
    ensures part { OnErr result
        (PutsPart (S.taken below.old) (S.taken below.new) (json_line lines line.old.items)) }
    ensures line { OnOk result (line.new.items ≡ []) }
{
    make_room(room, line.len())?;
    put_line(lines, line.as_slice(), room, below)?;
    line.clear();
    Ok(())
}

/// The place of the first line feed.
fn place_of_feed(text: &[u8]) -> Option<usize>
    ensures { result ≡ position is_feed text.now }
{
    text.iter().position(|b| *b == b'\n')
}

/// Takes the first line of a text, or a beginning of it, and puts its JSON when it has come to its
/// end. Answers how many bytes of the text it took.
fn take_line<S: Sink>(
    below: &mut S,
    lines: Lines,
    line: &mut Vec<u8>,
    room: &mut Vec<u8>,
    text: &[u8],
) -> Result<usize, DeviceFault>
    ensures within { IfOk result (λ n. n ≤ length text.now) }
    ensures some { IfOk result (λ n. 0 < length text.now → 0 < n) }
    ensures json { IfOk result (λ n. Appends (S.taken below.old) (S.taken below.new)
        (json_after lines line.old.items (take n text.now))) }
    ensures line { IfOk result (λ n. line.new.items ≡ unfinished line.old.items (take n text.now)) }
    ensures part { OnErr result (PutsPart (S.taken below.old) (S.taken below.new)
        (json_after lines line.old.items text.now)) }
{
    match place_of_feed(text) {
        Some(end) => {
            add_to(line, &text[..end])?;
            end_line(below, lines, line, room)?;
            Ok(end + 1)
        }
        None => {
            add_to(line, text)?;
            Ok(text.len())
        }
    }
}

impl<S: Sink> JsonSink<S> {
    /// The same for the line that it has begun, unless it failed before.
    fn take_text(&mut self, lines: Lines, text: &[u8]) -> Result<usize, DeviceFault>
        ensures within { IfOk result (λ n. n ≤ length text.now) }
        ensures some { IfOk result (λ n. 0 < length text.now → 0 < n) }
        ensures json { PutsJson lines S.taken self.old self.new text.now result }
        ensures stays { has_failed self.old ≡ true → IsErr result }
        ensures lines { self.new.lines ≡ self.old.lines }
        ensures failures { self.new.failures ≡ self.old.failures }
        ensures failed { self.new.failed ≡ self.old.failed }
    {
        if self.failed {
            return Err(DeviceFault);
        }
        take_line(&mut self.below, lines, &mut self.line, &mut self.room, text)
    }
}

impl<S: Sink> Sink for JsonSink<S> {
    ghost taken = { λ s. taken_below s.lines (S.taken s.below) };

    ghost failures = { λ s. failures_of s.lines s.failures (S.failures s.below) };

    fn put(&mut self, bytes: &[u8]) -> Result<usize, DeviceFault>
        ensures puts { PutsOnce (⟦<JsonSink<S> as Sink>⟧.taken self.old)
            (⟦<JsonSink<S> as Sink>⟧.taken self.new)
            (⟦<JsonSink<S> as Sink>⟧.failures self.old)
            (⟦<JsonSink<S> as Sink>⟧.failures self.new) bytes.now result }
        ensures lines { json_lines self.new ≡ json_lines self.old }

        // Of a text the JSON goes below. After a failure it takes nothing more.
        ensures json { IfSome (json_lines self.old)
            (λ lines. PutsJson lines S.taken self.old self.new bytes.now result) }
        ensures fails { IfSome (json_lines self.old)
            (λ _. OnErr result (has_failed self.new ≡ true)) }
        ensures stays { IfSome (json_lines self.old)
            (λ _. has_failed self.old ≡ true → IsErr result) }
    {
        match self.lines {
            None => self.below.put(bytes),
            Some(lines) => {
                let taken = self.take_text(lines, bytes);
                if taken.is_err() {
                    self.failed = true;
                    self.failures = self.failures.wrapping_add(1);
                }
                taken
            }
        }
    }
}
