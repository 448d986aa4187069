//! Puts into sinks that take a little at a time, and fail.

ghost use Rattle.flashbase.specs.Device.{CountsErr};

use crate::checks::{equal, expect};
use flashbase::{DeviceFault, FromWriter, PutFault, Sink, put_all};
use std::io;
use std::io::{ErrorKind, Write};
use test_support::Taker;

#[derive(Drop)]
struct Interrupted;

impl Write for Interrupted {
    fn write(&mut self, _buf: &[u8]) -> io::Result<usize> {
        Err(ErrorKind::Interrupted.into())
    }

    fn flush(&mut self) -> io::Result<()> {
        Ok(())
    }
}

/// Takes nothing at its first call, and all at each other.
#[derive(Drop)]
struct Late {
    was_asked: bool,
    bytes: Vec<u8>,
}

impl Write for Late {
    fn write(&mut self, buf: &[u8]) -> io::Result<usize> {
        if !self.was_asked {
            self.was_asked = true;
            return Ok(0);
        }
        match self.bytes.extend_from_slice(buf) {
            Ok(()) => Ok(buf.len()),
            Err(_) => Err(ErrorKind::OutOfMemory.into()),
        }
    }

    fn flush(&mut self) -> io::Result<()> {
        Ok(())
    }
}

/// The sink fails once, at each of its calls in turn, and then takes what is left.
#[test]
fn a_put_meets_each_failure(rt: HostRuntime) {
    let text = b"abcd".as_slice();
    for is_silent in [false, true] {
        for calls in 0..4usize {
            let mut sink = Taker::failing(rt.alloc(), 1, calls, is_silent);
            sink.failures = u64::MAX;
            equal(&rt, put_all(&mut sink, b""), Ok(()));
            equal(
                &rt,
                put_all(&mut sink, text),
                Err(PutFault { taken: calls }),
            );
            equal(&rt, sink.failures, 0);
            equal(&rt, put_all(&mut sink, &text[calls..]), Ok(()));
            expect(&rt, sink.bytes.as_slice() == text);
            equal(&rt, sink.failures, 0);
        }
    }
}

/// One call of the writer: its failure is counted, and nothing else is.
fn put_once<W: Write + Drop>(sink: &mut FromWriter<W>, bytes: &[u8]) -> Result<(), DeviceFault>
    ensures { CountsErr (⟦<FromWriter<W> as Sink>⟧.failures sink.old)
        (⟦<FromWriter<W> as Sink>⟧.failures sink.new) result }
{
    match sink.put(bytes) {
        Ok(n) if n == 0 && !bytes.is_empty() => Err(DeviceFault),
        Ok(_) => Ok(()),
        Err(fault) => Err(fault),
    }
}

#[test]
fn a_put_counts_what_fails(rt: HostRuntime) {
    let mut sink = FromWriter::new(Vec::new(rt.alloc()));
    equal(&rt, put_once(&mut sink, b"xy"), Ok(()));
    expect(&rt, sink.into_writer().as_slice() == b"xy".as_slice());
    let mut interrupted = FromWriter::new(Interrupted);
    equal(&rt, put_once(&mut interrupted, b"xy"), Err(DeviceFault));
}

#[test]
fn a_put_onto_a_writer(rt: HostRuntime) {
    let mut sink = FromWriter::new(Vec::new(rt.alloc()));
    equal(&rt, sink.put(b"xy"), Ok(2));
    equal(&rt, put_all(&mut sink, b"z"), Ok(()));
    expect(&rt, sink.into_writer().as_slice() == b"xyz".as_slice());
}

#[test]
fn a_put_onto_a_writer_that_fails(rt: HostRuntime) {
    let mut sink = FromWriter::new(Interrupted);
    equal(&rt, put_all(&mut sink, b"xyz"), Err(PutFault { taken: 0 }));
}

#[test]
fn a_put_onto_a_writer_that_takes_nothing_once(rt: HostRuntime) {
    let mut sink = FromWriter::new(Late {
        was_asked: false,
        bytes: Vec::new(rt.alloc()),
    });
    equal(&rt, put_all(&mut sink, b"xyz"), Err(PutFault { taken: 0 }));
    equal(&rt, put_all(&mut sink, b"xyz"), Ok(()));
    expect(
        &rt,
        sink.into_writer().bytes.as_slice() == b"xyz".as_slice(),
    );
}
