//! Loads of sources that end, fail, or are too large.

use crate::checks::{equal, expect};
use flashbase::{FromReader, LoadFault, Source, load};
use std::io;
use std::io::{ErrorKind, Read};
use std::test::Fail;
use test_support::Giver;

#[derive(Drop)]
struct Interrupted;

impl Read for Interrupted {
    fn read(&mut self, _buf: &mut [u8]) -> io::Result<usize> {
        Err(ErrorKind::Interrupted.into())
    }
}

/// The source fails once, at each of its calls in turn, and is then loaded to its end.
#[test]
fn a_load_meets_each_failure(rt: HostRuntime) -> Result<(), Fail> {
    for calls in 0..5usize {
        let mut source = Giver {
            failures: u64::MAX,
            ..Giver::failing(b"abcd", 1, calls)
        };
        expect(
            &rt,
            matches!(load(rt.alloc(), &mut source, 9), Err(LoadFault::Device)),
        );
        equal(&rt, source.failures, 0);
        let rest = load(rt.alloc(), &mut source, 9)?;
        equal(&rt, rest.len(), 4 - calls);
        equal(&rt, source.failures, 0);
    }
    Ok(())
}

#[test]
fn a_load_without_a_failure(rt: HostRuntime) -> Result<(), Fail> {
    let mut source = Giver {
        failures: 3,
        ..Giver::failing(b"abcd", 1, 5)
    };
    let bytes = load(rt.alloc(), &mut source, 4)?;
    expect(&rt, bytes.as_slice() == b"abcd".as_slice());
    equal(&rt, source.failures, 3);
    Ok(())
}

#[test]
fn a_load_of_a_reader(rt: HostRuntime) -> Result<(), Fail> {
    let large = vec![in rt.alloc(); 7u8; 200_000]?;
    for text in [b"abcd".as_slice(), large.as_slice()] {
        let mut source = FromReader::new(text);
        let bytes = load(rt.alloc(), &mut source, text.len())?;
        expect(&rt, bytes.as_slice() == text);
    }
    Ok(())
}

#[test]
fn a_reader_that_is_not_loaded(rt: HostRuntime) {
    let mut source = FromReader::new(b"abcd".as_slice());
    expect(
        &rt,
        matches!(load(rt.alloc(), &mut source, 3), Err(LoadFault::TooLarge)),
    );
    let mut source = FromReader::new(Interrupted);
    expect(
        &rt,
        matches!(load(rt.alloc(), &mut source, 9), Err(LoadFault::Device)),
    );
}

#[test]
fn a_reader_that_goes_on_counting(rt: HostRuntime) {
    let mut source = FromReader::new(Interrupted);
    equal(&rt, source.failures(), 0);
    expect(&rt, source.fill(&mut [0u8; 3]).is_err());
    equal(&rt, source.failures(), 1);
    for (before, after) in [(0, 1), (7, 8), (u64::MAX, 0)] {
        let mut source = FromReader::counting_from(Interrupted, before);
        equal(&rt, source.failures(), before);
        expect(&rt, source.fill(&mut [0u8; 3]).is_err());
        equal(&rt, source.failures(), after);
    }
    let mut source = FromReader::counting_from(b"abcd".as_slice(), 7);
    let mut buf = [0u8; 3];
    equal(&rt, source.fill(&mut buf), Ok(3));
    expect(&rt, source.failures() == 7 && buf == *b"abc");
}

#[test]
fn a_reader_behind_a_fill(rt: HostRuntime) {
    let mut source = FromReader::new(b"abcd".as_slice());
    let mut buf = [0u8; 3];
    equal(&rt, source.fill(&mut buf), Ok(3));
    expect(&rt, source.into_reader() == b"d".as_slice());
}

#[test]
fn texts_of_faults(rt: HostRuntime) -> Result<(), Fail> {
    for (fault, text) in [
        (LoadFault::Device, "L1 Device"),
        (LoadFault::TooLarge, "L2 TooLarge"),
        (LoadFault::OutOfMemory, "L3 OutOfMemory"),
    ] {
        expect(&rt, format!(in rt.alloc(); "{fault}")?.as_str() == text);
    }
    Ok(())
}
