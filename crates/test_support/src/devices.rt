//! Sources that give their bytes in pieces, sinks that take little, and both of them failing.

use flashbase::{DeviceFault, Sink, Source};
use std::alloc::Global;

/// Keeps what it takes. It fails once after `calls` calls, and at each call that finds `limit`
/// bytes taken.
#[derive(Drop)]
pub struct Taker {
    pub bytes: Vec<u8>,
    /// The most bytes that it takes a call.
    pub most: usize,
    pub limit: usize,
    pub calls: usize,
    /// Whether a failure is to take nothing, and not an Err.
    pub is_silent: bool,
    pub failures: u64,
}

impl Taker {
    /// Takes all.
    pub fn new(alloc: Global) -> Taker {
        Taker::limited(alloc, usize::MAX, usize::MAX)
    }

    /// Takes at most `most` bytes a call, and `limit` in all.
    pub fn limited(alloc: Global, most: usize, limit: usize) -> Taker {
        Taker {
            bytes: Vec::new(alloc),
            most,
            limit,
            calls: usize::MAX,
            is_silent: false,
            failures: 0,
        }
    }

    /// Takes at most `most` bytes a call, and fails once after so many calls: by taking nothing
    /// where it is silent, and else by an Err.
    pub fn failing(alloc: Global, most: usize, calls: usize, is_silent: bool) -> Taker {
        Taker {
            calls,
            is_silent,
            ..Taker::limited(alloc, most, usize::MAX)
        }
    }

    /// Whether it failed so often, and took exactly this.
    pub fn took(&self, failures: u64, bytes: &[u8]) -> bool {
        self.failures == failures && self.bytes.as_slice() == bytes
    }
}

impl Sink for Taker {
    ghost use Rattle.std.specs.Prelude.{Some};

    ghost taken = { λ s. Some s.bytes.items };

    ghost failures = { λ s. s.failures };

    fn put(&mut self, bytes: &[u8]) -> Result<usize, DeviceFault> {
        if bytes.is_empty() {
            return Ok(0);
        }
        let left = self.limit.saturating_sub(self.bytes.len());
        let count = bytes.len().min(self.most).min(left);
        let fails = self.calls == 0 || count == 0;
        self.calls = self.calls.wrapping_sub(1);
        if fails || self.bytes.extend_from_slice(&bytes[..count]).is_err() {
            self.failures = self.failures.wrapping_add(1);
            return if self.is_silent {
                Ok(0)
            } else {
                Err(DeviceFault)
            };
        }
        Ok(count)
    }
}

/// Takes what this text goes on with, and nothing else. It needs no memory.
#[derive(Drop)]
pub struct Matcher<'a> {
    pub rest: &'a [u8],
    pub failures: u64,
}

impl Sink for Matcher<'_> {
    ghost use Rattle.std.specs.Prelude.{None};

    ghost taken = { λ _. None };

    ghost failures = { λ s. s.failures };

    fn put(&mut self, bytes: &[u8]) -> Result<usize, DeviceFault> {
        match self.rest.strip_prefix(bytes) {
            Some(rest) => {
                self.rest = rest;
                Ok(bytes.len())
            }
            None => {
                self.failures = self.failures.wrapping_add(1);
                Err(DeviceFault)
            }
        }
    }
}

/// Takes all and keeps nothing. It needs no memory.
#[derive(Drop)]
pub struct Counter {
    pub taken: u64,
}

impl Sink for Counter {
    ghost use Rattle.std.specs.Prelude.{None};

    ghost taken = { λ _. None };

    ghost failures = { λ _. 0 };

    fn put(&mut self, bytes: &[u8]) -> Result<usize, DeviceFault> {
        let count = bytes.len();
        self.taken = self.taken.wrapping_add(count as u64);
        Ok(count)
    }
}

/// Gives its bytes in pieces. It fails once after `calls` calls, and at each call from `limit`
/// bytes on.
#[derive(Drop)]
pub struct Giver<'a> {
    pub rest: &'a [u8],
    /// The most bytes that it gives a call.
    pub most: usize,
    /// How many bytes it gives before it fails for good.
    pub limit: usize,
    pub calls: usize,
    pub failures: u64,
}

impl<'a> Giver<'a> {
    /// Gives at most `most` bytes a call, and `limit` in all.
    pub fn limited(rest: &'a [u8], most: usize, limit: usize) -> Giver<'a> {
        Giver {
            rest,
            most,
            limit,
            calls: usize::MAX,
            failures: 0,
        }
    }

    /// Gives at most `most` bytes a call, and fails once after so many calls.
    pub fn failing(rest: &'a [u8], most: usize, calls: usize) -> Giver<'a> {
        Giver {
            rest,
            most,
            limit: usize::MAX,
            calls,
            failures: 0,
        }
    }
}

impl Source for Giver<'_> {
    ghost use Rattle.std.specs.Prelude.{Some};

    ghost rest = { λ s. Some s.rest.now };

    ghost failures = { λ s. s.failures };

    fn fill(&mut self, buf: &mut [u8]) -> Result<usize, DeviceFault> {
        let fails = self.calls == 0 || self.limit == 0 || self.most == 0;
        self.calls = self.calls.wrapping_sub(1);
        if fails {
            self.failures = self.failures.wrapping_add(1);
            return Err(DeviceFault);
        }
        let most = self.most.min(self.limit).min(buf.len());
        let n = self.rest.len().min(most);
        buf[..n].copy_from_slice(&self.rest[..n]);
        self.rest = &self.rest[n..];
        self.limit -= n;
        Ok(n)
    }
}

/// Gives as many bytes as it has left, and leaves what is in the buffer.
#[derive(Drop)]
pub struct Long {
    pub left: usize,
}

impl Source for Long {
    ghost use Rattle.std.specs.Prelude.{None};

    ghost rest = { λ _. None };

    ghost failures = { λ _. 0 };

    fn fill(&mut self, buf: &mut [u8]) -> Result<usize, DeviceFault> {
        let n = self.left.min(buf.len());
        self.left -= n;
        Ok(n)
    }
}
