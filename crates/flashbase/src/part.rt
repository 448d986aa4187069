//! Parts of a block: a name or data of a node, of which an image may lack the end.

ghost use Rattle.std.specs.Prelude.{◌≡◌, ◌==◌, ◌+◌, ◌-◌, ◌<◌, ◌≤◌, ◌^◌, ◌++◌, ℕ, List, length, take, drop, slice_get, vec_len, vec_capacity};
ghost use Rattle.flashbase.specs.Bytes.{erased};
ghost use Rattle.flashbase.specs.Crc.{crc_of};

use crate::checksum::{crc, crc_from};
use std::marker::Model;

/// Bytes of a block, as one list: those that the image has, and then missing ones, which count as
/// 0xFF.
#[derive(Drop)]
pub struct Part<'a> {
    present: &'a [u8],
    missing: usize,
}

impl<'a> Model for Part<'a> {
    ghost Value = { List ℕ };

    ghost view = { λ p. p.present.now ++ erased p.missing };

    ghost invariant = { λ p. length p.present.now + p.missing < 2 ^ 64 };
}

impl<'a> Part<'a> {
    /// These bytes, and after them `missing` ones that the image lacks.
    pub fn new(bytes: &'a [u8], missing: usize) -> Part<'a>
        requires { length bytes.now + missing < 2 ^ 64 }
        ensures { result ≡ bytes.now ++ erased missing }
    {
        Part {
            present: bytes,
            missing,
        }
    }

    pub fn len(&self) -> usize
        ensures { result ≡ length self.now }
    {
        self.present.len() + self.missing
    }

    pub fn is_empty(&self) -> bool
        ensures { result ≡ (length self.now == 0) }
    {
        self.len() == 0
    }

    /// Those of the bytes that the image has: a beginning, after which all bytes are 0xFF.
    pub fn present(&self) -> &'a [u8]
        ensures { self.now ≡ result.now ++ erased (length self.now - length result.now) }
    {
        let Part { present, .. } = self;
        present
    }

    /// The byte at a place.
    pub fn get(&self, i: usize) -> Option<u8>
        ensures { result ≡ slice_get self.now i }
    {
        if i < self.present.len() {
            Some(self.present[i])
        } else if i - self.present.len() < self.missing {
            Some(0xFF)
        } else {
            None
        }
    }

    /// The same part. (A type with a model can't be `Copy`.)
    pub fn copied(&self) -> Part<'a>
        ensures { result ≡ self.now }
    {
        Part::new(self.present, self.missing)
    }

    /// The `len` bytes from a place on.
    pub fn slice(&self, from: usize, len: usize) -> Part<'a>
        requires { from + len ≤ length self.now }
        ensures { result ≡ take len (drop from self.now) }
    {
        let present = cut(self.present, from, len);
        Part {
            present,
            missing: len - present.len(),
        }
    }

    /// The checksum of all the bytes.
    pub fn crc(&self) -> u32
        ensures { result ≡ crc_of self.now }
    {
        padded_crc(self.present, self.missing)
    }

    /// Writes all the bytes over a slice of as many.
    pub fn copy_to(&self, out: &mut [u8])
        requires { length out.old ≡ length self.now }
        ensures { out.new ≡ self.now }
    {
        let (head, tail) = out.split_at_mut(self.present.len());
        head.copy_from_slice(self.present);
        tail.fill(0xFF);
    }

    pub fn iter(&self) -> PartBytes<'a>
        ensures { result ≡ self.now }
    {
        PartBytes {
            present: self.present,
            missing: self.missing,
        }
    }

    /// Appends all the bytes to a `Vec` that has room for them, which takes no memory.
    pub fn put_onto(&self, out: &mut Vec<u8>)
        requires { vec_len out.old + length self.now ≤ vec_capacity out.old }
        ensures items { out.new.items ≡ out.old.items ++ self.now }
        ensures len { vec_len out.new ≡ vec_len out.old + length self.now }
        ensures capacity { vec_capacity out.old ≤ vec_capacity out.new }
    {
        put_padded(out, self.present, self.missing);
    }
}

/// The bytes of a `Part`, one by one.
#[derive(Drop)]
pub struct PartBytes<'a> {
    present: &'a [u8],
    missing: usize,
}

impl<'a> Model for PartBytes<'a> {
    ghost Value = { List ℕ };

    ghost view = { λ p. p.present.now ++ erased p.missing };
}

impl<'a> Iterator for PartBytes<'a> {
    ghost use Rattle.std.specs.Iterator.{YieldsFirst, item_count};

    type Item = u8;

    ghost next_gives = { YieldsFirst (λ rest. rest) };

    ghost remaining = { item_count (λ rest. rest) };

    fn next(&mut self) -> Option<u8> {
        if let Some((first, others)) = self.present.split_first() {
            self.present = others;
            return Some(*first);
        }
        if self.missing == 0 {
            return None;
        }
        self.missing -= 1;
        Some(0xFF)
    }
}

/// As much as there is of the `len` bytes from a place on.
fn cut(bytes: &[u8], from: usize, len: usize) -> &[u8]
    requires { from + len < 2 ^ 64 }
    ensures { result.now ≡ take len (drop from bytes.now) }
{
    let start = from.min(bytes.len());
    let end = (from + len).min(bytes.len());
    &bytes[start..end]
}

/// A piece of erased flash.
const ERASED: [u8; 64] = [0xFF; 64];

/// The checksum of bytes and then `missing` bytes 0xFF.
fn padded_crc(bytes: &[u8], missing: usize) -> u32
    ensures { result ≡ crc_of (bytes.now ++ erased missing) }
{
    let mut sum = crc(bytes);
    let mut done = 0;
    while done < missing {
        let len = ERASED.len().min(missing - done);
        sum = crc_from(sum, &ERASED[..len]);
        done += len;
    }
    sum
}

/// Appends bytes and then `missing` bytes 0xFF.
fn put_padded(out: &mut Vec<u8>, bytes: &[u8], missing: usize)
    requires { vec_len out.old + (length bytes.now + missing) ≤ vec_capacity out.old }
    ensures items { out.new.items ≡ out.old.items ++ (bytes.now ++ erased missing) }
    ensures len { vec_len out.new ≡ vec_len out.old + (length bytes.now + missing) }
    ensures capacity { vec_capacity out.old ≤ vec_capacity out.new }
{
    let put = out.extend_from_slice(bytes);
    put.unwrap();
    let filled = out.resize(out.len() + missing, 0xFF);
    filled.unwrap();
}
