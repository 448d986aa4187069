//! The name that a deleted file gets.

ghost use Rattle.std.specs.Prelude.{◌≡◌, ◌<◌, ◌++◌, ◌∷◌, IfOk, length, option_map, slice_index};
ghost use Rattle.jdeleted.specs.Naming.{cut_len, cut_to, deleted_name, is_inner_byte};

use flashbase::Part;
use itoa::Buffer;
use std::alloc::{AllocError, Global};

/// The greatest length of a name in an image.
const GREATEST_NAME: usize = 254;

/// Whether the byte at a place is within a character of UTF-8, and not its first.
fn is_inner_byte(name: &Part<'_>, place: usize) -> bool
    requires { place < length name.now }
    ensures { result ≡ is_inner_byte (slice_index name.now place) }
{
    match name.get(place) {
        Some(byte) => byte / 64 == 2,
        None => false,
    }
}

/// How many bytes of a longer name are kept if so many may be: up to the end of a character.
fn cut_len(name: &Part<'_>, most: usize) -> usize
    requires { most < length name.now }
    ensures { result ≡ cut_len name.now most }
{
    let mut len = most;
    while len > 0 && is_inner_byte(name, len) {
        len -= 1;
    }
    len
}

/// As much of a name as fits.
fn cut_to<'a>(name: &Part<'a>, most: usize) -> Part<'a>
    ensures { result ≡ cut_to most name.now }
{
    if name.len() <= most {
        return name.copied();
    }
    name.slice(0, cut_len(name, most))
}

/// Digits, a dash and a name.
fn joined(alloc: Global, digits: &[u8], name: &Part<'_>) -> Result<Vec<u8>, AllocError>
    ensures { IfOk result (λ text. text.items ≡ digits.now ++ 45 ∷ name.now) }
{
    let mut text = digits.to_vec(alloc)?;
    text.push(b'-')?;
    text.reserve(name.len())?;
    name.put_onto(&mut text);
    Ok(text)
}

/// The name of a deleted file: its number in decimal digits; and behind a dash as much of the last
/// name that it ever had as fits, if it had one.
pub(crate) fn deleted_name(
    alloc: Global,
    ino: u32,
    name: Option<&Part<'_>>,
) -> Result<Vec<u8>, AllocError>
    ensures { IfOk result (λ text. text.items
        ≡ deleted_name ino (option_map (λ n. n.now) name.entry)) }
{
    let mut buffer = Buffer::new();
    let digits = buffer.format(ino).as_bytes();
    match name {
        Some(name) => {
            let fitting = cut_to(name, GREATEST_NAME - 1 - digits.len());
            joined(alloc, digits, &fitting)
        }
        None => digits.to_vec(alloc),
    }
}
