//! What the words of a listing stand for.

ghost use Rattle.std.specs.Prelude.{◌≡◌, ◌<◌, ◌≤◌, ◌^◌, ◌∷◌, Some, None, Err, IfOk, IfErr, IfSome, length, option_map};
ghost use Rattle.std.specs.Str.{bytes_eq};
ghost use Rattle.jline.specs.Read.{IsRead};
ghost use Rattle.jlisting.specs.Words.{digits_from, number_of, decimal_of, device_kind_of, mode_of, text_of, hex_data_of, file_name_of, escaped_name_of};

use crate::line::FileName;
use jline::{WordFault, unescape, unhex};
use jsteps::{DeviceKind, Text};
use std::alloc::Global;

/// The number that digits of a base stand for, up to a limit.
pub fn digits(word: &[u8], base: u64, limit: u64) -> Option<u64>
    requires base { base ≤ 10 }
    requires limit { limit < 2 ^ 32 }
    ensures value { result ≡ digits_from base limit 0 word.now }
    ensures within { IfSome result (λ n. n ≤ limit) }
{
    let mut n = 0u64;
    for byte in word {
        if *byte < b'0' || u64::from(*byte) >= 48 + base {
            return None;
        }
        let more = base * n + u64::from(*byte - b'0');
        if more > limit {
            return None;
        }
        n = more;
    }
    Some(n)
}

/// A number of at most `most` digits.
fn number(word: &[u8], base: u64, most: usize, limit: u64) -> Result<u64, WordFault>
    requires base { base ≤ 10 }
    requires limit { limit < 2 ^ 32 }
    ensures value { IsRead (number_of base most limit word.now) result }
    ensures within { IfOk result (λ n. n ≤ limit) }
{
    if word.is_empty() || word.len() > most {
        return Err(WordFault::Invalid);
    }
    match digits(word, base, limit) {
        Some(n) => Ok(n),
        None => Err(WordFault::Invalid),
    }
}

/// A number of 32 bits.
pub fn decimal_word(word: &[u8]) -> Result<u32, WordFault>
    ensures { IsRead (decimal_of 4294967295 word.now) result }
{
    let n = number(word, 10, 10, 4294967295)?;
    Ok(n as u32)
}

/// A number of 16 bits.
pub fn owner_word(word: &[u8]) -> Result<u16, WordFault>
    ensures { IsRead (decimal_of 65535 word.now) result }
{
    let n = number(word, 10, 10, 65535)?;
    Ok(n as u16)
}

/// Permission bits.
pub fn mode_word(word: &[u8]) -> Result<u32, WordFault>
    ensures { IsRead (mode_of word.now) result }
{
    let n = number(word, 8, 6, 0o777777)?;
    Ok(n as u32)
}

/// The major number of a device.
pub fn major_word(word: &[u8]) -> Result<u16, WordFault>
    ensures { IsRead (decimal_of 4095 word.now) result }
{
    let n = number(word, 10, 10, 4095)?;
    Ok(n as u16)
}

/// And the minor one.
pub fn minor_word(word: &[u8]) -> Result<u32, WordFault>
    ensures { IsRead (decimal_of 1048575 word.now) result }
{
    let n = number(word, 10, 10, 1048575)?;
    Ok(n as u32)
}

/// The kind of a device.
pub fn device_kind_word(word: &[u8]) -> Result<DeviceKind, WordFault>
    ensures { IsRead (device_kind_of word.now) result }
{
    if is_word(word, b"c") {
        Ok(DeviceKind::Character)
    } else if is_word(word, b"b") {
        Ok(DeviceKind::Block)
    } else {
        Err(WordFault::Invalid)
    }
}

/// A path or a target: lent where no byte of it is escaped.
#[tactic(auto, using(crate::proofs::WordLemmas::unescaped_all_plain))]
pub fn text_word<'a>(alloc: Global, word: &'a [u8]) -> Result<Text<'a>, WordFault>
    ensures { IsRead (text_of word.entry.now) result }
{
    if word.is_empty() {
        return Err(WordFault::Invalid);
    }
    if word.iter().all(|byte| *byte != b'\\') {
        return Ok(Text::lent(word));
    }
    Ok(Text::new(unescape(alloc, word)?))
}

/// Whether a word is this one.
pub fn is_word(word: &[u8], name: &[u8]) -> bool
    ensures { result ≡ bytes_eq word.now name.now }
{
    word == name
}

/// What is to be written; a dash is no bytes.
pub fn data_word<'a>(alloc: Global, word: &'a [u8]) -> Result<Text<'a>, WordFault>
    ensures { IsRead (hex_data_of word.entry.now) result }
{
    if word.is_empty() {
        return Err(WordFault::Invalid);
    }
    if is_word(word, b"-") {
        return Ok(Text::lent(&[]));
    }
    Ok(Text::new(unhex(alloc, word)?))
}

/// The name of a file of the host.
pub fn file_word<'a>(word: &'a [u8]) -> Result<FileName<'a>, WordFault>
    ensures { IsRead (file_name_of word.entry.now) result }
{
    if word.is_empty() {
        return Err(WordFault::Invalid);
    }
    match str::from_utf8(word) {
        Ok(name) => Ok(FileName::lent(name)),
        Err(_) => Err(WordFault::Invalid),
    }
}

/// The same of a word that is read as a path is: lent where no byte of it is escaped.
pub fn escaped_file_word<'a>(alloc: Global, word: &'a [u8]) -> Result<FileName<'a>, WordFault>
    ensures { IsRead (escaped_name_of word.entry.now) result }
{
    if word.is_empty() {
        return Err(WordFault::Invalid);
    }
    if word.iter().all(|byte| *byte != b'\\') {
        return file_word(word);
    }
    let name = unescape(alloc, word)?;
    match String::from_utf8(name) {
        Ok(name) => Ok(FileName::new(name)),
        Err(_) => Err(WordFault::Invalid),
    }
}
