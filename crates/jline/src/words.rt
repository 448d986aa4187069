//! Words with escapes.

ghost use Rattle.std.specs.Prelude.{◌≡◌, ◌<◌, ◌∷◌, Some, None, IfOk, IfErr, IfSome, length, option_map};
ghost use Rattle.jline.specs.Read.{IsFaultOf, unescaped};

use crate::digits::byte_of;
use crate::fault::WordFault;
use std::alloc::Global;

/// What is after a backslash: the byte that it begins, and the rest of the word.
#[tactic(auto, using(crate::proofs::ReadLemmas::unescaped_escape))]
fn escaped_byte(behind: &[u8]) -> Option<(u8, &[u8])>
    ensures some { IfSome result
        (λ r. unescaped (92 ∷ behind.now) ≡ option_map (λ bytes. r.0 ∷ bytes) (unescaped r.1.now)) }
    ensures shorter { IfSome result (λ r. length r.1.now < length behind.now) }
    ensures none { result ≡ None → unescaped (92 ∷ behind.now) ≡ None }
{
    let (mark, behind) = behind.split_first()?;
    let (high, behind) = behind.split_first()?;
    let (low, rest) = behind.split_first()?;
    if *mark != b'x' {
        return None;
    }
    Some((byte_of(*high, *low)?, rest))
}

/// The first byte that a word stands for, and the rest of the word.
#[tactic(auto, using(crate::proofs::ReadLemmas::unescaped_plain))]
fn next_byte(word: &[u8]) -> Option<(u8, &[u8])>
    requires { 0 < length word.now }
    ensures some { IfSome result
        (λ r. unescaped word.now ≡ option_map (λ bytes. r.0 ∷ bytes) (unescaped r.1.now)) }
    ensures shorter { IfSome result (λ r. length r.1.now < length word.now) }
    ensures none { result ≡ None → unescaped word.now ≡ None }
{
    let (first, rest) = word.split_first()?;
    if *first == b'\\' {
        return escaped_byte(rest);
    }
    Some((*first, rest))
}

/// The bytes that a word stands for: `\x` and two hexadecimal digits are one byte, and any other
/// byte is itself.
///
/// # Errors
/// `Invalid`: another use of `\`. `OutOfMemory`.
pub fn unescape(alloc: Global, word: &[u8]) -> Result<Vec<u8>, WordFault>
    ensures ok { IfOk result (λ bytes. unescaped word.now ≡ Some bytes.items) }
    ensures err { IfErr result (IsFaultOf (unescaped word.now)) }
{
    let mut bytes = Vec::with_capacity(alloc, word.len())?;
    let mut left = word;
    while !left.is_empty() {
        let Some((byte, rest)) = next_byte(left) else {
            return Err(WordFault::Invalid);
        };
        bytes.push(byte)?;
        left = rest;
    }
    Ok(bytes)
}
