//! Words of hexadecimal digits.

ghost use Rattle.std.specs.Prelude.{◌≡◌, ◌<◌, ◌∷◌, Some, None, IfOk, IfErr, IfSome, length, option_map};
ghost use Rattle.jline.specs.Read.{IsFaultOf, pairs_of};

use crate::digits::byte_of;
use crate::fault::WordFault;
use std::alloc::Global;

/// The first byte of pairs of hexadecimal digits, and the rest of them.
#[tactic(auto, using(crate::proofs::ReadLemmas::pairs_of_pair))]
fn next_pair(word: &[u8]) -> Option<(u8, &[u8])>
    requires { 0 < length word.now }
    ensures some { IfSome result
        (λ r. pairs_of word.now ≡ option_map (λ bytes. r.0 ∷ bytes) (pairs_of r.1.now)) }
    ensures shorter { IfSome result (λ r. length r.1.now < length word.now) }
    ensures none { result ≡ None → pairs_of word.now ≡ None }
{
    let (high, behind) = word.split_first()?;
    let (low, rest) = behind.split_first()?;
    Some((byte_of(*high, *low)?, rest))
}

/// The bytes that pairs of hexadecimal digits stand for.
///
/// # Errors
/// `Invalid`: an odd number of digits, or another byte among them. `OutOfMemory`.
pub fn unhex(alloc: Global, word: &[u8]) -> Result<Vec<u8>, WordFault>
    ensures ok { IfOk result (λ bytes. pairs_of word.now ≡ Some bytes.items) }
    ensures err { IfErr result (IsFaultOf (pairs_of word.now)) }
{
    let mut bytes = Vec::with_capacity(alloc, word.len() / 2)?;
    let mut left = word;
    while !left.is_empty() {
        let Some((byte, rest)) = next_pair(left) else {
            return Err(WordFault::Invalid);
        };
        bytes.push(byte)?;
        left = rest;
    }
    Ok(bytes)
}
