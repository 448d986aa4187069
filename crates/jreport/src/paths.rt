//! The word of the command line that names a path.

ghost use Rattle.std.specs.Prelude.{◌≡◌, Some, map, option_map, IfOk, IfErr};
ghost use Rattle.jmount.specs.Find.{parts, path_names};
ghost use Rattle.jreport.specs.Paths.{path_of, IsWordFault};

use crate::faults::ProgramFault;
use jline::{WordFault, unescape};
use jmount::{FindFault, after_slash};
use std::alloc::{AllocError, Global};

/// The bytes that a word stands for: `\x` and two hexadecimal digits are one byte.
///
/// `Path(BadPath)`: another use of `\`.
pub fn path_word(alloc: Global, word: &[u8]) -> Result<Vec<u8>, ProgramFault<'static>>
    ensures ok { IfOk result (λ path. path_of word.now ≡ Some path.items) }
    ensures err { IfErr result (IsWordFault (path_of word.now)) }
{
    match unescape(alloc, word) {
        Ok(path) => Ok(path),
        Err(WordFault::Invalid) => Err(ProgramFault::Path(FindFault::BadPath)),
        Err(WordFault::OutOfMemory) => Err(ProgramFault::OutOfMemory),
    }
}

/// The names of a path, in order: none of the root's; `None` of a text that is no path.
pub fn names_of_path<'a>(alloc: Global, text: &'a [u8]) -> Result<Option<Vec<&'a [u8]>>, AllocError>
    ensures { IfOk result
        (λ o. option_map (λ names. map (λ n. n.now) names.items) o ≡ path_names text.now) }
{
    let Some(names) = after_slash(text) else {
        return Ok(None);
    };
    if names.is_empty() {
        return Ok(Some(Vec::new(alloc)));
    }
    Ok(Some(between_slashes(alloc, names)?))
}

/// What is between slashes.
fn between_slashes<'a>(alloc: Global, text: &'a [u8]) -> Result<Vec<&'a [u8]>, AllocError>
    ensures { IfOk result (λ names. map (λ n. n.now) names.items ≡ parts text.now) }
{
    text.split(|b| *b == b'/').collect(alloc)
}
