//! The rule that a word breaks, by what it has to stand for.

ghost use Rattle.std.specs.Prelude.{◌≡◌, ◌<◌, ◌≤◌, IfOk, length};
ghost use Rattle.std.specs.List.{list_all};
ghost use Rattle.jlisting.specs.Words.{is_digit};
ghost use Rattle.jlisting.specs.Broken.{data_rule, escape_rule, kind_rule, name_rule, number_rule, operand_rule, text_rule, word_rule};

use crate::rule::{Operand, WordRule};
use crate::words::{data_word, digits, escaped_file_word, is_word, text_word};
use jline::WordFault;
use std::alloc::{AllocError, Global};

/// Whether each byte is a digit of a base.
fn are_digits(word: &[u8], base: u64) -> bool
    requires { base ≤ 10 }
    ensures { result ≡ list_all (is_digit base) word.now }
{
    word.iter()
        .all(|byte| *byte >= b'0' && u64::from(*byte) < 48 + base)
}

/// The rule that a number breaks.
#[tactic(auto, unfolding(crate::specs::Broken::number_rule))]
fn number_rule(word: &[u8], base: u64, most: usize, limit: u32) -> Option<WordRule>
    requires base { base ≤ 10 }
    requires some { 1 ≤ base }
    requires word { 0 < length word.now }
    ensures { result ≡ number_rule base most limit word.now }
{
    if !are_digits(word, base) {
        Some(WordRule::NoDigit(base - 1))
    } else if word.len() > most {
        Some(WordRule::TooLong(most))
    } else {
        match digits(word, base, u64::from(limit)) {
            Some(_) => None,
            None => Some(WordRule::Above(limit)),
        }
    }
}

/// The rule that a text breaks.
#[tactic(auto, unfolding(crate::specs::Broken::escape_rule))]
fn escape_rule(alloc: Global, word: &[u8]) -> Result<Option<WordRule>, AllocError>
    requires { 0 < length word.now }
    ensures { IfOk result (λ rule. rule ≡ escape_rule word.now) }
{
    match text_word(alloc, word) {
        Ok(_) => Ok(None),
        Err(WordFault::Invalid) => Ok(Some(WordRule::Escape)),
        Err(WordFault::OutOfMemory) => Err(AllocError),
    }
}

/// And bytes to be written.
#[tactic(auto, unfolding(crate::specs::Broken::data_rule))]
fn data_rule(alloc: Global, word: &[u8]) -> Result<Option<WordRule>, AllocError>
    requires { 0 < length word.now }
    ensures { IfOk result (λ rule. rule ≡ data_rule word.now) }
{
    match data_word(alloc, word) {
        Ok(_) => Ok(None),
        Err(WordFault::Invalid) => Ok(Some(WordRule::NoPairs)),
        Err(WordFault::OutOfMemory) => Err(AllocError),
    }
}

/// And the name of a file with escapes.
#[tactic(auto, unfolding(crate::specs::Broken::name_rule))]
fn name_rule(alloc: Global, word: &[u8]) -> Result<Option<WordRule>, AllocError>
    requires { 0 < length word.now }
    ensures { IfOk result (λ rule. rule ≡ name_rule word.now) }
{
    if let Some(rule) = escape_rule(alloc, word)? {
        return Ok(Some(rule));
    }
    match escaped_file_word(alloc, word) {
        Ok(_) => Ok(None),
        Err(WordFault::Invalid) => Ok(Some(WordRule::NoText)),
        Err(WordFault::OutOfMemory) => Err(AllocError),
    }
}

/// And the kind of a device.
#[tactic(auto, unfolding(crate::specs::Broken::kind_rule))]
fn kind_rule(word: &[u8]) -> Option<WordRule>
    ensures { result ≡ kind_rule word.now }
{
    if is_word(word, b"c") {
        None
    } else if is_word(word, b"b") {
        None
    } else {
        Some(WordRule::Kind)
    }
}

/// And the name of a file that stands as it is.
#[tactic(auto, unfolding(crate::specs::Broken::text_rule))]
fn text_rule(word: &[u8]) -> Option<WordRule>
    ensures { result ≡ text_rule word.now }
{
    match str::from_utf8(word) {
        Ok(_) => None,
        Err(_) => Some(WordRule::NoText),
    }
}

/// The rule that a word breaks as an operand.
#[tactic(auto, unfolding(crate::specs::Broken::operand_rule))]
fn operand_rule(
    alloc: Global,
    operand: Operand,
    word: &[u8],
) -> Result<Option<WordRule>, AllocError>
    requires { 0 < length word.now }
    ensures { IfOk result (λ rule. rule ≡ operand_rule operand word.now) }
{
    match operand {
        Operand::Mode => Ok(number_rule(word, 8, 6, 0o777777)),
        Operand::Number(limit) => Ok(number_rule(word, 10, 10, limit)),
        Operand::DeviceKind => Ok(kind_rule(word)),
        Operand::Text => escape_rule(alloc, word),
        Operand::Data => data_rule(alloc, word),
        Operand::FileName => Ok(text_rule(word)),
        Operand::EscapedName => name_rule(alloc, word),
    }
}

/// The rule that a word breaks as an operand, if it breaks one.
#[tactic(auto, unfolding(crate::specs::Broken::word_rule))]
pub fn word_rule(
    alloc: Global,
    operand: Operand,
    word: &[u8],
) -> Result<Option<WordRule>, AllocError>
    ensures { IfOk result (λ rule. rule ≡ word_rule operand word.now) }
{
    if word.is_empty() {
        Ok(Some(WordRule::Empty))
    } else {
        operand_rule(alloc, operand, word)
    }
}
