//! Which rule a line breaks.

ghost use Rattle.std.specs.Prelude.{◌≡◌, ◌==◌, ◌<◌, ◌≤◌, ◌∷◌, IfOk, IfSome, count_by, length, option_map};
ghost use Rattle.std.specs.List.{slice_split};
ghost use Rattle.jlisting.specs.Broken.{first_broken, form_rule, later_space, operands_rule, or_return, shape_rule, space_rule, words_in, words_rule};

use crate::operands::operands_of;
use crate::rule::{Operand, Rule};
use crate::split::split_once;
use crate::word_rules::word_rule;
use std::alloc::{AllocError, Global};

/// The first word of a text, and what follows the space after it.
fn next_word(text: &[u8]) -> (&[u8], Option<&[u8]>)
    ensures words { slice_split (λ b. b == 32) text.now
        ≡ result.0.now ∷ words_in (option_map (λ rest. rest.now) result.1) }
    ensures shorter { IfSome result.1 (λ rest. length rest.now < length text.now) }
{
    match split_once(text, b' ') {
        Some((word, rest)) => (word, Some(rest)),
        None => (text, None),
    }
}

/// How many spaces there are.
fn count_spaces(text: &[u8]) -> usize
    ensures count { result ≡ count_by (λ b. b == 32) text.now }
    ensures within { result ≤ length text.now }
{
    text.iter().filter(|byte| **byte == b' ').count()
}

/// How many words there are.
fn count_words(words: Option<&[u8]>) -> usize
    ensures { result ≡ length (words_in (option_map (λ text. text.now) words.entry)) }
{
    match words {
        None => 0,
        Some(text) => count_spaces(text) + 1,
    }
}

/// The rule on spaces that words after the first break.
fn later_space(words: Option<&[u8]>) -> Option<Rule>
    ensures { result ≡ later_space (words_in (option_map (λ text. text.now) words.entry)) }
{
    let mut left = words;
    while let Some(text) = left {
        let (word, rest) = next_word(text);
        if word.is_empty() {
            return Some(match rest {
                None => Rule::SpaceAtEnd,
                Some(_) => Rule::TwoSpaces,
            });
        }
        left = rest;
    }
    None
}

/// The first rule that words break as these operands.
fn operands_rule(
    alloc: Global,
    operands: &[Operand],
    words: Option<&[u8]>,
) -> Result<Option<Rule>, AllocError>
    ensures { IfOk result (λ rule. rule
        ≡ operands_rule 2 operands.now (words_in (option_map (λ text. text.now) words.entry))) }
{
    let mut left = words;
    let mut number = 1;
    for operand in operands {
        let text = match left {
            Some(text) => text,
            None => return Ok(None),
        };
        let (word, rest) = next_word(text);
        number += 1;
        if let Some(broken) = word_rule(alloc, *operand, word)? {
            return Ok(Some(Rule::Word(number, broken)));
        }
        left = rest;
    }
    Ok(None)
}

/// The rule that words after a name break as these operands, too few or too many of them too.
#[tactic(auto, unfolding(crate::specs::Broken::shape_rule))]
fn shape_rule(
    alloc: Global,
    operands: &[Operand],
    words: Option<&[u8]>,
) -> Result<Option<Rule>, AllocError>
    ensures { IfOk result (λ rule. rule
        ≡ shape_rule operands.now (words_in (option_map (λ text. text.now) words.entry))) }
{
    let count = count_words(words);
    if count < operands.len() {
        Ok(Some(Rule::TooFew(operands.len())))
    } else if count > operands.len() {
        Ok(Some(Rule::TooMany(operands.len())))
    } else {
        operands_rule(alloc, operands, words)
    }
}

/// The rule that the words of a line break.
fn words_rule(alloc: Global, line: &[u8]) -> Result<Option<Rule>, AllocError>
    ensures { IfOk result (λ rule. rule ≡ words_rule (slice_split (λ b. b == 32) line.now)) }
{
    let (name, words) = next_word(line);
    match operands_of(name) {
        None => Ok(Some(Rule::NoOperation)),
        Some(operands) => shape_rule(alloc, operands, words),
    }
}

/// The rule on spaces that a line breaks.
fn space_rule(line: &[u8]) -> Option<Rule>
    ensures { result ≡ space_rule (slice_split (λ b. b == 32) line.now) }
{
    let (name, words) = next_word(line);
    if name.is_empty() {
        Some(Rule::SpaceAtStart)
    } else {
        later_space(words)
    }
}

/// Of a line that ends with a carriage return, that.
fn or_return(line: &[u8], broken: Option<Rule>) -> Option<Rule>
    ensures { result ≡ or_return line.now broken }
{
    let rule = broken?;
    match line {
        [.., b'\r'] => Some(Rule::CarriageReturn),
        _ => Some(rule),
    }
}

/// The first rule that a line breaks, if it breaks one.
#[tactic(auto, unfolding(crate::specs::Broken::first_broken))]
pub fn first_broken(alloc: Global, line: &[u8]) -> Result<Option<Rule>, AllocError>
    ensures { IfOk result (λ rule. rule ≡ first_broken line.now) }
{
    match line {
        [] | [b'#', ..] => return Ok(None),
        _ => {}
    }
    if let Some(rule) = space_rule(line) {
        return Ok(Some(rule));
    }
    let broken = words_rule(alloc, line)?;
    Ok(or_return(line, broken))
}
