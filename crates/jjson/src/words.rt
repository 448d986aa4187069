//! The words of a line, and what they stand for.
ghost use Rattle.std.specs.Prelude.{◌≡◌, ◌==◌, ◌+◌, ◌<◌, ◌≤◌, ◌∷◌, ◌++◌, [], None, Some, IfSome, true, false, length, option_map, position, vec_capacity, vec_len};
ghost use Rattle.std.specs.List.{slice_split};
ghost use Rattle.jline.specs.Read.{byte_of_digits, digit_of, unescaped};
ghost use Rattle.jjson.specs.Words.{is_space, words_of};

fn first_space(text: &[u8]) -> Option<usize>
    ensures { result ≡ position is_space text.now }
{
    text.iter().position(|b| *b == b' ')
}

/// What is before the first space, and after it.
#[tactic(auto, using(crate::proofs::SplitLemmas::split_none, crate::proofs::SplitLemmas::position_some))]
fn split_at_space(text: &[u8]) -> Option<(&[u8], &[u8])>
    ensures some { IfSome result
        (λ r. slice_split is_space text.now ≡ r.0.now ∷ slice_split is_space r.1.now) }
    ensures shorter { IfSome result (λ r. length r.0.now + length r.1.now < length text.now) }
    ensures none { result ≡ None → slice_split is_space text.now ≡ text.now ∷ [] }
{
    let place = first_space(text)?;
    Some((&text[..place], &text[place + 1..]))
}

/// The first word of a text, and the rest of it.
pub(crate) fn next_word(text: &[u8]) -> Option<(&[u8], &[u8])>
    ensures some { IfSome result (λ r. words_of text.now ≡ r.0.now ∷ words_of r.1.now) }
    ensures word { IfSome result (λ r. length r.0.now ≤ length text.now) }
    ensures shorter { IfSome result (λ r. length r.1.now < length text.now) }
    ensures none { result ≡ None → words_of text.now ≡ [] }
{
    let mut left = text;
    while let Some((word, rest)) = split_at_space(left) {
        if !word.is_empty() {
            return Some((word, rest));
        }
        left = rest;
    }
    if left.is_empty() {
        return None;
    }
    Some((left, &[]))
}

/// What a hexadecimal digit stands for, in either case.
fn digit(byte: u8) -> Option<u8>
    ensures { result ≡ digit_of byte }
{
    match byte {
        b'0'..=b'9' => Some(byte - b'0'),
        b'a'..=b'f' => Some(byte - b'a' + 10),
        b'A'..=b'F' => Some(byte - b'A' + 10),
        _ => None,
    }
}

/// The byte that two hexadecimal digits are.
fn byte_of(high: u8, low: u8) -> Option<u8>
    ensures { result ≡ byte_of_digits high low }
{
    Some(16 * digit(high)? + digit(low)?)
}

/// What is after a backslash: the byte that it begins, and the rest of the word.
#[tactic(auto, using(jline::proofs::ReadLemmas::unescaped_escape))]
fn escaped_byte(behind: &[u8]) -> Option<(u8, &[u8])>
    ensures some { IfSome result
        (λ r. unescaped (92 ∷ behind.now) ≡ option_map (λ bytes. r.0 ∷ bytes) (unescaped r.1.now)) }
    ensures shorter { IfSome result (λ r. length r.1.now < length behind.now) }
    ensures none { result ≡ None → unescaped (92 ∷ behind.now) ≡ None }
{
    let (mark, behind) = behind.split_first()?;
    let (high, behind) = behind.split_first()?;
    let (low, rest) = behind.split_first()?;
    if *mark != b'x' {
        return None;
    }
    Some((byte_of(*high, *low)?, rest))
}

/// The first byte that a word stands for, and the rest of the word.
#[tactic(auto, using(jline::proofs::ReadLemmas::unescaped_plain))]
fn next_byte(word: &[u8]) -> Option<(u8, &[u8])>
    requires { 0 < length word.now }
    ensures some { IfSome result
        (λ r. unescaped word.now ≡ option_map (λ bytes. r.0 ∷ bytes) (unescaped r.1.now)) }
    ensures shorter { IfSome result (λ r. length r.1.now < length word.now) }
    ensures none { result ≡ None → unescaped word.now ≡ None }
{
    let (first, rest) = word.split_first()?;
    if *first == b'\\' {
        return escaped_byte(rest);
    }
    Some((*first, rest))
}

/// Reads a word with escapes behind what a buffer has. False, if it has another backslash.
fn push_unescaped(word: &[u8], bytes: &mut Vec<u8>) -> bool
    requires { vec_len bytes.old + length word.now ≤ vec_capacity bytes.old }
    ensures read { result ≡ true → option_map (λ more. bytes.old.items ++ more) (unescaped word.now)
        ≡ Some bytes.new.items }
    ensures not_read { result ≡ false → unescaped word.now ≡ None }
    ensures room { vec_capacity bytes.new ≡ vec_capacity bytes.old }
{
    let mut left = word;
    while !left.is_empty() {
        let Some((byte, rest)) = next_byte(left) else {
            return false;
        };
        bytes.push_reserved(byte);
        left = rest;
    }
    true
}

/// Reads a word with escapes into a buffer that has room for it. False, if it has another
/// backslash.
pub(crate) fn unescape_into(word: &[u8], bytes: &mut Vec<u8>) -> bool
    requires { length word.now ≤ vec_capacity bytes.old }
    ensures read { result ≡ true → unescaped word.now ≡ Some bytes.new.items }
    ensures not_read { result ≡ false → unescaped word.now ≡ None }
    ensures room { vec_capacity bytes.new ≡ vec_capacity bytes.old }
{
    bytes.clear();
    push_unescaped(word, bytes)
}
