//! The parts of a shape.
ghost use Rattle.std.specs.Prelude.{◌≡◌, ◌≢◌, ◌++◌, ℕ, List, None, IfSome, codes};
ghost use Rattle.std.specs.Str.{bytes_eq};
ghost use Rattle.jjson.specs.Shapes.{fits, is_path, part_kind, part_takes};
ghost use Rattle.jjson.specs.Words.{words_of};

use crate::numbers::{is_address, is_number};
use crate::words::next_word;

/// What a part of a shape takes.
#[derive(Clone, Copy)]
pub(crate) enum PartKind {
    /// A number.
    Number,
    /// A number of four digits or more.
    Large,
    /// An address of eight hexadecimal digits.
    Address,
    /// Any word, as it is.
    Text,
    /// Any word, with its escapes.
    Name,
    /// The same, but a path.
    Path,
    /// Its name in parentheses.
    Flag,
    /// The arrow before an empty target.
    Empty,
    /// Itself.
    Word,
}

/// The kind of the part that begins with this mark.
pub(crate) fn kind_of(mark: u8) -> PartKind
    ensures { result ≡ part_kind mark }
{
    match mark {
        b'#' => PartKind::Number,
        b'^' => PartKind::Large,
        b'@' => PartKind::Address,
        b'=' => PartKind::Text,
        b'%' => PartKind::Name,
        b'/' => PartKind::Path,
        b'?' => PartKind::Flag,
        b'>' => PartKind::Empty,
        _ => PartKind::Word,
    }
}

fn is_path(word: &[u8]) -> bool
    ensures { result ≡ is_path word.now }
{
    match word.first() {
        Some(first) => *first == b'/',
        None => false,
    }
}

/// What a word in parentheses has between them.
fn between_parentheses(word: &[u8]) -> Option<&[u8]>
    ensures some { IfSome result (λ middle. word.now ≡ codes "(" ++ (middle.now ++ codes ")")) }
    ensures none { result ≡ None
        → (middle : List ℕ) → word.now ≢ codes "(" ++ (middle ++ codes ")") }
{
    let (open, rest) = word.split_first()?;
    let (close, middle) = rest.split_last()?;
    if *open != b'(' || *close != b')' {
        return None;
    }
    Some(middle)
}

/// Whether a word is this name in parentheses.
fn is_flag(name: &[u8], word: &[u8]) -> bool
    ensures { result ≡ bytes_eq word.now (codes "(" ++ (name.now ++ codes ")")) }
{
    match between_parentheses(word) {
        Some(middle) => middle == name,
        None => false,
    }
}

/// Whether a part takes a word.
fn takes(part: &[u8], word: &[u8]) -> bool
    ensures { result ≡ part_takes part.now word.now }
{
    let Some((mark, name)) = part.split_first() else {
        return false;
    };
    match kind_of(*mark) {
        PartKind::Number => is_number(word),
        PartKind::Large => is_number(word) && 4 <= word.len(),
        PartKind::Address => is_address(word),
        PartKind::Text | PartKind::Name => true,
        PartKind::Path => is_path(word),
        PartKind::Flag => is_flag(name, word),
        PartKind::Empty => word == b"->".as_slice(),
        PartKind::Word => word == part,
    }
}

/// Whether a line has a word for each part, and each part takes its word.
pub(crate) fn fits(parts: &[u8], line: &[u8]) -> bool
    ensures { result ≡ fits (words_of parts.now) (words_of line.now) }
{
    let mut parts = parts;
    let mut line = line;
    loop {
        match (next_word(parts), next_word(line)) {
            (Some((part, parts_left)), Some((word, line_left))) => {
                if !takes(part, word) {
                    return false;
                }
                parts = parts_left;
                line = line_left;
            }
            (None, None) => return true,
            _ => return false,
        }
    }
}
