//! The size of a block, as a text: decimal digits with a unit, or hexadecimal ones.
ghost use Rattle.std.specs.Prelude.{◌≡◌, option_map};
ghost use Rattle.jline.specs.Read.{digit_of};
ghost use Rattle.jcommand.specs.Sizes.{behind_hex, hex_from, hex_next, hex_number, if_number, in_unit, letter_unit, scaled_from, scaled_number, size_number, unit_of};

/// A number below 2^32.
fn if_number(n: u64) -> Option<u32>
    ensures { result ≡ if_number n }
{
    if n < 0x1_0000_0000 {
        Some(n as u32)
    } else {
        None
    }
}

/// What a hexadecimal digit stands for, in either case.
fn digit(byte: u8) -> Option<u8>
    ensures { result ≡ digit_of byte }
{
    match byte {
        b'0'..=b'9' => Some(byte - b'0'),
        b'a'..=b'f' => Some(byte - b'a' + 10),
        b'A'..=b'F' => Some(byte - b'A' + 10),
        _ => None,
    }
}

fn hex_next(n: u32, byte: u8) -> Option<u32>
    ensures { result ≡ hex_next n byte }
{
    let digit = digit(byte)?;
    if_number(16 * u64::from(n) + u64::from(digit))
}

/// A number in hexadecimal digits.
fn hex(digits: &[u8]) -> Option<u32>
    ensures { result ≡ hex_number digits.now }
{
    if digits.is_empty() {
        return None;
    }
    let mut n = 0u32;
    for byte in digits {
        let Some(more) = hex_next(n, *byte) else {
            return None;
        };
        n = more;
    }
    Some(n)
}

/// What stands behind `0x`.
fn behind_hex(text: &[u8]) -> Option<&[u8]>
    ensures { option_map (λ s. s.now) result ≡ behind_hex text.now }
{
    match text {
        [b'0', b'x', digits @ ..] => Some(digits),
        _ => None,
    }
}

fn letter_unit(letter: u8) -> Option<u32>
    ensures { result ≡ letter_unit letter }
{
    match letter {
        b'K' => Some(1024),
        b'M' => Some(1_048_576),
        _ => None,
    }
}

/// How many bytes a unit has.
fn unit(text: &[u8]) -> Option<u32>
    ensures { result ≡ unit_of text.now }
{
    match text {
        [] => Some(1),
        [letter] => letter_unit(*letter),
        [letter, b'i', b'B'] => letter_unit(*letter),
        _ => None,
    }
}

fn in_unit(n: u32, text: &[u8]) -> Option<u32>
    ensures { result ≡ in_unit n text.now }
{
    let unit = unit(text)?;
    if_number(u64::from(n) * u64::from(unit))
}

/// A number in decimal digits, of the unit behind them.
fn scaled(text: &[u8]) -> Option<u32>
    ensures { result ≡ scaled_from 0 text.now }
{
    let mut n = 0u64;
    let mut at = 0;
    while at < text.len() {
        let byte = text[at];
        if !byte.is_ascii_digit() {
            break;
        }
        let more = 10 * n + u64::from(byte - b'0');
        if more >= 0x1_0000_0000 {
            break;
        }
        n = more;
        at += 1;
    }
    in_unit(n as u32, &text[at..])
}

/// A size in bytes, below 2^32.
pub(crate) fn size(text: &str) -> Option<u32>
    ensures { result ≡ size_number text.now }
{
    let bytes = text.as_bytes();
    match behind_hex(bytes) {
        Some(digits) => hex(digits),
        None if text.is_empty() => None,
        None if bytes[0].is_ascii_digit() => scaled(bytes),
        None => None,
    }
}
