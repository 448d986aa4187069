//! Hexadecimal digits.

ghost use Rattle.std.specs.Prelude.{◌≡◌};
ghost use Rattle.jline.specs.Read.{byte_of_digits, digit_of};

/// What a hexadecimal digit stands for, in either case.
fn digit(byte: u8) -> Option<u8>
    ensures { result ≡ digit_of byte }
{
    match byte {
        b'0'..=b'9' => Some(byte - b'0'),
        b'a'..=b'f' => Some(byte - b'a' + 10),
        b'A'..=b'F' => Some(byte - b'A' + 10),
        _ => None,
    }
}

/// The byte that two hexadecimal digits are.
pub fn byte_of(high: u8, low: u8) -> Option<u8>
    ensures { result ≡ byte_of_digits high low }
{
    Some(16 * digit(high)? + digit(low)?)
}
