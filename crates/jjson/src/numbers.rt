//! Numbers in a line.
ghost use Rattle.std.specs.Prelude.{◌≡◌, ◌<◌, ◌^◌, true, length};
ghost use Rattle.std.specs.List.{list_all};
ghost use Rattle.jjson.specs.Numbers.{address_number, hex_value, is_address, is_decimal_digit, is_hex_digit, is_number};

fn is_decimal_digit(byte: u8) -> bool
    ensures { result ≡ is_decimal_digit byte }
{
    byte >= b'0' && byte <= b'9'
}

fn all_decimal_digits(word: &[u8]) -> bool
    ensures { result ≡ list_all is_decimal_digit word.now }
{
    word.iter().all(|b| is_decimal_digit(*b))
}

/// Whether a word is a number of JSON.
pub(crate) fn is_number(word: &[u8]) -> bool
    ensures { result ≡ is_number word.now }
{
    match word {
        [] => false,
        [digit] => is_decimal_digit(*digit),
        [first, rest @ ..] => { *first >= b'1' && *first <= b'9' && all_decimal_digits(rest) }
    }
}

fn is_hex_digit(byte: u8) -> bool
    ensures { result ≡ is_hex_digit byte }
{
    is_decimal_digit(byte) || byte >= b'a' && byte <= b'f'
}

fn all_hex_digits(word: &[u8]) -> bool
    ensures { result ≡ list_all is_hex_digit word.now }
{
    word.iter().all(|b| is_hex_digit(*b))
}

/// Whether a word is eight hexadecimal digits.
pub(crate) fn is_address(word: &[u8]) -> bool
    ensures { result ≡ is_address word.now }
{
    word.len() == 8 && all_hex_digits(word)
}

/// What a hexadecimal digit stands for.
fn hex_value(digit: u8) -> u8
    requires { is_hex_digit digit ≡ true }
    ensures value { result ≡ hex_value digit }
    ensures small { result < 16 }
{
    if is_decimal_digit(digit) {
        digit - b'0'
    } else {
        digit - b'a' + 10
    }
}

/// The number that an address is.
pub(crate) fn address_of(word: &[u8]) -> u64
    requires { is_address word.now ≡ true }
    ensures { result ≡ address_number word.now }
{
    let mut number = 0u64;
    for digit in word {
        number = 16 * number + u64::from(hex_value(*digit));
    }
    number
}
