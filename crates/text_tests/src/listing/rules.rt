//! The first rule that a line breaks.

use crate::checks::expect_at;
use jlisting::{BadLine, ListingFault, Rule, WordRule, listing};
use std::alloc::Global;

/// The line for which a listing is not read.
fn bad_line(alloc: Global, text: &[u8]) -> Option<BadLine> {
    match listing(alloc, text) {
        Err(ListingFault::Line(bad)) => Some(bad),
        _ => None,
    }
}

/// Whether the first line of a text breaks this rule first.
fn breaks(alloc: Global, text: &[u8], rule: Rule) -> bool {
    bad_line(alloc, text) == Some(BadLine { line: 1, rule })
}

/// Lines with spaces too many, or with a carriage return at the end.
fn spaces() -> &'static [(&'static [u8], Rule)] {
    &[
        (b" remove /a", Rule::SpaceAtStart),
        (b" ", Rule::SpaceAtStart),
        (b"  x  y ", Rule::SpaceAtStart),
        (b" #", Rule::SpaceAtStart),
        (b"remove  /a", Rule::TwoSpaces),
        (b"remov  /a ", Rule::TwoSpaces),
        (b"remove /a  ", Rule::TwoSpaces),
        (b"attr 9 9  9 9 9 /a", Rule::TwoSpaces),
        (b"remove /a ", Rule::SpaceAtEnd),
        (b"remov ", Rule::SpaceAtEnd),
        (b"\r ", Rule::SpaceAtEnd),
        (b"\r", Rule::CarriageReturn),
        (b"remove\r", Rule::CarriageReturn),
        (b"time 9\r", Rule::CarriageReturn),
        (b"time x\r", Rule::CarriageReturn),
        (b"write /a 0 00\r", Rule::CarriageReturn),
    ]
}

#[test]
fn first_rules_on_spaces(rt: HostRuntime) {
    for &(text, rule) in spaces() {
        expect_at(&rt, breaks(rt.alloc(), text, rule), text);
    }
}

/// Lines with another first word, or with more words or fewer.
fn shapes() -> &'static [(&'static [u8], Rule)] {
    &[
        (b"\xef\xbb\xbf# a", Rule::NoOperation),
        (b"\x00", Rule::NoOperation),
        (b"time\t1", Rule::NoOperation),
        (b"Time 1", Rule::NoOperation),
        (b"times 1", Rule::NoOperation),
        (b"\r/a", Rule::NoOperation),
        (b"time", Rule::TooFew(1)),
        (b"remove", Rule::TooFew(1)),
        (b"owner 1", Rule::TooFew(2)),
        (b"mkdir 755", Rule::TooFew(2)),
        (b"symlink /a", Rule::TooFew(2)),
        (b"file 9 /a", Rule::TooFew(3)),
        (b"put 9 /a", Rule::TooFew(3)),
        (b"remove-if", Rule::TooFew(1)),
        (b"write /a", Rule::TooFew(3)),
        (b"part /a 0", Rule::TooFew(3)),
        (b"device c 600 5 1", Rule::TooFew(5)),
        (b"attr 644 0 0 0 0", Rule::TooFew(6)),
        (b"time 1 2", Rule::TooMany(1)),
        (b"remove /a /b", Rule::TooMany(1)),
        (b"remove-if /a /b", Rule::TooMany(1)),
        (b"create 9 /a b", Rule::TooMany(2)),
        (b"replace /a /b /c", Rule::TooMany(2)),
        (b"write /a 0 00 00 00 00 00 00", Rule::TooMany(3)),
        (b"device c 600 5 1 /a b", Rule::TooMany(5)),
        (b"attr 644 0 0 0 0 /a 0 0", Rule::TooMany(6)),
    ]
}

#[test]
fn first_rules_on_shapes(rt: HostRuntime) {
    for &(text, rule) in shapes() {
        expect_at(&rt, breaks(rt.alloc(), text, rule), text);
    }
}

/// Lines of the right shape with a wrong number, which word that is, and the rule that it breaks.
fn numbers() -> &'static [(&'static [u8], usize, WordRule)] {
    &[
        (
            b"attr 644 0 0 0 4294967296 \\",
            6,
            WordRule::Above(4294967295),
        ),
        (b"time a", 2, WordRule::NoDigit(9)),
        (b"time -1", 2, WordRule::NoDigit(9)),
        (b"time 12345678901x", 2, WordRule::NoDigit(9)),
        (b"time 1\t", 2, WordRule::NoDigit(9)),
        (b"time 1:", 2, WordRule::NoDigit(9)),
        (b"time 1/", 2, WordRule::NoDigit(9)),
        (b"time 00000000000", 2, WordRule::TooLong(10)),
        (b"time 4294967296", 2, WordRule::Above(4294967295)),
        (b"time 9999999999", 2, WordRule::Above(4294967295)),
        (b"owner 65536 x", 2, WordRule::Above(65535)),
        (b"owner 0 65536", 3, WordRule::Above(65535)),
        (b"owner x 65536", 2, WordRule::NoDigit(9)),
        (b"mkdir 8 \\", 2, WordRule::NoDigit(7)),
        (b"mkdir 0o7 /a", 2, WordRule::NoDigit(7)),
        (b"mkdir 0000755 /a", 2, WordRule::TooLong(6)),
        (b"create 9 /a\\n", 2, WordRule::NoDigit(7)),
        (b"fifo /a 644", 2, WordRule::NoDigit(7)),
        (b"socket 1000000 /a", 2, WordRule::TooLong(6)),
        (b"device c 8 5 1 /a", 3, WordRule::NoDigit(7)),
        (b"device c 600 4096 1048576 /a", 4, WordRule::Above(4095)),
        (b"device c 600 5 1048576 /a", 5, WordRule::Above(1048575)),
        (b"write /a x x", 3, WordRule::NoDigit(9)),
        (b"part /a 42949672950 f", 3, WordRule::TooLong(10)),
        (b"truncate /a 4294967296", 3, WordRule::Above(4294967295)),
        (b"attr 8 x 0 0 0 /a", 2, WordRule::NoDigit(7)),
        (b"attr 644 65536 0 0 0 /a", 3, WordRule::Above(65535)),
        (b"attr 644 0 x 0 0 /a", 4, WordRule::NoDigit(9)),
    ]
}

#[test]
fn first_rules_on_numbers(rt: HostRuntime) {
    for &(text, number, broken) in numbers() {
        let rule = Rule::Word(number, broken);
        expect_at(&rt, breaks(rt.alloc(), text, rule), text);
    }
}

/// The same of other words.
fn words() -> &'static [(&'static [u8], usize, WordRule)] {
    &[
        (b"mkdir 755 \\", 3, WordRule::Escape),
        (b"create 644 /a\\n", 3, WordRule::Escape),
        (b"file 644 /a\\ f", 3, WordRule::Escape),
        (b"put 644 /a \\X61", 4, WordRule::Escape),
        (b"remove-if /\\x6", 2, WordRule::Escape),
        (b"file 644 /a \\X61", 4, WordRule::Escape),
        (b"file 644 /a \xff", 4, WordRule::NoText),
        (b"file 644 /\xff \xff", 4, WordRule::NoText),
        (b"file 644 /a \\xc3\\x61", 4, WordRule::NoText),
        (b"device p 600 5 1 /a", 2, WordRule::Kind),
        (b"device cb 9 5 1 /a", 2, WordRule::Kind),
        (b"device c 600 5 1 /\\xg0", 6, WordRule::Escape),
        (b"symlink \\q \\q", 2, WordRule::Escape),
        (b"symlink /a \\q", 3, WordRule::Escape),
        (b"write \\x x x", 2, WordRule::Escape),
        (b"write /a 0 x", 4, WordRule::NoPairs),
        (b"write /a 0 abc", 4, WordRule::NoPairs),
        (b"write /a 0 0g", 4, WordRule::NoPairs),
        (b"write /a 0 --", 4, WordRule::NoPairs),
        (b"part /a 0 \xff", 4, WordRule::NoText),
        (b"link \\ /b", 2, WordRule::Escape),
        (b"rename /a /\\x6", 3, WordRule::Escape),
        (b"replace /\\\\ /b", 2, WordRule::Escape),
        (b"remove \\x0g", 2, WordRule::Escape),
    ]
}

#[test]
fn first_rules_on_words(rt: HostRuntime) {
    for &(text, number, broken) in words() {
        let rule = Rule::Word(number, broken);
        expect_at(&rt, breaks(rt.alloc(), text, rule), text);
    }
}

/// The rule is that of the line that is answered, and not of one before or after it.
fn listings() -> &'static [(&'static [u8], usize, Rule)] {
    &[
        (b"# a\n\r", 2, Rule::CarriageReturn),
        (b"remove /a\n\n# a\nremove  /b\nremove", 4, Rule::TwoSpaces),
        (b"time 1\r\n remove /a\n", 1, Rule::CarriageReturn),
        (b"time 1\nx\ny z", 2, Rule::NoOperation),
        (b"time 1\nremove\nx", 2, Rule::TooFew(1)),
    ]
}

#[test]
fn first_rules_of_listings(rt: HostRuntime) {
    for &(text, line, rule) in listings() {
        let found = bad_line(rt.alloc(), text) == Some(BadLine { line, rule });
        expect_at(&rt, found, text);
    }
}
