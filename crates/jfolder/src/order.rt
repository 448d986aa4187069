//! The order in which a folder is walked through.

ghost use Rattle.std.specs.Prelude.{◌≡◌, ◌+◌, ◌==◌};
ghost use Rattle.jfolder.specs.Order.{is_before, rank};

/// A slash is lower than any other byte.
fn rank(byte: u8) -> u16
    ensures { result ≡ rank byte }
{
    if byte == b'/' { 0 } else { u16::from(byte) + 1 }
}

/// Whether a path comes before another one.
pub fn is_before(left: &[u8], right: &[u8]) -> bool
    ensures { result ≡ is_before left.now right.now }
{
    let mut i = 0;
    while i < left.len() && i < right.len() {
        let (first, second) = (rank(left[i]), rank(right[i]));
        if first != second {
            return first < second;
        }
        i += 1;
    }
    left.len() < right.len()
}
