//! A listing on an empty base. More of them are in tests/listings.py.

use crate::build::runs::made;
use crate::checks::expect;
use byteorder::{BigEndian, LittleEndian};
use std::test::Fail;
use test_support::are_made;

/// A file is made, written, cut, and written behind its end: its nodes go to `CUT_PLACES`.
pub const SMALL: &[u8] =
    b"create 0644 /a\nwrite /a 0 0102030405060708090a\ntruncate /a 4\nwrite /a 8 ff\n";

#[test]
fn a_file_that_is_made(rt: HostRuntime) -> Result<(), Fail> {
    let little = made::<LittleEndian>(rt.alloc(), &[], 1, b"create 0644 /a")?;
    let big = made::<BigEndian>(rt.alloc(), &[], 1, b"create 0644 /a")?;
    expect(&rt, are_made(&little.output, &big.output));
    Ok(())
}
