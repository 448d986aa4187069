//! Headers that are good, and those that are not.

use crate::checks::{equal, expect, expect_at};
use crate::node::nodes::{cut_after, start_of};
use crate::node::vectors::*;
use byteorder::{BigEndian, LittleEndian};
use jnode::{Header, header_at, header_in, laws};

#[test]
fn good_headers(rt: HostRuntime) {
    laws::good_is_computed();
    let entry = Header {
        nodetype: 0xE001,
        totlen: 41,
        accurate: true,
    };
    equal(&rt, header_at::<LittleEndian>(entry_a()), Some(entry));
    let obsolete = Header {
        nodetype: 0xC001,
        totlen: 41,
        accurate: false,
    };
    equal(&rt, header_at::<LittleEndian>(obsolete_a()), Some(obsolete));
    let longer = Header {
        nodetype: 0x2003,
        totlen: 13,
        accurate: true,
    };
    equal(
        &rt,
        header_in::<LittleEndian>(&cut_after(length_13_and_more(), 12)),
        Some(longer),
    );
}

#[test]
fn no_headers(rt: HostRuntime) {
    expect(&rt, header_at::<BigEndian>(entry_a()).is_none());
    for bytes in [
        start_of(entry_a(), 40),
        start_of(little_marker(), 11),
        no_length(),
        length_13(),
    ] {
        expect_at(&rt, header_at::<LittleEndian>(bytes).is_none(), bytes);
    }
    expect(
        &rt,
        header_in::<LittleEndian>(&cut_after(length_13(), 12)).is_none(),
    );
    expect(
        &rt,
        header_in::<LittleEndian>(&cut_after(little_marker(), 11)).is_none(),
    );
}
