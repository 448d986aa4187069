//! Regions of files that are read alone, and regions that a file does not have.

use crate::checks::{equal_at, expect_at};
use flashbase::{LoadFault, Source, load};
use jspare::{PageLayout, Region, RegionSource};
use std::test::Fail;
use test_support::Giver;

/// Pages of three bytes with two spare ones.
const LAYOUT: PageLayout = PageLayout { page: 3, spare: 2 };

/// A file of ten bytes, without spare bytes and with them.
const FILES: [(Option<PageLayout>, &[u8]); 2] = [
    (None, b"abcdefghij"),
    (Some(LAYOUT), b"abcXYdefZWghiUVj"),
];

/// Offsets and lengths of regions that it has, and their bytes.
const HELD: [(u32, Option<u32>, &[u8]); 9] = [
    (0, None, b"abcdefghij"),
    (0, Some(10), b"abcdefghij"),
    (0, Some(4), b"abcd"),
    (3, Some(3), b"def"),
    (4, None, b"efghij"),
    (4, Some(3), b"efg"),
    (4, Some(6), b"efghij"),
    (9, None, b"j"),
    (9, Some(1), b"j"),
];

/// Regions that it does not have.
const LACKED: [(u32, Option<u32>); 8] = [
    (0, Some(11)),
    (4, Some(7)),
    (9, Some(2)),
    (10, None),
    (10, Some(1)),
    (11, None),
    (12, Some(1)),
    (u32::MAX, Some(u32::MAX)),
];

/// How many bytes the file gives at once.
const PIECES: [usize; 4] = [1, 2, 3, 99];

#[test]
fn a_region_is_given_alone(rt: HostRuntime) -> Result<(), Fail> {
    for (layout, file) in FILES {
        for (offset, length, image) in HELD {
            for most in PIECES {
                let region = Region {
                    layout,
                    offset,
                    length,
                };
                let mut source = RegionSource::new(Giver::failing(file, most, 99), region);
                let given = load(rt.alloc(), &mut source, 99)?;
                expect_at(&rt, given.as_slice() == image, most);
                expect_at(&rt, !source.ends_early(), most);
                equal_at(&rt, source.failures(), 0, most);
            }
        }
    }
    Ok(())
}

#[test]
fn small_pieces_are_asked_for(rt: HostRuntime) -> Result<(), Fail> {
    for (layout, file) in FILES {
        let region = Region {
            layout,
            offset: 4,
            length: Some(4),
        };
        let mut source = RegionSource::new(Giver::failing(file, 99, 99), region);
        let mut piece = [0u8; 2];
        let none = source.fill(&mut [])?;
        let first = source.fill(&mut piece)?;
        expect_at(&rt, none == 0 && first == 2 && piece == *b"ef", 4);
        let mut rest = [0u8; 3];
        let second = source.fill(&mut rest)?;
        expect_at(&rt, second == 2 && rest == *b"gh\0", 6);
        expect_at(&rt, source.fill(&mut rest)? == 0, 8);
    }
    Ok(())
}

#[test]
fn a_region_that_is_not_there_is_refused(rt: HostRuntime) -> Result<(), Fail> {
    for (layout, file) in FILES {
        for (offset, length) in LACKED {
            for most in PIECES {
                let region = Region {
                    layout,
                    offset,
                    length,
                };
                let mut source = RegionSource::new(Giver::failing(file, most, 99), region);
                for failures in [1, 2] {
                    let failed = load(rt.alloc(), &mut source, 99);
                    expect_at(&rt, matches!(failed, Err(LoadFault::Device)), most);
                    expect_at(&rt, source.ends_early(), most);
                    equal_at(&rt, source.failures(), failures, most);
                }
                equal_at(&rt, source.source().failures, 0, most);
            }
        }
    }
    Ok(())
}

/// No byte, with and without pages.
const EMPTY: [Option<PageLayout>; 2] = [None, Some(LAYOUT)];

#[test]
fn a_whole_file_may_be_empty(rt: HostRuntime) -> Result<(), Fail> {
    for layout in EMPTY {
        for (offset, length, early) in [(0, None, false), (0, Some(1), true), (1, None, true)] {
            let region = Region {
                layout,
                offset,
                length,
            };
            let mut source = RegionSource::new(Giver::failing(b"", 9, 99), region);
            let given = load(rt.alloc(), &mut source, 99);
            expect_at(
                &rt,
                given.is_err() == early && source.ends_early() == early,
                0,
            );
        }
    }
    Ok(())
}

#[test]
fn after_a_failure_it_goes_on(rt: HostRuntime) -> Result<(), Fail> {
    let region = Region {
        layout: Some(LAYOUT),
        offset: 3,
        length: Some(5),
    };
    for (calls, left) in [(1, b"defgh".as_slice()), (2, b"defgh"), (4, b"fgh")] {
        let file = Giver::failing(b"abcXYdefZWghiUVj", 2, calls);
        let mut source = RegionSource::new(file, region);
        let failed = load(rt.alloc(), &mut source, 99);
        expect_at(&rt, matches!(failed, Err(LoadFault::Device)), calls);
        expect_at(&rt, !source.ends_early(), calls);
        equal_at(&rt, source.failures(), 1, calls);
        equal_at(&rt, source.source().failures, 1, calls);
        let rest = load(rt.alloc(), &mut source, 99)?;
        expect_at(&rt, rest.as_slice() == left, calls);
    }
    Ok(())
}

#[test]
fn nothing_is_asked_for_behind_it(rt: HostRuntime) -> Result<(), Fail> {
    let region = Region {
        layout: None,
        offset: 2,
        length: Some(5),
    };
    let file = Giver::limited(b"abcdefghij", 4, 7);
    let given = load(rt.alloc(), &mut RegionSource::new(file, region), 99)?;
    expect_at(&rt, given.as_slice() == b"cdefg".as_slice(), 7);
    Ok(())
}
