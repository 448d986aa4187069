//! The lines of worked images.
ghost use Rattle.jexpand.specs.Expanded.{unpacked_bytes};
ghost use Rattle.jthrough.specs.View.{BeginWith};
ghost use Rattle.jview.specs.Through.{IsMountThroughOf};

use crate::checks::{equal, expect, expect_at};
use crate::history::images::{CASES, Line, OF_FILE, OF_OBJECTS, PACKED, TIMES, image_of, text_of};
use byteorder::{BigEndian, LittleEndian};
use jhistory::{HistoryFault, Period, Words, put_history, words_of};
use jmount::Mounted;
use jnode::Order;
use jpast::{pasts_of, put_pasts};
use jscan::Geometry;
use jthrough::{mount_view, nodes_through, view_image};
use std::alloc::Global;
use std::collections::BTreeSet;
use std::test::Fail;
use test_support::Taker;

const GEOMETRY: Geometry = Geometry { block: 4096 };

const ALWAYS: Period = Period {
    since: None,
    until: None,
};

/// The words of the nodes of a mounted image: `contents` are those that `view_image` left.
fn words_mounted<E: Order>(
    alloc: Global,
    mounted: &Mounted<'_>,
    contents: &[u8],
) -> Result<Words, &'static str>
    requires mount { IsMountThroughOf E.order 4096 mounted.now }
    requires held { BeginWith (unpacked_bytes E.order 4096 mounted.now.image) contents.now }
{
    match nodes_through::<E>(alloc, mounted.image(), GEOMETRY, contents) {
        Ok(nodes) => words_of(alloc, mounted, nodes).map_err(|_| "no words"),
        Err(_) => Err("no nodes"),
    }
}

/// The words of the nodes of an image through its compression.
fn words<E: Order>(alloc: Global, image: &[u8]) -> Result<Words, &'static str> {
    let mut contents = Vec::new(alloc);
    match view_image::<E>(alloc, image, GEOMETRY, &mut contents) {
        Ok(view) => match mount_view::<E>(alloc, image, GEOMETRY, view, &contents) {
            Ok(mounted) => words_mounted::<E>(alloc, &mounted, &contents),
            Err(_) => Err("no mount"),
        },
        Err(_) => Err("no view"),
    }
}

/// What is left of these objects of a mounted image, as text.
fn left_mounted<E: Order>(
    alloc: Global,
    mounted: &Mounted<'_>,
    contents: &[u8],
    numbers: &BTreeSet<u32>,
) -> Result<Vec<u8>, &'static str>
    requires mount { IsMountThroughOf E.order 4096 mounted.now }
    requires held { BeginWith (unpacked_bytes E.order 4096 mounted.now.image) contents.now }
{
    let nodes = match nodes_through::<E>(alloc, mounted.image(), GEOMETRY, contents) {
        Ok(nodes) => nodes,
        Err(_) => return Err("no nodes"),
    };
    let pasts = match pasts_of(alloc, mounted, nodes.as_slice(), numbers) {
        Ok(pasts) => pasts,
        Err(_) => return Err("no pasts"),
    };
    let mut sink = Taker::new(alloc);
    match put_pasts(pasts.as_slice(), &mut sink) {
        Ok(()) => Ok(sink.bytes),
        Err(_) => Err("no text"),
    }
}

/// What is left of these objects of an image through its compression.
fn left<E: Order>(
    alloc: Global,
    image: &[u8],
    numbers: &BTreeSet<u32>,
) -> Result<Vec<u8>, &'static str> {
    let mut contents = Vec::new(alloc);
    match view_image::<E>(alloc, image, GEOMETRY, &mut contents) {
        Ok(view) => match mount_view::<E>(alloc, image, GEOMETRY, view, &contents) {
            Ok(mounted) => left_mounted::<E>(alloc, &mounted, &contents, numbers),
            Err(_) => Err("no mount"),
        },
        Err(_) => Err("no view"),
    }
}

/// What is told of an image, of these objects and times alone.
fn told<E: Order>(
    alloc: Global,
    image: &[u8],
    subjects: Option<&BTreeSet<u32>>,
    period: Period,
) -> Result<Vec<u8>, &'static str> {
    let words = words::<E>(alloc, image)?;
    let mut sink = Taker::new(alloc);
    match put_history::<E, _>(image, GEOMETRY, &words, subjects, period, &mut sink) {
        Ok(()) => Ok(sink.bytes),
        Err(_) => Err("no text"),
    }
}

/// Whether the text of an image is this one.
fn is_told<E: Order>(alloc: Global, lines: &[Line], total: &str) -> Result<bool, &'static str> {
    let image = image_of::<E>(alloc, lines)?;
    let text = text_of(alloc, lines, total)?;
    Ok(told::<E>(alloc, &image, None, ALWAYS)?.as_slice() == text.as_slice())
}

#[test]
fn each_node_has_its_line(rt: HostRuntime) -> Result<(), Fail> {
    for &(lines, total) in CASES.iter() {
        expect_at(
            &rt,
            is_told::<LittleEndian>(rt.alloc(), lines, total)?,
            total,
        );
        expect_at(&rt, is_told::<BigEndian>(rt.alloc(), lines, total)?, total);
    }
    Ok(())
}

/// The nodes of some objects alone, and the entries that stand for them.
#[test]
fn subjects_alone_are_told(rt: HostRuntime) -> Result<(), Fail> {
    let image = image_of::<LittleEndian>(rt.alloc(), &PACKED)?;
    let mut subjects = BTreeSet::new(rt.alloc());
    let none = told::<LittleEndian>(rt.alloc(), &image, Some(&subjects), ALWAYS)?;
    equal(
        &rt,
        none.as_slice(),
        b"total live 0 superseded 0 deleted 0 deletion 0 unreached 0 obsolete 0\n".as_slice(),
    );
    subjects.insert(2).map_err(|_| "no memory")?;
    let of_file = told::<LittleEndian>(rt.alloc(), &image, Some(&subjects), ALWAYS)?;
    equal(&rt, of_file.as_slice(), OF_FILE.as_bytes());
    Ok(())
}

/// The nodes of some times alone: the entry has time 7, and the inode nodes have time 8.
#[test]
fn times_alone_are_told(rt: HostRuntime) -> Result<(), Fail> {
    let image = image_of::<LittleEndian>(rt.alloc(), &PACKED)?;
    for &(since, until, total) in TIMES.iter() {
        let text = told::<LittleEndian>(rt.alloc(), &image, None, Period { since, until })?;
        expect_at(&rt, text.as_slice().ends_with(total.as_bytes()), total);
    }
    Ok(())
}

/// A file, one that is deleted, and a number without nodes.
#[test]
fn objects_are_left(rt: HostRuntime) -> Result<(), Fail> {
    let image = image_of::<LittleEndian>(rt.alloc(), &PACKED)?;
    let mut numbers = BTreeSet::new(rt.alloc());
    for number in 2..5 {
        numbers.insert(number).map_err(|_| "no memory")?;
    }
    let text = left::<LittleEndian>(rt.alloc(), &image, &numbers)?;
    equal(&rt, text.as_slice(), OF_OBJECTS.as_bytes());
    Ok(())
}

/// A sink that fails has a beginning of the text.
#[test]
fn a_beginning_is_put(rt: HostRuntime) -> Result<(), Fail> {
    let image = image_of::<LittleEndian>(rt.alloc(), &PACKED)?;
    let words = words::<LittleEndian>(rt.alloc(), &image)?;
    let mut short = Taker::limited(rt.alloc(), 9, 70);
    let answer = put_history::<LittleEndian, _>(&image, GEOMETRY, &words, None, ALWAYS, &mut short);
    equal(&rt, answer, Err(HistoryFault::Output));
    let front = OF_FILE.as_bytes().get(..70).ok_or("short")?;
    expect(&rt, short.took(1, front));
    Ok(())
}

/// An image that cannot be scanned is refused, and nothing is put.
#[test]
fn unreadable_is_refused(rt: HostRuntime) -> Result<(), Fail> {
    let image = image_of::<LittleEndian>(rt.alloc(), &PACKED)?;
    let words = words::<LittleEndian>(rt.alloc(), &image)?;
    let mut sink = Taker::new(rt.alloc());
    let odd = Geometry { block: 4095 };
    let answer = put_history::<LittleEndian, _>(&image, odd, &words, None, ALWAYS, &mut sink);
    equal(&rt, answer, Err(HistoryFault::BlockSize));
    expect(&rt, sink.bytes.is_empty());
    Ok(())
}
