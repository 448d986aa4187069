//! Folders that refuse, files that take little, and notes that fail.

use crate::checks::{equal, expect};
use crate::extract::images::{LARGE, PLAIN, image_of};
use crate::extract::recorder::{Recorder, is_made_once};
use byteorder::LittleEndian;
use flashbase::FromWriter;
use jextract::{ExtractFault, FolderFault, Totals, extract};
use jmount::{Mounted, mount};
use std::alloc::Global;
use std::process::Abort;
use std::test::Fail;
use test_support::{FILE, Node, Taker};

/// The call that is refused, what is made, and what is told.
type Row = (u64, &'static str, &'static str);

/// The directory `/d`, its file, or the bytes of that are refused.
fn below_d() -> &'static [Row] {
    &[
        (
            1,
            "directory \n\
              symlink s /d/f 777 7 5\n\
              file t\n\
              content t [hi] 755 7 5\n\
              link u s\n\
              attributes  755 0 0\n",
            "left out /d: the host refused it\nleft out /x: no inode\n",
        ),
        (
            2,
            "directory \ndirectory d\n\
              attributes d 1700 7 5\n\
              symlink s /d/f 777 7 5\n\
              file t\n\
              content t [hi] 755 7 5\n\
              link u s\n\
              attributes  755 0 0\n",
            "left out /d/f: the host refused it\nleft out /x: no inode\n",
        ),
        (
            3,
            "directory \ndirectory d\n\
              file d/f\n\
              attributes d 1700 7 5\n\
              symlink s /d/f 777 7 5\n\
              file t\n\
              content t [hi] 755 7 5\n\
              link u s\n\
              attributes  755 0 0\n",
            "left out /d/f: the host refused it\nleft out /x: no inode\n",
        ),
    ]
}

/// The attributes of `/d` are refused, `/s` or `/t`.
fn from_d_on() -> &'static [Row] {
    &[
        (
            4,
            "directory \ndirectory d\n\
              file d/f\n\
              content d/f [hi] 755 7 5\n\
              symlink s /d/f 777 7 5\n\
              link t d/f\n\
              link u s\n\
              attributes  755 0 0\n",
            "left out /d: the host refused it\nleft out /x: no inode\n",
        ),
        (
            5,
            "directory \ndirectory d\n\
              file d/f\n\
              content d/f [hi] 755 7 5\n\
              attributes d 1700 7 5\n\
              link t d/f\n\
              symlink u /d/f 777 7 5\n\
              attributes  755 0 0\n",
            "left out /s: the host refused it\nleft out /x: no inode\n",
        ),
        (
            6,
            "directory \ndirectory d\n\
              file d/f\n\
              content d/f [hi] 755 7 5\n\
              attributes d 1700 7 5\n\
              symlink s /d/f 777 7 5\n\
              link u s\n\
              attributes  755 0 0\n",
            "left out /t: the host refused it\nleft out /x: no inode\n",
        ),
    ]
}

/// `/u` is refused, the attributes of the root, or nothing.
fn last() -> &'static [Row] {
    &[
        (
            7,
            "directory \ndirectory d\n\
              file d/f\n\
              content d/f [hi] 755 7 5\n\
              attributes d 1700 7 5\n\
              symlink s /d/f 777 7 5\n\
              link t d/f\n\
              attributes  755 0 0\n",
            "left out /u: the host refused it\nleft out /x: no inode\n",
        ),
        (
            8,
            "directory \ndirectory d\n\
              file d/f\n\
              content d/f [hi] 755 7 5\n\
              attributes d 1700 7 5\n\
              symlink s /d/f 777 7 5\n\
              link t d/f\n\
              link u s\n",
            "left out /x: no inode\nleft out /: the host refused it\n",
        ),
        (
            9,
            "directory \ndirectory d\n\
              file d/f\n\
              content d/f [hi] 755 7 5\n\
              attributes d 1700 7 5\n\
              symlink s /d/f 777 7 5\n\
              link t d/f\n\
              link u s\n\
              attributes  755 0 0\n",
            "left out /x: no inode\n",
        ),
    ]
}

/// Stops the test unless a refusal at a call is told so.
fn is_told(rt: &impl Abort, alloc: Global, mounted: &Mounted<'_>, row: &Row) -> Result<(), Fail> {
    let (calls, made, told) = *row;
    let mut folder = Recorder::new(alloc, calls, u64::MAX);
    let mut notes = FromWriter::new(Vec::new(alloc));
    let answer = extract(alloc, mounted, false, &mut folder, &mut notes);
    let refused = u64::from(calls < 9);
    let left_out = refused.wrapping_add(1);
    // Only `/d/f`, which is `/t` too, has a bit to lose.
    let lost_bits = 1;
    let totals = Totals {
        left_out,
        lost_bits,
    };
    equal(rt, answer, Ok(totals));
    equal(rt, (folder.failures, folder.full), (refused, 0));
    equal(rt, folder.lines.as_str(), made);
    expect(rt, is_made_once(alloc, folder.lines.as_str())?);
    equal(rt, notes.into_writer().as_slice(), told.as_bytes());
    Ok(())
}

fn are_told(
    rt: &impl Abort,
    alloc: Global,
    mounted: &Mounted<'_>,
    rows: &[Row],
) -> Result<(), Fail> {
    for row in rows {
        is_told(rt, alloc, mounted, row)?;
    }
    Ok(())
}

#[test]
fn a_refusal_at_each_call(rt: HostRuntime) -> Result<(), Fail> {
    let image = image_of(rt.alloc(), PLAIN)?;
    let mounted = mount::<LittleEndian>(rt.alloc(), &image, LARGE)?;
    for rows in [below_d(), from_d_on(), last()] {
        are_told(&rt, rt.alloc(), &mounted, rows)?;
    }
    Ok(())
}

/// Stops the test unless a host that has no room at this call ends the work.
fn ends(rt: &impl Abort, alloc: Global, mounted: &Mounted<'_>, calls: u64) {
    let mut folder = Recorder::new(alloc, calls, u64::MAX);
    folder.failure = FolderFault::NoSpace;
    let mut notes = FromWriter::new(Vec::new(alloc));
    let answer = extract(alloc, mounted, false, &mut folder, &mut notes);
    equal(rt, answer, Err(ExtractFault::NoSpace));
    equal(rt, (folder.failures, folder.full), (0, 1));
    let lines = folder.lines.split('\n').count();
    equal(rt, lines as u64, calls.saturating_add(1));
    // The last call comes after the name that leads nowhere.
    let told = if calls < 8 {
        ""
    } else {
        "left out /x: no inode\n"
    };
    equal(rt, notes.into_writer().as_slice(), told.as_bytes());
}

/// A host that has no room ends the work, at whichever call that is, and nothing more is told.
#[test]
fn no_space_at_each_call(rt: HostRuntime) -> Result<(), Fail> {
    let image = image_of(rt.alloc(), PLAIN)?;
    let mounted = mount::<LittleEndian>(rt.alloc(), &image, LARGE)?;
    for calls in 0..9 {
        ends(&rt, rt.alloc(), &mounted, calls);
    }
    Ok(())
}

/// What comes of a folder that refuses itself.
#[test]
fn a_folder_that_is_refused(rt: HostRuntime) -> Result<(), Fail> {
    let image = image_of(rt.alloc(), PLAIN)?;
    let mounted = mount::<LittleEndian>(rt.alloc(), &image, LARGE)?;
    let mut folder = Recorder::new(rt.alloc(), 0, u64::MAX);
    let mut notes = FromWriter::new(Vec::new(rt.alloc()));
    let answer = extract(rt.alloc(), &mounted, false, &mut folder, &mut notes);
    equal(&rt, answer, Err(ExtractFault::Folder));
    expect(&rt, folder.lines.is_empty() && folder.failures == 1);
    expect(&rt, notes.into_writer().is_empty());
    Ok(())
}

/// How a file fails, the answer, what was made, and the notes.
type Failure = (
    FolderFault,
    Result<Totals, ExtractFault>,
    &'static str,
    &'static str,
);

fn failures() -> &'static [Failure] {
    &[
        (
            FolderFault::Refused,
            Ok(Totals {
                left_out: 1,
                lost_bits: 0,
            }),
            "directory \nfile a\nfile b\ncontent b [12345] 644 7 5\nattributes  755 0 0\n",
            "left out /a: the host refused it\n",
        ),
        (
            FolderFault::NoSpace,
            Err(ExtractFault::NoSpace),
            "directory \nfile a\n",
            "",
        ),
        (
            FolderFault::OutOfMemory,
            Err(ExtractFault::OutOfMemory),
            "directory \nfile a\n",
            "",
        ),
    ]
}

/// Stops the test unless this comes of a file that fails.
fn fails(rt: &impl Abort, alloc: Global, mounted: &Mounted<'_>, failure: &Failure) {
    let (fault, wanted, lines, told) = *failure;
    let mut folder = Recorder::new(alloc, u64::MAX, 1);
    folder.failure = fault;
    let mut notes = FromWriter::new(Vec::new(alloc));
    let answer = extract(alloc, mounted, false, &mut folder, &mut notes);
    equal(rt, answer, wanted);
    equal(rt, folder.lines.as_str(), lines);
    equal(rt, notes.into_writer().as_slice(), told.as_bytes());
}

/// A file that fails is given up, and no other; one that has no room ends the work.
#[test]
fn a_file_that_fails(rt: HostRuntime) -> Result<(), Fail> {
    let long = [b'x'; 4097];
    let nodes = [
        Node::Inode(2, FILE, &long),
        Node::Inode(3, FILE, b"12345"),
        Node::Entry(1, 2, b"a"),
        Node::Entry(1, 3, b"b"),
    ];
    let image = image_of(rt.alloc(), &nodes)?;
    let mounted = mount::<LittleEndian>(rt.alloc(), &image, LARGE)?;
    for failure in failures() {
        fails(&rt, rt.alloc(), &mounted, failure);
    }
    Ok(())
}

/// Stops the test unless notes that fail once they took this stop the work.
fn stops(rt: &impl Abort, alloc: Global, mounted: &Mounted<'_>, taken: &[u8], is_silent: bool) {
    let mut folder = Recorder::new(alloc, u64::MAX, u64::MAX);
    let mut notes = Taker::failing(alloc, 1, taken.len(), is_silent);
    let answer = extract(alloc, mounted, false, &mut folder, &mut notes);
    equal(rt, answer, Err(ExtractFault::Notes));
    expect(rt, notes.took(1, taken));
    equal(rt, folder.lines.as_str(), "directory \n");
}

/// Notes that fail once after so many bytes, by an Err or by taking nothing, took exactly them.
#[test]
fn notes_that_fail(rt: HostRuntime) -> Result<(), Fail> {
    let nodes = [Node::Inode(2, 0o010600, b""), Node::Entry(1, 2, b"p")];
    let image = image_of(rt.alloc(), &nodes)?;
    let mounted = mount::<LittleEndian>(rt.alloc(), &image, LARGE)?;
    let told = b"left out /p: FIFO\n";
    for limit in 0..told.len() {
        stops(&rt, rt.alloc(), &mounted, &told[..limit], false);
        stops(&rt, rt.alloc(), &mounted, &told[..limit], true);
    }
    Ok(())
}
