//! Operations of each kind, to which a growth may be refused: the call leaves all as it was, and
//! called again it does what it did not.

use crate::checks::equal;
use crate::steps::lines::BY;
use crate::steps::taking::take_once;
use crate::steps::trees::{GEOMETRY, small};
use byteorder::LittleEndian;
use jmount::{Mounted, mount};
use jsteps::{Index, Op, OpFault, Step, Text, plan};
use std::alloc::Global;
use test_operations::op_of;
use test_support::image_of;

/// Those at the end make names enough for a directory, and objects enough for an index, that are no
/// longer one node of a map.
fn lines() -> &'static [&'static str] {
    &[
        "mkdir /m 755",
        "create /d/e/f 600",
        "symlink /d/l ../a",
        "write /d/e/f 100 9000",
        "truncate /a 4",
        "truncate /a 400",
        "link /a /d/e/n",
        "rename /d /m/d",
        "rename /a /m/d/e/name-of-more-than-sixteen-bytes",
        "remove /q",
        "remove /m/d/l",
        "attr /m/d/e 700",
        "put /m/d/e/f 600 5000",
        "remove-if /m/d/e/n",
        "remove-if /m/d/e/n",
        "create /m/d/e/0 644",
        "create /m/d/e/1 644",
        "create /m/d/e/2 644",
        "create /m/d/e/3 644",
        "create /m/d/e/4 644",
        "create /m/d/e/5 644",
        "create /m/d/e/6 644",
        "create /m/d/e/7 644",
        "create /m/d/e/8 644",
        "create /m/d/e/9 644",
        "create /m/d/e/10 644",
        "create /m/d/e/11 644",
    ]
}

/// How many steps they have.
const STEPS: usize = 48;

/// Greater than the numbers of all objects.
const NUMBERS: u32 = 80;

fn paths() -> &'static [&'static str] {
    &[
        "/a",
        "/d",
        "/s",
        "/q",
        "/x",
        "/d/e",
        "/d/e/n",
        "/d/e/f",
        "/d/l",
        "/m",
        "/m/d",
        "/m/d/e",
        "/m/d/e/f",
        "/y",
        "/m/d/e/0",
        "/m/d/e/1",
        "/m/d/e/2",
        "/m/d/e/3",
        "/m/d/e/4",
        "/m/d/e/5",
        "/m/d/e/6",
        "/m/d/e/7",
        "/m/d/e/8",
        "/m/d/e/9",
        "/m/d/e/10",
        "/m/d/e/11",
    ]
}

/// Two indexes that have taken the same steps: what is refused to the one is seen beside the other.
#[derive(Drop)]
struct Pair {
    tried: Index,
    other: Index,
}

/// The directory that loses a name by the first of these steps.
fn cleared(steps: &[Step<'_>]) -> Option<(u32, Option<OpFault>)> {
    match steps.first() {
        Some(Step::ClearName { directory, .. }) => Some((*directory, None)),
        _ => None,
    }
}

/// How a removal of a path is answered: the directory that loses the name, or the refusal. None
/// where a growth is refused.
fn removal(alloc: Global, index: &Index, path: &str) -> Option<(u32, Option<OpFault>)> {
    let op = Op::Remove {
        time: 0,
        path: Text::lent(path.as_bytes()),
    };
    match plan(alloc, index, &op) {
        Ok(steps) => cleared(&steps),
        Err(OpFault::OutOfMemory) => None,
        Err(fault) => Some((0, Some(fault))),
    }
}

/// An index. One that is refused its memory is asked for again.
fn index_of(alloc: Global, mounted: &Mounted<'_>) -> Option<Index> {
    match Index::of(alloc, mounted) {
        Ok(index) => Some(index),
        Err(_) => Index::of(alloc, mounted).ok(),
    }
}

impl Pair {
    /// Whether the two show the same. None where a growth is refused.
    fn is_same(&self, alloc: Global) -> Option<bool> {
        let mut same = self.tried.next() == self.other.next();
        for ino in 0..NUMBERS {
            same = same
                && self.tried.object(ino) == self.other.object(ino)
                && self.tried.top(ino) == self.other.top(ino);
        }
        for &path in paths() {
            let tried = removal(alloc, &self.tried, path)?;
            same = same && tried == removal(alloc, &self.other, path)?;
        }
        Some(same)
    }

    /// The steps of an operation. Where a growth is refused, the index is as it was, and they are
    /// asked for again.
    fn steps<'a>(&self, alloc: Global, op: &'a Op<'_>) -> Option<Vec<Step<'a>>> {
        match plan(alloc, &self.tried, op) {
            Ok(steps) => Some(steps),
            Err(OpFault::OutOfMemory) if self.is_same(alloc) == Some(true) => {
                plan(alloc, &self.tried, op).ok()
            }
            Err(_) => None,
        }
    }

    /// Takes a step. Where a growth is refused, the index is as it was, and the step is taken
    /// again.
    fn take(&mut self, alloc: Global, step: &Step<'_>) -> Option<()> {
        if take_once(&mut self.tried, step)?.is_err() {
            if !self.is_same(alloc)? {
                return None;
            }
            take_once(&mut self.tried, step)?.ok()?;
        }
        if take_once(&mut self.other, step)?.is_err() {
            take_once(&mut self.other, step)?.ok()?;
        }
        Some(())
    }

    fn take_all(&mut self, alloc: Global, steps: &[Step<'_>]) -> Option<usize> {
        for step in steps {
            self.take(alloc, step)?;
        }
        Some(steps.len())
    }

    /// Takes an operation, and tells how many steps it has.
    fn take_op(&mut self, alloc: Global, op: &Op<'_>) -> Option<usize> {
        let steps = self.steps(alloc, op)?;
        self.take_all(alloc, &steps)
    }

    fn take_line(&mut self, alloc: Global, line: &str) -> Option<usize> {
        let op = op_of(line, BY)?;
        self.take_op(alloc, &op)
    }

    /// Takes all operations, and tells how many steps there were; none where something is not as it
    /// should be.
    fn take_lines(&mut self, alloc: Global) -> Option<usize> {
        let mut count = 0usize;
        for &line in lines() {
            count = count.wrapping_add(self.take_line(alloc, line)?);
        }
        // (a growth that is refused here is none of a call that is tried)
        if self.is_same(alloc).unwrap_or(true) {
            Some(count)
        } else {
            None
        }
    }
}

/// The same of two indexes of a mounted image.
fn steps_taken(alloc: Global, mounted: &Mounted<'_>) -> Option<usize> {
    let tried = index_of(alloc, mounted)?;
    let other = index_of(alloc, mounted)?;
    let mut pair = Pair { tried, other };
    pair.take_lines(alloc)
}

/// Passes with each allocation failing in turn too. Where the memory for the image or its mount is
/// refused, nothing is taken.
#[test]
fn refused_growth_of_operations(rt: HostRuntime) {
    let alloc = rt.alloc();
    let Ok(image) = image_of::<LittleEndian>(alloc, small()) else {
        return;
    };
    let Ok(mounted) = mount::<LittleEndian>(alloc, &image, GEOMETRY) else {
        return;
    };
    equal(&rt, steps_taken(alloc, &mounted), Some(STEPS));
}
