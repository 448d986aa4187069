//! The walk through two trees at once.

ghost use Rattle.std.specs.Prelude.{◌≡◌, OnOk, map};
ghost use Rattle.jdiff.specs.Compared.{AreCompared};
ghost use Rattle.jdiff.specs.Differing.{PutsDifferences};
ghost use Rattle.jdiff.specs.Walking.{PairGoesUp, PutsPairStep, PutsSpot};
ghost use Rattle.flashbase.specs.Sinks.{change_of};

use crate::compared::{Compared, place_of};
use crate::comparing::Comparing;
use crate::found::{directory_of, look};
use crate::pair::Pair;
use crate::spot::{Trees, put_changes};
use flashbase::Sink;
use jmount::{Mounted, ROOT};
use jreport::{MetDirectories, ProgramFault};
use std::alloc::Global;
use std::collections::BTreeMap;
use std::mem;

/// What came of a path: how many lines went out, and the directories whose names come next.
#[derive(Clone, Copy)]
struct Visited {
    lines: u64,
    left: Option<u32>,
    right: Option<u32>,
}

/// A path, and the number that it leads to in each tree, if it does.
type Spot<'s, 'm> = (&'s [&'m [u8]], Option<u32>, Option<u32>);

/// Puts the lines on what a path leads to in both trees, by its numbers there.
fn visit<T: Sink>(
    trees: &Trees<'_, '_>,
    spot: Spot<'_, '_>,
    met_left: &mut MetDirectories,
    met_right: &mut MetDirectories,
    compared: &mut Compared,
    sink: &mut T,
) -> Result<Visited, ProgramFault<'static>>
    requires { AreCompared trees.now.left.now.state trees.now.right.now.state compared.old }
    ensures puts { PutsSpot trees.now.how trees.now.left.now.state trees.now.right.now.state
        (record { left = met_left.old; right = met_right.old })
        (record { left = met_left.new; right = met_right.new })
        (map (λ name. name.now) spot.entry.0.now, spot.entry.1, spot.entry.2)
        (change_of T.Sink sink.old sink.new) result }
    ensures known { OnOk result
        (AreCompared trees.now.left.now.state trees.now.right.now.state compared.new) }
{
    let left = look(trees.left, spot.1, met_left)?;
    let right = look(trees.right, spot.2, met_right)?;
    let place = place_of(trees, &left, &right, compared)?;
    let lines = put_changes(trees, spot.0, left, right, place, sink)?;
    Ok(Visited {
        lines,
        left: directory_of(left),
        right: directory_of(right),
    })
}

/// A walk through two trees, a directory before what lies in it.
#[derive(Drop)]
struct Walk<'m, 'a> {
    /// The names that lead to the directories that are read.
    path: Vec<&'m [u8]>,
    /// What is left of them.
    left: Pair<'m, 'a>,
    /// What is left of the directories above them, from the root on.
    above: Vec<Pair<'m, 'a>>,
    /// The directories of each tree that were met.
    met_left: MetDirectories,
    met_right: MetDirectories,
    /// Where the bytes of pairs that were compared differ.
    compared: Compared,
}

impl<'m, 'a> Walk<'m, 'a> {
    /// Visits what the next name leads to, or goes up where there is none. Answers how many lines
    /// went out, or `None` where the walk is at its end.
    fn step<T: Sink>(
        &mut self,
        trees: &Trees<'m, 'a>,
        sink: &mut T,
    ) -> Result<Option<u64>, ProgramFault<'static>>
        requires { AreCompared trees.now.left.now.state trees.now.right.now.state
            self.old.compared }
        ensures puts { PutsPairStep trees.now.how trees.now.left.now.state
            trees.now.right.now.state self.old self.new (change_of T.Sink sink.old sink.new)
            result }
        ensures known { OnOk result (AreCompared trees.now.left.now.state
            trees.now.right.now.state self.new.compared) }
    {
        let Some((name, left, right)) = self.left.next() else {
            return Ok(self.go_up());
        };
        self.path.push(name)?;
        let seen = visit(
            trees,
            (&self.path, left, right),
            &mut self.met_left,
            &mut self.met_right,
            &mut self.compared,
            sink,
        )?;
        let below = Pair::new(trees.left, seen.left, trees.right, seen.right);
        self.above.push(mem::replace(&mut self.left, below))?;
        Ok(Some(seen.lines))
    }

    /// Goes back to the directories above, if there are any.
    fn go_up(&mut self) -> Option<u64>
        ensures up { PairGoesUp self.old self.new result }
        ensures known { self.new.compared ≡ self.old.compared }
    {
        let left = self.above.pop()?;
        self.left = left;
        self.path.pop();
        Some(0)
    }
}

/// Puts a line for each path at which two trees differ, in order of their paths, name by name and
/// each in byte order, a directory before what lies in it: `- ` and a line as of `ls` where only
/// the left one has it, `+ ` where only the right one does, both where kind, permissions, owner,
/// group, size or target differ, or with `times` the time of change, and `* ` where only the bytes
/// do. A further line says where the numbers of devices differ, as `* /null device 1:3 to 1:5`. A
/// directory that was met before is not entered. Answers how many lines there are, or the greatest
/// u64. The bytes of two objects are compared once, however many names lead to both. Takes memory
/// for the way to an object, for pairs of objects that both have several names, and of a tree that
/// has not its shape for the directories that were met.
pub fn put_differences<'m, 'a, T: Sink>(
    alloc: Global,
    left: &'m Mounted<'a>,
    right: &'m Mounted<'a>,
    how: Comparing,
    sink: &mut T,
) -> Result<u64, ProgramFault<'static>>
    ensures { PutsDifferences how left.now.state right.now.state (T.taken sink.old)
        (T.taken sink.new) (T.failures sink.old) (T.failures sink.new) result }
{
    let trees = Trees { left, right, how };
    let mut met_left = MetDirectories::new(alloc, left);
    let mut met_right = MetDirectories::new(alloc, right);
    let mut compared = BTreeMap::new(alloc);
    let root: Spot<'_, '_> = (&[], Some(ROOT), Some(ROOT));
    let seen = visit(
        &trees,
        root,
        &mut met_left,
        &mut met_right,
        &mut compared,
        sink,
    )?;
    let mut lines = seen.lines;
    let mut walk = Walk {
        path: Vec::new(alloc),
        left: Pair::new(left, seen.left, right, seen.right),
        above: Vec::new(alloc),
        met_left,
        met_right,
        compared,
    };
    while let Some(more) = walk.step(&trees, sink)? {
        lines = lines.saturating_add(more);
    }
    Ok(lines)
}
