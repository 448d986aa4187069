//! The listing of a mounted image's tree, as `ls` prints it.

ghost use Rattle.std.specs.Prelude.{map, option_map};
ghost use Rattle.flashbase.specs.Sinks.{change_of};
ghost use Rattle.jreport.specs.TreeText.{PutsFrom, PutsPartAt, PutsTree, PutsTreeAt};
ghost use Rattle.jreport.specs.Walking.{GoesUp, LeadsToItem, PutsStep, PutsVisit};

use crate::faults::ProgramFault;
use crate::met::MetDirectories;
use crate::paths::names_of_path;
use crate::tree::put_object;
use flashbase::Sink;
use jmount::{FindFault, Kind, Mounted, ROOT};
use jname::Of;
use std::alloc::Global;
use std::mem;

/// Puts the line of an object, if there is one. Answers whether it is a directory that is met for
/// the first time.
fn visit<T: Sink>(
    mounted: &Mounted<'_>,
    path: &[&[u8]],
    ino: u32,
    met: &mut MetDirectories,
    sink: &mut T,
) -> Result<bool, ProgramFault<'static>>
    ensures { PutsVisit mounted.now.state met.old met.new (map (λ name. name.now) path.now, ino)
        (change_of T.Sink sink.old sink.new) result }
{
    let Some(object) = mounted.object(ino) else {
        return Ok(false);
    };
    if object.kind != Kind::Directory {
        put_object(mounted, path, ino, &object, false, sink)?;
        return Ok(false);
    }
    let is_first = met.meet(ino)?;
    put_object(mounted, path, ino, &object, !is_first, sink)?;
    Ok(is_first)
}

/// A walk through a tree, a directory before what lies in it.
#[derive(Drop)]
struct Walk<'m, 'a> {
    /// The names that lead to the directory that is read.
    path: Vec<&'m [u8]>,
    /// What is left of that directory.
    left: Of<'m, 'a>,
    /// What is left of the directories above it, from the root on.
    above: Vec<Of<'m, 'a>>,
    /// The directories that were met.
    met: MetDirectories,
}

impl<'m, 'a> Walk<'m, 'a> {
    /// Visits what the next name leads to, or goes up where there is none. Answers whether the walk
    /// goes on.
    fn step<T: Sink>(
        &mut self,
        mounted: &'m Mounted<'a>,
        sink: &mut T,
    ) -> Result<bool, ProgramFault<'static>>
        ensures { PutsStep mounted.now.state self.old self.new
            (change_of T.Sink sink.old sink.new) result }
    {
        let Some((name, ino)) = self.left.next() else {
            return Ok(self.go_up());
        };
        self.path.push(name)?;
        if visit(mounted, &self.path, ino, &mut self.met, sink)? {
            self.above
                .push(mem::replace(&mut self.left, mounted.entries(ino)))?;
        } else {
            self.path.pop();
        }
        Ok(true)
    }

    /// Goes back to the directory above, if there is one.
    fn go_up(&mut self) -> bool
        ensures { GoesUp self.old self.new result }
    {
        let Some(left) = self.above.pop() else {
            return false;
        };
        self.left = left;
        self.path.pop();
        true
    }
}

/// Puts the lines of an object, which these names lead to, and of what lies below it.
fn lines_from<'m, T: Sink>(
    alloc: Global,
    mounted: &'m Mounted<'_>,
    path: Vec<&'m [u8]>,
    ino: u32,
    sink: &mut T,
) -> Result<(), ProgramFault<'static>>
    requires { LeadsToItem mounted.now.state (map (λ name. name.now) path.items, ino) }
    ensures { PutsFrom mounted.now.state (map (λ name. name.now) path.entry.items, ino)
        (change_of T.Sink sink.old sink.new) result }
{
    let mut met = MetDirectories::new(alloc, mounted);
    if !visit(mounted, &path, ino, &mut met, sink)? {
        return Ok(());
    }
    let mut walk = Walk {
        path,
        left: mounted.entries(ino),
        above: Vec::new(alloc),
        met,
    };
    while walk.step(mounted, sink)? {}
    Ok(())
}

/// Puts a line for each object that a path leads to, a directory before what lies in it and each
/// name in byte order. A directory that was met before is put again, but not what lies in it. Takes
/// memory for the way to an object, and in a tree that has not its shape for the directories that
/// were met.
pub fn tree_lines<T: Sink>(
    alloc: Global,
    mounted: &Mounted<'_>,
    sink: &mut T,
) -> Result<(), ProgramFault<'static>>
    ensures { PutsTree mounted.now.state (change_of T.Sink sink.old sink.new) result }
{
    lines_from(alloc, mounted, Vec::new(alloc), ROOT, sink)
}

/// The same of the object that a path names, and of what lies below it: the lines that they have in
/// the whole tree.
///
/// # Errors
/// `Path`: the path names nothing, and nothing was put.
pub fn put_subtree<T: Sink>(
    alloc: Global,
    mounted: &Mounted<'_>,
    path: &[u8],
    sink: &mut T,
) -> Result<(), ProgramFault<'static>>
    ensures { PutsPartAt mounted.now.state path.now (change_of T.Sink sink.old sink.new) result }
{
    let ino = mounted.find(path)?;
    let Some(names) = names_of_path(alloc, path)? else {
        return Err(ProgramFault::Path(FindFault::BadPath));
    };
    lines_from(alloc, mounted, names, ino, sink)
}

/// The one or the other.
pub(crate) fn lines_at<T: Sink>(
    alloc: Global,
    mounted: &Mounted<'_>,
    path: Option<&[u8]>,
    sink: &mut T,
) -> Result<(), ProgramFault<'static>>
    ensures { PutsTreeAt mounted.now.state (option_map (λ p. p.now) path.entry)
        (change_of T.Sink sink.old sink.new) result }
{
    match path {
        Some(path) => put_subtree(alloc, mounted, path, sink),
        None => tree_lines(alloc, mounted, sink),
    }
}
