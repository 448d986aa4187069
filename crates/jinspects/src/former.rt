//! The objects that a path ever named.
ghost use Rattle.std.specs.Prelude.{◌≡◌, ◌==◌, ◌||◌, ◌↔◌, ℕ, IfErr, IfOk, IsTrue, OnOk, map};
ghost use Rattle.std.specs.BTreeSet.{contains};
ghost use Rattle.std.specs.Ordering.{nat_cmp};
ghost use Rattle.jmount.specs.Find.{path_text};
ghost use Rattle.jinspects.specs.Former.{AreFormer, AreFormerIn, IsFormerBehind, IsNoFormer, IsNoneBehind, TellsPath, gives_name, is_name_given};
ghost use Rattle.jnode.specs.declared.node.NodeRef.TheVariants.{Entry};

use flashbase::Part;
use jedge::fault::Fault;
use jextract::push_names;
use jmount::{FindFault, Mounted, ROOT};
use jnode::{Dirent, NodeRef};
use jreport::{ProgramFault, names_of_path};
use std::alloc::{AllocError, Global};
use std::collections::BTreeSet;

/// Whether a name has these bytes.
fn is_name(part: &Part<'_>, name: &[u8]) -> bool
    ensures { IsTrue result ↔ (part.now ≡ name.now) }
{
    if part.len() != name.len() {
        return false;
    }
    for i in 0..name.len() {
        if part.get(i) != name.get(i).copied() {
            return false;
        }
    }
    true
}

/// Whether an entry gives a name of a directory to an object.
fn is_name_given(entry: &Dirent<'_>, dir: u32, name: &[u8]) -> bool
    ensures { result ≡ is_name_given dir name.now entry.now }
{
    entry.pino == dir && entry.ino != 0 && is_name(&entry.name, name)
}

/// Adds the number of the object that an entry gives a name of a directory to.
fn add_entry(
    numbers: &mut BTreeSet<u32>,
    dir: u32,
    name: &[u8],
    entry: &Dirent<'_>,
) -> Result<(), AllocError>
    ensures { OnOk result ((i : ℕ) → contains nat_cmp numbers.new i
        ≡ (contains nat_cmp numbers.old i || gives_name dir name.now i (Entry entry.now))) }
{
    if is_name_given(entry, dir, name) {
        numbers.insert(entry.ino)?;
    }
    Ok(())
}

/// The same of a node, which may be no entry.
fn add_named(
    numbers: &mut BTreeSet<u32>,
    dir: u32,
    name: &[u8],
    node: &NodeRef<'_>,
) -> Result<(), AllocError>
    ensures { OnOk result ((i : ℕ) → contains nat_cmp numbers.new i
        ≡ (contains nat_cmp numbers.old i || gives_name dir name.now i node.now)) }
{
    match node {
        NodeRef::Entry(entry) => add_entry(numbers, dir, name, entry),
        NodeRef::Inode(_) => Ok(()),
    }
}

/// The numbers of the objects that ever had a name of a directory.
fn former_in(
    alloc: Global,
    nodes: &[(u32, NodeRef<'_>)],
    dir: u32,
    name: &[u8],
) -> Result<BTreeSet<u32>, AllocError>
    ensures { IfOk result (AreFormerIn nodes.now dir name.now) }
{
    let mut numbers = BTreeSet::new(alloc);
    for node in nodes {
        add_named(&mut numbers, dir, name, &node.1)?;
    }
    Ok(numbers)
}

/// The text of the path of these names.
fn text_of(alloc: Global, names: &[&[u8]]) -> Result<Vec<u8>, AllocError>
    ensures { IfOk result (λ text. text.items ≡ path_text (map (λ n. n.now) names.now)) }
{
    let mut text = Vec::new(alloc);
    if names.is_empty() {
        text.push(b'/')?;
        return Ok(text);
    }
    push_names(&mut text, names)?;
    Ok(text)
}

/// The fault of a path that never named anything.
fn never(why: FindFault) -> Fault
    ensures { result ≡ Fault.Refused (ProgramFault.Path why) }
{
    Fault::Refused(ProgramFault::Path(why))
}

/// The numbers of the objects that ever had the last name of a path, behind the others.
fn former_behind(
    alloc: Global,
    mounted: &Mounted<'_>,
    nodes: &[(u32, NodeRef<'_>)],
    front: &[&[u8]],
    last: &[u8],
) -> Result<BTreeSet<u32>, Fault>
    ensures ok { IfOk result (IsFormerBehind nodes.now mounted.now.state
        (map (λ n. n.now) front.now) last.now) }
    ensures err { IfErr result (TellsPath (IsNoneBehind nodes.now mounted.now.state
        (map (λ n. n.now) front.now) last.now)) }
{
    let folder = match text_of(alloc, front) {
        Ok(folder) => folder,
        Err(_) => return Err(Fault::OutOfMemory),
    };
    let dir = match mounted.find(folder.as_slice()) {
        Ok(dir) => dir,
        Err(why) => return Err(never(why)),
    };
    match former_in(alloc, nodes, dir, last) {
        Ok(numbers) => {
            if numbers.is_empty() {
                return Err(never(FindFault::NotFound));
            }
            Ok(numbers)
        }
        Err(_) => Err(Fault::OutOfMemory),
    }
}

/// The number of the root alone.
fn root_alone(alloc: Global) -> Result<BTreeSet<u32>, Fault>
    ensures ok { IfOk result (λ numbers. (i : ℕ) → contains nat_cmp numbers i ≡ (i == 1)) }
    ensures err { IfErr result (λ f. f ≡ Fault.OutOfMemory) }
{
    let mut numbers = BTreeSet::new(alloc);
    match numbers.insert(ROOT) {
        Ok(_) => Ok(numbers),
        Err(_) => Err(Fault::OutOfMemory),
    }
}

/// The numbers of the objects that a path ever named, by the nodes that a mounted image is made of:
/// of the root its own; of any other path those that an entry gave its last name to, in the
/// directory that the names before it lead to.
///
/// # Errors
/// `Path`: the text is no path, or its directory is not there, or no entry ever gave the name.
pub(crate) fn former_of(
    alloc: Global,
    mounted: &Mounted<'_>,
    nodes: &[(u32, NodeRef<'_>)],
    path: &[u8],
) -> Result<BTreeSet<u32>, Fault>
    ensures ok { IfOk result (AreFormer nodes.now mounted.now.state path.now) }
    ensures err { IfErr result (TellsPath (IsNoFormer nodes.now mounted.now.state path.now)) }
{
    let names = match names_of_path(alloc, path) {
        Ok(Some(names)) => names,
        Ok(None) => return Err(never(FindFault::BadPath)),
        Err(_) => return Err(Fault::OutOfMemory),
    };
    match names.split_last() {
        Some((last, front)) => former_behind(alloc, mounted, nodes, front, last),
        None => root_alone(alloc),
    }
}
