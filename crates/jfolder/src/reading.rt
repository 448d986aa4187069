//! Reading a folder of the host.

ghost use Rattle.std.specs.Prelude.{◌≡◌, ◌≢◌, ◌∷◌, ◌++◌, ◌⊎◌, [], true, length, map, reverse, All, Err, IfErr, IfNone, IfOk, IfSome, IsFalse, IsOk, IsPermutation, IsSome, IsSomeAnd, IsTrue, None};
ghost use Rattle.std.specs.List.Sorted.{IsSorted};
ghost use Rattle.std.specs.String.{string_bytes, string_cmp};
ghost use Rattle.jfolder.specs.Actions.{AttributesFit, FitsListing, IsRooted, ItemFits};
ghost use Rattle.jfolder.specs.Complete.{StaysCovered, NamesFit, child, children, children_of, left_paths, unnamed_paths};
ghost use Rattle.jfolder.specs.Known.{MayAnswer, inside, named_of};
ghost use Rattle.jfolder.specs.Links.{AreLinked, FirstsFit, HasOtherNames, IsFirst, LinksFit, Remembers, WalkLinks, id_of};
ghost use Rattle.jfolder.specs.Notes.{Tells, TellsMore};
ghost use Rattle.jfolder.specs.Objects.{AreOne, HasObject, IsObjectTold, IsOfKind, kind_bits};
ghost use Rattle.jfolder.specs.Reasons.{ComesAgain, IsRefusal, IsRight, IsRootWhy, IsUnlisted, IsUnlistedIn, IsUnnamed, IsWrongChild, IsWrongText, SkipsFor};
ghost use Rattle.jfolder.specs.SoFar.{LeadsOn, SomeUnlisted, SomeUnlistedIn, SomeUnnamed, SomeWrong};
ghost use Rattle.jfolder.specs.Trees.{IsRegular, IsTree, Rise};
ghost use Rattle.jfolder.specs.WalkOrder.{Ascend, InOrder, IsAdded, IsInTurn};
ghost use Rattle.jfolder.specs.Walking.{FoundFits, HasOptions, IsChild, IsFileOf, IsItemTold, IsMore, IsPending, IsShortName, IsToldAt, WalkFits, comes_next, item_of};
ghost use Rattle.flashbase.specs.Sinks.{change_of};

use crate::fault::{FolderFault, ReadFault};
use crate::found::{
    Found, Options, Skip, attributes_of, first_found, identity_of, link_to, not_directory,
};
use crate::host::{HostFolder, Looked, Names};
use crate::notes::{leave_out, refuse_folder};
use crate::order::is_before;
use crate::reason::Reason;
use crate::tree::{Attributes, Item, What};
use flashbase::Sink;
use jmount::is_name;
use std::alloc::{AllocError, Global};
use std::collections::BTreeMap;

/// The most bytes of a name.
const MAX_NAME: usize = 254;

/// A folder that was read: its own attributes, what lies in it, and how many lines tell what was
/// left out, modulo 2^64.
#[derive(Drop)]
pub struct FolderTree {
    pub root: Attributes,
    pub items: Vec<Item>,
    pub left_out: u64,
}

/// A walk through a folder.
#[derive(Drop)]
struct Walk {
    items: Vec<Item>,
    /// The first item of each regular file that has other names.
    firsts: BTreeMap<(u64, u64), usize>,
    /// The paths that are still to visit, the next one last.
    pending: Vec<String>,
    left_out: u64,
}

/// Why a name is none of a listing.
fn wrong_name(name: &[u8]) -> Option<Reason>
    ensures none { IfNone result (IsShortName name.now) }
    ensures why { IfSome result (IsWrongText name.now) }
{
    if name.len() > MAX_NAME {
        return Some(Reason::LongName);
    }
    if !is_name(name) {
        return Some(Reason::BadName);
    }
    None
}

/// The path of a name in a directory.
fn joined(alloc: Global, directory: &str, name: &str) -> Result<String, AllocError>
    ensures { IfOk result (λ path. string_bytes path ≡ directory.now ++ 47 ∷ name.now) }
{
    let length = directory.len().saturating_add(name.len()).saturating_add(1);
    let mut path = String::with_capacity(alloc, length)?;
    path.push_str(directory)?;
    path.push_str("/")?;
    path.push_str(name)?;
    Ok(path)
}

/// A path as the host is asked for it: without the slash that it begins with.
fn inside(path: &str) -> Option<&str>
    ensures rooted { IsSome result → IsRooted path.now }
    ensures rest { IfSome result (λ rest. rest.now ≡ inside path.now) }
    ensures none { IfNone result (IsRooted path.now → ⊥) }
{
    path.strip_prefix("/")
}

/// Whether the host tells at the first path of an object what it told at another one: names of one
/// object. Where it refuses to tell, they are not.
fn is_one<F: HostFolder>(folder: &mut F, first: &str, looked: &Looked) -> Result<bool, Skip>
    ensures one { IfOk result (λ one. IsTrue one → IfSome
        ((F.known folder.old).looked (inside first.now)) (λ told. AreOne told looked.now)) }
    ensures seen { IfOk result
        (λ one. IsTrue one → MayAnswer ((F.known folder.old).is_told (inside first.now)) true) }
    ensures every { IfOk result (λ one. IsRooted first.now
        → IfSome ((F.known folder.old).looked (inside first.now))
        (λ told. AreOne told looked.now → IsTrue one)) }
    ensures none { IfErr result (SkipsFor (λ _. ⊥)) }
    ensures memory { IsTrue (F.known folder.old).has_memory → IsOk result }
    ensures kept { F.known folder.new ≡ F.known folder.old }
{
    let Some(rest) = inside(first) else {
        return Ok(false);
    };
    match folder.look(rest) {
        Ok(told) => Ok(told.device == looked.device && told.number == looked.number),
        Err(FolderFault::OutOfMemory) => Err(Skip::OutOfMemory),
        Err(_) => Ok(false),
    }
}

/// Adds the path of a name in a directory, or tells that it is left out.
fn add_child<N: Sink>(
    alloc: Global,
    directory: &str,
    name: &str,
    paths: &mut Vec<String>,
    notes: &mut N,
    left_out: &mut u64,
) -> Result<(), ReadFault>
    requires { All (λ path. IsChild directory.now (string_bytes path)) paths.old.items }
    ensures paths { IfOk result
        (λ _. All (λ path. IsChild directory.now (string_bytes path)) paths.new.items) }
    ensures added { IfOk result (λ _. IsAdded directory.now name.now
        (map string_bytes paths.old.items) (map string_bytes paths.new.items)) }
    ensures told { TellsMore
        (λ _ lefts. (map string_bytes paths.old.items ++ child directory.now name.now ∷ []
        ≡ map string_bytes paths.new.items ++ left_paths lefts)
        × All (IsWrongChild directory.now (name.now ∷ [])) lefts)
        (SomeWrong directory.now (name.now ∷ []))
        (change_of N.Sink notes.old notes.new)
        left_out.old left_out.new result }
{
    let _count = *left_out;
    let path = joined(alloc, directory, name)?;
    match wrong_name(name.as_bytes()) {
        Some(reason) => leave_out(notes, left_out, path.as_bytes(), reason),
        None => {
            paths.push(path)?;
            Ok(())
        }
    }
}

/// Tells that so many names in a directory are left out, since they are no text. One line is for
/// all of them.
fn leave_out_others<N: Sink>(
    alloc: Global,
    directory: &str,
    others: u64,
    notes: &mut N,
    left_out: &mut u64,
) -> Result<(), ReadFault>
    ensures { TellsMore (λ _ lefts. (left_paths lefts ≡ unnamed_paths directory.now others)
        × All (IsUnnamed directory.now others) lefts)
        (SomeUnnamed directory.now others)
        (change_of N.Sink notes.old notes.new)
        left_out.old left_out.new result }
{
    let _count = *left_out;
    if others == 0 {
        return Ok(());
    }
    let unnamed = joined(alloc, directory, "")?;
    leave_out(notes, left_out, unnamed.as_bytes(), Reason::Unnamed(others))
}

/// The paths of these names in a directory, in byte order as the names are.
fn paths_of<N: Sink>(
    alloc: Global,
    directory: &str,
    names: &[String],
    notes: &mut N,
    left_out: &mut u64,
) -> Result<Vec<String>, ReadFault>
    requires { IsSorted string_cmp names.now }
    ensures paths { IfOk result
        (λ paths. All (λ path. IsChild directory.now (string_bytes path)) paths.items) }
    ensures order { IfOk result (λ paths. Ascend (map string_bytes paths.items)) }
    ensures told { TellsMore (λ paths lefts. IsPermutation
        (map (λ name. child directory.now (string_bytes name)) names.now)
        (map string_bytes paths.items ++ left_paths lefts)
        × All (IsWrongChild directory.now (map string_bytes names.now)) lefts)
        (SomeWrong directory.now (map string_bytes names.now))
        (change_of N.Sink notes.old notes.new)
        left_out.old left_out.new result }
{
    let _count = *left_out;
    let mut paths = Vec::new(alloc);
    for name in names {
        add_child(alloc, directory, name.as_str(), &mut paths, notes, left_out)?;
    }
    Ok(paths)
}

/// The paths of the names in a directory, which are in byte order. Those that a listing cannot have
/// are left out.
fn sorted_children<N: Sink>(
    alloc: Global,
    directory: &str,
    names: &Names,
    notes: &mut N,
    left_out: &mut u64,
) -> Result<Vec<String>, ReadFault>
    requires { IsSorted string_cmp names.now.texts.items }
    ensures paths { IfOk result
        (λ paths. All (λ path. IsChild directory.now (string_bytes path)) paths.items) }
    ensures order { IfOk result (λ paths. Ascend (map string_bytes paths.items)) }
    ensures told { TellsMore
        (λ paths lefts. IsPermutation (children directory.now (named_of names.now))
        (map string_bytes paths.items ++ left_paths lefts)
        × All (IsUnlisted directory.now (named_of names.now)) lefts)
        (SomeUnlisted directory.now (named_of names.now))
        (change_of N.Sink notes.old notes.new)
        left_out.old left_out.new result }
{
    leave_out_others(alloc, directory, names.others, notes, left_out)?;
    paths_of(alloc, directory, names.texts.as_slice(), notes, left_out)
}

/// The paths of the names in a directory, in byte order. Names that a listing cannot have are left
/// out.
fn children<N: Sink>(
    alloc: Global,
    directory: &str,
    mut names: Names,
    notes: &mut N,
    left_out: &mut u64,
) -> Result<Vec<String>, ReadFault>
    ensures paths { IfOk result
        (λ paths. All (λ path. IsChild directory.now (string_bytes path)) paths.items) }
    ensures order { IfOk result (λ paths. Ascend (map string_bytes paths.items)) }
    ensures told { TellsMore (λ paths lefts. IsPermutation (children directory.now (named_of names))
        (map string_bytes paths.items ++ left_paths lefts)
        × All (IsUnlisted directory.now (named_of names)) lefts)
        (SomeUnlisted directory.now (named_of names))
        (change_of N.Sink notes.old notes.new)
        left_out.old left_out.new result }
{
    names.texts.sort()?;
    sorted_children(alloc, directory, &names, notes, left_out)
}

impl Walk {
    fn new(alloc: Global) -> Walk
        ensures items { result.items.items ≡ [] }
        ensures pending { result.pending.items ≡ [] }
        ensures left_out { result.left_out ≡ 0 }
    {
        Walk {
            items: Vec::new(alloc),
            firsts: BTreeMap::new(alloc),
            pending: Vec::new(alloc),
            left_out: 0,
        }
    }

    /// Whether a path comes after those of all items.
    fn is_next(&self, path: &str) -> bool
        ensures { result ≡ comes_next self.now.items.items path.now }
    {
        match self.items.as_slice().last() {
            Some(item) => is_before(item.path.as_bytes(), path.as_bytes()),
            None => true,
        }
    }

    /// The first path of a regular file, if it was met before.
    fn first_path(&self, looked: &Looked) -> Option<&str>
        ensures file { IfSome result (λ first. IsFileOf self.now.items.items first.now) }
        ensures kind { IfSome result (λ _. kind_bits looked.now.mode ≡ 8) }
        ensures every { (i : Item) → HasOtherNames looked.now
            → IsFirst self.now.items.items self.now.firsts (id_of looked.now) i → IsRegular i.what
            → IsSomeAnd result (λ first. first.now ≡ string_bytes i.path) }
    {
        let index = self.firsts.get(&identity_of(looked)?)?;
        let item = self.items.as_slice().get(*index)?;
        match &item.what {
            What::Regular { .. } => Some(item.path.as_str()),
            _ => None,
        }
    }

    /// What the host tells of a path that comes after those of all items. `rest` is the path as the
    /// host is asked for it.
    fn look<F: HostFolder>(&self, folder: &mut F, path: &str, rest: &str) -> Result<Looked, Skip>
        requires { IsInTurn self.now.items.items path.now }
        ensures next { IfOk result (λ _. IsTrue (comes_next self.now.items.items path.now)) }
        ensures again { IsFalse (comes_next self.now.items.items path.now)
            → (result ≡ Err (Skip.LeftOut Reason.Repeated)) × (folder.new ≡ folder.old) }
        ensures told { IfOk result
            (λ it. IfSome ((F.known folder.old).looked rest.now) (λ told. it ≡ told)) }
        ensures why { IfErr result
            (SkipsFor (λ why. ComesAgain self.now.items.items (path.now, why)
            ⊎ IsRefusal ((F.known folder.old).looked rest.now ≡ None) why)) }
        ensures memory { IsTrue (F.known folder.old).has_memory
            → result ≢ Err Skip.OutOfMemory }
        ensures kept { F.known folder.new ≡ F.known folder.old }
    {
        if !self.is_next(path) {
            return Err(Skip::LeftOut(Reason::Repeated));
        }
        Ok(folder.look(rest)?)
    }

    /// What lies at a path.
    fn find<F: HostFolder>(
        &self,
        alloc: Global,
        folder: &mut F,
        options: &Options,
        path: &str,
    ) -> Result<Found, Skip>
        requires items { All ItemFits self.now.items.items }
        requires path { IsRooted path.now }
        requires firsts { FirstsFit (F.known folder.old) self.now.items.items self.now.firsts }
        requires order { IsInTurn self.now.items.items path.now }
        ensures found { IfOk result (FoundFits options.now self.now.items.items) }
        ensures rooted { IfOk result (λ _. IsRooted path.now) }
        ensures next { IfOk result (λ _. IsTrue (comes_next self.now.items.items path.now)) }
        ensures again { IsFalse (comes_next self.now.items.items path.now)
            → (result ≡ Err (Skip.LeftOut Reason.Repeated)) × (folder.new ≡ folder.old) }
        ensures told { IfOk result (λ found. IsToldAt (F.known folder.old).looked options.now
            (inside path.now) found.attributes) }
        ensures names { IfOk result
            (λ found.
            NamesFit ((F.known folder.old).names (inside path.now)) found.what found.names) }
        ensures kind { IfOk result (λ found. IfSome ((F.known folder.old).looked (inside path.now))
            (λ told. IsOfKind told found.what)) }
        ensures object { IfOk result
            (λ found. HasObject (F.known folder.old) (inside path.now) found.what) }
        ensures links { IfOk result (LinksFit (F.known folder.old) self.now.items.items path.now) }
        ensures why { IfErr result
            (SkipsFor (λ why. IsRight (F.known folder.old) options.now self.now.items.items
            (path.now, why))) }
        ensures kept { F.known folder.new ≡ F.known folder.old }
    {
        let Some(rest) = inside(path) else {
            return Err(Skip::LeftOut(Reason::BadName));
        };
        let looked = self.look(folder, path, rest)?;
        if let Some(first) = self.first_path(&looked) {
            if is_one(folder, first, &looked)? {
                return link_to(String::from_str(alloc, first)?, &looked, options);
            }
        }
        first_found(folder, rest, &looked, options)
    }

    /// The paths in a directory.
    fn paths_in<N: Sink>(
        &mut self,
        alloc: Global,
        notes: &mut N,
        path: &str,
        names: Option<Names>,
    ) -> Result<Vec<String>, ReadFault>
        ensures items { self.new.items.items ≡ self.old.items.items }
        ensures pending { self.new.pending.items ≡ self.old.pending.items }
        ensures firsts { self.new.firsts ≡ self.old.firsts }
        ensures paths { IfOk result
            (λ paths.
            All (λ child. IsSome names × IsChild path.now (string_bytes child)) paths.items) }
        ensures order { IfOk result (λ paths. Ascend (map string_bytes paths.items)) }
        ensures told { TellsMore (λ paths lefts. IsPermutation (children_of path.now names)
            (map string_bytes paths.items ++ left_paths lefts)
            × All (IsUnlistedIn path.now names) lefts)
            (SomeUnlistedIn path.now names)
            (change_of N.Sink notes.old notes.new)
            self.old.left_out self.new.left_out result }
    {
        let _count = self.left_out;
        match names {
            Some(names) => children(alloc, path, names, notes, &mut self.left_out),
            None => Ok(Vec::new(alloc)),
        }
    }

    /// Remembers the next item as the first of a regular file that has other names.
    fn remember(&mut self, identity: Option<(u64, u64)>) -> Result<(), ReadFault>
        ensures items { self.new.items.items ≡ self.old.items.items }
        ensures pending { self.new.pending.items ≡ self.old.pending.items }
        ensures left_out { self.new.left_out ≡ self.old.left_out }
        ensures firsts { IfOk result
            (λ _. Remembers identity (length self.old.items.items) self.old.firsts
            self.new.firsts) }
        ensures fault { IfErr result (λ fault. fault ≡ ReadFault.OutOfMemory) }
    {
        if let Some(identity) = identity {
            self.firsts.insert(identity, self.items.len())?;
        }
        Ok(())
    }

    /// Adds an item.
    fn push_item(
        &mut self,
        path: String,
        attributes: Attributes,
        what: What,
    ) -> Result<(), ReadFault>
        ensures items { IfOk result (λ _. self.new.items.items
            ≡ self.old.items.items
            ++ record { path = path; attributes = attributes; what = what } ∷ []) }
        ensures pending { self.new.pending.items ≡ self.old.pending.items }
        ensures left_out { self.new.left_out ≡ self.old.left_out }
        ensures firsts { self.new.firsts ≡ self.old.firsts }
        ensures fault { IfErr result (λ fault. fault ≡ ReadFault.OutOfMemory) }
    {
        self.items.push(Item {
            path,
            attributes,
            what,
        })?;
        Ok(())
    }

    /// Adds what lies at a path, and the paths in a directory to those that are still to visit.
    fn add<N: Sink>(
        &mut self,
        alloc: Global,
        notes: &mut N,
        path: String,
        found: Found,
    ) -> Result<(), ReadFault>
        requires directory { IsSome found.names → found.what ≡ What.Directory }
        requires path { IsPending self.old.items.items (string_bytes path) }
        requires pending { All (λ p. IsPending self.old.items.items (string_bytes p))
            self.old.pending.items }
        requires rise { Rise self.old.items.items }
        requires next { IsTrue (comes_next self.old.items.items (string_bytes path)) }
        requires order { InOrder self.old.items.items
            (map string_bytes self.old.pending.items ++ string_bytes path ∷ []) }
        ensures items { IfOk result
            (λ _. self.new.items.items ≡ self.old.items.items ++ item_of path found ∷ []) }
        ensures pending { IfOk result
            (λ _. All (λ p. IsPending self.new.items.items (string_bytes p))
            self.new.pending.items) }
        ensures firsts { IfOk result (λ _. Remembers found.identity (length self.old.items.items)
            self.old.firsts self.new.firsts) }
        ensures order { IfOk result
            (λ _. InOrder self.new.items.items (map string_bytes self.new.pending.items)) }
        ensures told { TellsMore (λ _ lefts. IsPermutation
            (children_of (string_bytes path) found.names
            ++ map string_bytes self.old.pending.items)
            (map string_bytes self.new.pending.items ++ left_paths lefts)
            × All (IsUnlistedIn (string_bytes path) found.names) lefts)
            (SomeUnlistedIn (string_bytes path) found.names)
            (change_of N.Sink notes.old notes.new)
            self.old.left_out self.new.left_out result }
    {
        let Found {
            attributes,
            what,
            names,
            identity,
        } = found;
        let paths = self.paths_in(alloc, notes, path.as_str(), names)?;
        self.remember(identity)?;
        self.push_item(path, attributes, what)?;
        self.put_off(paths)?;
        Ok(())
    }

    /// Adds paths to those that are still to visit, the first to be visited next.
    fn put_off(&mut self, mut paths: Vec<String>) -> Result<(), AllocError>
        ensures items { self.new.items.items ≡ self.old.items.items }
        ensures pending { IfOk result
            (λ _. self.new.pending.items ≡ self.old.pending.items ++ reverse paths.items) }
        ensures left_out { self.new.left_out ≡ self.old.left_out }
        ensures firsts { self.new.firsts ≡ self.old.firsts }
    {
        while let Some(path) = paths.pop() {
            self.pending.push(path)?;
        }
        Ok(())
    }

    /// Adds what lies at a path, or tells that it is left out.
    fn visit<F: HostFolder, N: Sink>(
        &mut self,
        alloc: Global,
        folder: &mut F,
        options: &Options,
        notes: &mut N,
        path: String,
    ) -> Result<(), ReadFault>
        requires fits { WalkFits (F.known folder.old) options.now self.old.items.items
            self.old.pending.items }
        requires path { IsPending self.old.items.items (string_bytes path) }
        requires links { WalkLinks (F.known folder.old) self.old.items.items self.old.firsts }
        requires order { InOrder self.old.items.items
            (map string_bytes self.old.pending.items ++ string_bytes path ∷ []) }
        ensures fits { IfOk result (λ _. WalkFits (F.known folder.old) options.now
            self.new.items.items self.new.pending.items) }
        ensures links { IfOk result
            (λ _. WalkLinks (F.known folder.old) self.new.items.items self.new.firsts) }
        ensures order { IfOk result
            (λ _. InOrder self.new.items.items (map string_bytes self.new.pending.items)) }
        ensures more { IfOk result (λ _. IsMore self.old.items.items self.new.items.items) }
        ensures kept { F.known folder.new ≡ F.known folder.old }
        ensures told { TellsMore (λ _ lefts. StaysCovered (F.known folder.old) self.old.items.items
            (map string_bytes self.old.pending.items ++ string_bytes path ∷ [])
            self.new.items.items (map string_bytes self.new.pending.items) lefts
            × All (IsRight (F.known folder.old) options.now self.new.items.items) lefts)
            (LeadsOn (F.known folder.old) options.now self.old.items.items
            (map string_bytes self.old.pending.items ++ string_bytes path ∷ []))
            (change_of N.Sink notes.old notes.new)
            self.old.left_out self.new.left_out result }
    {
        match self.find(alloc, folder, options, path.as_str()) {
            Ok(found) => self.add(alloc, notes, path, found),
            Err(Skip::LeftOut(reason)) => leave_out(
                notes,
                &mut self.left_out,
                path.as_bytes(),
                reason,
            ),
            Err(Skip::OutOfMemory) => Err(ReadFault::OutOfMemory),
        }
    }
}

/// The folder itself: its attributes, and the names in it.
fn root_of<F: HostFolder>(folder: &mut F, options: &Options) -> Result<(Attributes, Names), Skip>
    ensures fit { IfOk result (λ root. AttributesFit root.0) }
    ensures options { IfOk result (λ root. HasOptions options.now root.0) }
    ensures told { IfOk result
        (λ root. IsToldAt (F.known folder.old).looked options.now [] root.0) }
    ensures kind { IfOk result
        (λ _. IfSome ((F.known folder.old).looked []) (λ told. kind_bits told.mode ≡ 4)) }
    ensures names { IfOk result
        (λ root. IfSome ((F.known folder.old).names []) (λ told. named_of root.1 ≡ told)) }
    ensures why { IfErr result (SkipsFor (IsRootWhy (F.known folder.old) options.now)) }
    ensures kept { F.known folder.new ≡ F.known folder.old }
{
    let looked = folder.look("")?;
    if let Some(reason) = not_directory(looked.mode) {
        return Err(Skip::LeftOut(reason));
    }
    let attributes = attributes_of(&looked, options)?;
    Ok((attributes, folder.names("")?))
}

/// Reads a folder: a directory before what lies in it, and the names in it in byte order. A regular
/// file that was met before is a link to its first path. Symlinks are not followed. What a listing
/// cannot say is left out, with a line of the notes for each path, which says why by what the host
/// tells; names in a directory that are no text have one line. `options` say what takes the place
/// of all owners and times.
///
/// # Errors
/// `Folder`: the folder itself can't be read, is no directory, or has an owner or a time that a
/// listing cannot say; a line of the notes says which. `Notes`: the notes failed. `OutOfMemory`,
/// also after 2^64 - 1 paths.
pub fn read_folder<F: HostFolder, N: Sink>(
    alloc: Global,
    folder: &mut F,
    options: &Options,
    notes: &mut N,
) -> Result<FolderTree, ReadFault>
    ensures fits { IfOk result (λ read. FitsListing read.root read.items.items) }
    ensures tree { IfOk result (λ read. IsTree read.items.items) }
    ensures rises { IfOk result (λ read. Rise read.items.items) }
    ensures options { IfOk result (λ read. All (HasOptions options.now)
        (read.root ∷ map (λ item. item.attributes) read.items.items)) }
    ensures root { IfOk result
        (λ read. IsToldAt (F.known folder.old).looked options.now [] read.root) }
    ensures told { IfOk result
        (λ read. All (IsItemTold (F.known folder.old).looked options.now) read.items.items) }
    ensures objects { IfOk result
        (λ read. All (IsObjectTold (F.known folder.old)) read.items.items) }
    ensures links { IfOk result (λ read. AreLinked (F.known folder.old) read.items.items) }
    ensures notes { Tells (F.known folder.old) options.now
        (change_of N.Sink notes.old notes.new) result }
{
    let (root, names) = match root_of(folder, options) {
        Ok(found) => found,
        Err(Skip::LeftOut(reason)) => return Err(refuse_folder(notes, reason)),
        Err(Skip::OutOfMemory) => return Err(ReadFault::OutOfMemory),
    };
    let mut walk = Walk::new(alloc);
    let paths = children(alloc, "", names, notes, &mut walk.left_out)?;
    walk.put_off(paths)?;
    for _ in 0..u64::MAX {
        let Some(path) = walk.pending.pop() else {
            return Ok(FolderTree {
                root,
                items: walk.items,
                left_out: walk.left_out,
            });
        };
        walk.visit(alloc, folder, options, notes, path)?;
    }
    Err(ReadFault::OutOfMemory)
}
