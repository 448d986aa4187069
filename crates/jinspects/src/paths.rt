//! The paths of the objects of a mounted image, as its picture shows them.
ghost use Rattle.std.specs.Prelude.{◌≡◌, ◌++◌, ◌∷◌, ℕ, [], IfOk, OnOk, map, option_map};
ghost use Rattle.jdamage.specs.Ways.{name_held, path_below};
ghost use Rattle.jmap.specs.Places.{names_text, path_in};
ghost use Rattle.jinspects.specs.ShownPaths.{AreShownPaths, or_path, root_text, shown_text_if};

use jdamage::WaysUp;
use jmap::{Paths, push_path_name};
use jmount::{Mounted, ROOT};
use std::alloc::{AllocError, Global};
use std::collections::{BTreeMap, BTreeSet};

/// The text of the path with these names.
fn text_of(alloc: Global, names: &[&[u8]]) -> Result<Vec<u8>, AllocError>
    ensures { IfOk result (λ text. text.items ≡ names_text (map (λ name. name.now) names.now)) }
{
    let mut text = Vec::new(alloc);
    for name in names {
        push_path_name(&mut text, name)?;
    }
    Ok(text)
}

/// The text of the path of a name in a directory, if a way leads there.
fn path_of<'m>(
    alloc: Global,
    ways: &WaysUp<'m, '_>,
    dir: u32,
    name: &'m [u8],
) -> Result<Option<Vec<u8>>, AllocError>
    ensures { IfOk result (λ path. option_map (λ text. text.items) path
        ≡ option_map names_text (path_below ways.now.mounted.now.state dir (name.now ∷ []))) }
{
    let mut names = Vec::with_capacity(alloc, ways.depth(dir) as usize + 1)?;
    if !ways.put_name(dir, name, &mut names) {
        return Ok(None);
    }
    Ok(Some(text_of(alloc, names.as_slice())?))
}

/// Keeps the path of a name, if it is the first one of its object.
fn note_path<'m>(
    alloc: Global,
    ways: &WaysUp<'m, '_>,
    name: (u32, &'m [u8], u32),
    paths: &mut Paths,
) -> Result<(), AllocError>
    ensures { OnOk result ((i : ℕ) → path_in paths.new i ≡ or_path (path_in paths.old i)
        (shown_text_if ways.now.mounted.now.state i (name_held name.entry))) }
{
    if paths.contains_key(&name.2) {
        return Ok(());
    }
    if let Some(text) = path_of(alloc, ways, name.0, name.1)? {
        paths.insert(name.2, text)?;
    }
    Ok(())
}

/// The path of the root alone.
fn root_path(alloc: Global) -> Result<Paths, AllocError>
    ensures { IfOk result (λ paths. (i : ℕ) → path_in paths i ≡ root_text i) }
{
    let mut paths = BTreeMap::new(alloc);
    paths.insert(ROOT, Vec::new(alloc))?;
    Ok(paths)
}

/// The directories that hold names.
fn dirs_of(alloc: Global, mounted: &Mounted<'_>) -> Result<BTreeSet<u32>, AllocError> {
    let mut dirs = BTreeSet::new(alloc);
    for (dir, _, _) in mounted.names() {
        dirs.insert(dir)?;
    }
    Ok(dirs)
}

/// The texts of the first paths that lead to objects, in n log n steps for n names, and as many
/// more as the paths have names.
pub(crate) fn paths_of(alloc: Global, mounted: &Mounted<'_>) -> Result<Paths, AllocError>
    ensures { IfOk result (AreShownPaths mounted.now.state) }
{
    let dirs = dirs_of(alloc, mounted)?;
    let ways = WaysUp::new(alloc, mounted, &dirs)?;
    let mut paths = root_path(alloc)?;
    for name in mounted.names() {
        note_path(alloc, &ways, name, &mut paths)?;
    }
    Ok(paths)
}
