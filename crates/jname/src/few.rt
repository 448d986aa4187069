//! A few names in a row, in byte order.

ghost use Rattle.std.specs.Prelude.{◌≡◌, ◌≢◌, ◌≤◌, ◌++◌, List, [], length, Ok, OnOk, OnErr};
ghost use Rattle.std.specs.Ordering.{nat_cmp};
ghost use Rattle.std.specs.Cmp.Lexicographic.{slice_cmp};
ghost use Rattle.std.specs.List.{insert};
ghost use Rattle.std.specs.List.Sorted.{IsStrictlySortedBy};
ghost use Rattle.std.specs.Map.{keys_of};
ghost use Rattle.jname.specs.ContentsByName.{name_cmp};
ghost use Rattle.jname.specs.Few.{place_or_gap, place_in};

use crate::NameFault;
use crate::name_map::ByName;
use crate::versions::Versions;
use std::alloc::Global;
use std::borrow::CowSlice;
use std::cmp::Ordering;

/// Names in byte order, each with its versions.
pub type Few<'a> = Vec<(CowSlice<'a, u8>, Versions)>;

/// Where a name stands in a row, or else would stand.
pub fn place_of(few: &[(CowSlice<'_, u8>, Versions)], name: &[u8]) -> Result<usize, usize>
    ensures place { result ≡ place_in few.now name.now }
    ensures within { place_or_gap result ≤ length few.now }
{
    let Some((first, others)) = few.split_first() else {
        return Err(0);
    };
    match compare(name, first.0.as_slice()) {
        Ordering::Less => Err(0),
        Ordering::Equal => Ok(0),
        Ordering::Greater => match place_of(others, name) {
            Ok(place) => Ok(place + 1),
            Err(place) => Err(place + 1),
        },
    }
}

fn compare<'x>(a: &'x [u8], b: &'x [u8]) -> Ordering
    ensures { result ≡ slice_cmp nat_cmp a.now b.now }
{
    Ord::cmp(&a, &b)
}

/// Puts a name into a row. Room is made for as many again.
pub fn put<'a>(
    few: &mut Few<'a>,
    place: usize,
    name: CowSlice<'a, u8>,
    versions: Versions,
) -> Result<(), NameFault>
    requires { place ≤ length few.old.items }
    ensures ok { OnOk result (few.new.items ≡ insert few.old.items place (name.entry, versions)) }
    ensures err { OnErr result (few.new.items ≡ few.old.items) }
    ensures memory { result ≢ Err NameFault.Clash }
{
    if few.len() == few.capacity() {
        few.reserve_exact(few.len())?;
    }
    few.insert(place, (name, versions))?;
    Ok(())
}

/// Moves a row into the map of the names that follow.
pub fn spread<'a>(alloc: Global, few: &mut Few<'a>, map: &mut ByName<'a>) -> Result<(), NameFault>
    requires { IsStrictlySortedBy name_cmp (keys_of (few.old.items ++ map.old.entries)) }
    ensures same { few.new.items ++ map.new.entries ≡ few.old.items ++ map.old.entries }
    ensures none { OnOk result (few.new.items ≡ []) }
    ensures memory { result ≢ Err NameFault.Clash }
{
    while let Some((name, versions)) = few.pop() {
        match map.insert(name, versions) {
            Ok(_) => {}
            Err(refused) => {
                few.push_reserved(refused.value);
                return Err(NameFault::OutOfMemory);
            }
        }
    }
    *few = Vec::new(alloc);
    Ok(())
}
