//! The ranges of lost nodes, and which sound versions matter beside them.

ghost use Rattle.std.specs.Prelude.{◌≡◌, ◌==◌, ◌++◌, ◌∷◌, ◌≤◌, ℕ, List, [], Some, true, IfOk, OnOk, filter_map, if◌then◌else◌, length, option_to_list};
ghost use Rattle.std.specs.BTreeMap.{get};
ghost use Rattle.std.specs.List.Sorted.{IsNonDecreasingBy};
ghost use Rattle.std.specs.Ordering.{nat_cmp};
ghost use Rattle.jscan.specs.Image.{greatest_image};
ghost use Rattle.jdamage.specs.Ranges.{FindsAll, KeepsWhatMatters, Sifted, TouchesOne, higher_version, range_if};
ghost use Rattle.jgaps.specs.declared.fields.Stretch.{Stretch};

use crate::coverage::spot;
use jgaps::{Stretch, stretch_at};
use jnode::{Damage, Order};
use std::alloc::{AllocError, Global};
use std::collections::BTreeMap;

/// Where a range begins, and where it ends, as spots.
pub(crate) type Range = (u64, u64);

/// One of the highest version of each object, by its number.
pub(crate) type Tops = BTreeMap<u32, Stretch>;

/// Adds the range of a node, where its data are damaged.
fn push_range<E: Order>(
    image: &[u8],
    addr: u32,
    which: Damage,
    ranges: &mut Vec<Range>,
) -> Result<(), AllocError>
    requires { length image.now ≤ greatest_image }
    ensures { OnOk result (ranges.new.items
        ≡ ranges.old.items ++ option_to_list (range_if E.order image.now (addr, which))) }
{
    match which {
        Damage::DataCrc => {
            let node = stretch_at::<E>(image, addr);
            let from = spot(node.ino, u64::from(node.from));
            ranges.push((from, spot(node.ino, node.to)))?;
            Ok(())
        }
        _ => Ok(()),
    }
}

/// Ranges in the order of their starts, each with the greatest end of those up to it.
fn reached(alloc: Global, ranges: &[Range]) -> Result<Vec<Range>, AllocError>
    requires { IsNonDecreasingBy (λ r. r.0) ranges.now }
    ensures { IfOk result (λ found. FindsAll ranges.now found.items) }
{
    let mut found = Vec::new(alloc);
    let mut end = 0u64;
    for (from, to) in ranges {
        end = end.max(*to);
        found.push((*from, end))?;
    }
    Ok(found)
}

/// The ranges of these nodes whose data are damaged, by which `touches` finds one. O(n log n).
pub(crate) fn ranges_of<E: Order>(
    alloc: Global,
    image: &[u8],
    damaged: &[(u32, Damage)],
) -> Result<Vec<Range>, AllocError>
    requires { length image.now ≤ greatest_image }
    ensures { IfOk result (λ ranges.
        FindsAll (filter_map (range_if E.order image.now) damaged.now) ranges.items) }
{
    let mut ranges = Vec::new(alloc);
    for (addr, which) in damaged {
        push_range::<E>(image, *addr, *which, &mut ranges)?;
    }
    ranges.sort_unstable_by_key(|range| range.0);
    reached(alloc, &ranges)
}

/// Whether a version's range touches a lost one. O(log n).
fn touches(ranges: &[Range], stretch: &Stretch) -> bool
    ensures yes { (lost : List (ℕ × ℕ)) → FindsAll lost ranges.now
        → TouchesOne lost stretch.now → result ≡ true }
    ensures no { (lost : List (ℕ × ℕ)) → FindsAll lost ranges.now
        → result ≡ true → TouchesOne lost stretch.now }
{
    let to = spot(stretch.ino, stretch.to);
    let count = ranges.partition_point(|range| range.0 <= to);
    match count.checked_sub(1) {
        Some(last) => spot(stretch.ino, u64::from(stretch.from)) <= ranges[last].1,
        None => false,
    }
}

/// Keeps a version that is higher than the one of its object.
fn note_top(tops: &mut Tops, stretch: Stretch) -> Result<(), AllocError>
    ensures { OnOk result ((i : ℕ) → get nat_cmp tops.new i
        ≡ (if stretch.ino == i then Some (higher_version (get nat_cmp tops.old i) stretch)
        else get nat_cmp tops.old i)) }
{
    match tops.get(&stretch.ino) {
        Some(top) if top.version >= stretch.version => Ok(()),
        _ => {
            tops.insert(stretch.ino, stretch)?;
            Ok(())
        }
    }
}

/// Keeps a version that touches a lost range or is the highest of its object yet.
pub(crate) fn keep(
    ranges: &[Range],
    stretch: Stretch,
    found: &mut Vec<Stretch>,
    tops: &mut Tops,
) -> Result<(), AllocError>
    ensures { OnOk result ((lost : List (ℕ × ℕ)) (all rest : List Stretch)
        → FindsAll lost ranges.now
        → Sifted lost all (stretch ∷ rest) found.old.items tops.old
        → Sifted lost all rest found.new.items tops.new) }
{
    if touches(ranges, &stretch) {
        found.push(stretch)?;
    }
    note_top(tops, stretch)
}

/// Adds one of the highest version of each object.
pub(crate) fn add_tops(found: &mut Vec<Stretch>, tops: Tops) -> Result<(), AllocError>
    ensures { OnOk result ((lost : List (ℕ × ℕ)) (all : List Stretch)
        → Sifted lost all [] found.old.items tops
        → KeepsWhatMatters lost all found.new.items) }
{
    let mut left = tops;
    while let Some((_, top)) = left.pop_first() {
        found.push(top)?;
    }
    Ok(())
}
