//! The nodes of an image that matter where some are damaged.

ghost use Rattle.std.specs.Prelude.{◌≡◌, ◌++◌, ℕ, List, ◌≤◌, IfOk, OnOk, filter, filter_map, length, option_to_list};
ghost use Rattle.jscan.specs.Image.{greatest_image};
ghost use Rattle.jscan.specs.Scans.{IsScannable};
ghost use Rattle.jgaps.specs.Fields.{stretch_sighted, stretches};
ghost use Rattle.jdamage.specs.Fields.{damaged_if, damaged_nodes};
ghost use Rattle.jdamage.specs.Ranges.{FindsAll, KeepsWhatMatters, Sifted, range_if};
ghost use Rattle.jdamage.specs.Telling.{is_kept};
ghost use Rattle.jgaps.specs.declared.fields.Stretch.{Stretch};

use crate::ranges::{Range, Tops, add_tops, keep, ranges_of};
use jgaps::{Stretch, stretch_sighted};
use jnode::{Damage, Order, Seen};
use jscan::{Geometry, Sightings};
use std::alloc::{AllocError, Global};
use std::collections::{BTreeMap, BTreeSet};

/// Adds a node that is damaged.
fn push_damaged(
    nodes: &mut Vec<(u32, Damage)>,
    addr: u32,
    seen: &Seen<'_>,
) -> Result<(), AllocError>
    ensures { OnOk result (nodes.new.items
        ≡ nodes.old.items ++ option_to_list (damaged_if addr seen.now)) }
{
    match seen {
        Seen::Damaged { which } => {
            nodes.push((addr, *which))?;
            Ok(())
        }
        _ => Ok(()),
    }
}

/// The damaged nodes, each with its address and the check that it fails first.
pub(crate) fn damaged_nodes<E: Order>(
    alloc: Global,
    image: &[u8],
    geometry: Geometry,
) -> Result<Vec<(u32, Damage)>, AllocError>
    requires { IsScannable geometry.block image.now }
    ensures { IfOk result
        (λ nodes. nodes.items ≡ damaged_nodes E.order geometry.block image.now) }
{
    let mut nodes = Vec::new(alloc);
    let Ok(sightings) = Sightings::<E>::new(image, geometry) else {
        return Ok(nodes);
    };
    for (addr, seen) in sightings {
        push_damaged(&mut nodes, addr, &seen)?;
    }
    Ok(nodes)
}

/// Keeps what an inode node has, where it is of one of these objects and matters.
fn keep_stretch(
    ranges: &[Range],
    numbers: &BTreeSet<u32>,
    sighted: Option<Stretch>,
    found: &mut Vec<Stretch>,
    tops: &mut Tops,
) -> Result<(), AllocError>
    ensures { OnOk result ((lost : List (ℕ × ℕ)) (all rest : List Stretch)
        → FindsAll lost ranges.now
        → Sifted lost all (filter (is_kept numbers.now) (option_to_list sighted) ++ rest)
        found.old.items tops.old
        → Sifted lost all rest found.new.items tops.new) }
{
    match sighted {
        Some(stretch) => {
            if numbers.contains(&stretch.ino) {
                keep(ranges, stretch, found, tops)?;
            }
            Ok(())
        }
        None => Ok(()),
    }
}

/// What the sound inode nodes of these objects have, as far as it matters beside lost ranges.
fn stretches_of<E: Order>(
    alloc: Global,
    image: &[u8],
    geometry: Geometry,
    numbers: &BTreeSet<u32>,
    ranges: &[Range],
) -> Result<Vec<Stretch>, AllocError>
    requires scannable { IsScannable geometry.block image.now }
    requires image { length image.now ≤ greatest_image }
    ensures { IfOk result (λ found. (lost : List (ℕ × ℕ)) → FindsAll lost ranges.now
        → KeepsWhatMatters lost
        (filter (is_kept numbers.now) (stretches E.order geometry.block image.now)) found.items) }
{
    let mut found = Vec::new(alloc);
    let mut tops = BTreeMap::new(alloc);
    let Ok(sightings) = Sightings::<E>::new(image, geometry) else {
        return Ok(found);
    };
    for (addr, seen) in sightings {
        let sighted = stretch_sighted::<E>(image, addr, &seen);
        keep_stretch(ranges, numbers, sighted, &mut found, &mut tops)?;
    }
    add_tops(&mut found, tops)?;
    Ok(found)
}

/// What the sound inode nodes of these objects have, as far as it matters beside damaged nodes.
pub(crate) fn stretches_beside<E: Order>(
    alloc: Global,
    image: &[u8],
    geometry: Geometry,
    numbers: &BTreeSet<u32>,
    damaged: &[(u32, Damage)],
) -> Result<Vec<Stretch>, AllocError>
    requires scannable { IsScannable geometry.block image.now }
    requires image { length image.now ≤ greatest_image }
    ensures { IfOk result (λ found.
        KeepsWhatMatters (filter_map (range_if E.order image.now) damaged.now)
        (filter (is_kept numbers.now) (stretches E.order geometry.block image.now)) found.items) }
{
    let ranges = ranges_of::<E>(alloc, image, damaged)?;
    stretches_of::<E>(alloc, image, geometry, numbers, &ranges)
}
