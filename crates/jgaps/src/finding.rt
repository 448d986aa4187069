//! The gaps of the files of a mounted image.

ghost use Rattle.std.specs.Prelude.{◌≡◌, ◌++◌, ◌≤◌, List, IfOk, OnOk, IsPermutation, length, option_to_list};
ghost use Rattle.jscan.specs.Image.{greatest_image};
ghost use Rattle.jscan.specs.Scans.{IsScannable};
ghost use Rattle.jgaps.specs.Fields.{stretches};
ghost use Rattle.jgaps.specs.Gaps.{gaps_of, gaps_of_file, gaps_of_object};
ghost use Rattle.jgaps.specs.Sweeping.{AreSorted};
ghost use Rattle.jgaps.specs.declared.fields.Stretch.{Stretch};

use crate::fields::{Stretch, stretch_sighted};
use crate::gap::Gap;
use crate::sorted::{of_object, start_of};
use crate::sweep::push_gaps;
use jmount::{Kind, Mounted, Object};
use jnode::Order;
use jscan::{Geometry, Sightings};
use std::alloc::{AllocError, Global};

/// Adds what an inode node has.
fn push_stretch(found: &mut Vec<Stretch>, sighted: Option<Stretch>) -> Result<(), AllocError>
    ensures { OnOk result (found.new.items ≡ found.old.items ++ option_to_list sighted) }
{
    if let Some(stretch) = sighted {
        found.push(stretch)?;
    }
    Ok(())
}

/// What the sound inode nodes have, in order of address.
fn stretches_of<E: Order>(
    alloc: Global,
    image: &[u8],
    geometry: Geometry,
) -> Result<Vec<Stretch>, AllocError>
    requires scannable { IsScannable geometry.block image.now }
    requires image { length image.now ≤ greatest_image }
    ensures { IfOk result (λ found. found.items ≡ stretches E.order geometry.block image.now) }
{
    let mut found = Vec::new(alloc);
    let Ok(sightings) = Sightings::<E>::new(image, geometry) else {
        return Ok(found);
    };
    for (addr, seen) in sightings {
        push_stretch(&mut found, stretch_sighted::<E>(image, addr, &seen))?;
    }
    Ok(found)
}

/// Adds the gaps of an object.
fn push_object(
    sound: &[Stretch],
    ino: u32,
    object: &Object,
    gaps: &mut Vec<Gap>,
) -> Result<(), AllocError>
    requires { AreSorted sound.now }
    ensures { OnOk result ((all : List Stretch) → IsPermutation all sound.now
        → gaps.new.items ≡ gaps.old.items ++ gaps_of_object all (ino, object.now)) }
{
    match object.kind {
        Kind::Regular => push_gaps(ino, object.size, of_object(sound, ino), gaps),
        _ => Ok(()),
    }
}

/// All gaps of a mounted image, in order of the object's number and then of the place. The image
/// was mounted in `E`'s order and with this geometry, as it is or through its compression.
/// O(n log n) for n nodes. Takes memory for what the sound inode nodes have, and gives it back, and
/// for the answer.
///
/// # Errors
/// Out of memory.
pub fn gaps_of<E: Order>(
    alloc: Global,
    mounted: &Mounted<'_>,
    geometry: Geometry,
) -> Result<Vec<Gap>, AllocError>
    requires { IsScannable geometry.block mounted.now.image }
    ensures { IfOk result (λ gaps. gaps.items ≡ gaps_of E.order geometry.block mounted.now) }
{
    let mut sound = stretches_of::<E>(alloc, mounted.image(), geometry)?;
    sound.sort_unstable_by_key(start_of);
    let mut gaps = Vec::new(alloc);
    for (ino, object) in mounted.objects() {
        push_object(&sound, ino, &object, &mut gaps)?;
    }
    Ok(gaps)
}

/// The gaps of one object of a mounted image, in order; none, if it is not there or no regular file.
/// The image was mounted as for [`gaps_of`], and this takes the same time and memory.
///
/// # Errors
/// Out of memory.
pub fn gaps_of_file<E: Order>(
    alloc: Global,
    mounted: &Mounted<'_>,
    geometry: Geometry,
    ino: u32,
) -> Result<Vec<Gap>, AllocError>
    requires { IsScannable geometry.block mounted.now.image }
    ensures { IfOk result
        (λ gaps. gaps.items ≡ gaps_of_file E.order geometry.block mounted.now ino) }
{
    let mut gaps = Vec::new(alloc);
    let Some(object) = mounted.object(ino) else {
        return Ok(gaps);
    };
    let mut sound = stretches_of::<E>(alloc, mounted.image(), geometry)?;
    sound.sort_unstable_by_key(start_of);
    push_object(&sound, ino, &object, &mut gaps)?;
    Ok(gaps)
}
