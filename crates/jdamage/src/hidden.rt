//! The nodes of damaged data that hide nothing.

ghost use Rattle.std.specs.Prelude.{◌≡◌, ◌==◌, ◌&&◌, ◌++◌, ◌≤◌, ℕ, List, true, All, IfOk, OnOk, cond, filter_map, length, option_to_list};
ghost use Rattle.std.specs.BTreeSet.{contains};
ghost use Rattle.std.specs.Ordering.{eq_by_cmp, nat_cmp};
ghost use Rattle.jscan.specs.Image.{greatest_image};
ghost use Rattle.jdamage.specs.Damage.{changes_nothing, size_at};
ghost use Rattle.jgaps.specs.Fields.{stretch_at};
ghost use Rattle.jdamage.specs.Hidden.{AreHidden, AreVersions, HaveStarts, LostAscend, lost_if, spot_at};
ghost use Rattle.jdamage.specs.Sweep.{AreBelow, Ascends, HaveEnds, Numbers, Taken, spot};
ghost use Rattle.jgaps.specs.declared.fields.Stretch.{Stretch};

use crate::coverage::{hides_nothing, spot, take_from};
use jgaps::{Stretch, stretch_at};
use jmount::Mounted;
use jnode::{Damage, Order};
use std::alloc::{AllocError, Global};
use std::collections::BTreeSet;

/// The address of a node whose data are damaged, and its version.
type Lost = (u32, u32);

/// The size of the object of a number.
fn size_at(mounted: &Mounted<'_>, ino: u32) -> u32
    ensures { result ≡ size_at mounted.now.state ino }
{
    match mounted.object(ino) {
        Some(object) => object.size,
        None => 0,
    }
}

/// Adds a node, where its data are damaged.
fn push_lost<E: Order>(
    image: &[u8],
    addr: u32,
    which: Damage,
    lost: &mut Vec<Lost>,
) -> Result<(), AllocError>
    requires { length image.now ≤ greatest_image }
    ensures { OnOk result (lost.new.items
        ≡ lost.old.items ++ option_to_list (lost_if E.order image.now (addr, which))) }
{
    match which {
        Damage::DataCrc => {
            lost.push((addr, stretch_at::<E>(image, addr).version))?;
            Ok(())
        }
        _ => Ok(()),
    }
}

/// The nodes whose data are damaged.
fn lost_of<E: Order>(
    alloc: Global,
    image: &[u8],
    damaged: &[(u32, Damage)],
) -> Result<Vec<Lost>, AllocError>
    requires { length image.now ≤ greatest_image }
    ensures { IfOk result
        (λ lost. lost.items ≡ filter_map (lost_if E.order image.now) damaged.now) }
{
    let mut lost = Vec::new(alloc);
    for (addr, which) in damaged {
        push_lost::<E>(image, *addr, *which, &mut lost)?;
    }
    Ok(lost)
}

/// The ends of the ranges of versions.
fn ends_of(alloc: Global, sound: &[Stretch]) -> Result<BTreeSet<u64>, AllocError>
    ensures { IfOk result (λ spots. HaveEnds spots sound.now) }
{
    let mut spots = BTreeSet::new(alloc);
    for stretch in sound {
        spots.insert(spot(stretch.ino, stretch.to))?;
    }
    Ok(spots)
}

/// Adds where the ranges of lost nodes begin.
fn add_starts<E: Order>(
    image: &[u8],
    lost: &[Lost],
    spots: &mut BTreeSet<u64>,
) -> Result<(), AllocError>
    requires { length image.now ≤ greatest_image }
    ensures keeps { OnOk result ((c : ℕ) → contains nat_cmp spots.old c ≡ true
        → contains nat_cmp spots.new c ≡ true) }
    ensures starts { OnOk result (HaveStarts E.order image.now spots.new lost.now) }
{
    for (addr, _) in lost {
        let node = stretch_at::<E>(image, *addr);
        spots.insert(spot(node.ino, u64::from(node.from)))?;
    }
    Ok(())
}

/// Notes a lost node, where it hides nothing. All versions were taken that are not below its own.
fn note_hidden<E: Order>(
    mounted: &Mounted<'_>,
    addr: u32,
    bare: &BTreeSet<u64>,
    numbers: &BTreeSet<u32>,
    hidden: &mut BTreeSet<u32>,
) -> Result<(), AllocError>
    requires { length mounted.now.image ≤ greatest_image }
    ensures { OnOk result ((all : List Stretch) (spots : Numbers) (left : List Stretch)
        → Taken (stretch_at E.order mounted.now.image addr).version all spots left bare.now
        numbers.now
        → AreBelow (stretch_at E.order mounted.now.image addr).version left → HaveEnds spots all
        → contains nat_cmp spots (spot_at E.order mounted.now.image addr) ≡ true
        → (a : ℕ) → contains nat_cmp hidden.new a
        ≡ cond (eq_by_cmp nat_cmp addr a
        && changes_nothing mounted.now.state all (stretch_at E.order mounted.now.image addr))
        true (contains nat_cmp hidden.old a)) }
{
    let node = stretch_at::<E>(mounted.image(), addr);
    if hides_nothing(bare, numbers, size_at(mounted, node.ino), &node) {
        hidden.insert(addr)?;
    }
    Ok(())
}

/// The lost nodes that hide nothing, from the highest version down.
fn sweep<E: Order>(
    alloc: Global,
    mounted: &Mounted<'_>,
    sound: Vec<Stretch>,
    nodes: Vec<Lost>,
    spots: BTreeSet<u64>,
) -> Result<BTreeSet<u32>, AllocError>
    requires image { length mounted.now.image ≤ greatest_image }
    requires ascends { Ascends sound.items }
    requires nodes_ascend { LostAscend nodes.items }
    requires versions { AreVersions E.order mounted.now.image nodes.items }
    requires ends { HaveEnds spots sound.items }
    requires starts { HaveStarts E.order mounted.now.image spots nodes.items }
    ensures right { IfOk result (λ hidden. (a : ℕ) → contains nat_cmp hidden a ≡ true
        → changes_nothing mounted.now.state sound.items
        (stretch_at E.order mounted.now.image a) ≡ true) }
    ensures each { IfOk result (λ hidden. All (λ l. changes_nothing mounted.now.state
        sound.items (stretch_at E.order mounted.now.image l.0) ≡ true
        → contains nat_cmp hidden l.0 ≡ true) nodes.items) }
{
    let mut left = sound;
    let mut lost = nodes;
    let mut bare = spots;
    let mut numbers = BTreeSet::new(alloc);
    let mut hidden = BTreeSet::new(alloc);
    while let Some((addr, version)) = lost.pop() {
        take_from(version, &mut left, &mut bare, &mut numbers)?;
        note_hidden::<E>(mounted, addr, &bare, &numbers, &mut hidden)?;
    }
    Ok(hidden)
}

/// Of these damaged nodes the addresses of those that hide nothing, beside these sound versions of
/// their objects. O(n log n) for n nodes; takes memory for both.
pub(crate) fn hidden_of<E: Order>(
    alloc: Global,
    mounted: &Mounted<'_>,
    sound: Vec<Stretch>,
    damaged: &[(u32, Damage)],
) -> Result<BTreeSet<u32>, AllocError>
    requires { length mounted.now.image ≤ greatest_image }
    ensures { IfOk result
        (λ hidden. AreHidden E.order mounted.now sound.items hidden damaged.now) }
{
    let image = mounted.image();
    let mut left = sound;
    left.sort_unstable_by_key(|stretch| stretch.version);
    let mut lost = lost_of::<E>(alloc, image, damaged)?;
    lost.sort_unstable_by_key(|node| node.1);
    let mut spots = ends_of(alloc, &left)?;
    add_starts::<E>(image, &lost, &mut spots)?;
    sweep::<E>(alloc, mounted, left, lost, spots)
}
