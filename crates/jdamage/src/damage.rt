//! What the damage of a mounted image costs.

ghost use Rattle.std.specs.Prelude.{◌≡◌, ◌-◌, ◌^◌, ◌≤◌, ℕ, [], true, All, IfOk, OnOk, length, min, sum_by, vec_capacity};
ghost use Rattle.std.specs.BTreeSet.{contains};
ghost use Rattle.std.specs.List.{flat_map};
ghost use Rattle.std.specs.Ordering.{nat_cmp};
ghost use Rattle.flashbase.specs.Sinks.{PutsTo};
ghost use Rattle.jnode.specs.declared.node.Damage.TheVariants.{DataCrc};
ghost use Rattle.jscan.specs.Image.{greatest_image};
ghost use Rattle.jscan.specs.Scans.{IsScannable};
ghost use Rattle.jdamage.specs.Damage.{PutsDamage, damage_told, gap_text, reached_once};
ghost use Rattle.jgaps.specs.Fields.{stretch_at};
ghost use Rattle.jdamage.specs.Lines.{no_damage, totals_shown};
ghost use Rattle.jdamage.specs.Room.{GapPathsFit, HeldPathsFit, NodePathsFit};
ghost use Rattle.jdamage.specs.Telling.{HaveFiles, HaveNumbers, missing_texts, own_count, own_lines, own_paths, own_text, own_totals, own_whole};

use crate::fault::DamageFault;
use crate::fields::loss_at;
use crate::firsts::Name;
use crate::hidden::hidden_of;
use crate::lines::put_totals;
use crate::nodes::{damaged_nodes, stretches_beside};
use crate::room::{deepest, deepest_of_all, deepest_of_gaps};
use crate::telling::{put_gap, put_missing_name, put_node};
use crate::totals::Totals;
use crate::ways::Ways;
use flashbase::{DeviceFault, Sink};
use jgaps::{Gap, gaps_of, stretch_at};
use jmount::Mounted;
use jnode::{Damage, Order};
use jscan::Geometry;
use std::alloc::{AllocError, Global};
use std::collections::BTreeSet;

/// Adds the number of the object of a node whose data are damaged.
fn note_number<E: Order>(
    image: &[u8],
    addr: u32,
    which: Damage,
    numbers: &mut BTreeSet<u32>,
) -> Result<(), AllocError>
    requires { length image.now ≤ greatest_image }
    ensures keeps { OnOk result ((n : ℕ) → contains nat_cmp numbers.old n ≡ true
        → contains nat_cmp numbers.new n ≡ true) }
    ensures notes { OnOk result (which ≡ DataCrc
        → contains nat_cmp numbers.new (stretch_at E.order image.now addr).ino ≡ true) }
{
    match which {
        Damage::DataCrc => {
            numbers.insert(stretch_at::<E>(image, addr).ino)?;
            Ok(())
        }
        _ => Ok(()),
    }
}

/// The numbers of the objects whose data are damaged.
fn damaged_numbers<E: Order>(
    alloc: Global,
    image: &[u8],
    damaged: &[(u32, Damage)],
) -> Result<BTreeSet<u32>, AllocError>
    requires { length image.now ≤ greatest_image }
    ensures { IfOk result (λ numbers. HaveNumbers E.order image.now numbers damaged.now) }
{
    let mut numbers = BTreeSet::new(alloc);
    for (addr, which) in damaged {
        note_number::<E>(image, *addr, *which, &mut numbers)?;
    }
    Ok(numbers)
}

/// Adds the numbers of the files that these gaps are in.
fn add_files(gaps: &[Gap], numbers: &mut BTreeSet<u32>) -> Result<(), AllocError>
    ensures keeps { OnOk result ((n : ℕ) → contains nat_cmp numbers.old n ≡ true
        → contains nat_cmp numbers.new n ≡ true) }
    ensures files { OnOk result (HaveFiles numbers.new gaps.now) }
{
    for gap in gaps {
        numbers.insert(gap.ino)?;
    }
    Ok(())
}

/// The numbers of the objects whose data are damaged, and of the files with gaps.
fn numbers_of<E: Order>(
    alloc: Global,
    image: &[u8],
    damaged: &[(u32, Damage)],
    gaps: &[Gap],
) -> Result<BTreeSet<u32>, AllocError>
    requires { length image.now ≤ greatest_image }
    ensures damaged { IfOk result (λ numbers. HaveNumbers E.order image.now numbers damaged.now) }
    ensures files { IfOk result (λ numbers. HaveFiles numbers gaps.now) }
{
    let mut numbers = damaged_numbers::<E>(alloc, image, damaged)?;
    add_files(gaps, &mut numbers)?;
    Ok(numbers)
}

/// The directories of which a path may be told: those that hold a name that stands for one of these
/// numbers or for an object that is missing, and those of damaged names. The ways from others are
/// found too, but by a walk through all names for each step.
fn dirs_of<E: Order>(
    alloc: Global,
    mounted: &Mounted<'_>,
    numbers: &BTreeSet<u32>,
    damaged: &[(u32, Damage)],
) -> Result<BTreeSet<u32>, AllocError>
    requires { length mounted.now.image ≤ greatest_image }
{
    let mut dirs = BTreeSet::new(alloc);
    for (pino, _, ino) in mounted.names() {
        if numbers.contains(&ino) || mounted.object(ino).is_none() {
            dirs.insert(pino)?;
        }
    }
    for (addr, which) in damaged {
        if *which == Damage::NameCrc {
            dirs.insert(loss_at::<E>(mounted.image(), *addr).pino)?;
        }
    }
    Ok(dirs)
}

/// Tells of damaged nodes, where these addresses are of those that hide nothing. Answers how many
/// paths they hide.
fn put_nodes<'m, E: Order, T: Sink>(
    ways: &Ways<'m, '_>,
    hidden: &BTreeSet<u32>,
    damaged: &[(u32, Damage)],
    path: &mut Vec<&'m [u8]>,
    sink: &mut T,
) -> Result<u64, DeviceFault>
    requires image { length ways.now.up.mounted.now.image ≤ greatest_image }
    requires numbers { HaveNumbers E.order ways.now.up.mounted.now.image ways.now.numbers.now
        damaged.now }
    requires room { All (NodePathsFit E.order ways.now.up.mounted.now hidden.now
        (vec_capacity path.old)) damaged.now }
    ensures puts { PutsTo T.Sink sink.old sink.new
        (flat_map (own_text E.order ways.now.up.mounted.now hidden.now) damaged.now) result }
    ensures count { IfOk result (λ count. count
        ≡ min (sum_by (own_paths E.order ways.now.up.mounted.now hidden.now) damaged.now)
        (2 ^ 64 - 1)) }
    ensures capacity { vec_capacity path.old ≤ vec_capacity path.new }
{
    let mut count = 0u64;
    for (addr, which) in damaged {
        let more = put_node::<E, T>(ways, hidden, *addr, *which, path, sink)?;
        count = count.saturating_add(more);
    }
    Ok(count)
}

/// Tells of names whose objects are missing.
fn put_all_missing<'m, T: Sink>(
    ways: &Ways<'m, '_>,
    missing: &[Name<'m>],
    path: &mut Vec<&'m [u8]>,
    sink: &mut T,
) -> Result<(), DeviceFault>
    requires { HeldPathsFit ways.now.up.mounted.now.state (vec_capacity path.old) missing.now }
    ensures puts { PutsTo T.Sink sink.old sink.new
        (missing_texts ways.now.up.mounted.now.state missing.now) result }
    ensures capacity { vec_capacity path.old ≤ vec_capacity path.new }
{
    for name in missing {
        put_missing_name(ways, *name, path, sink)?;
    }
    Ok(())
}

/// Tells of damaged nodes, and of names whose objects are missing. Answers how many paths the nodes
/// hide.
fn put_lines<'m, E: Order, T: Sink>(
    ways: &Ways<'m, '_>,
    hidden: &BTreeSet<u32>,
    damaged: &[(u32, Damage)],
    missing: &[Name<'m>],
    path: &mut Vec<&'m [u8]>,
    sink: &mut T,
) -> Result<u64, DeviceFault>
    requires image { length ways.now.up.mounted.now.image ≤ greatest_image }
    requires numbers { HaveNumbers E.order ways.now.up.mounted.now.image ways.now.numbers.now
        damaged.now }
    requires room { All (NodePathsFit E.order ways.now.up.mounted.now hidden.now
        (vec_capacity path.old)) damaged.now }
    requires names { HeldPathsFit ways.now.up.mounted.now.state (vec_capacity path.old)
        missing.now }
    ensures puts { PutsTo T.Sink sink.old sink.new
        (own_lines E.order ways.now.up.mounted.now hidden.now damaged.now missing.now) result }
    ensures count { IfOk result (λ count. count
        ≡ own_count E.order ways.now.up.mounted.now hidden.now damaged.now) }
    ensures capacity { vec_capacity path.old ≤ vec_capacity path.new }
{
    let paths = put_nodes::<E, T>(ways, hidden, damaged, path, sink)?;
    put_all_missing(ways, missing, path, sink)?;
    Ok(paths)
}

/// Tells of gaps. Answers how many are in files that a path leads to.
fn put_gaps<'m, T: Sink>(
    ways: &Ways<'m, '_>,
    gaps: &[Gap],
    path: &mut Vec<&'m [u8]>,
    sink: &mut T,
) -> Result<usize, DeviceFault>
    requires files { HaveFiles ways.now.numbers.now gaps.now }
    requires room { GapPathsFit ways.now.up.mounted.now.state (vec_capacity path.old) gaps.now }
    ensures puts { PutsTo T.Sink sink.old sink.new
        (flat_map (gap_text ways.now.up.mounted.now.state) gaps.now) result }
    ensures count { IfOk result (λ count. count
        ≡ sum_by (reached_once ways.now.up.mounted.now.state) gaps.now) }
{
    let mut count = 0usize;
    for gap in gaps {
        let more = put_gap(ways, gap, path, sink)?;
        count += more;
    }
    Ok(count)
}

/// What is told of: damaged nodes, names whose objects are missing, and gaps.
#[derive(Clone, Copy)]
struct Found<'d, 'n, 'g, 'm> {
    damaged: &'d [(u32, Damage)],
    missing: &'n [Name<'m>],
    gaps: &'g [Gap],
}

/// All of it.
fn found_of<'d, 'n, 'g, 'm>(
    damaged: &'d [(u32, Damage)],
    missing: &'n [Name<'m>],
    gaps: &'g [Gap],
) -> Found<'d, 'n, 'g, 'm>
    ensures damaged { result.damaged.now ≡ damaged.now }
    ensures missing { result.missing.now ≡ missing.now }
    ensures gaps { result.gaps.now ≡ gaps.now }
{
    Found {
        damaged,
        missing,
        gaps,
    }
}

/// Tells all, where these addresses are of those that hide nothing.
fn put_all<'m, E: Order, T: Sink>(
    ways: &Ways<'m, '_>,
    hidden: &BTreeSet<u32>,
    found: Found<'_, '_, '_, 'm>,
    path: &mut Vec<&'m [u8]>,
    sink: &mut T,
) -> Result<Totals, DeviceFault>
    requires image { length ways.now.up.mounted.now.image ≤ greatest_image }
    requires numbers { HaveNumbers E.order ways.now.up.mounted.now.image ways.now.numbers.now
        found.damaged.now }
    requires files { HaveFiles ways.now.numbers.now found.gaps.now }
    requires room { All (NodePathsFit E.order ways.now.up.mounted.now hidden.now
        (vec_capacity path.old)) found.damaged.now }
    requires names { HeldPathsFit ways.now.up.mounted.now.state (vec_capacity path.old)
        found.missing.now }
    requires gaps { GapPathsFit ways.now.up.mounted.now.state (vec_capacity path.old)
        found.gaps.now }
    ensures puts { PutsTo T.Sink sink.old sink.new
        (own_whole E.order ways.now.up.mounted.now hidden.now found.entry.damaged.now
        found.entry.missing.now found.entry.gaps.now) result }
    ensures totals { IfOk result (λ totals. totals
        ≡ own_totals E.order ways.now.up.mounted.now hidden.now found.entry.damaged.now
        found.entry.missing.now found.entry.gaps.now) }
{
    let paths = put_lines::<E, T>(ways, hidden, found.damaged, found.missing, path, sink)?;
    let gaps = put_gaps(ways, found.gaps, path, sink)?;
    let totals = Totals {
        damaged: found.damaged.len(),
        paths,
        missing: found.missing.len(),
        gaps,
    };
    put_totals(&totals, sink)?;
    Ok(totals)
}

/// Room for the longest path that is told.
fn room_for<'m, E: Order>(
    alloc: Global,
    ways: &Ways<'m, '_>,
    hidden: &BTreeSet<u32>,
    found: Found<'_, '_, '_, 'm>,
) -> Result<Vec<&'m [u8]>, AllocError>
    requires image { length ways.now.up.mounted.now.image ≤ greatest_image }
    requires numbers { HaveNumbers E.order ways.now.up.mounted.now.image ways.now.numbers.now
        found.damaged.now }
    requires files { HaveFiles ways.now.numbers.now found.gaps.now }
    ensures room { IfOk result (λ path. All (NodePathsFit E.order ways.now.up.mounted.now hidden.now
        (vec_capacity path)) found.entry.damaged.now) }
    ensures names { IfOk result (λ path. HeldPathsFit ways.now.up.mounted.now.state
        (vec_capacity path) found.entry.missing.now) }
    ensures gaps { IfOk result (λ path. GapPathsFit ways.now.up.mounted.now.state
        (vec_capacity path) found.entry.gaps.now) }
{
    let nodes = deepest_of_all::<E>(ways, hidden, found.damaged);
    let names = deepest(ways, found.missing);
    let files = deepest_of_gaps(ways, found.gaps);
    let most = nodes.max(names);
    let room = most.max(files);
    Vec::with_capacity(alloc, room as usize + 1)
}

/// Tells that there is no damage.
fn put_none<T: Sink>(sink: &mut T) -> Result<Totals, DeviceFault>
    ensures puts { PutsTo T.Sink sink.old sink.new (totals_shown no_damage) result }
    ensures totals { IfOk result (λ totals. totals ≡ no_damage) }
{
    let totals = Totals {
        damaged: 0,
        paths: 0,
        missing: 0,
        gaps: 0,
    };
    put_totals(&totals, sink)?;
    Ok(totals)
}

/// What is told, or that the sink failed.
fn told(put: Result<Totals, DeviceFault>) -> Result<Totals, DamageFault>
    ensures { result ≡ damage_told put }
{
    match put {
        Ok(totals) => Ok(totals),
        Err(DeviceFault) => Err(DamageFault::Output),
    }
}

/// Whether there are none of these.
fn is_none<T>(items: &[T]) -> bool
    ensures { result ≡ true → items.now ≡ [] }
{
    items.is_empty()
}

/// Whether there is nothing to tell of.
fn is_nothing(found: Found<'_, '_, '_, '_>) -> bool
    ensures damaged { result ≡ true → found.entry.damaged.now ≡ [] }
    ensures missing { result ≡ true → found.entry.missing.now ≡ [] }
    ensures gaps { result ≡ true → found.entry.gaps.now ≡ [] }
{
    is_none(found.damaged) && is_none(found.missing) && is_none(found.gaps)
}

/// Puts what the damage of a mounted image costs: of each damaged entry or inode node, in order of
/// address, which paths it hides, that it hides nothing, or that what it said is not known; then a
/// line for each name whose object is missing; then of each gap, in which paths it is, and the
/// totals, which are the answer. A damaged node hides nothing where the object is the same whatever
/// it said. A gap is a maximal range of bytes of a file that no sound node has. The image was
/// mounted in `E`'s order and with this geometry, as it is or through its compression. Each line
/// goes out as it is made. Before the first it takes memory for what the sound inode nodes have, to
/// find the gaps, and gives it back. Where there is something to tell, it takes memory for it, for
/// the sound nodes of damaged objects that touch what was lost, for the names of these objects and
/// of the files with gaps, for the directories on the ways up from what is told, in a tree that has
/// not its shape for all that `ls` enters, and for one path.
///
/// # Errors
/// `OutOfMemory`, and nothing was put. `Output`: the sink failed, and took a beginning.
pub fn put_damage<E: Order, T: Sink>(
    alloc: Global,
    mounted: &Mounted<'_>,
    geometry: Geometry,
    sink: &mut T,
) -> Result<Totals, DamageFault>
    requires { IsScannable geometry.block mounted.now.image }
    ensures { PutsDamage E.order geometry.block mounted.now (T.taken sink.old) (T.taken sink.new)
        (T.failures sink.old) (T.failures sink.new) result }
{
    let image = mounted.image();
    let damaged = damaged_nodes::<E>(alloc, image, geometry)?;
    let missing = mounted.dangling(alloc)?;
    let gaps = gaps_of::<E>(alloc, mounted, geometry)?;
    let found = found_of(&damaged, &missing, &gaps);
    if is_nothing(found) {
        return told(put_none(sink));
    }
    let numbers = numbers_of::<E>(alloc, image, found.damaged, found.gaps)?;
    let sound = stretches_beside::<E>(alloc, image, geometry, &numbers, found.damaged)?;
    let hidden = hidden_of::<E>(alloc, mounted, sound, found.damaged)?;
    let dirs = dirs_of::<E>(alloc, mounted, &numbers, found.damaged)?;
    let ways = Ways::new(alloc, mounted, &numbers, &dirs)?;
    let mut path = room_for::<E>(alloc, &ways, &hidden, found)?;
    told(put_all::<E, T>(&ways, &hidden, found, &mut path, sink))
}
