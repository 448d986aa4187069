//! What is told of a damaged node, and of a name whose object is missing.

ghost use Rattle.std.specs.Prelude.{◌≡◌, ◌++◌, ◌-◌, ◌^◌, ◌<◌, ◌≤◌, [], true, IfOk, false, length, min, vec_capacity};
ghost use Rattle.flashbase.specs.Sinks.{PutsTo};
ghost use Rattle.jscan.specs.Image.{greatest_image};
ghost use Rattle.jdamage.specs.Damage.{gap_text, hurt_text, missing_text, more_gap_text, reached_once, rest_text};
ghost use Rattle.std.specs.BTreeSet.{contains};
ghost use Rattle.std.specs.List.{flat_map};
ghost use Rattle.std.specs.Ordering.{nat_cmp};
ghost use Rattle.jdamage.specs.Lines.{loss_line, path_line};
ghost use Rattle.jdamage.specs.Room.{HeldPathsFit, NodePathsFit, PathsFit, names_told};
ghost use Rattle.jdamage.specs.Telling.{HasListedNumber, first_lines, lost_paths, lost_text, named_text, own_paths, own_text};
ghost use Rattle.jdamage.specs.Ways.{depth, name_held, path_below, paths_to, root_paths};

use crate::fields::{Loss, loss_at};
use crate::firsts::Name;
use crate::lines::{
    gap_in, hides_start, put_loss, put_missing, put_more, put_more_gap, put_no_path, put_nothing,
    put_path_line, put_unknown,
};
use crate::ways::{MOST_PATHS, Ways};
use flashbase::{DeviceFault, Sink};
use jgaps::{Gap, Stretch, stretch_at};
use jmount::ROOT;
use jnode::{Damage, Order};
use std::collections::BTreeSet;

/// Puts a line with the path of a name, where a path leads to it.
fn put_name<'m, T: Sink>(
    ways: &Ways<'m, '_>,
    start: &[u8],
    name: Name<'m>,
    path: &mut Vec<&'m [u8]>,
    sink: &mut T,
) -> Result<(), DeviceFault>
    requires { depth ways.now.up.mounted.now.state name.0 < vec_capacity path.old }
    ensures puts { PutsTo T.Sink sink.old sink.new
        (named_text ways.now.up.mounted.now.state start.now name.entry) result }
    ensures capacity { vec_capacity path.old ≤ vec_capacity path.new }
{
    if !ways.up.put_name(name.0, name.1, path) {
        return Ok(());
    }
    put_path_line(start, path.as_slice(), sink)
}

/// Puts a line with the root's path, for its number. Answers how many paths that is.
fn put_root<T: Sink>(start: &[u8], ino: u32, sink: &mut T) -> Result<u64, DeviceFault>
    ensures puts { PutsTo T.Sink sink.old sink.new
        (flat_map (path_line start.now) (root_paths ino)) result }
    ensures count { IfOk result (λ count. count ≡ length (root_paths ino)) }
    ensures few { IfOk result (λ count. count ≤ 1) }
{
    if ino != ROOT {
        return Ok(0);
    }
    put_path_line(start, &[], sink)?;
    Ok(1)
}

/// Puts a line for each of these names that a path leads to.
fn put_names<'m, T: Sink>(
    ways: &Ways<'m, '_>,
    start: &[u8],
    names: &[Name<'m>],
    path: &mut Vec<&'m [u8]>,
    sink: &mut T,
) -> Result<(), DeviceFault>
    requires { HeldPathsFit ways.now.up.mounted.now.state (vec_capacity path.old) names.now }
    ensures puts { PutsTo T.Sink sink.old sink.new
        (flat_map (named_text ways.now.up.mounted.now.state start.now) names.now) result }
    ensures capacity { vec_capacity path.old ≤ vec_capacity path.new }
{
    for name in names {
        put_name(ways, start, *name, path, sink)?;
    }
    Ok(())
}

/// Puts a line for each of the first paths that lead to a number. Answers how many paths do.
fn put_paths<'m, T: Sink>(
    ways: &Ways<'m, '_>,
    start: &[u8],
    ino: u32,
    path: &mut Vec<&'m [u8]>,
    sink: &mut T,
) -> Result<u64, DeviceFault>
    requires number { contains nat_cmp ways.now.numbers.now ino ≡ true }
    requires room { PathsFit ways.now.up.mounted.now.state (vec_capacity path.old)
        (names_told ways.now.up.mounted.now.state ino) }
    ensures puts { PutsTo T.Sink sink.old sink.new
        (first_lines ways.now.up.mounted.now.state start.now ino) result }
    ensures count { IfOk result (λ count. count
        ≡ length (paths_to ways.now.up.mounted.now.state ino)) }
    ensures few { IfOk result (λ count. count ≤ 2 ^ 63) }
    ensures capacity { vec_capacity path.old ≤ vec_capacity path.new }
{
    let root = put_root(start, ino, sink)?;
    let names = ways.first_names(ino, (MOST_PATHS - root) as usize);
    put_names(ways, start, names, path, sink)?;
    Ok(root + ways.count(ino))
}

/// Tells that no path leads to what a node hides, or how many more do than were told.
fn put_rest<T: Sink>(addr: u32, lost: &Stretch, count: u64, sink: &mut T) -> Result<(), DeviceFault>
    ensures { PutsTo T.Sink sink.old sink.new (rest_text addr lost.now count) result }
{
    if count == 0 {
        return put_no_path(addr, lost, sink);
    }
    if count > MOST_PATHS {
        return put_more(addr, lost, count - MOST_PATHS, sink);
    }
    Ok(())
}

/// Tells what a node hides that is missed: of each node the first paths alone. Answers how many
/// there are.
fn put_hurt<'m, T: Sink>(
    ways: &Ways<'m, '_>,
    addr: u32,
    lost: &Stretch,
    path: &mut Vec<&'m [u8]>,
    sink: &mut T,
) -> Result<u64, DeviceFault>
    requires number { contains nat_cmp ways.now.numbers.now lost.now.ino ≡ true }
    requires room { PathsFit ways.now.up.mounted.now.state (vec_capacity path.old)
        (names_told ways.now.up.mounted.now.state lost.now.ino) }
    ensures puts { PutsTo T.Sink sink.old sink.new
        (hurt_text addr lost.now (paths_to ways.now.up.mounted.now.state lost.now.ino)) result }
    ensures count { IfOk result (λ count. count
        ≡ min (length (paths_to ways.now.up.mounted.now.state lost.now.ino)) (2 ^ 64 - 1)) }
    ensures capacity { vec_capacity path.old ≤ vec_capacity path.new }
{
    let start = hides_start(addr, lost);
    let count = put_paths(ways, start.as_slice(), lost.ino, path, sink)?;
    put_rest(addr, lost, count, sink)?;
    Ok(count)
}

/// Tells how many more paths lead to the file of a gap than were told.
fn put_gap_rest<T: Sink>(gap: &Gap, count: u64, sink: &mut T) -> Result<(), DeviceFault>
    ensures { PutsTo T.Sink sink.old sink.new (more_gap_text gap.now count) result }
{
    if count > MOST_PATHS {
        return put_more_gap(gap, count - MOST_PATHS, sink);
    }
    Ok(())
}

/// Tells of a gap, by the first paths of its file alone. Answers 1 if a path leads there, else 0.
pub(crate) fn put_gap<'m, T: Sink>(
    ways: &Ways<'m, '_>,
    gap: &Gap,
    path: &mut Vec<&'m [u8]>,
    sink: &mut T,
) -> Result<usize, DeviceFault>
    requires number { contains nat_cmp ways.now.numbers.now gap.now.ino ≡ true }
    requires room { PathsFit ways.now.up.mounted.now.state (vec_capacity path.old)
        (names_told ways.now.up.mounted.now.state gap.now.ino) }
    ensures puts { PutsTo T.Sink sink.old sink.new
        (gap_text ways.now.up.mounted.now.state gap.now) result }
    ensures count { IfOk result (λ count. count
        ≡ reached_once ways.now.up.mounted.now.state gap.now) }
    ensures few { IfOk result (λ count. count ≤ 1) }
    ensures capacity { vec_capacity path.old ≤ vec_capacity path.new }
{
    let start = gap_in(gap);
    let count = put_paths(ways, start.as_slice(), gap.ino, path, sink)?;
    put_gap_rest(gap, count, sink)?;
    Ok(count.min(1) as usize)
}

/// Tells what a node of damaged data hides. Answers how many paths.
fn put_data<'m, T: Sink>(
    ways: &Ways<'m, '_>,
    hides_nothing: bool,
    addr: u32,
    lost: &Stretch,
    path: &mut Vec<&'m [u8]>,
    sink: &mut T,
) -> Result<u64, DeviceFault>
    requires number { contains nat_cmp ways.now.numbers.now lost.now.ino ≡ true }
    requires room { hides_nothing ≡ false
        → PathsFit ways.now.up.mounted.now.state (vec_capacity path.old)
        (names_told ways.now.up.mounted.now.state lost.now.ino) }
    ensures puts { PutsTo T.Sink sink.old sink.new
        (lost_text ways.now.up.mounted.now.state hides_nothing addr lost.now) result }
    ensures count { IfOk result (λ count. count ≡ min
        (length (lost_paths ways.now.up.mounted.now.state hides_nothing lost.now)) (2 ^ 64 - 1)) }
    ensures capacity { vec_capacity path.old ≤ vec_capacity path.new }
{
    if hides_nothing {
        put_nothing(addr, lost, sink)?;
        return Ok(0);
    }
    put_hurt(ways, addr, lost, path, sink)
}

/// Tells what entry a node of a damaged name was.
fn put_lost<'m, T: Sink>(
    ways: &Ways<'m, '_>,
    addr: u32,
    loss: &Loss,
    path: &mut Vec<&'m [u8]>,
    sink: &mut T,
) -> Result<(), DeviceFault>
    requires { depth ways.now.up.mounted.now.state loss.now.pino < vec_capacity path.old }
    ensures puts { PutsTo T.Sink sink.old sink.new (loss_line addr loss.now
        (path_below ways.now.up.mounted.now.state loss.now.pino [])) result }
    ensures capacity { vec_capacity path.old ≤ vec_capacity path.new }
{
    if ways.up.put_directory(loss.pino, path) {
        return put_loss(addr, loss, Some(path.as_slice()), sink);
    }
    put_loss(addr, loss, None, sink)
}

/// Tells of a damaged node, where these addresses are of those that hide nothing. Answers how many
/// paths it hides.
pub(crate) fn put_node<'m, E: Order, T: Sink>(
    ways: &Ways<'m, '_>,
    hidden: &BTreeSet<u32>,
    addr: u32,
    which: Damage,
    path: &mut Vec<&'m [u8]>,
    sink: &mut T,
) -> Result<u64, DeviceFault>
    requires image { length ways.now.up.mounted.now.image ≤ greatest_image }
    requires number { HasListedNumber E.order ways.now.up.mounted.now.image ways.now.numbers.now
        (addr, which) }
    requires room { NodePathsFit E.order ways.now.up.mounted.now hidden.now (vec_capacity path.old)
        (addr, which) }
    ensures puts { PutsTo T.Sink sink.old sink.new
        (own_text E.order ways.now.up.mounted.now hidden.now (addr, which)) result }
    ensures count { IfOk result (λ count. count
        ≡ min (own_paths E.order ways.now.up.mounted.now hidden.now (addr, which)) (2 ^ 64 - 1)) }
    ensures capacity { vec_capacity path.old ≤ vec_capacity path.new }
{
    let image = ways.up.mounted.image();
    match which {
        Damage::DataCrc => {
            let lost = stretch_at::<E>(image, addr);
            put_data(ways, hidden.contains(&addr), addr, &lost, path, sink)
        }
        Damage::NameCrc => {
            let loss = loss_at::<E>(image, addr);
            put_lost(ways, addr, &loss, path, sink)?;
            Ok(0)
        }
        Damage::NodeCrc | Damage::Length | Damage::Range => {
            put_unknown(addr, which, sink)?;
            Ok(0)
        }
    }
}

/// Tells of a name whose object is missing.
pub(crate) fn put_missing_name<'m, T: Sink>(
    ways: &Ways<'m, '_>,
    name: Name<'m>,
    path: &mut Vec<&'m [u8]>,
    sink: &mut T,
) -> Result<(), DeviceFault>
    requires { depth ways.now.up.mounted.now.state name.0 < vec_capacity path.old }
    ensures puts { PutsTo T.Sink sink.old sink.new
        (missing_text ways.now.up.mounted.now.state (name_held name.entry)) result }
    ensures capacity { vec_capacity path.old ≤ vec_capacity path.new }
{
    let (pino, text, ino) = name;
    if ways.up.put_name(pino, text, path) {
        return put_missing(pino, text, ino, Some(path.as_slice()), sink);
    }
    put_missing(pino, text, ino, None, sink)
}
