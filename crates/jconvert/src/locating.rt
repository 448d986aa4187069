//! The expanded nodes of an image, each with the address of its tile.

ghost use Rattle.std.specs.Prelude.{◌≡◌, ◌<◌, ◌++◌, [], None, IfOk, IfErr, OnOk, OnErr, IsTrue, Contains, length, option_map};
ghost use Rattle.std.specs.List.{cons_option};
ghost use Rattle.jscan.specs.Image.{is_block_size, sightings};
ghost use Rattle.jexpand.specs.Expanded.{tile_content};
ghost use Rattle.jexpand.specs.Refused.{node_fault};
ghost use Rattle.jexpand.specs.declared.fault.ConvertFault.TheVariants.{OutOfMemory};
ghost use Rattle.jconvert.specs.Converting.{convert_fault};
ghost use Rattle.jconvert.specs.Holding.{BeginsAs, held_after, IsHeldOf};
ghost use Rattle.jconvert.specs.Apart.{located_nodes};

use jexpand::{ConvertFault, content_len, node_with_content};
use jnode::{NodeRef, Order, Seen};
use jscan::{Geometry, Sightings};
use std::alloc::Global;

/// What the data of a sighted tile stand for, of what is held, and what is held behind it.
fn split_content<'a, E: Order>(
    image: &[u8],
    geometry: Geometry,
    addr: u32,
    seen: &Seen<'_>,
    held: &'a [u8],
) -> Result<(&'a [u8], &'a [u8]), ConvertFault>
    requires readable { IsTrue (is_block_size geometry.block) }
    requires sighted { Contains (sightings E.order geometry.block image.now) (addr, seen.now) }
    requires accepted { node_fault E.order geometry.block image.now (addr, seen.now) ≡ None }
    requires held { BeginsAs (tile_content E.order geometry.block image.now (addr, seen.now))
        held.now }
    ensures content { IfOk result (λ parts. parts.0.now
        ≡ tile_content E.order geometry.block image.now (addr, seen.now)) }
    ensures rest { IfOk result (λ parts. parts.1.now
        ≡ held_after (tile_content E.order geometry.block image.now (addr, seen.now)) held.now) }
    ensures memory { IfErr result (λ fault. fault ≡ OutOfMemory) }
    ensures short { OnErr result (length held.now
        < length (tile_content E.order geometry.block image.now (addr, seen.now))) }
{
    let len = content_len::<E>(image, geometry, addr, seen);
    if len <= held.len() {
        Ok(held.split_at(len))
    } else {
        Err(ConvertFault::OutOfMemory)
    }
}

/// Adds a node with its address, if there is one.
fn push_node<'a>(
    nodes: &mut Vec<(u32, NodeRef<'a>)>,
    addr: u32,
    node: Option<NodeRef<'a>>,
) -> Result<(), ConvertFault>
    ensures ok { OnOk result (nodes.new.items
        ≡ nodes.old.items ++ cons_option (option_map (λ n. (addr, n)) node.entry) []) }
    ensures memory { IfErr result (λ fault. fault ≡ OutOfMemory) }
{
    match node {
        None => Ok(()),
        Some(node) => match nodes.push((addr, node)) {
            Ok(()) => Ok(()),
            Err(_) => Err(ConvertFault::OutOfMemory),
        },
    }
}

/// The expanded nodes of an image that `judge` did not refuse, in the order of their addresses.
/// `held` is what it left: where that is not all that the data stand for, memory is wanting.
///
/// # Errors
/// Only memory can be wanting.
pub(crate) fn located<'a, E: Order>(
    alloc: Global,
    image: &'a [u8],
    geometry: Geometry,
    held: &'a [u8],
) -> Result<Vec<(u32, NodeRef<'a>)>, ConvertFault>
    requires accepted { convert_fault E.order geometry.block image.now ≡ None }
    requires held { IsHeldOf E.order geometry.block image.now held.now }
    ensures nodes { IfOk result
        (λ nodes. nodes.items ≡ located_nodes E.order geometry.block image.now) }
    ensures memory { IfErr result (λ fault. fault ≡ OutOfMemory) }
{
    let sightings = match Sightings::<E>::new(image, geometry) {
        Ok(sightings) => sightings,
        Err(_) => return Err(ConvertFault::OutOfMemory),
    };
    let mut held = held;
    let mut nodes = Vec::new(alloc);
    for (addr, seen) in sightings {
        let (content, rest) = match split_content::<E>(image, geometry, addr, &seen, held) {
            Ok(parts) => parts,
            Err(_) => return Err(ConvertFault::OutOfMemory),
        };
        held = rest;
        let node = node_with_content::<E>(image, geometry, addr, seen, content);
        match push_node(&mut nodes, addr, node) {
            Ok(()) => {}
            Err(_) => return Err(ConvertFault::OutOfMemory),
        }
    }
    Ok(nodes)
}
