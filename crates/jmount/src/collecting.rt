//! The nodes of an image, entries and inode nodes apart.

ghost use Rattle.std.specs.Prelude.{◌≡◌, IfOk, IfErr, OnOk};
ghost use Rattle.flashbase.specs.Lists.{greatest};
ghost use Rattle.jname.specs.Clash as clash;
ghost use Rattle.jname.specs.Live as live;
ghost use Rattle.jmount.specs.Clash.{NoInodeClashesWith, SomeInodeClashesWith};
ghost use Rattle.jmount.specs.Inodes.{GainsInode};
ghost use Rattle.jmount.specs.StateOf.{entries, numbers_in};
ghost use Rattle.jmount.specs.CollectedEntries.{CollectedEntries};
ghost use Rattle.jmount.specs.Collected.{Collected, IsRefused, StopsCollecting, without_addresses, greatest_number};

use crate::fault::MountFault;
use crate::inodes::Inodes;
use crate::sorting::{are_in_order, collect_names};
use crate::versions::InodeFault;
use jname::{NameFault, Names};
use jnode::{Dirent, InodeNode, NodeRef};
use std::alloc::Global;

/// What is collected of nodes: their entries, their inode nodes, and the greatest number that they
/// name, the root's among them.
#[derive(Drop)]
pub struct NodeTables<'a> {
    pub names: Names<'a>,
    pub inodes: Inodes<'a>,
    pub greatest: u32,
}

/// Collects nodes, up to the first that clashes with one before it.
pub fn collect<'a>(
    alloc: Global,
    nodes: Vec<(u32, NodeRef<'a>)>,
) -> Result<NodeTables<'a>, MountFault>
    ensures ok { IfOk result (λ tables. Collected tables.names tables.inodes nodes.entry.items) }
    ensures greatest { IfOk result
        (λ tables. tables.greatest ≡ greatest_number (without_addresses nodes.entry.items)) }
    ensures err { IfErr result (StopsCollecting nodes.entry.items) }
{
    if are_in_order(&nodes) {
        return collect_in_turn(alloc, nodes);
    }
    match collect_names(alloc, &nodes) {
        Ok(names) => collect_inodes(alloc, nodes, names),
        // Which node of which clash is the first is told by their order.
        Err(NameFault::Clash) => collect_in_turn(alloc, nodes),
        Err(NameFault::OutOfMemory) => Err(MountFault::OutOfMemory),
    }
}

/// Collects nodes, one after the other.
fn collect_in_turn<'a>(
    alloc: Global,
    nodes: Vec<(u32, NodeRef<'a>)>,
) -> Result<NodeTables<'a>, MountFault>
    ensures ok { IfOk result (λ tables. Collected tables.names tables.inodes nodes.entry.items) }
    ensures greatest { IfOk result
        (λ tables. tables.greatest ≡ greatest_number (without_addresses nodes.entry.items)) }
    ensures err { IfErr result (StopsCollecting nodes.entry.items) }
{
    let mut names = Names::new(alloc);
    let mut inodes = Inodes::new(alloc);
    let mut greatest = 1;
    for (addr, node) in nodes {
        greatest = greatest.max(number_in(&node));
        match node {
            NodeRef::Entry(entry) => add_entry(&mut names, addr, &entry)?,
            NodeRef::Inode(inode) => add_inode(&mut inodes, addr, inode)?,
        }
    }
    Ok(NodeTables {
        names,
        inodes,
        greatest,
    })
}

/// Collects the inode nodes of nodes whose names are collected.
fn collect_inodes<'a>(
    alloc: Global,
    nodes: Vec<(u32, NodeRef<'a>)>,
    names: Names<'a>,
) -> Result<NodeTables<'a>, MountFault>
    requires { CollectedEntries names (entries (without_addresses nodes.items)) }
    ensures ok { IfOk result (λ tables. Collected tables.names tables.inodes nodes.entry.items) }
    ensures greatest { IfOk result
        (λ tables. tables.greatest ≡ greatest_number (without_addresses nodes.entry.items)) }
    ensures err { IfErr result (StopsCollecting nodes.entry.items) }
{
    let mut inodes = Inodes::new(alloc);
    let mut greatest = 1;
    for (addr, node) in nodes {
        greatest = greatest.max(number_in(&node));
        if let NodeRef::Inode(inode) = node {
            add_inode(&mut inodes, addr, inode)?;
        }
    }
    Ok(NodeTables {
        names,
        inodes,
        greatest,
    })
}

/// The greatest number that a node names.
fn number_in(node: &NodeRef<'_>) -> u32
    ensures { result ≡ greatest (numbers_in node.now) }
{
    match node {
        NodeRef::Entry(entry) => entry.pino.max(entry.ino),
        NodeRef::Inode(inode) => inode.ino,
    }
}

/// Adds the entry at an address.
fn add_entry<'a>(names: &mut Names<'a>, addr: u32, entry: &Dirent<'a>) -> Result<(), MountFault>
    ensures ok { OnOk result (live.Gains names.old names.new entry.now) }
    ensures alone { OnOk result (clash.NoEntryClashesWith names.old entry.now) }
    ensures err { IfErr result (IsRefused addr (clash.SomeEntryClashesWith names.old entry.now)) }
{
    match names.add(entry) {
        Ok(()) => Ok(()),
        Err(NameFault::Clash) => Err(MountFault::Clash { addr }),
        Err(NameFault::OutOfMemory) => Err(MountFault::OutOfMemory),
    }
}

/// Adds the inode node at an address.
fn add_inode<'a>(inodes: &mut Inodes<'a>, addr: u32, inode: InodeNode<'a>) -> Result<(), MountFault>
    ensures ok { OnOk result (GainsInode inodes.old inodes.new inode.entry) }
    ensures alone { OnOk result (NoInodeClashesWith inodes.old inode.entry) }
    ensures err { IfErr result (IsRefused addr (SomeInodeClashesWith inodes.old inode.entry)) }
{
    match inodes.add(inode) {
        Ok(()) => Ok(()),
        Err(InodeFault::Clash) => Err(MountFault::Clash { addr }),
        Err(InodeFault::OutOfMemory) => Err(MountFault::OutOfMemory),
    }
}
