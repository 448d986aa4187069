//! The nodes of one number that are not its newest.

ghost use Rattle.std.specs.Prelude.{◌≡◌, ◌≢◌, ◌<◌, ◌≤◌, ◌==◌, ◌++◌, ◌∷◌, ℕ, [], Some, None, Box, IfOk, Contains, length, take, OnOk, OnErr, if◌then◌else◌};
ghost use Rattle.std.specs.declared.alloc.Global.{Global};
ghost use Rattle.std.specs.Ordering.{nat_cmp};
ghost use Rattle.std.specs.Vec.{vec_capacity, vec_len};
ghost use Rattle.std.specs.BTreeMap.{get};
ghost use Rattle.jnode.specs.declared.node.InodeNode.{InodeNode};
ghost use Rattle.jmount.specs.ByVersion.{node_of_version, place_of_version};
ghost use Rattle.jmount.specs.declared.places.Places.{Places};

use crate::places::Places;
use crate::sameness::is_same_node;
use crate::versions::InodeFault;
use jnode::{Fill, InodeNode};
use std::alloc::{AllocError, Global};
use std::boxed::Box;

/// Nodes of one number in the order in which they came. Where each version stands is made up when
/// one comes that is not the greatest: where versions rise, as in a log that was never cleaned,
/// that is never.
#[derive(Drop)]
pub struct Older<'a> {
    pub nodes: Vec<InodeNode<'a>>,
    pub places: Option<Box<Places>>,
    ghost found: { (node : InodeNode) → Contains nodes.items node
        → node_of_version nodes.items node.version ≡ Some node },
    ghost within: { (p : Box Places Global) → places ≡ Some p
        → p.value.listed ≤ length nodes.items },
    ghost placed: { (p : Box Places Global) (v : ℕ) → places ≡ Some p
        → get nat_cmp p.value.map v ≡ place_of_version (take p.value.listed nodes.items) v },
}

impl<'a> Older<'a> {
    ghost use Rattle.jmount.specs.Inodes.{InodeAgrees, InodeDiffers};

    /// No nodes. Takes no memory.
    pub fn new(alloc: Global) -> Older<'a>
        ensures { result.nodes.items ≡ [] }
    {
        Older {
            nodes: Vec::new(alloc),
            places: None,
        }
    }

    /// Adds a node of a version that no other has.
    pub fn push(&mut self, node: InodeNode<'a>) -> Result<(), AllocError>
        requires { node_of_version self.old.nodes.items node.version ≡ None }
        ensures ok { OnOk result (self.new.nodes.items ≡ self.old.nodes.items ++ node.entry ∷ []) }
        ensures err { OnErr result (self.new.nodes.items ≡ self.old.nodes.items) }
    {
        make_room(&mut self.nodes)?;
        self.nodes.push_reserved(node);
        Ok(())
    }

    /// Where the node of a version stands.
    fn place_of(&mut self, alloc: Global, version: u32) -> Result<Option<usize>, AllocError>
        ensures place { IfOk result
            (λ place. place ≡ place_of_version self.old.nodes.items version) }
        ensures nodes { self.new.nodes.items ≡ self.old.nodes.items }
    {
        let mut places = match self.places.take() {
            Some(places) => places,
            None => Box::new(alloc, Places::new(alloc))?,
        };
        places.list(&self.nodes)?;
        let place = places.map.get(&version).copied();
        self.places = Some(places);
        Ok(place)
    }

    /// Adds a node.
    pub fn add(&mut self, alloc: Global, node: InodeNode<'a>) -> Result<(), InodeFault>
        ensures clash { result ≡ Err InodeFault.Clash
            → InodeDiffers (node_of_version self.old.nodes.items node.entry.version) node.entry }
        ensures alone { OnOk result
            (InodeAgrees (node_of_version self.old.nodes.items node.entry.version) node.entry) }
        ensures ok { OnOk result ((v : ℕ) → node_of_version self.new.nodes.items v
            ≡ (if node.entry.version
            == v then Some node.entry else node_of_version self.old.nodes.items v)) }
        ensures nodes { OnOk result ((x : InodeNode) → Contains self.new.nodes.items x
            → Contains (node.entry ∷ self.old.nodes.items) x) }
        ensures err { OnErr result (self.new.nodes.items ≡ self.old.nodes.items) }
    {
        match self.place_of(alloc, node.version)? {
            Some(place) => agree(&self.nodes[place], &node),
            None => {
                self.push(node)?;
                Ok(())
            }
        }
    }
}

/// Makes room for one more, and for as many again.
fn make_room<'a>(nodes: &mut Vec<InodeNode<'a>>) -> Result<(), AllocError>
    ensures room { IfOk result (λ _. vec_len nodes.new < vec_capacity nodes.new) }
    ensures same { nodes.new.items ≡ nodes.old.items }
{
    if nodes.len() == nodes.capacity() {
        nodes.reserve_exact(nodes.len().max(1))?;
    }
    Ok(())
}

/// Whether a node may come where this one is stored.
pub fn agree(there: &InodeNode<'_>, node: &InodeNode<'_>) -> Result<(), InodeFault>
    ensures clash { result ≡ Err InodeFault.Clash → there.now ≢ node.now }
    ensures alone { OnOk result (there.now ≡ node.now) }
{
    if is_same_node(there, node) {
        Ok(())
    } else {
        Err(InodeFault::Clash)
    }
}

/// The same node, of the same bytes.
pub fn copied<'a>(node: &InodeNode<'a>) -> InodeNode<'a>
    ensures { result ≡ node.now }
{
    let fill = match &node.fill {
        Fill::Zero => Fill::Zero,
        Fill::Data(bytes) => Fill::Data(bytes.copied()),
    };
    InodeNode {
        ino: node.ino,
        version: node.version,
        mode: node.mode,
        uid: node.uid,
        gid: node.gid,
        isize: node.isize,
        atime: node.atime,
        mtime: node.mtime,
        ctime: node.ctime,
        offset: node.offset,
        dsize: node.dsize,
        fill,
    }
}
