//! What is known of an image before its history is printed.
ghost use Rattle.std.specs.Prelude.{◌≡◌, IfErr, IfOk, OnOk, option_map};
ghost use Rattle.jscan.specs.Scans.{IsScannable};
ghost use Rattle.jview.specs.Through.{IsMountThroughOf};
ghost use Rattle.jthrough.specs.Addressed.{addressed_nodes};
ghost use Rattle.jhistory.specs.NodeWords.{AreWordsOf};
ghost use Rattle.jedge.specs.Acts.{seen_as};
ghost use Rattle.jinspects.specs.Live.{HoldsContents};
ghost use Rattle.jinspects.specs.Former.{AreFormerIf, IsNoFormerIf, TellsPath};
ghost use Rattle.jinspects.specs.Tracing.{ArePastsIf, Traces, traced};

use crate::former::former_of;
use jcommand::Options;
use jedge::fault::Fault;
use jedge::found::Found;
use jedge::mounting::view_refusal;
use jedge::subject::read_found;
use jhistory::{Words, words_of};
use jmount::Mounted;
use jnode::{NodeRef, Order};
use jpast::{Past, pasts_of};
use jscan::Geometry;
use jthrough::{mount_view, nodes_through, view_image};
use std::alloc::{AllocError, Global};
use std::collections::BTreeSet;

/// What is known of an image before its history is printed.
#[derive(Drop)]
pub struct Trace {
    /// What became of each node, by its address.
    pub words: Words,
    /// The objects whose nodes are told, if not all are.
    pub numbers: Option<BTreeSet<u32>>,
    /// What is left of them.
    pub pasts: Vec<Past>,
    /// What the command comes to.
    pub found: Found<'static>,
}

/// The objects that a path ever named, if one is given.
fn numbers_for(
    alloc: Global,
    mounted: &Mounted<'_>,
    nodes: &[(u32, NodeRef<'_>)],
    path: &Option<Vec<u8>>,
) -> Result<Option<BTreeSet<u32>>, Fault>
    ensures ok { IfOk result (AreFormerIf nodes.now mounted.now.state
        (option_map (λ p. p.items) path.now)) }
    ensures err { IfErr result (TellsPath (IsNoFormerIf nodes.now mounted.now.state
        (option_map (λ p. p.items) path.now))) }
{
    match path {
        Some(path) => match former_of(alloc, mounted, nodes, path.as_slice()) {
            Ok(numbers) => Ok(Some(numbers)),
            Err(fault) => Err(fault),
        },
        None => Ok(None),
    }
}

/// What is left of these objects, if not the nodes of all are told.
fn pasts_for(
    alloc: Global,
    mounted: &Mounted<'_>,
    nodes: &[(u32, NodeRef<'_>)],
    numbers: &Option<BTreeSet<u32>>,
) -> Result<Vec<Past>, AllocError>
    ensures { IfOk result
        (λ pasts. ArePastsIf nodes.now mounted.now.state numbers.now pasts.items) }
{
    match numbers {
        Some(numbers) => pasts_of(alloc, mounted, nodes, numbers),
        None => Ok(Vec::new(alloc)),
    }
}

/// What is known of a mounted image: `contents` are those that `view_image` left.
fn trace_mounted<E: Order>(
    alloc: Global,
    mounted: &Mounted<'_>,
    geometry: Geometry,
    contents: &[u8],
    path: &Option<Vec<u8>>,
) -> Result<(Words, Option<BTreeSet<u32>>, Vec<Past>), Fault>
    requires mount { IsMountThroughOf E.order geometry.block mounted.now }
    requires held { HoldsContents E.order geometry.block mounted.now.image contents.now }
    ensures words { IfOk result
        (λ known. AreWordsOf (addressed_nodes E.order geometry.block mounted.now.image) known.0) }
    ensures numbers { IfOk result
        (λ known. AreFormerIf (addressed_nodes E.order geometry.block mounted.now.image)
        mounted.now.state (option_map (λ p. p.items) path.now) known.1) }
    ensures pasts { IfOk result
        (λ known. ArePastsIf (addressed_nodes E.order geometry.block mounted.now.image)
        mounted.now.state known.1 known.2.items) }
    ensures err { IfErr result
        (TellsPath (IsNoFormerIf (addressed_nodes E.order geometry.block mounted.now.image)
        mounted.now.state (option_map (λ p. p.items) path.now))) }
{
    let nodes = match nodes_through::<E>(alloc, mounted.image(), geometry, contents) {
        Ok(nodes) => nodes,
        Err(_) => return Err(Fault::OutOfMemory),
    };
    let numbers = match numbers_for(alloc, mounted, nodes.as_slice(), path) {
        Ok(numbers) => numbers,
        Err(fault) => return Err(fault),
    };
    let pasts = match pasts_for(alloc, mounted, nodes.as_slice(), &numbers) {
        Ok(pasts) => pasts,
        Err(_) => return Err(Fault::OutOfMemory),
    };
    match words_of(alloc, mounted, nodes) {
        Ok(words) => Ok((words, numbers, pasts)),
        Err(_) => Err(Fault::OutOfMemory),
    }
}

/// Mounts an image through its compression, and finds out what became of each node, and which
/// objects a path ever named, if one is given, with what is left of them. If no node is found in
/// it, `others` is how many the other byte order has.
pub(crate) fn trace_of<E: Order>(
    alloc: Global,
    image: &[u8],
    options: Options,
    others: Option<u64>,
    path: &Option<Vec<u8>>,
) -> Result<Trace, Fault>
    requires { options.endian ≡ E.order }
    ensures trace { Traces (option_map (λ p. p.items) path.now) E.order options.geometry.block
        image.now others (seen_as traced result) }
    ensures scannable { OnOk result (IsScannable options.geometry.block image.now) }
{
    let geometry = options.geometry;
    let mut contents = Vec::new(alloc);
    let view = match view_image::<E>(alloc, image, geometry, &mut contents) {
        Ok(view) => view,
        Err(why) => return Err(Fault::Refused(view_refusal(why))),
    };
    let mounted = match mount_view::<E>(alloc, image, geometry, view, &contents) {
        Ok(mounted) => mounted,
        Err(why) => return Err(Fault::Refused(view_refusal(why))),
    };
    match trace_mounted::<E>(alloc, &mounted, geometry, &contents, path) {
        Ok((words, numbers, pasts)) => Ok(Trace {
            words,
            numbers,
            pasts,
            found: read_found(&mounted, options, others),
        }),
        Err(fault) => Err(fault),
    }
}
