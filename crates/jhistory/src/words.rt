//! The word of each node.

ghost use Rattle.std.specs.Prelude.{◌≡◌, ◌<◌, ◌==◌, ℕ, List, IfOk, OnOk, Contains};
ghost use Rattle.std.specs.BTreeSet.{contains};
ghost use Rattle.std.specs.List.{AllPairs};
ghost use Rattle.std.specs.Ordering.{nat_cmp};
ghost use Rattle.jnode.specs.declared.node.NodeRef.TheVariants.{Entry};
ghost use Rattle.jmount.specs.Collected.{without_addresses};
ghost use Rattle.jmount.specs.MountsNodes.{AreMountable};
ghost use Rattle.jmount.specs.StateOf.{state_of};
ghost use Rattle.jcompact.specs.Matters.{Placed};
ghost use Rattle.jcompact.specs.Taking.{reached_by};
ghost use Rattle.jhistory.specs.NewestEntries.{AddsNamed, HasNewest};
ghost use Rattle.jhistory.specs.NodeWords.{AreWordsBy, AreWordsOf, MarksLive, entry_word, has_name, object_word, other_word, word_beside};

use crate::newest::{Newest, Placed, is_newest, newest_for, newest_of, rank};
use crate::word::{NodeWord, Words};
use jcompact::{kept, unreached};
use jmount::Mounted;
use jnode::{Dirent, NodeRef};
use std::alloc::{AllocError, Global};
use std::collections::{BTreeMap, BTreeSet};

/// What is known of some nodes before their words are found.
#[derive(Clone, Copy)]
struct Known<'k, 'm, 'a> {
    mounted: &'k Mounted<'m>,
    unreached: &'k BTreeSet<u32>,
    newest: &'k Newest<'a>,
    named: &'k BTreeSet<u32>,
}

/// Adds what an entry stands for, if it is the newest of its name.
fn add_entry<'a>(
    alloc: Global,
    newest: &Newest<'a>,
    addr: u32,
    entry: &Dirent<'a>,
    named: &mut BTreeSet<u32>,
) -> Result<(), AllocError>
    ensures { OnOk result ((ns : List Placed) → HasNewest ns newest.now
        → Contains ns (addr, Entry entry.now)
        → AddsNamed ns (addr, Entry entry.now) named.old named.new) }
{
    if !is_newest(alloc, newest, addr, entry)? {
        return Ok(());
    }
    named.insert(entry.ino)?;
    Ok(())
}

fn add_named<'a>(
    alloc: Global,
    newest: &Newest<'a>,
    node: &Placed<'a>,
    named: &mut BTreeSet<u32>,
) -> Result<(), AllocError>
    ensures { OnOk result ((ns : List Placed) → HasNewest ns newest.now → Contains ns node.now
        → AddsNamed ns node.now named.old named.new) }
{
    match &node.1 {
        NodeRef::Entry(entry) => add_entry(alloc, newest, node.0, entry, named),
        NodeRef::Inode(_) => Ok(()),
    }
}

/// The numbers that the newest entry of some name stands for.
fn named_of<'a>(
    alloc: Global,
    newest: &Newest<'a>,
    nodes: &[Placed<'a>],
) -> Result<BTreeSet<u32>, AllocError>
    requires { HasNewest nodes.now newest.now }
    ensures { IfOk result (λ named. (i : ℕ) → contains nat_cmp named i ≡ has_name nodes.now i) }
{
    let mut named = BTreeSet::new(alloc);
    for node in nodes {
        add_named(alloc, newest, node, &mut named)?;
    }
    Ok(named)
}

/// The word of an entry that is not live, where this is the newest of its name.
fn word_beside(ino: u32, rank: u64, top: (u64, u32)) -> NodeWord
    ensures { result ≡ word_beside (ino == 0) (top.0 == rank) (top.1 == 0) }
{
    if ino == 0 {
        NodeWord::Deletion
    } else if top.0 == rank {
        NodeWord::Unreached
    } else if top.1 == 0 {
        NodeWord::Deleted
    } else {
        NodeWord::Superseded
    }
}

/// The word of an entry that is not live.
fn entry_word<'a>(
    alloc: Global,
    newest: &Newest<'a>,
    addr: u32,
    entry: &Dirent<'a>,
) -> Result<NodeWord, AllocError>
    ensures { IfOk result (λ word. (ns : List Placed) → HasNewest ns newest.now
        → AllPairs (λ m n. m.0 < n.0) ns → Contains ns (addr, Entry entry.now)
        → word ≡ entry_word ns addr entry.now) }
{
    match newest_for(alloc, newest, entry)? {
        Some(top) => Ok(word_beside(entry.ino, rank(addr, entry), top)),
        None => Ok(NodeWord::Superseded),
    }
}

/// The word of an inode node that is not live.
fn inode_word(known: &Known<'_, '_, '_>, ino: u32) -> NodeWord
    ensures { result ≡ object_word (reached_by known.now.mounted.now.state
        known.now.unreached.now ino) (contains nat_cmp known.now.named.now ino) }
{
    if known.mounted.object(ino).is_some() && !known.unreached.contains(&ino) {
        return NodeWord::Superseded;
    }
    if known.named.contains(&ino) {
        NodeWord::Unreached
    } else {
        NodeWord::Deleted
    }
}

/// The word of a node that is not live.
fn other_word<'a>(
    alloc: Global,
    known: &Known<'_, '_, 'a>,
    node: &Placed<'a>,
) -> Result<NodeWord, AllocError>
    ensures { IfOk result (λ word. (ns : List Placed) → HasNewest ns known.now.newest.now
        → AllPairs (λ m n. m.0 < n.0) ns
        → ((i : ℕ) → contains nat_cmp known.now.named.now i ≡ has_name ns i)
        → Contains ns node.now
        → word ≡ other_word ns (reached_by known.now.mounted.now.state
        known.now.unreached.now) node.now) }
{
    match &node.1 {
        NodeRef::Entry(entry) => entry_word(alloc, known.newest, node.0, entry),
        NodeRef::Inode(inode) => Ok(inode_word(known, inode.ino)),
    }
}

/// The words of nodes, as if none were live.
fn words_known<'a>(
    alloc: Global,
    known: &Known<'_, '_, 'a>,
    nodes: &[Placed<'a>],
) -> Result<Words, AllocError>
    requires newest { HasNewest nodes.now known.now.newest.now }
    requires by_address { AllPairs (λ m n. m.0 < n.0) nodes.now }
    requires named { (i : ℕ) → contains nat_cmp known.now.named.now i ≡ has_name nodes.now i }
    ensures { IfOk result (AreWordsBy nodes.now (other_word nodes.now (reached_by
        known.now.mounted.now.state known.now.unreached.now))) }
{
    let mut words = BTreeMap::new(alloc);
    for node in nodes {
        let word = other_word(alloc, known, node)?;
        words.insert(node.0, word)?;
    }
    Ok(words)
}

/// The same, where these are the objects that no names lead to.
fn other_words(
    alloc: Global,
    mounted: &Mounted<'_>,
    unreached: &BTreeSet<u32>,
    nodes: &[Placed<'_>],
) -> Result<Words, AllocError>
    requires by_address { AllPairs (λ m n. m.0 < n.0) nodes.now }
    ensures { IfOk result (AreWordsBy nodes.now (other_word nodes.now (reached_by
        mounted.now.state unreached.now))) }
{
    let newest = newest_of(alloc, nodes)?;
    let named = named_of(alloc, &newest, nodes)?;
    let known = Known {
        mounted,
        unreached,
        newest: &newest,
        named: &named,
    };
    words_known(alloc, &known, nodes)
}

/// Gives the nodes at these addresses the word for live ones.
fn mark_live(words: &mut Words, kept: &[Placed<'_>]) -> Result<(), AllocError>
    ensures { OnOk result (MarksLive kept.now words.old words.new) }
{
    for node in kept {
        words.insert(node.0, NodeWord::Live)?;
    }
    Ok(())
}

/// What became of each of the nodes of a mounted image, in order of their addresses: its word by
/// its address. `Live` are those that `jcompact::kept` keeps. O(n log n) for n nodes. Takes memory
/// for what it knows of the nodes; what is left of it are the words.
///
/// # Errors
/// Out of memory: no word is answered then.
pub fn words_of(
    alloc: Global,
    mounted: &Mounted<'_>,
    nodes: Vec<(u32, NodeRef<'_>)>,
) -> Result<Words, AllocError>
    requires mountable { AreMountable nodes.items }
    requires by_address { AllPairs (λ m n. m.0 < n.0) nodes.items }
    requires made { mounted.now.state ≡ state_of (without_addresses nodes.items) }
    ensures { IfOk result (AreWordsOf nodes.entry.items) }
{
    let unreached = unreached(alloc, mounted)?;
    let mut words = other_words(alloc, mounted, &unreached, &nodes)?;
    let kept = kept(alloc, mounted, nodes)?;
    mark_live(&mut words, &kept)?;
    Ok(words)
}
