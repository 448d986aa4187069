//! The compressed node that stands for a node.

ghost use Rattle.std.specs.Prelude.{◌≡◌, ◌==◌, ◌≤◌, ◌+◌, Some, IfNone, IfOk, IfErr, IfSome, IsFalse, IsTrue, length};
ghost use Rattle.jcompr.specs.Zlib.{zlib_of};
ghost use Rattle.jmount.specs.Tree.{type_bits, regular_bits};
ghost use Rattle.jnode.specs.Writing.{totlen_most};
ghost use Rattle.jnode.specs.declared.node.Fill.TheVariants.{Data};
ghost use Rattle.jnode.specs.declared.node.NodeRef.TheVariants as node;
ghost use Rattle.jexpand.specs.declared.fault.ConvertFault.TheVariants.{OutOfMemory};
ghost use Rattle.jlog.specs.Packed.{IsPackedForm};
ghost use Rattle.jconvert.specs.Compressing.{StaysPlain, is_shorter, may_be_packed, packed_as};

use flashbase::{Part, pad4};
use jexpand::ConvertFault;
use jnode::{CompressedNode, Fill, INODE_LEN, InodeNode, Order, WriteFault, write_compressed};
use jpack::{Packer, compress};
use std::alloc::Global;

/// The number of ZLIB.
const ZLIB: u8 = 6;

/// The most bytes that are packed at once.
const LONGEST: usize = 0x8000;

/// Whether a mode is that of a regular file.
fn is_regular(mode: u32) -> bool
    ensures { result ≡ (type_bits mode == regular_bits) }
{
    mode / 4096 % 16 == 8
}

/// The compressed node of the same fields with these data.
fn packed_as<'a>(inode: &InodeNode<'_>, stream: &'a [u8]) -> CompressedNode<'a>
    ensures { result ≡ packed_as inode.now stream.now }
{
    CompressedNode {
        ino: inode.ino,
        version: inode.version,
        mode: inode.mode,
        uid: inode.uid,
        gid: inode.gid,
        isize: inode.isize,
        atime: inode.atime,
        mtime: inode.mtime,
        ctime: inode.ctime,
        offset: inode.offset,
        dsize: inode.dsize,
        compr: ZLIB,
        data: Part::new(stream, 0),
    }
}

/// Whether so many bytes of data make a node of fewer words than so many bytes as they are.
fn is_shorter(packed: usize, plain: usize) -> bool
    requires packed { packed ≤ totlen_most }
    requires plain { plain ≤ totlen_most }
    ensures { result ≡ is_shorter packed plain }
{
    pad4(INODE_LEN as u32 + packed as u32) < pad4(INODE_LEN as u32 + plain as u32)
}

/// Where nodes are packed.
#[derive(Drop)]
pub struct Packing {
    pub packer: Packer,
    /// Data of which the image lacks the end.
    pub whole: Vec<u8>,
    /// The written form of the node.
    pub form: Vec<u8>,
}

impl Packing {
    pub(crate) fn new(alloc: Global) -> Result<Packing, ConvertFault>
        ensures { IfErr result (λ fault. fault ≡ OutOfMemory) }
    {
        match Packer::new(alloc) {
            Ok(packer) => Ok(Packing {
                packer,
                whole: Vec::new(alloc),
                form: Vec::new(alloc),
            }),
            Err(_) => Err(ConvertFault::OutOfMemory),
        }
    }
}

/// The data of a node, if they may be packed: those of a regular file, as many as its range has and
/// at most so many as are packed at once.
fn packable<'a, 'b>(inode: &'a InodeNode<'b>) -> Option<&'a Part<'b>>
    ensures some { IfSome result (λ part. inode.now.fill ≡ Data part.now) }
    ensures may { IfSome result (λ _. IsTrue (may_be_packed inode.now)) }
    ensures none { IfNone result (IsFalse (may_be_packed inode.now)) }
{
    match &inode.fill {
        Fill::Zero => None,
        Fill::Data(data) => {
            if inode.dsize as usize == data.len()
                && is_regular(inode.mode)
                && data.len() <= LONGEST
            {
                Some(data)
            } else {
                None
            }
        }
    }
}

/// Writes the compressed node that stands for a node, with a stream of its bytes, over the form,
/// and answers whether it is shorter, and one that is written.
fn write_shorter<E: Order>(
    inode: &InodeNode<'_>,
    bytes: &[u8],
    stream: &[u8],
    form: &mut Vec<u8>,
) -> Result<bool, ConvertFault>
    requires fill { inode.now.fill ≡ Data bytes.now }
    requires may { IsTrue (may_be_packed inode.now) }
    requires given { zlib_of (length bytes.now) stream.now ≡ Some bytes.now }
    requires short { length stream.now ≤ length bytes.now + 11 }
    ensures packed { IfOk result (λ is_packed. IsTrue is_packed
        → IsPackedForm E.order (node.Inode inode.now) form.new.items) }
    ensures plain { IfOk result (λ is_packed. IsFalse is_packed → StaysPlain inode.now) }
    ensures memory { IfErr result (λ fault. fault ≡ OutOfMemory) }
{
    if !is_shorter(stream.len(), bytes.len()) {
        return Ok(false);
    }
    form.clear();
    match write_compressed::<E>(form, &packed_as(inode, stream)) {
        Ok(()) => Ok(true),
        Err(WriteFault::OutOfMemory) => Err(ConvertFault::OutOfMemory),
        Err(WriteFault::Data) => Ok(false),
        Err(WriteFault::Name) => Ok(false),
    }
}

/// Packs the bytes of a node, and writes the compressed node that stands for it over the form.
/// Answers whether there is one.
fn pack_bytes<E: Order>(
    alloc: Global,
    inode: &InodeNode<'_>,
    bytes: &[u8],
    packer: &mut Packer,
    form: &mut Vec<u8>,
) -> Result<bool, ConvertFault>
    requires fill { inode.now.fill ≡ Data bytes.now }
    requires may { IsTrue (may_be_packed inode.now) }
    ensures packed { IfOk result (λ is_packed. IsTrue is_packed
        → IsPackedForm E.order (node.Inode inode.now) form.new.items) }
    ensures plain { IfOk result (λ is_packed. IsFalse is_packed → StaysPlain inode.now) }
    ensures memory { IfErr result (λ fault. fault ≡ OutOfMemory) }
{
    match compress(alloc, bytes, packer) {
        Ok(Some(stream)) => write_shorter::<E>(inode, bytes, stream, form),
        Ok(None) => Ok(false),
        Err(_) => Err(ConvertFault::OutOfMemory),
    }
}

/// The same of a node whose data the image may lack the end of. Data that may be packed stay as
/// they are only where the packer's stream makes no shorter node, or none that is written. That it
/// is the packer's no clause says: one says that there is such a stream.
pub(crate) fn pack_inode<E: Order>(
    alloc: Global,
    inode: &InodeNode<'_>,
    packing: &mut Packing,
) -> Result<bool, ConvertFault>
    ensures packed { IfOk result (λ is_packed. IsTrue is_packed
        → IsPackedForm E.order (node.Inode inode.now) packing.new.form.items) }
    ensures plain { IfOk result (λ is_packed. IsFalse is_packed → StaysPlain inode.now) }
    ensures memory { IfErr result (λ fault. fault ≡ OutOfMemory) }
{
    let Some(data) = packable(inode) else {
        return Ok(false);
    };
    let Packing {
        packer,
        whole,
        form,
    } = packing;
    let present = data.present();
    if present.len() == data.len() {
        return pack_bytes::<E>(alloc, inode, present, packer, form);
    }
    whole.clear();
    if whole.reserve(data.len()).is_err() {
        return Err(ConvertFault::OutOfMemory);
    }
    data.put_onto(whole);
    pack_bytes::<E>(alloc, inode, whole, packer, form)
}
