//! The shapes of the lines of each command, a row each: which kind of line it is, and its parts.
ghost use Rattle.std.specs.Prelude.{◌≡◌, map};
ghost use Rattle.jjson.specs.Tables.{row_of, shapes};

use crate::lines::Lines;

/// A kind of line, and a part for each of its words. `specs/Shapes.antt` says what a part is.
#[derive(Clone, Copy)]
pub(crate) struct Shape(pub &'static [u8], pub &'static [u8]);

/// The tree of `ls`.
const TREE: &[Shape] = &[
    Shape(b"object", b"=kind =mode #uid #gid #size #mtime #ino /path"),
    Shape(
        b"object",
        b"=kind =mode #uid #gid #size #mtime #ino /path ?again",
    ),
    Shape(
        b"object",
        b"=kind =mode #uid #gid ^size #mtime #ino /path -> ?long",
    ),
    Shape(
        b"object",
        b"=kind =mode #uid #gid #size #mtime #ino /path >target",
    ),
    Shape(
        b"object",
        b"=kind =mode #uid #gid #size #mtime #ino /path -> %target",
    ),
];

/// The report and the verdict of `check`.
const REPORT: &[Shape] = &[
    Shape(b"block", b"block #number"),
    Shape(b"marker", b"@address marker #length"),
    Shape(b"padding", b"@address padding #length"),
    Shape(
        b"entry",
        b"@address entry #length pino #pino version #version ino #ino type #type name \
          %name",
    ),
    Shape(
        b"inode",
        b"@address inode #length ino #ino version #version mode =mode size #size offset \
          #offset data #data =fill",
    ),
    Shape(b"compressed", b"@address compressed #length compr #compr"),
    Shape(b"obsolete", b"@address obsolete #length"),
    Shape(b"attribute", b"@address attribute #length"),
    Shape(b"skipped", b"@address skipped #length type =type"),
    Shape(b"read-only", b"@address read-only #length type =type"),
    Shape(b"incompatible", b"@address incompatible #length type =type"),
    Shape(b"damaged", b"@address damaged #length =which"),
    Shape(b"erased", b"@address erased #length"),
    Shape(b"other-order", b"@address other-order #length"),
    Shape(b"dirt", b"@address dirt #length"),
    Shape(
        b"total",
        b"total blocks #blocks entries #entries inodes #inodes findings #findings",
    ),
    Shape(b"mount", b"mount =verdict"),
    Shape(b"mount", b"mount =verdict =access"),
    Shape(b"mount", b"mount =verdict =code =error"),
    Shape(b"mount", b"mount =verdict =code =error at @address"),
    Shape(
        b"mount",
        b"mount =verdict =code =error at @address type =type",
    ),
    Shape(
        b"mount",
        b"mount =verdict =code =error at @address compr #compr",
    ),
    Shape(b"dangling", b"dangling pino #pino ino #ino name %name"),
    Shape(b"shape", b"shape =verdict"),
];

/// The parameters of `info`.
const PARAMETERS: &[Shape] = &[
    Shape(b"bytes", b"bytes #bytes"),
    Shape(b"order", b"order =order nodes #nodes other #other"),
    Shape(b"order", b"order =order"),
    Shape(b"block", b"block from #from to #to markers #markers"),
    Shape(b"block", b"block =block"),
    Shape(
        b"nodes",
        b"nodes entries #entries inodes #inodes obsolete #obsolete damaged #damaged \
          other #other",
    ),
    Shape(
        b"data",
        b"data none #none zero #zero rtime #rtime zlib #zlib lzo #lzo lzma #lzma other \
          #other",
    ),
    Shape(b"highest", b"highest inode #inode version #version"),
    Shape(b"spare", b"spare #spare after each #page"),
    Shape(
        b"region",
        b"region from =from to =to order =order block from #block_from to #block_to",
    ),
    Shape(
        b"region",
        b"region from =from to =to order =order block =block",
    ),
    Shape(b"more", b"more regions than these #regions"),
];

/// The differences of `diff` and `verify`.
const DIFFERENCES: &[Shape] = &[
    Shape(b"bytes", b"* /path at #offset"),
    Shape(b"device", b"* /path device =from to =to"),
    Shape(b"object", b"=sign =kind =mode #uid #gid #size /path"),
    Shape(b"object", b"=sign =kind =mode #uid #gid #size /path ?again"),
    Shape(
        b"object",
        b"=sign =kind =mode #uid #gid ^size /path -> ?long",
    ),
    Shape(
        b"object",
        b"=sign =kind =mode #uid #gid #size /path >target",
    ),
    Shape(
        b"object",
        b"=sign =kind =mode #uid #gid #size /path -> %target",
    ),
    Shape(b"object", b"=sign =kind =mode #uid #gid #size #mtime /path"),
    Shape(
        b"object",
        b"=sign =kind =mode #uid #gid #size #mtime /path ?again",
    ),
    Shape(
        b"object",
        b"=sign =kind =mode #uid #gid ^size #mtime /path -> ?long",
    ),
    Shape(
        b"object",
        b"=sign =kind =mode #uid #gid #size #mtime /path >target",
    ),
    Shape(
        b"object",
        b"=sign =kind =mode #uid #gid #size #mtime /path -> %target",
    ),
];

/// What `damage` prints.
const DAMAGE: &[Shape] = &[
    Shape(
        b"data-crc",
        b"@address data-crc ino #ino version #version bytes #from to #to hides /path",
    ),
    Shape(
        b"data-crc",
        b"@address data-crc ino #ino version #version bytes #from to #to hides =hides",
    ),
    Shape(
        b"data-crc",
        b"@address data-crc ino #ino version #version bytes #from to #to and #more more \
          paths",
    ),
    Shape(
        b"data-crc",
        b"@address data-crc ino #ino version #version bytes #from to #to has =paths path",
    ),
    Shape(
        b"name-crc",
        b"@address name-crc pino #pino version #version ino #ino lost in /path",
    ),
    Shape(
        b"name-crc",
        b"@address name-crc pino #pino version #version ino #ino lost",
    ),
    Shape(b"unknown", b"@address =which unknown"),
    Shape(b"gap", b"gap ino #ino bytes #from to #to in /path"),
    Shape(
        b"gap",
        b"gap ino #ino bytes #from to #to and #more more paths",
    ),
    Shape(b"missing", b"missing /path ino #ino"),
    Shape(b"missing", b"missing pino #pino name %name ino #ino"),
    Shape(
        b"total",
        b"total damaged #damaged paths #paths missing #missing gaps #gaps",
    ),
];

/// What `history` prints.
const HISTORY: &[Shape] = &[
    Shape(
        b"entry",
        b"@address =word entry pino #pino version #version ino #ino mctime #mctime type \
          #type name %name",
    ),
    Shape(
        b"inode",
        b"@address =word inode ino #ino version #version mode =mode uid #uid gid #gid \
          isize #isize atime #atime mtime #mtime ctime #ctime offset #offset dsize \
          #dsize compr #compr",
    ),
    Shape(b"obsolete", b"@address =word length #length"),
    Shape(
        b"total",
        b"total live #live superseded #superseded deleted #deleted deletion #deletion \
          unreached #unreached obsolete #obsolete",
    ),
    Shape(b"was", b"was ino #ino"),
    Shape(b"was", b"was ino #ino versions #lowest to #highest"),
    Shape(
        b"was",
        b"was ino #ino versions #lowest to #highest size #size sha256 =sha256",
    ),
];

/// What `map` prints.
const MAP: &[Shape] = &[
    Shape(
        b"block",
        b"#number @address #live #superseded #obsolete #damaged #free =bar",
    ),
    Shape(
        b"total",
        b"total #live #superseded #obsolete #damaged #free",
    ),
    Shape(
        b"",
        b"=live live =superseded superseded =obsolete obsolete =damaged damaged =free free",
    ),
    Shape(b"", b"block address live superseded obsolete damaged free"),
];

/// What `cuts` prints.
const CUTS: &[Shape] = &[
    Shape(
        b"step",
        b"@address #length line #listing_line step #step of #of stands from @from",
    ),
    Shape(b"weak", b"weak @address at #at"),
    Shape(
        b"total",
        b"total operations #operations steps #steps from @from to @to weak #weak",
    ),
];

/// The shapes of a command's lines. The first one that a line has counts.
#[tactic(auto, unfolding(crate::specs::Tables::tree_shapes, crate::specs::Tables::report_shapes, crate::specs::Tables::parameters_shapes, crate::specs::Tables::differences_shapes, crate::specs::Tables::damage_shapes, crate::specs::Tables::history_shapes, crate::specs::Tables::map_shapes, crate::specs::Tables::cuts_shapes))]
pub(crate) fn shapes_of(lines: Lines) -> &'static [Shape]
    ensures { map row_of result.now ≡ shapes lines }
{
    match lines {
        Lines::Tree => TREE,
        Lines::Report => REPORT,
        Lines::Parameters => PARAMETERS,
        Lines::Differences => DIFFERENCES,
        Lines::Damage => DAMAGE,
        Lines::History => HISTORY,
        Lines::Map => MAP,
        Lines::Cuts => CUTS,
    }
}
