//! Images, with what is told of each by `tests/info_model.py`, which shares nothing with the
//! crates.

use crate::info::vectors::{
    BIG_BAD_DATA, BIG_BAD_NAME, BIG_BAD_NODE, BIG_ENTRY, BIG_LONG, BIG_LZMA, BIG_LZO, BIG_MARKER,
    BIG_OBSOLETE, BIG_OLD, BIG_PADDING, BIG_PARENT, BIG_READ_ONLY, BIG_RTIME, BIG_STORED,
    BIG_SUMMARY, BIG_ZEROS, BIG_ZLIB, LITTLE_BAD_DATA, LITTLE_BAD_NAME, LITTLE_BAD_NODE,
    LITTLE_ENTRY, LITTLE_LONG, LITTLE_LZMA, LITTLE_LZO, LITTLE_MARKER, LITTLE_OBSOLETE, LITTLE_OLD,
    LITTLE_PADDING, LITTLE_PARENT, LITTLE_READ_ONLY, LITTLE_RTIME, LITTLE_STORED, LITTLE_SUMMARY,
    LITTLE_ZEROS, LITTLE_ZLIB,
};

/// An image: how long it is, and nodes with their addresses; all else is erased. `text` is what is
/// told of it.
pub(crate) struct Row {
    pub name: &'static str,
    pub len: usize,
    pub nodes: &'static [(usize, &'static [u8])],
    pub text: &'static str,
}

pub(crate) const ROWS: [Row; 17] = [
    Row {
        name: "nothing",
        len: 0,
        nodes: &[],
        text: "bytes 0\n\
order none\n\
block unknown\n\
nodes entries 0 inodes 0 obsolete 0 damaged 0 other 0\n\
data none 0 zero 0 rtime 0 zlib 0 lzo 0 lzma 0 other 0\n\
highest inode 0 version 0\n",
    },
    Row {
        name: "erased flash",
        len: 100,
        nodes: &[],
        text: "bytes 100\n\
order none\n\
block unknown\n\
nodes entries 0 inodes 0 obsolete 0 damaged 0 other 0\n\
data none 0 zero 0 rtime 0 zlib 0 lzo 0 lzma 0 other 0\n\
highest inode 0 version 0\n",
    },
    Row {
        name: "a text",
        len: 10,
        nodes: &[(0, b"some words")],
        text: "bytes 10\n\
order none\n\
block unknown\n\
nodes entries 0 inodes 0 obsolete 0 damaged 0 other 0\n\
data none 0 zero 0 rtime 0 zlib 0 lzo 0 lzma 0 other 0\n\
highest inode 0 version 0\n",
    },
    Row {
        name: "each kind in little order",
        len: 12288,
        nodes: &[
            (0, &LITTLE_MARKER),
            (12, &LITTLE_ENTRY),
            (56, &LITTLE_PARENT),
            (100, &LITTLE_ENTRY),
            (144, &LITTLE_PARENT),
            (188, &LITTLE_STORED),
            (260, &LITTLE_STORED),
            (332, &LITTLE_STORED),
            (404, &LITTLE_ZEROS),
            (472, &LITTLE_ZEROS),
            (540, &LITTLE_RTIME),
            (612, &LITTLE_RTIME),
            (684, &LITTLE_RTIME),
            (756, &LITTLE_RTIME),
            (828, &LITTLE_OLD),
            (900, &LITTLE_ZLIB),
            (972, &LITTLE_ZLIB),
            (1044, &LITTLE_ZLIB),
            (1116, &LITTLE_ZLIB),
            (1188, &LITTLE_ZLIB),
            (1260, &LITTLE_LZO),
            (1328, &LITTLE_LZO),
            (1396, &LITTLE_LZO),
            (1464, &LITTLE_LZO),
            (1532, &LITTLE_LZO),
            (1600, &LITTLE_LZO),
            (1668, &LITTLE_OBSOLETE),
            (1712, &LITTLE_OBSOLETE),
            (1756, &LITTLE_OBSOLETE),
            (1800, &LITTLE_OBSOLETE),
            (1844, &LITTLE_OBSOLETE),
            (1888, &LITTLE_OBSOLETE),
            (1932, &LITTLE_OBSOLETE),
            (1976, &LITTLE_BAD_NAME),
            (2020, &LITTLE_BAD_DATA),
            (2092, &LITTLE_BAD_NODE),
            (2164, &LITTLE_BAD_NAME),
            (2208, &LITTLE_BAD_DATA),
            (2280, &LITTLE_BAD_NODE),
            (2352, &LITTLE_BAD_NAME),
            (2396, &LITTLE_BAD_DATA),
            (2468, &LITTLE_BAD_NODE),
            (2540, &LITTLE_PADDING),
            (2560, &LITTLE_SUMMARY),
            (2576, &LITTLE_READ_ONLY),
            (2588, &LITTLE_PADDING),
            (2608, &LITTLE_SUMMARY),
            (2624, &LITTLE_READ_ONLY),
            (2636, &LITTLE_PADDING),
            (2656, &LITTLE_SUMMARY),
            (2672, &LITTLE_READ_ONLY),
            (8192, &LITTLE_MARKER),
        ],
        text: "bytes 12288\n\
order little nodes 52 other 0\n\
block from 4096 to 8192 markers 2\n\
nodes entries 4 inodes 21 obsolete 7 damaged 9 other 11\n\
data none 3 zero 2 rtime 4 zlib 5 lzo 6 lzma 0 other 1\n\
highest inode 4000 version 70000\n",
    },
    Row {
        name: "each kind in big order",
        len: 12288,
        nodes: &[
            (0, &BIG_MARKER),
            (12, &BIG_ENTRY),
            (56, &BIG_PARENT),
            (100, &BIG_ENTRY),
            (144, &BIG_PARENT),
            (188, &BIG_STORED),
            (260, &BIG_STORED),
            (332, &BIG_STORED),
            (404, &BIG_ZEROS),
            (472, &BIG_ZEROS),
            (540, &BIG_RTIME),
            (612, &BIG_RTIME),
            (684, &BIG_RTIME),
            (756, &BIG_RTIME),
            (828, &BIG_OLD),
            (900, &BIG_ZLIB),
            (972, &BIG_ZLIB),
            (1044, &BIG_ZLIB),
            (1116, &BIG_ZLIB),
            (1188, &BIG_ZLIB),
            (1260, &BIG_LZO),
            (1328, &BIG_LZO),
            (1396, &BIG_LZO),
            (1464, &BIG_LZO),
            (1532, &BIG_LZO),
            (1600, &BIG_LZO),
            (1668, &BIG_OBSOLETE),
            (1712, &BIG_OBSOLETE),
            (1756, &BIG_OBSOLETE),
            (1800, &BIG_OBSOLETE),
            (1844, &BIG_OBSOLETE),
            (1888, &BIG_OBSOLETE),
            (1932, &BIG_OBSOLETE),
            (1976, &BIG_BAD_NAME),
            (2020, &BIG_BAD_DATA),
            (2092, &BIG_BAD_NODE),
            (2164, &BIG_BAD_NAME),
            (2208, &BIG_BAD_DATA),
            (2280, &BIG_BAD_NODE),
            (2352, &BIG_BAD_NAME),
            (2396, &BIG_BAD_DATA),
            (2468, &BIG_BAD_NODE),
            (2540, &BIG_PADDING),
            (2560, &BIG_SUMMARY),
            (2576, &BIG_READ_ONLY),
            (2588, &BIG_PADDING),
            (2608, &BIG_SUMMARY),
            (2624, &BIG_READ_ONLY),
            (2636, &BIG_PADDING),
            (2656, &BIG_SUMMARY),
            (2672, &BIG_READ_ONLY),
            (8192, &BIG_MARKER),
        ],
        text: "bytes 12288\n\
order big nodes 52 other 0\n\
block from 4096 to 8192 markers 2\n\
nodes entries 4 inodes 21 obsolete 7 damaged 9 other 11\n\
data none 3 zero 2 rtime 4 zlib 5 lzo 6 lzma 0 other 1\n\
highest inode 4000 version 70000\n",
    },
    Row {
        name: "one marker",
        len: 12,
        nodes: &[(0, &LITTLE_MARKER)],
        text: "bytes 12\n\
order little nodes 1 other 0\n\
block unknown\n\
nodes entries 0 inodes 0 obsolete 0 damaged 0 other 1\n\
data none 0 zero 0 rtime 0 zlib 0 lzo 0 lzma 0 other 0\n\
highest inode 0 version 0\n",
    },
    Row {
        name: "a node over 4096: blocks of 8192 at least",
        len: 40960,
        nodes: &[
            (0, &LITTLE_MARKER),
            (100, &LITTLE_LONG),
            (16384, &LITTLE_MARKER),
            (32768, &LITTLE_MARKER),
        ],
        text: "bytes 40960\n\
order little nodes 4 other 0\n\
block from 8192 to 16384 markers 3\n\
nodes entries 0 inodes 0 obsolete 0 damaged 0 other 4\n\
data none 0 zero 0 rtime 0 zlib 0 lzo 0 lzma 0 other 0\n\
highest inode 0 version 0\n",
    },
    Row {
        name: "a node up to 8192 and one from there on",
        len: 32768,
        nodes: &[
            (0, &LITTLE_MARKER),
            (3192, &LITTLE_LONG),
            (12, &BIG_MARKER),
            (8192, &LITTLE_MARKER),
            (24576, &LITTLE_MARKER),
        ],
        text: "bytes 32768\n\
order little nodes 4 other 1\n\
block from 8192 to 8192 markers 3\n\
nodes entries 0 inodes 0 obsolete 0 damaged 0 other 4\n\
data none 0 zero 0 rtime 0 zlib 0 lzo 0 lzma 0 other 0\n\
highest inode 0 version 0\n",
    },
    Row {
        name: "a node over 8192, and a marker at 8192 times 3",
        len: 40960,
        nodes: &[(8000, &BIG_LONG), (24576, &BIG_MARKER)],
        text: "bytes 40960\n\
order big nodes 2 other 0\n\
block from 6144 to 24576 markers 1\n\
nodes entries 0 inodes 0 obsolete 0 damaged 0 other 2\n\
data none 0 zero 0 rtime 0 zlib 0 lzo 0 lzma 0 other 0\n\
highest inode 0 version 0\n",
    },
    Row {
        name: "a marker at no multiple of 4096",
        len: 8292,
        nodes: &[(0, &LITTLE_MARKER), (8280, &LITTLE_MARKER)],
        text: "bytes 8292\n\
order little nodes 2 other 0\n\
block from 4140 to 8280 markers 2\n\
nodes entries 0 inodes 0 obsolete 0 damaged 0 other 2\n\
data none 0 zero 0 rtime 0 zlib 0 lzo 0 lzma 0 other 0\n\
highest inode 0 version 0\n",
    },
    Row {
        name: "markers 12 bytes apart",
        len: 8304,
        nodes: &[
            (0, &LITTLE_MARKER),
            (8280, &LITTLE_MARKER),
            (8292, &LITTLE_MARKER),
        ],
        text: "bytes 8304\n\
order little nodes 3 other 0\n\
block unknown\n\
nodes entries 0 inodes 0 obsolete 0 damaged 0 other 3\n\
data none 0 zero 0 rtime 0 zlib 0 lzo 0 lzma 0 other 0\n\
highest inode 0 version 0\n",
    },
    Row {
        name: "as many nodes in both orders",
        len: 64,
        nodes: &[
            (0, &LITTLE_MARKER),
            (12, &BIG_MARKER),
            (24, &LITTLE_MARKER),
            (36, &BIG_MARKER),
        ],
        text: "bytes 64\n\
order little nodes 2 other 2\n\
block unknown\n\
nodes entries 0 inodes 0 obsolete 0 damaged 0 other 2\n\
data none 0 zero 0 rtime 0 zlib 0 lzo 0 lzma 0 other 0\n\
highest inode 0 version 0\n",
    },
    Row {
        name: "more nodes in big order",
        len: 64,
        nodes: &[
            (0, &LITTLE_MARKER),
            (12, &BIG_MARKER),
            (24, &LITTLE_MARKER),
            (36, &BIG_MARKER),
            (48, &BIG_MARKER),
        ],
        text: "bytes 64\n\
order big nodes 3 other 2\n\
block unknown\n\
nodes entries 0 inodes 0 obsolete 0 damaged 0 other 3\n\
data none 0 zero 0 rtime 0 zlib 0 lzo 0 lzma 0 other 0\n\
highest inode 0 version 0\n",
    },
    Row {
        name: "an entry without its padding, not in whole words",
        len: 54,
        nodes: &[(0, &LITTLE_MARKER), (12, &LITTLE_PARENT)],
        text: "bytes 54\n\
order little nodes 2 other 0\n\
block unknown\n\
nodes entries 1 inodes 0 obsolete 0 damaged 0 other 1\n\
data none 0 zero 0 rtime 0 zlib 0 lzo 0 lzma 0 other 0\n\
highest inode 4000 version 6\n",
    },
    Row {
        name: "a marker at 4194304",
        len: 4_194_316,
        nodes: &[(4194304, &LITTLE_MARKER)],
        text: "bytes 4194316\n\
order little nodes 1 other 0\n\
block from 4096 to 4194304 markers 1\n\
nodes entries 0 inodes 0 obsolete 0 damaged 0 other 1\n\
data none 0 zero 0 rtime 0 zlib 0 lzo 0 lzma 0 other 0\n\
highest inode 0 version 0\n",
    },
    Row {
        name: "blocks of 12288 with nodes of LZMA, in little order",
        len: 24600,
        nodes: &[
            (0, &LITTLE_MARKER),
            (12, &LITTLE_LZMA),
            (12288, &LITTLE_MARKER),
            (12300, &LITTLE_LZMA),
            (12376, &LITTLE_LZMA),
            (24576, &LITTLE_MARKER),
        ],
        text: "bytes 24600\n\
order little nodes 6 other 0\n\
block from 4096 to 12288 markers 3\n\
nodes entries 0 inodes 3 obsolete 0 damaged 0 other 3\n\
data none 0 zero 0 rtime 0 zlib 0 lzo 0 lzma 3 other 0\n\
highest inode 3000 version 60000\n",
    },
    Row {
        name: "blocks of 12288 with nodes of LZMA, in big order",
        len: 24600,
        nodes: &[
            (0, &BIG_MARKER),
            (12, &BIG_LZMA),
            (12288, &BIG_MARKER),
            (12300, &BIG_LZMA),
            (12376, &BIG_LZMA),
            (24576, &BIG_MARKER),
        ],
        text: "bytes 24600\n\
order big nodes 6 other 0\n\
block from 4096 to 12288 markers 3\n\
nodes entries 0 inodes 3 obsolete 0 damaged 0 other 3\n\
data none 0 zero 0 rtime 0 zlib 0 lzo 0 lzma 3 other 0\n\
highest inode 3000 version 60000\n",
    },
];
