//! Each kind of line of each command, with its object, by hand.

use crate::checks::expect_at;
use crate::json::objects::gives;
use jjson::Lines;

/// A line, and its object; of a heading none.
struct Case(&'static [u8], &'static [u8]);

/// Lines of `ls`.
const TREE: [Case; 8] = [
    Case(
        b"d 0755 0 0 0 1000000000 1 /",
        b"{\"line\":\"object\",\"kind\":\"d\",\"mode\":\"0755\",\"uid\":0,\"gid\":0,\"size\":0,\
          \"mtime\":1000000000,\"ino\":1,\"path\":\"/\"}",
    ),
    Case(
        b"- 4644 1 2 3 4 5 /etc/hostname",
        b"{\"line\":\"object\",\"kind\":\"-\",\"mode\":\"4644\",\"uid\":1,\"gid\":2,\"size\":3,\
          \"mtime\":4,\"ino\":5,\"path\":\"/etc/hostname\"}",
    ),
    Case(
        b"d 0700 1 2 3 4 5 /d (again)",
        b"{\"line\":\"object\",\"kind\":\"d\",\"mode\":\"0700\",\"uid\":1,\"gid\":2,\"size\":3,\
          \"mtime\":4,\"ino\":5,\"path\":\"/d\",\"again\":true}",
    ),
    Case(
        b"l 0777 1 2 4096 4 5 /s -> (long)",
        b"{\"line\":\"object\",\"kind\":\"l\",\"mode\":\"0777\",\"uid\":1,\"gid\":2,\"size\":409\
          6,\"mtime\":4,\"ino\":5,\"path\":\"/s\",\"long\":true}",
    ),
    Case(
        b"l 0777 1 2 6 4 5 /s -> (long)",
        b"{\"line\":\"object\",\"kind\":\"l\",\"mode\":\"0777\",\"uid\":1,\"gid\":2,\"size\":6,\
          \"mtime\":4,\"ino\":5,\"path\":\"/s\",\"target\":\"(long)\"}",
    ),
    Case(
        b"l 0777 1 2 0 4 5 /s -> ",
        b"{\"line\":\"object\",\"kind\":\"l\",\"mode\":\"0777\",\"uid\":1,\"gid\":2,\"size\":0,\
          \"mtime\":4,\"ino\":5,\"path\":\"/s\",\"target\":\"\"}",
    ),
    Case(
        b"l 0777 1 2 12 4 5 /name -> etc\\x2fhostname",
        b"{\"line\":\"object\",\"kind\":\"l\",\"mode\":\"0777\",\"uid\":1,\"gid\":2,\"size\":12,\
          \"mtime\":4,\"ino\":5,\"path\":\"/name\",\"target\":\"etc/hostname\"}",
    ),
    Case(
        b"? 7777 65535 65534 4294967295 4294967294 4294967293 /a\\x20b\\x5cc",
        b"{\"line\":\"object\",\"kind\":\"?\",\"mode\":\"7777\",\"uid\":65535,\"gid\":65534,\"si\
          ze\":4294967295,\"mtime\":4294967294,\"ino\":4294967293,\"path\":\"/a b\\\\c\"}",
    ),
];

/// Lines of `check`.
const REPORT: [Case; 26] = [
    Case(b"block 7", b"{\"line\":\"block\",\"number\":7}"),
    Case(
        b"00000000 marker 12",
        b"{\"line\":\"marker\",\"address\":0,\"length\":12}",
    ),
    Case(
        b"0000001c padding 16",
        b"{\"line\":\"padding\",\"address\":28,\"length\":16}",
    ),
    Case(
        b"0000000c entry 48 pino 1 version 2 ino 3 type 8 name boot\\x20log",
        b"{\"line\":\"entry\",\"address\":12,\"length\":48,\"pino\":1,\"version\":2,\"ino\":3,\"\
          type\":8,\"name\":\"boot log\"}",
    ),
    Case(
        b"0000017c inode 80 ino 4 version 5 mode 120777 size 12 offset 6 data 7 none",
        b"{\"line\":\"inode\",\"address\":380,\"length\":80,\"ino\":4,\"version\":5,\"mode\":\"1\
          20777\",\"size\":12,\"offset\":6,\"data\":7,\"fill\":\"none\"}",
    ),
    Case(
        b"00000138 inode 68 ino 3 version 9 mode 100644 size 10 offset 4 data 6 zero",
        b"{\"line\":\"inode\",\"address\":312,\"length\":68,\"ino\":3,\"version\":9,\"mode\":\"1\
          00644\",\"size\":10,\"offset\":4,\"data\":6,\"fill\":\"zero\"}",
    ),
    Case(
        b"0000abcd compressed 100 compr 6",
        b"{\"line\":\"compressed\",\"address\":43981,\"length\":100,\"compr\":6}",
    ),
    Case(
        b"deadbeef obsolete 44",
        b"{\"line\":\"obsolete\",\"address\":3735928559,\"length\":44}",
    ),
    Case(
        b"00000004 attribute 40",
        b"{\"line\":\"attribute\",\"address\":4,\"length\":40}",
    ),
    Case(
        b"00000008 skipped 12 type 2006",
        b"{\"line\":\"skipped\",\"address\":8,\"length\":12,\"type\":\"2006\"}",
    ),
    Case(
        b"0000000c read-only 16 type a0f7",
        b"{\"line\":\"read-only\",\"address\":12,\"length\":16,\"type\":\"a0f7\"}",
    ),
    Case(
        b"00000010 incompatible 20 type e0f7",
        b"{\"line\":\"incompatible\",\"address\":16,\"length\":20,\"type\":\"e0f7\"}",
    ),
    Case(
        b"00000050 damaged 44 node-crc",
        b"{\"line\":\"damaged\",\"address\":80,\"length\":44,\"which\":\"node-crc\"}",
    ),
    Case(
        b"000001f8 erased 65032",
        b"{\"line\":\"erased\",\"address\":504,\"length\":65032}",
    ),
    Case(
        b"00000000 other-order 4",
        b"{\"line\":\"other-order\",\"address\":0,\"length\":4}",
    ),
    Case(
        b"00000004 dirt 8",
        b"{\"line\":\"dirt\",\"address\":4,\"length\":8}",
    ),
    Case(
        b"total blocks 1 entries 2 inodes 3 findings 4",
        b"{\"line\":\"total\",\"blocks\":1,\"entries\":2,\"inodes\":3,\"findings\":4}",
    ),
    Case(b"mount ok", b"{\"line\":\"mount\",\"verdict\":\"ok\"}"),
    Case(
        b"mount ok read-only",
        b"{\"line\":\"mount\",\"verdict\":\"ok\",\"access\":\"read-only\"}",
    ),
    Case(
        b"mount refused M6 RootKind",
        b"{\"line\":\"mount\",\"verdict\":\"refused\",\"code\":\"M6\",\"error\":\"RootKind\"}",
    ),
    Case(
        b"mount refused M5 Clash at 00000100",
        b"{\"line\":\"mount\",\"verdict\":\"refused\",\"code\":\"M5\",\"error\":\"Clash\",\"addr\
          ess\":256}",
    ),
    Case(
        b"mount refused M3 Incompatible at 00000010 type e0f7",
        b"{\"line\":\"mount\",\"verdict\":\"refused\",\"code\":\"M3\",\"error\":\"Incompatible\"\
          ,\"address\":16,\"type\":\"e0f7\"}",
    ),
    Case(
        b"mount refused M4 Compressed at 00000020 compr 6",
        b"{\"line\":\"mount\",\"verdict\":\"refused\",\"code\":\"M4\",\"error\":\"Compressed\",\
          \"address\":32,\"compr\":6}",
    ),
    Case(
        b"dangling pino 1 ino 57 name q",
        b"{\"line\":\"dangling\",\"pino\":1,\"ino\":57,\"name\":\"q\"}",
    ),
    Case(b"shape ok", b"{\"line\":\"shape\",\"verdict\":\"ok\"}"),
    Case(
        b"shape broken",
        b"{\"line\":\"shape\",\"verdict\":\"broken\"}",
    ),
];

/// Lines of `info`.
const PARAMETERS: [Case; 12] = [
    Case(b"bytes 504", b"{\"line\":\"bytes\",\"bytes\":504}"),
    Case(
        b"order little nodes 9 other 1",
        b"{\"line\":\"order\",\"order\":\"little\",\"nodes\":9,\"other\":1}",
    ),
    Case(b"order none", b"{\"line\":\"order\",\"order\":\"none\"}"),
    Case(
        b"block from 4096 to 65536 markers 3",
        b"{\"line\":\"block\",\"from\":4096,\"to\":65536,\"markers\":3}",
    ),
    Case(
        b"block unknown",
        b"{\"line\":\"block\",\"block\":\"unknown\"}",
    ),
    Case(
        b"nodes entries 3 inodes 5 obsolete 1 damaged 2 other 4",
        b"{\"line\":\"nodes\",\"entries\":3,\"inodes\":5,\"obsolete\":1,\"damaged\":2,\"other\":\
          4}",
    ),
    Case(
        b"data none 4 zero 1 rtime 2 zlib 3 lzo 5 lzma 6 other 7",
        b"{\"line\":\"data\",\"none\":4,\"zero\":1,\"rtime\":2,\"zlib\":3,\"lzo\":5,\"lzma\":6,\
          \"other\":7}",
    ),
    Case(
        b"highest inode 4 version 3",
        b"{\"line\":\"highest\",\"inode\":4,\"version\":3}",
    ),
    Case(
        b"spare 64 after each 2048",
        b"{\"line\":\"spare\",\"spare\":64,\"page\":2048}",
    ),
    Case(
        b"region from 0x00100000 to 0x00200000 order big block from 4096 to 65536",
        b"{\"line\":\"region\",\"from\":\"0x00100000\",\"to\":\"0x00200000\",\"order\":\"big\",\
          \"block_from\":4096,\"block_to\":65536}",
    ),
    Case(
        b"region from 0x00001000 to 0x00002000 order little block unknown",
        b"{\"line\":\"region\",\"from\":\"0x00001000\",\"to\":\"0x00002000\",\"order\":\"little\",\
          \"block\":\"unknown\"}",
    ),
    Case(
        b"more regions than these 16",
        b"{\"line\":\"more\",\"regions\":16}",
    ),
];

/// Lines of `diff`.
const DIFFERENCES: [Case; 14] = [
    Case(
        b"* /etc/hostname at 3",
        b"{\"line\":\"bytes\",\"path\":\"/etc/hostname\",\"offset\":3}",
    ),
    Case(
        b"* /dev/console device 5:1 to 4:64",
        b"{\"line\":\"device\",\"path\":\"/dev/console\",\"from\":\"5:1\",\"to\":\"4:64\"}",
    ),
    Case(
        b"* /dev/x device none to 1:3",
        b"{\"line\":\"device\",\"path\":\"/dev/x\",\"from\":\"none\",\"to\":\"1:3\"}",
    ),
    Case(
        b"- - 0644 1 2 120 /etc/motd",
        b"{\"line\":\"object\",\"sign\":\"-\",\"kind\":\"-\",\"mode\":\"0644\",\"uid\":1,\"gid\"\
          :2,\"size\":120,\"path\":\"/etc/motd\"}",
    ),
    Case(
        b"+ d 0700 1 2 3 /home (again)",
        b"{\"line\":\"object\",\"sign\":\"+\",\"kind\":\"d\",\"mode\":\"0700\",\"uid\":1,\"gid\"\
          :2,\"size\":3,\"path\":\"/home\",\"again\":true}",
    ),
    Case(
        b"+ l 0777 1 2 5000 /l -> (long)",
        b"{\"line\":\"object\",\"sign\":\"+\",\"kind\":\"l\",\"mode\":\"0777\",\"uid\":1,\"gid\"\
          :2,\"size\":5000,\"path\":\"/l\",\"long\":true}",
    ),
    Case(
        b"+ l 0777 1 2 6 /l -> (long)",
        b"{\"line\":\"object\",\"sign\":\"+\",\"kind\":\"l\",\"mode\":\"0777\",\"uid\":1,\"gid\"\
          :2,\"size\":6,\"path\":\"/l\",\"target\":\"(long)\"}",
    ),
    Case(
        b"- l 0777 1 2 0 /l -> ",
        b"{\"line\":\"object\",\"sign\":\"-\",\"kind\":\"l\",\"mode\":\"0777\",\"uid\":1,\"gid\"\
          :2,\"size\":0,\"path\":\"/l\",\"target\":\"\"}",
    ),
    Case(
        b"+ l 0777 1 2 4 /home/log -> logs",
        b"{\"line\":\"object\",\"sign\":\"+\",\"kind\":\"l\",\"mode\":\"0777\",\"uid\":1,\"gid\"\
          :2,\"size\":4,\"path\":\"/home/log\",\"target\":\"logs\"}",
    ),
    Case(
        b"- - 0644 1 2 120 9 /etc/motd",
        b"{\"line\":\"object\",\"sign\":\"-\",\"kind\":\"-\",\"mode\":\"0644\",\"uid\":1,\"gid\"\
          :2,\"size\":120,\"mtime\":9,\"path\":\"/etc/motd\"}",
    ),
    Case(
        b"+ d 0700 1 2 3 9 /home (again)",
        b"{\"line\":\"object\",\"sign\":\"+\",\"kind\":\"d\",\"mode\":\"0700\",\"uid\":1,\"gid\"\
          :2,\"size\":3,\"mtime\":9,\"path\":\"/home\",\"again\":true}",
    ),
    Case(
        b"+ l 0777 1 2 5000 9 /l -> (long)",
        b"{\"line\":\"object\",\"sign\":\"+\",\"kind\":\"l\",\"mode\":\"0777\",\"uid\":1,\"gid\"\
          :2,\"size\":5000,\"mtime\":9,\"path\":\"/l\",\"long\":true}",
    ),
    Case(
        b"- l 0777 1 2 0 9 /l -> ",
        b"{\"line\":\"object\",\"sign\":\"-\",\"kind\":\"l\",\"mode\":\"0777\",\"uid\":1,\"gid\"\
          :2,\"size\":0,\"mtime\":9,\"path\":\"/l\",\"target\":\"\"}",
    ),
    Case(
        b"+ l 0777 1 2 4 9 /home/log -> logs",
        b"{\"line\":\"object\",\"sign\":\"+\",\"kind\":\"l\",\"mode\":\"0777\",\"uid\":1,\"gid\"\
          :2,\"size\":4,\"mtime\":9,\"path\":\"/home/log\",\"target\":\"logs\"}",
    ),
];

/// Lines of `damage`.
const DAMAGE: [Case; 12] = [
    Case(
        b"00000100 data-crc ino 2 version 3 bytes 4 to 5 hides /a/b",
        b"{\"line\":\"data-crc\",\"address\":256,\"ino\":2,\"version\":3,\"from\":4,\"to\":5,\"p\
          ath\":\"/a/b\"}",
    ),
    Case(
        b"00000100 data-crc ino 2 version 3 bytes 4 to 5 and 6 more paths",
        b"{\"line\":\"data-crc\",\"address\":256,\"ino\":2,\"version\":3,\"from\":4,\"to\":5,\"m\
          ore\":6}",
    ),
    Case(
        b"00000100 data-crc ino 2 version 3 bytes 4 to 5 hides nothing",
        b"{\"line\":\"data-crc\",\"address\":256,\"ino\":2,\"version\":3,\"from\":4,\"to\":5,\"h\
          ides\":\"nothing\"}",
    ),
    Case(
        b"00000100 data-crc ino 2 version 3 bytes 4 to 5 has no path",
        b"{\"line\":\"data-crc\",\"address\":256,\"ino\":2,\"version\":3,\"from\":4,\"to\":5,\"p\
          aths\":\"no\"}",
    ),
    Case(
        b"00000200 name-crc pino 1 version 2 ino 3 lost in /d",
        b"{\"line\":\"name-crc\",\"address\":512,\"pino\":1,\"version\":2,\"ino\":3,\"path\":\"/\
          d\"}",
    ),
    Case(
        b"00000200 name-crc pino 1 version 2 ino 3 lost",
        b"{\"line\":\"name-crc\",\"address\":512,\"pino\":1,\"version\":2,\"ino\":3}",
    ),
    Case(
        b"00000300 range unknown",
        b"{\"line\":\"unknown\",\"address\":768,\"which\":\"range\"}",
    ),
    Case(
        b"gap ino 2 bytes 3 to 4 in /f",
        b"{\"line\":\"gap\",\"ino\":2,\"from\":3,\"to\":4,\"path\":\"/f\"}",
    ),
    Case(
        b"gap ino 2 bytes 3 to 4 and 5 more paths",
        b"{\"line\":\"gap\",\"ino\":2,\"from\":3,\"to\":4,\"more\":5}",
    ),
    Case(
        b"missing /a/b ino 7",
        b"{\"line\":\"missing\",\"path\":\"/a/b\",\"ino\":7}",
    ),
    Case(
        b"missing pino 6 name b ino 7",
        b"{\"line\":\"missing\",\"pino\":6,\"name\":\"b\",\"ino\":7}",
    ),
    Case(
        b"total damaged 1 paths 2 missing 3 gaps 4",
        b"{\"line\":\"total\",\"damaged\":1,\"paths\":2,\"missing\":3,\"gaps\":4}",
    ),
];

/// Lines of `history`.
const HISTORY: [Case; 7] = [
    Case(
        b"0000000c live entry pino 1 version 3 ino 5 mctime 1700000000 type 8 name hello.txt",
        b"{\"line\":\"entry\",\"address\":12,\"word\":\"live\",\"pino\":1,\"version\":3,\"ino\":\
          5,\"mctime\":1700000000,\"type\":8,\"name\":\"hello.txt\"}",
    ),
    Case(
        b"00000050 superseded inode ino 5 version 1 mode 100644 uid 2 gid 3 isize 200 atime 4 mt\
          ime 6 ctime 7 offset 8 dsize 9 compr 10",
        b"{\"line\":\"inode\",\"address\":80,\"word\":\"superseded\",\"ino\":5,\"version\":1,\"m\
          ode\":\"100644\",\"uid\":2,\"gid\":3,\"isize\":200,\"atime\":4,\"mtime\":6,\"ctime\":7\
          ,\"offset\":8,\"dsize\":9,\"compr\":10}",
    ),
    Case(
        b"00000120 obsolete length 44",
        b"{\"line\":\"obsolete\",\"address\":288,\"word\":\"obsolete\",\"length\":44}",
    ),
    Case(
        b"total live 1 superseded 2 deleted 3 deletion 4 unreached 5 obsolete 6",
        b"{\"line\":\"total\",\"live\":1,\"superseded\":2,\"deleted\":3,\"deletion\":4,\"unreach\
          ed\":5,\"obsolete\":6}",
    ),
    Case(b"was ino 7", b"{\"line\":\"was\",\"ino\":7}"),
    Case(
        b"was ino 7 versions 2 to 9",
        b"{\"line\":\"was\",\"ino\":7,\"lowest\":2,\"highest\":9}",
    ),
    Case(
        b"was ino 7 versions 2 to 9 size 3 sha256 00ff",
        b"{\"line\":\"was\",\"ino\":7,\"lowest\":2,\"highest\":9,\"size\":3,\"sha256\":\"00ff\"}",
    ),
];

/// Lines of `map`.
const MAP: [Case; 4] = [
    Case(b"# live  - superseded  o obsolete  ! damaged  . free", b""),
    Case(
        b"block  address       live superseded   obsolete    damaged       free",
        b"",
    ),
    Case(
        b"    1 00010000        424         68          1          2      65041 ##########------\
          ----oooooooooo!!!!!!!!!!..........",
        b"{\"line\":\"block\",\"number\":1,\"address\":65536,\"live\":424,\"superseded\":68,\"ob\
          solete\":1,\"damaged\":2,\"free\":65041,\"bar\":\"##########----------oooooooooo!!!!!!\
          !!!!..........\"}",
    ),
    Case(
        b"total                 424         68          1          2      65041",
        b"{\"line\":\"total\",\"live\":424,\"superseded\":68,\"obsolete\":1,\"damaged\":2,\"free\
          \":65041}",
    ),
];

/// Lines of `cuts`.
const CUTS: [Case; 3] = [
    Case(
        b"0000000c 68 line 1 step 2 of 3 stands from 00000050",
        b"{\"line\":\"step\",\"address\":12,\"length\":68,\"listing_line\":1,\"step\":2,\"of\":3\
          ,\"from\":80}",
    ),
    Case(
        b"weak 0000007c at 68",
        b"{\"line\":\"weak\",\"address\":124,\"at\":68}",
    ),
    Case(
        b"total operations 1 steps 2 from 00000000 to 0000007c weak 3",
        b"{\"line\":\"total\",\"operations\":1,\"steps\":2,\"from\":0,\"to\":124,\"weak\":3}",
    ),
];

/// Lines with names that are no plain text, and lines that a command does not print.
const ODD: [(Lines, &[u8], &[u8]); 15] = [
    (
        Lines::Tree,
        b"- 0644 0 0 0 0 2 /\\x22\\x5c\\x0a\\x1f\\x7f\\xc3\\xa4",
        b"{\"line\":\"object\",\"kind\":\"-\",\"mode\":\"0644\",\"uid\":0,\"gid\":0,\"size\":0,\
          \"mtime\":0,\"ino\":2,\"path\":\"/\\\"\\\\\\u000a\\u001f\x7f\xc3\xa4\"}",
    ),
    (
        Lines::Tree,
        b"- 0644 0 0 0 0 2 /\\xff\\x00a",
        b"{\"line\":\"object\",\"kind\":\"-\",\"mode\":\"0644\",\"uid\":0,\"gid\":0,\"size\":0,\
          \"mtime\":0,\"ino\":2,\"path_bytes\":\"2fff0061\"}",
    ),
    (
        Lines::Tree,
        b"l 0777 0 0 2 0 2 /a -> \\xc3(",
        b"{\"line\":\"object\",\"kind\":\"l\",\"mode\":\"0777\",\"uid\":0,\"gid\":0,\"size\":2,\
          \"mtime\":0,\"ino\":2,\"path\":\"/a\",\"target_bytes\":\"c328\"}",
    ),
    (
        Lines::Report,
        b"dangling pino 1 ino 2 name \\x80",
        b"{\"line\":\"dangling\",\"pino\":1,\"ino\":2,\"name_bytes\":\"80\"}",
    ),
    (
        Lines::Report,
        b"dangling pino 1 ino 2 name a\\xb",
        b"{\"line\":\"dangling\",\"pino\":1,\"ino\":2,\"name\":\"a\\\\xb\"}",
    ),
    (
        Lines::Report,
        b"dangling pino 1 ino 2 name a\\q",
        b"{\"line\":\"dangling\",\"pino\":1,\"ino\":2,\"name\":\"a\\\\q\"}",
    ),
    (
        Lines::Report,
        b"dangling pino 01 ino 2 name a",
        b"{\"line\":\"text\",\"text\":\"dangling pino 01 ino 2 name a\"}",
    ),
    (
        Lines::Report,
        b"0000000C marker 12",
        b"{\"line\":\"text\",\"text\":\"0000000C marker 12\"}",
    ),
    (
        Lines::Report,
        b"000000c marker 12",
        b"{\"line\":\"text\",\"text\":\"000000c marker 12\"}",
    ),
    (
        Lines::Report,
        b"block",
        b"{\"line\":\"text\",\"text\":\"block\"}",
    ),
    (
        Lines::Report,
        b"block 1 2",
        b"{\"line\":\"text\",\"text\":\"block 1 2\"}",
    ),
    (Lines::Report, b"", b"{\"line\":\"text\",\"text\":\"\"}"),
    (
        Lines::Report,
        b"\xff",
        b"{\"line\":\"text\",\"text_bytes\":\"ff\"}",
    ),
    (
        Lines::Tree,
        b"l 0777 1 2 999 4 5 /s -> (long)",
        b"{\"line\":\"object\",\"kind\":\"l\",\"mode\":\"0777\",\"uid\":1,\"gid\":2,\"size\":999\
          ,\"mtime\":4,\"ino\":5,\"path\":\"/s\",\"target\":\"(long)\"}",
    ),
    (
        Lines::Tree,
        b"- 0644 0 0 0 0 2 a",
        b"{\"line\":\"text\",\"text\":\"- 0644 0 0 0 0 2 a\"}",
    ),
];

#[test]
fn lines_of_trees_become_objects(rt: HostRuntime) {
    for (i, Case(line, object)) in TREE.iter().enumerate() {
        expect_at(&rt, gives(rt.alloc(), Lines::Tree, line, object), i);
    }
}

#[test]
fn lines_of_reports_become_objects(rt: HostRuntime) {
    for (i, Case(line, object)) in REPORT.iter().enumerate() {
        expect_at(&rt, gives(rt.alloc(), Lines::Report, line, object), i);
    }
}

#[test]
fn lines_of_parameters_become_objects(rt: HostRuntime) {
    for (i, Case(line, object)) in PARAMETERS.iter().enumerate() {
        expect_at(&rt, gives(rt.alloc(), Lines::Parameters, line, object), i);
    }
}

#[test]
fn lines_of_differences_become_objects(rt: HostRuntime) {
    for (i, Case(line, object)) in DIFFERENCES.iter().enumerate() {
        expect_at(&rt, gives(rt.alloc(), Lines::Differences, line, object), i);
    }
}

#[test]
fn lines_of_damage_become_objects(rt: HostRuntime) {
    for (i, Case(line, object)) in DAMAGE.iter().enumerate() {
        expect_at(&rt, gives(rt.alloc(), Lines::Damage, line, object), i);
    }
}

#[test]
fn lines_of_histories_become_objects(rt: HostRuntime) {
    for (i, Case(line, object)) in HISTORY.iter().enumerate() {
        expect_at(&rt, gives(rt.alloc(), Lines::History, line, object), i);
    }
}

#[test]
fn lines_of_maps_become_objects(rt: HostRuntime) {
    for (i, Case(line, object)) in MAP.iter().enumerate() {
        expect_at(&rt, gives(rt.alloc(), Lines::Map, line, object), i);
    }
}

#[test]
fn lines_of_cuts_become_objects(rt: HostRuntime) {
    for (i, Case(line, object)) in CUTS.iter().enumerate() {
        expect_at(&rt, gives(rt.alloc(), Lines::Cuts, line, object), i);
    }
}

#[test]
fn odd_lines_become_objects(rt: HostRuntime) {
    for (i, (lines, line, object)) in ODD.iter().enumerate() {
        expect_at(&rt, gives(rt.alloc(), *lines, line, object), i);
    }
}
