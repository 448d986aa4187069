//! The texts of the help: a line for the program, each subcommand and each of their words. A line
//! of the help is at most 80 columns wide.

pub(crate) const PROGRAM: &str = "\
Reads, checks, builds and extends flash images of JFFS2, a file system that is
a log of nodes";

pub(crate) const CHECK: &str = "Print what an image contains, what is wrong, and whether it mounts";

pub(crate) const LIST: &str = "Print a line for each object of the tree";

pub(crate) const CAT: &str = "Write the content of a regular file to standard output";

pub(crate) const BUILD: &str = "Make an image from a listing of operations";

pub(crate) const APPEND: &str = "Copy an image, and extend the copy by a listing of operations";

pub(crate) const UPDATE: &str = "Copy an image, and write a listing into its blank blocks";

pub(crate) const DECOMPRESS: &str = "Copy an image, and decompress the data in the copy";

pub(crate) const COMPRESS: &str = "Copy an image, and compress the data in the copy";

pub(crate) const COMPACT: &str = "Copy only those nodes of an image that its tree needs";

pub(crate) const EXTRACT: &str = "Write the tree of an image into a new folder of this host";

pub(crate) const LISTING_OF: &str = "Print the listing that builds a folder of this host";

pub(crate) const INFO: &str = "Print what an image shows of its byte order, blocks and nodes";

pub(crate) const CUTS: &str = "Print from which offset each step survives a power cut";

pub(crate) const ON: &str = "Image to go on from, behind its last node";

pub(crate) const DIFF: &str = "Print the differences between the trees of two images";

pub(crate) const DAMAGE: &str = "Print what the damaged nodes of an image cost";

pub(crate) const MAP: &str = "Print where the nodes of an image lie, block by block";

pub(crate) const HISTORY: &str = "Print each node of an image, and what became of it";

pub(crate) const PACK: &str = "Make an image of a folder of this host";

pub(crate) const VERIFY: &str = "Print what differs between an image and a folder";

pub(crate) const PAD: &str = "Fill OUT with 0xFF to the end of the flash";

pub(crate) const ATOMIC: &str = "Replace an old OUT only if all goes well";

pub(crate) const FORCE: &str = "Write over an IMAGE that is OUT, even if it has findings";

pub(crate) const BLOCK: &str = "Erase block up to 4 MiB, as 128KiB [default: 65536]";

pub(crate) const ENDIAN: &str = "Byte order, without it little: little or big";

pub(crate) const LITTLE: &str = "The same as --endian little";

pub(crate) const BIG: &str = "The same as --endian big";

pub(crate) const AUTO: &str = "Find both in the image, and decompress its data";

pub(crate) const SPARE: &str = "Leave out S spare bytes behind each P, as 2048+64";

pub(crate) const OFFSET: &str = "Read the image from byte A of the file on, as 0x80000";

pub(crate) const LENGTH: &str = "Read N bytes of the file as the image, as 4MiB";

pub(crate) const STRICT: &str = "Status 3 if no node has some bytes of the file";

pub(crate) const INO: &str = "Write the content of inode I, which may be deleted";

pub(crate) const UPTO: &str = "Take its nodes of version V and lower alone";

pub(crate) const JSON: &str = "Print a JSON object for each line";

pub(crate) const BLOCKS: &str = "Blocks of the flash, 268435456 bytes at most";

pub(crate) const PAGE: &str = "Page size: 4096, 8192 or 16384 bytes";

pub(crate) const WEAK: &str = "Note the weak nodes when all is written";

pub(crate) const COMPRESSING: &str = "Compress nodes if they become shorter";

pub(crate) const SCAN: &str = "Print the report alone, and do not mount";

pub(crate) const SHAPE: &str = "Print last whether the directories make a tree";

pub(crate) const IMAGE: &str = "File with the bytes of the flash";

pub(crate) const FIRST: &str = "File with the bytes of the first image";

pub(crate) const SECOND: &str = "File with the bytes of the second image";

pub(crate) const TIMES: &str = "Compare times of change too, and print them";

pub(crate) const CLASHES: &str = "If nodes clash, keep one by its address: higher";

pub(crate) const DECOMPRESSED: &str = "Take the image as decompress would write it";

pub(crate) const SHOWN_DECOMPRESSED: &str = "Decompress the data that are shown";

pub(crate) const BOTH_DECOMPRESSED: &str = "Take both images as decompress would write them";

pub(crate) const MOUNTED_DECOMPRESSED: &str = "Mount the image with its data decompressed";

pub(crate) const PLAIN: &str = "Do not compress new nodes";

pub(crate) const TAIL: &str = "Write behind nodes of begun blocks too: for NOR flash";

pub(crate) const UPDATING: &str = "Take what update would write to the IMAGE of --on";

pub(crate) const SVG: &str = "Print one SVG picture instead";

pub(crate) const PATH: &str = "Path from the root, as /a/b; \\x and two hex digits are one byte";

pub(crate) const PART: &str = "Path from the root, as for cat: that object and all below it";

pub(crate) const FORMER: &str = "Path, as for cat: the objects that ever had this name";

pub(crate) const SINCE: &str = "Print no node of an earlier time, in seconds since 1970";

pub(crate) const UNTIL: &str = "Print no node of a later time, in seconds since 1970";

pub(crate) const LISTING: &str = "File with the operations, one per line";

pub(crate) const FOLDER: &str = "Folder to read";

pub(crate) const NEW_FOLDER: &str = "Folder to make, which must not exist yet";

pub(crate) const DELETED: &str = "Extract the removed files, as INO-NAME";

pub(crate) const OWNERS: &str = "Set the owners recorded in the image";

pub(crate) const OWNER: &str = "Owner and group of everything";

pub(crate) const TIME: &str = "Time of everything, in seconds since 1970";

pub(crate) const QUIET: &str = "Print no progress";

pub(crate) const OUT: &str = "File to make or to write over, with the bytes of the flash";

pub(crate) const OUTPUT: &str = "The same as OUT, which is left out then";
