//! What is at the end of each page of the help: that of the program, and of each subcommand. A line
//! of the help is at most 80 columns wide.

pub(crate) const PROGRAM: &str = "\
--block (the size of an erase block, a multiple of 4) and --endian (the byte
order) apply to every command except listing and info. Of a command that reads
an image --auto finds both, and reads compressed data too; -a is the same. A
size is in bytes, as 131072 or 0x20000, or in K, KiB, M or MiB, as 128KiB.
--eraseblock and -e are other names of --block, -l is --endian little and -b is
--endian big, as for mkfs.jffs2. build, append and cuts need --blocks too, the
number of blocks; update, compact and pack take it. 'jffs2_image help build'
says what a listing is, 'jffs2_image help check' what check prints, and the same
for the other commands.

A raw dump of NAND flash has spare bytes behind each page. --oob 2048+64 leaves
out 64 behind each 2048, for every command that reads an image. In a dump of a
whole flash, --offset 0x80000 --length 4MiB reads one partition. Commands that
print lines print JSON objects with --json.

In an image that Linux or mkfs.jffs2 wrote, data are often compressed. ls, cat,
append, extract, diff, damage, check and cuts read them with --decompress, and
decompress makes an image without them. build and pack compress what they write
with --compress. compact, update and map take compressed data as they are: to
change the image of a device, compact it, update it, and flash it.

Examples:
  jffs2_image ls --auto dump.img
  jffs2_image info flash.img
  jffs2_image check flash.img
  jffs2_image ls --block 131072 flash.img
  jffs2_image cat --endian big flash.img /etc/passwd
  jffs2_image build --blocks 64 tree.txt flash.img
  jffs2_image append --blocks 64 flash.img more.txt new.img
  jffs2_image update dump.img more.txt new.img
  jffs2_image cuts --blocks 64 --on flash.img more.txt
  jffs2_image decompress dump.img flash.img
  jffs2_image compress flash.img small.img
  jffs2_image extract --decompress dump.img tree
  jffs2_image listing tree > tree.txt
  jffs2_image diff old.img new.img
  jffs2_image damage flash.img
  jffs2_image map dump.img
  jffs2_image pack --compress tree flash.img
  jffs2_image verify flash.img tree

Exit status:
  0  done, and nothing was found
  1  a fault, which standard error names
  2  the command line is wrong
  3  check found a problem, diff or verify a difference, damage a loss, info no
     node, or cuts or --weak a weak node;
     extract, listing, pack or --clashes left something out;
     extract, decompress, compress, compact, diff, verify or damage read an
     image with findings

A fault is one line, as 'jffs2_image: M6 RootKind'. Its letter names the part
that stopped: C the report, L reading a file, M the mount, Z compressed data, I
the image as a whole, S the session that writes, P the program. P2 is a wrong
line of a listing. The manual page jffs2_image-errors(7) has the causes of each
fault and the remedies.

An image records neither its block size nor its byte order; info and --auto
deduce both from its nodes. With a wrong --block, a wrong --endian or a damaged
image, ls and cat may show less than the flash holds, or zeros, and append and
decompress go on from that. A note on standard error then counts the findings,
which check --scan prints.";

pub(crate) const CHECK: &str = "\
For each block it prints 'block' and its number. Then comes a line for each node
and for each run of erased flash, of dirt or of words in the other byte order,
with its address, kind and number of bytes. The last line has the totals.
Findings are damaged, compressed, attribute, read-only and incompatible nodes,
and runs of dirt or of words in the other byte order.

Then comes the verdict, unless --scan is given: 'mount ok', 'mount ok
read-only', or 'mount refused' and why. After an ok, a line 'dangling' names
each name without an object. With --shape and after an ok, the last line is
'shape ok', or 'shape broken' if a directory other than the root has two names
or if a directory lies below itself.

With --decompress the verdict is that of a mount with decompressed data (RTIME,
ZLIB, LZO, LZMA). So it says whether all of them can be decompressed, and
'mount refused' names the first fault. Compressed nodes that can be decompressed
are counted in the report, and are no reason for status 3. --scan mounts
nothing, so --shape and --decompress do nothing beside it.

Examples:
  jffs2_image check flash.img
  jffs2_image check --decompress --block 131072 dump.img
  jffs2_image check --scan --endian big --block 131072 flash.img

Exit status:
  0  done, and nothing was found
  1  a fault, which standard error names
  2  the command line is wrong
  3  a finding, an image that does not mount, a name without an object, or a
     broken shape; with --decompress, compressed nodes are no finding here";

pub(crate) const LIST: &str = "\
The root is the first line. A directory comes before its entries, and names are
in byte order. A line is

  KIND MODE UID GID SIZE MTIME INO PATH

  KIND   - regular file, d directory, l symlink, c character device, b block
         device, p FIFO, s socket, ? anything else
  MODE   the low 12 bits of the mode, as four octal digits
  SIZE   bytes
  MTIME  seconds since 1970
  INO    inode number
  PATH   from the root; \\x and two hexadecimal digits are a byte of a name that
         is not a visible ASCII character, or is a backslash or a slash

' -> TARGET' follows the path of a symlink, escaped in the same way, or
' -> (long)' if the target has more than 4095 bytes. ' (again)' follows a
directory that is already in the list.

With PATH, only the object there and all below it are listed.

Examples:
  jffs2_image ls --endian big flash.img
  jffs2_image ls flash.img /etc

Exit status:
  0  done
  1  a fault, which standard error names
  2  the command line is wrong";

pub(crate) const CAT: &str = "\
The path begins with / and leads from the root by names, through directories
alone: symlinks are not followed. A path can be given as ls prints it.

With --ino I in place of the path it writes the content of inode I by all of its
nodes, or with --upto V by those of version V and lower alone. The inode may be
deleted: history prints all inodes. Its data are decompressed. A symlink gives
where it leads.

If IMAGE has findings, nodes of the file may be lost with them. Zeros are
written for the bytes that no node has, and a note counts them. With --strict
the exit status is 3 then.

Examples:
  jffs2_image cat --endian big flash.img /etc/passwd
  jffs2_image cat --auto --ino 57 --upto 3 dump.img

Exit status:
  0  done
  1  a fault, which standard error names
  2  the command line is wrong
  3  with --strict no node has some bytes of the file";

pub(crate) const BUILD: &str = "\
A listing has one operation per line; words are separated by single spaces.
Empty lines and lines that begin with # are skipped.

  time T                 time of the lines below, in seconds since 1970; first 0
  owner UID GID          owner of all that the lines below make; first 0 0
  mkdir MODE PATH        makes a directory
  create MODE PATH       makes an empty regular file
  file MODE PATH FILE    makes a file with the bytes of FILE of this host
  put MODE PATH FILE     the same, and replaces what is at PATH, if it is not a
                         directory
  device KIND MODE MAJOR MINOR PATH
                         makes a device: KIND is c (character) or b (block)
  fifo MODE PATH         makes a FIFO
  socket MODE PATH       makes a socket
  symlink PATH TARGET    makes a symlink
  write PATH OFFSET HEX  writes bytes into a file
  part PATH OFFSET FILE  writes the bytes of FILE, a file of this host
  truncate PATH SIZE     cuts a file, or lets it grow by zeros
  link OLD NEW           gives a file the further name NEW
  rename OLD NEW         moves OLD to NEW, which must not exist yet
  replace OLD NEW        moves OLD to NEW, and replaces a file that is there
  remove PATH            removes a name; a directory must be empty
  remove-if PATH         the same, if the name is there
  attr MODE UID GID ATIME MTIME PATH
                         sets permissions, owner and times of PATH, or of /

A listing of put and remove-if can be run again after a power cut, on what the
cut left: with put a path has the old file or the new one, whole.

Numbers are decimal, MODE is octal, HEX is pairs of hexadecimal digits, or - for
no bytes. In a path or a target, \\x and two hexadecimal digits are one byte: a
space is \\x20.

A listing of a small tree:

  time 1000000000
  mkdir 0755 /etc
  create 0644 /etc/hostname
  write /etc/hostname 0 626f780a
  symlink /name etc/hostname
  owner 1000 100
  mkdir 0750 /home
  create 0755 /home/start
  part /home/start 0 files/start.sh

A block must have at least 8192 bytes, and 80 more than --page. --page is the
largest piece of a file in one node: for Linux at most the page size of the
device's memory, which 'getconf PAGESIZE' prints there. OUT ends with the last
node: the rest of the flash is erased, 0xFF. If all was accepted, the line
'accepted A nodes N bytes B' is printed: A operations, their N nodes, and B
bytes of the flash.

The listing and each FILE are read before OUT is made. The first operation that
is refused, or for which there is no room, is the last: the fault has the number
of its line, and OUT holds what was accepted before it.

With --weak, after all is written, standard error has a note for each weak node,
as 'weak A at J': a stop after the first J bytes of the node at A may show a
node that nobody wrote.

With --compress the data of files are compressed by ZLIB, node by node, if that
makes the node shorter. All operations are run in memory before OUT is made.
--weak cannot be given too.

With --pad, 0xFF follows the last node, up to the end of the flash. With
--atomic a new file in the same folder is written, which takes the name of OUT
when all has gone well: after a fault OUT is as it was.

Examples:
  jffs2_image build --block 131072 --blocks 64 tree.txt flash.img
  jffs2_image build --blocks 64 --compress --pad tree.txt flash.img

Exit status:
  0  done
  1  a fault, which standard error names
  2  the command line is wrong
  3  with --weak a weak node";

pub(crate) const APPEND: &str = "\
OUT begins with the bytes of IMAGE. Writing goes on at the first block from
which on all blocks are blank: erased, or with only a clean marker or the
beginning of one. Free bytes in the blocks before it are not used. 'jffs2_image
help build' says what a listing is, what is printed, and what OUT holds after a
fault.

With a wrong --block or --endian, or with damage, a part of IMAGE is not seen,
and the new nodes may not fit it. A note on standard error reports it, as for
ls.

With --decompress, OUT begins with what decompress makes of IMAGE. A note counts
extended attributes, which are left out. If OUT is IMAGE, and IMAGE has findings
or extended attributes, these would be lost: that is a fault without --force.

IMAGE and OUT may be the same file, since IMAGE is held in memory before OUT is
made. But if the power, the host or the disk fails while OUT is written, the old
bytes are gone. With --atomic they are kept until all is written, in a new file
in the same folder, which then takes the name of OUT. With --pad, 0xFF follows
the last node, up to the end of the flash.

Examples:
  jffs2_image append --blocks 64 flash.img more.txt new.img
  jffs2_image append --blocks 64 --atomic flash.img more.txt flash.img

Exit status:
  0  done
  1  a fault, which standard error names
  2  the command line is wrong
  3  with --weak a weak node, or extended attributes were left out";

pub(crate) const UPDATE: &str = "\
OUT is IMAGE with new nodes in its blank blocks, wherever they lie. A block is
blank if it is erased, or has only a clean marker or the beginning of one. All
bytes of the other blocks stay as they are in IMAGE. append uses only the blank
blocks at the end. IMAGE may have compressed data (RTIME, ZLIB, LZO, LZMA), and
new nodes are compressed by ZLIB if that makes them shorter. With --plain they
are not. 'jffs2_image help build' says what a listing is.

Without --blocks the flash has as many blocks as IMAGE; if the last one is not
whole, it counts too. OUT is as long as IMAGE, or longer if new nodes lie behind
its end. With --pad, 0xFF follows, up to the end of the flash. 'accepted A nodes
N bytes B' is printed: A operations, their N nodes, and the B bytes written. The
first operation that is refused, or for which there is no room, is the last: the
fault has the number of its line, and OUT holds the operations before it.

With --tail, nodes also go into the erased rest of a block behind its nodes. Use
it only for flash that can be programmed several times per block, as NOR. NAND
cannot.

If there is no room (S2), compact IMAGE first: it makes blank blocks. This
changes the image of a device:

  jffs2_image compact --blocks 64 --pad dump.img small.img
  jffs2_image update small.img more.txt new.img

With a wrong --block or --endian, or with damage, a part of IMAGE is not seen,
and the new nodes may not fit it. A note on standard error reports it, as for
ls. IMAGE and OUT may be the same file, since IMAGE is held in memory before OUT
is made. If the power, the host or the disk fails while OUT is written, the old
bytes are gone. With --atomic they are kept until all is written.

Examples:
  jffs2_image update dump.img more.txt new.img
  jffs2_image update --block 131072 --blocks 64 --pad dump.img more.txt new.img

Exit status:
  0  done
  1  a fault, which standard error names
  2  the command line is wrong";

pub(crate) const DECOMPRESS: &str = "\
OUT has the nodes of IMAGE in the order of their addresses, from the first block
on. Data that are compressed by RTIME, ZLIB, LZO or LZMA are written as they
were before. So the other commands can read the images that mkfs.jffs2 makes by
default and that Linux writes. All that is not a part of the file system is left
out: markers, padding, obsolete and damaged nodes, extended attributes and dirt.
Notes on standard error count damage, dirt and extended attributes.

'decompressed C nodes N bytes B' is printed: C nodes of IMAGE are compressed,
and OUT has N nodes and B bytes. The whole image is judged before OUT is made.
M4 Compressed: the method is none of the four. Z1 Data: the data do not match
their method. Z2 TooLong: decompressed, a node does not fit into a block.

Garbage collection of Linux writes some nodes again under their old version,
with other contents. Such nodes clash, and commands that mount the image refuse
them (M5 Clash). With --clashes higher, a node is left out if it clashes with
one of a higher address, since Linux takes that one. Each is reported on
standard error: 'left out A: clashes with B', with the addresses A and B in
IMAGE, B the highest that clashes. Then the exit status is 3.

IMAGE and OUT may be the same file, since IMAGE is held in memory before OUT is
made. An IMAGE with findings is written over only with --force (I2 Findings). If
the power, the host or the disk fails while OUT is written, the old bytes are
gone. With --atomic they are kept until all is written.

Only to look, give ls, cat, extract, diff or damage the option --decompress:
they mount IMAGE as it is, and take its data decompressed.

Examples:
  jffs2_image decompress --block 131072 dump.img flash.img
  jffs2_image ls --block 131072 --decompress dump.img
  jffs2_image decompress --clashes higher dump.img flash.img
  jffs2_image decompress --atomic flash.img flash.img

Exit status:
  0  done
  1  a fault, which standard error names
  2  the command line is wrong
  3  IMAGE has findings or extended attributes, or nodes were left out";

pub(crate) const COMPRESS: &str = "\
OUT has the nodes of IMAGE in the order of their addresses, from the first block
on. The data of regular files are compressed there, by ZLIB, if the node becomes
shorter. Everything else stays as it is in IMAGE, since Linux reads symlinks and
devices uncompressed. decompress gives the nodes of IMAGE back. All that is not
a part of the file system is left out: markers, padding, obsolete and damaged
nodes, extended attributes and dirt. Notes on standard error count damage, dirt
and extended attributes.

'compressed C nodes N bytes B' is printed: OUT has N nodes and B bytes, and C of
the nodes are compressed. The whole image is judged before OUT is made. M4
Compressed: a node of IMAGE is compressed already; give the image to decompress
first. Z2 TooLong: a node does not fit into a block after a marker.

IMAGE and OUT may be the same file, since IMAGE is held in memory before OUT is
made. An IMAGE with findings is written over only with --force (I2 Findings). If
the power, the host or the disk fails while OUT is written, the old bytes are
gone. With --atomic they are kept until all is written.

Examples:
  jffs2_image compress flash.img small.img
  jffs2_image compress --atomic flash.img flash.img

Exit status:
  0  done
  1  a fault, which standard error names
  2  the command line is wrong
  3  IMAGE has findings or extended attributes";

pub(crate) const COMPACT: &str = "\
OUT has those nodes of IMAGE that its tree needs, in the order of their
addresses, from the first block on, each with the bytes that it has in IMAGE:
names that lead to an object; of each object the newest node, and each node that
has a byte of it; of equal nodes the highest. Compressed data (RTIME, ZLIB, LZO,
LZMA) are copied. Each path has the same object in OUT, with the same number,
attributes and bytes, and OUT has no findings. Everything else is left out:
superseded, deleted, obsolete and damaged nodes, extended attributes and dirt.
Notes on standard error count damage, dirt and extended attributes.

'compacted K of N nodes bytes B' is printed: IMAGE has N sound nodes, and OUT
has K of them and B bytes. The whole image is judged before OUT is made: as a
mount with --decompress, then S3, S7, and S2 if OUT needs more than --blocks.

If nodes clash (M5), --clashes higher leaves out each node that clashes with one
of a higher address, as Linux does, and compacts the others. Each is reported on
standard error: 'left out A: clashes with B', with the addresses A and B in
IMAGE, B the highest that clashes. Then the exit status is 3.

IMAGE and OUT may be the same file, since IMAGE is held in memory before OUT is
made. An IMAGE with findings is written over only with --force (I2 Findings). If
the power, the host or the disk fails while OUT is written, the old bytes are
gone. With --atomic they are kept until all is written.

Examples:
  jffs2_image compact flash.img new.img
  jffs2_image compact --blocks 64 --pad --atomic flash.img flash.img

Exit status:
  0  done
  1  a fault, which standard error names
  2  the command line is wrong
  3  IMAGE has findings or extended attributes, or nodes were left out";

pub(crate) const EXTRACT: &str = "\
DIR is made, and in it each directory, regular file and symlink of the image,
with its permissions and times; only a symlink gets the present time. A further
name of a file becomes a hard link. Symlinks are made and never followed. With
--owners everything gets its owner too, which mostly only root may set; without
it everything is yours, and set-user-ID and set-group-ID bits are dropped.

With PATH, only the object there and all below it are made: a directory at its
place, below the directories that lead to it, and any other object in DIR
itself, by its last name.

With --deleted, each regular file is made that no path leads to and that is not
empty: as INO-NAME, by its inode number and the last name that it had. Its data
are decompressed. 'jffs2_image history' prints its nodes.

For any image, nothing is made outside of DIR: each thing is new, in directories
that were made before it. Things that this host cannot hold are left out, each
with a line 'left out PATH: REASON' on standard error: devices, FIFOs and
sockets, names that are not text, that are . or .. or have a slash or a zero
byte, names whose inode is missing, directories that another path reached
before, and all that the host refuses. The rest goes on.

Examples:
  jffs2_image extract --block 131072 flash.img tree
  jffs2_image extract --block 131072 flash.img etc /etc
  jffs2_image extract --auto --deleted dump.img removed

Exit status:
  0  done, and nothing was left out
  1  a fault, which standard error names
  2  the command line is wrong
  3  something was left out, or IMAGE has findings or extended attributes";

pub(crate) const LISTING_OF: &str = "\
The listing goes to standard output. 'jffs2_image build' reads it, and
'jffs2_image help build' explains its lines. Names are in byte order, so one
folder has one listing, which can be edited and kept. A listing has no bytes of
files: a 'file' line names the file, relative to the working directory unless
DIR begins with /.

Hard links become lines 'link', and devices, FIFOs and sockets lines 'device',
'fifo' and 'socket'. Symlinks are never followed. --owner and --time replace
those of the folder: with them the listing is the same for everybody at any
time.

All that a listing cannot hold is left out, each with a line 'left out PATH:
REASON' on standard error, and the rest goes on. These are names above 254 bytes
or that are not text, files above 268435456 bytes or that you may not read, and
owners above 65535. They are also times before 1970 or after 2106, devices with
a major number above 4095 or a minor one above 1048575, targets of symlinks that
are empty or above 4095 bytes, and the file that standard output is.

Examples:
  jffs2_image listing tree > tree.txt
  jffs2_image listing --owner 0 0 --time 1000000000 tree > tree.txt
  jffs2_image build --blocks 64 tree.txt flash.img

Exit status:
  0  done, and nothing was left out
  1  a fault, which standard error names
  2  the command line is wrong
  3  something was left out";

pub(crate) const INFO: &str = "\
It takes neither --block nor --endian. It looks for nodes in both byte orders,
as if the file were one block, and takes the order with more nodes. It prints,
even if the numbers are 0,

  bytes N
  order little nodes N other N     or big; 'order none' if no node is found
  block from MIN to MAX markers N  or 'block unknown'
  nodes entries N inodes N obsolete N damaged N other N
  data none N zero N rtime N zlib N lzo N lzma N other N
  highest inode N version N

The second line counts the nodes in the image's order, and in the other one.
MIN and MAX are the least and the greatest possible size of blocks, a multiple
of 4 from 4096 to 4194304. Three things rule a size out: a clean marker at an
address that is not a multiple of it, a longer node, and, if it is a power of
two, a node across the end of a block. The sizes are unknown if no marker comes
after address 0, or if no size is left. 'data' counts sound inode nodes by how
their data are stored; rtime, zlib, lzo and lzma need --decompress.

If a node is damaged, the file may be a raw dump of NAND flash with spare bytes
behind each page. If more nodes are sound without them, a further line says
'spare S after each P', and then --oob P+S leaves them out. Looked for are
512+16, 2048+64, 4096+128 and 4096+224.

For a dump of a whole flash it also prints where the nodes are, in at most 16
lines, and 'more regions than these 16' if there are more:

  region from A to B order little block from MIN to MAX

--offset A with --length N, where N is B less A, reads that part. Nodes of one
order are in one region if fewer than 16 units of 4096 bytes that are neither
erased nor have a node lie between them. If there is one region and it begins
at 0, no such line is printed.

If the file begins as gzip, xz, UBI, squashfs, TRX or uImage do, a note on
standard error says so: an image may be inside of it.

Example:
  jffs2_image info dump.img

Exit status:
  0  done
  1  a fault, which standard error names
  2  the command line is wrong
  3  no node was found";

pub(crate) const CUTS: &str = "\
It plans the nodes that build would write for LISTING, or append with --on, and
writes nothing. With --compress they are those of build --compress. With
--decompress or --compress, IMAGE may have compressed data, which are left as
they are. With --update, which needs --on, they are those of update, with its
--plain and --tail: IMAGE may have compressed data, and without --blocks the
flash has as many blocks as IMAGE. Without --update, --blocks has to be given.

Each operation is written as a few nodes, and each node is one step of the file
system. It prints a line for each node, in the order in which they are written:

  A N line L step S of T stands from B

  A  address of the node, and N its number of bytes
  L  line of the listing, which has T steps; this is step S of them
  B  the node is whole exactly if all bytes below address B were written

After a power cut, the image mounts as the file system after exactly the steps
whose B is at most the address of the stop, unless a node is weak. A line 'weak
A at J' follows the line of a weak node: a stop after its first J bytes leaves a
node that passes every check and that nobody wrote. The last line is

  total operations O steps N from R to E weak W

Writing begins at R and ends at E, and W nodes are weak. The first operation
that is refused is the last: the fault has the number of its line, and the lines
of the operations before it are printed.

Examples:
  jffs2_image cuts --blocks 64 --on flash.img more.txt
  jffs2_image cuts --blocks 64 --decompress --on dump.img more.txt
  jffs2_image cuts --blocks 64 --compress tree.txt
  jffs2_image cuts --update --on dump.img more.txt

Exit status:
  0  done, and no node is weak
  1  a fault, which standard error names
  2  the command line is wrong
  3  a node is weak";

pub(crate) const DIFF: &str = "\
Both images are mounted with the same --block and --endian. It prints a line for
each path at which their trees differ; a directory comes before its entries, and
names are in byte order:

  - LINE            only A has the path
  + LINE            only B has it
  - LINE, + LINE    both have it, and kind, permissions, owner, group, size or
                    target differ, or with --times the time of change
  * PATH at OFFSET  only the bytes differ, from this offset on
  * PATH device MAJOR:MINOR to MAJOR:MINOR
                    the numbers of devices differ, or one has none: 'none'

LINE is a line of ls without the inode number, and without the time of change
unless --times is given; see 'jffs2_image help ls'. A directory that was met
before is not entered again.

Example:
  jffs2_image diff --block 131072 old.img new.img

Exit status:
  0  done, and nothing was printed
  1  a fault, which standard error names
  2  the command line is wrong
  3  a difference was printed, or an image has findings";

pub(crate) const DAMAGE: &str = "\
The image is mounted, without its damaged nodes. It prints a line for each of
them, in order of address A (8 hexadecimal digits). If the checksum of its
fields is right, the line has them:

  A data-crc ino I version V bytes O to E hides PATH
  A data-crc ino I version V bytes O to E and N more paths
  A data-crc ino I version V bytes O to E hides nothing
  A data-crc ino I version V bytes O to E has no path
  A name-crc pino P version V ino I lost in PATH
  A WORD unknown

The first comes once for each path of inode I, for sixteen at most; the second
counts the others. 'hides nothing' means that the object does not depend on this
node: other nodes of version V or higher have its attributes, its size and each
byte from O to E below that size. For a damaged name, PATH is the path of its
directory, and 'in PATH' is left out if there is none. WORD is node-crc, length
or range. Then comes a line for each name without an object, with the inode
number of its directory if no path leads there:

  missing PATH ino I
  missing pino P name NAME ino I

  gap ino I bytes O to E in PATH
  gap ino I bytes O to E and N more paths

A gap is a range of a regular file, from byte O to E, that is below its size and
that no sound node has: its bytes are read as zeros. Linux and mkfs.jffs2 leave
none, so nodes are lost there. It has a line for each path of inode I, as above.

The last line is 'total damaged N paths N missing N gaps N': the numbers of
damaged nodes, of all paths that they hide, of missing objects, and of gaps.
Bytes with a damaged header are not a node: 'check --scan' reports them as dirt.

Example:
  jffs2_image damage --block 131072 flash.img

Exit status:
  0  done, and only the total was printed
  1  a fault, which standard error names
  2  the command line is wrong
  3  damage was printed, or IMAGE has findings";

pub(crate) const MAP: &str = "\
The image is mounted with its data decompressed. For each block it prints a
line: the number of the block, its address, its numbers of live, superseded,
obsolete, damaged and free bytes, and a bar of 50 marks. The last line has the
totals.

  #  live        nodes that the tree needs, which compact keeps
  -  superseded  all other sound nodes, padding and extended attributes
  o  obsolete    nodes that are marked obsolete
  !  damaged     damaged nodes, dirt, and words in the other byte order
  .  free        erased flash and clean markers

A mark stands for a fiftieth of the block, and shows the kind of its last byte.

With --svg it prints a picture for a browser: a row for each block, with a
rectangle for each node and for each run of other bytes, in the colour of its
kind. The pointer on a rectangle shows its kind, address and length, and its
node: of a name the directory and the inode, of data the inode and the bytes.

Examples:
  jffs2_image map --block 131072 dump.img
  jffs2_image map --svg dump.img > dump.svg

Exit status:
  0  done
  1  a fault, which standard error names
  2  the command line is wrong";

pub(crate) const HISTORY: &str = "\
The image is mounted with its data decompressed. For each sound entry and inode
node it prints a line, in the order of their addresses: the address, a word, and
the fields of the node, as Linux names them.

  live        the tree needs it, and compact keeps it
  superseded  a newer node has taken its place
  deletion    an entry that removes a name
  deleted     an entry whose name was removed, or data of an object that no name
              leads to
  unreached   it counts, but no path leads to it
  obsolete    it is marked obsolete; its fields are not printed

The last line has how many nodes have each word. Nothing of the image is
changed. With PATH it prints the nodes of each object that an entry ever gave
this name, and these entries; the folder of PATH is found in the tree as it is.
For each of these objects it prints at the end a line 'was ino N versions A to B
size S sha256 DIGEST'; a directory or a device has no size and no digest.

With --since or --until it prints only nodes whose time is not before, or not
after, that one: mctime of an entry, mtime of an inode node.

Examples:
  jffs2_image history --auto dump.img
  jffs2_image history --auto dump.img /etc/passwd
  jffs2_image history --auto --since 1700000000 dump.img

Exit status:
  0  done
  1  a fault, which standard error names
  2  the command line is wrong";

pub(crate) const PACK: &str = "\
It makes the image that build makes of the listing of DIR, byte for byte, and
writes no listing. With --compress it is that of build --compress. 'jffs2_image
help listing' says which parts of DIR an image can hold, and 'jffs2_image help
build' explains the options and the output. Things that are left out are
reported on standard error, each with a line 'left out PATH: REASON', and the
rest goes on. --owner and --time replace those of the folder: with them the
image is the same for everybody at any time.

OUT ends with the last node. Without --blocks the flash is as large as possible.
With --pad, 0xFF follows the last node, up to the end of the flash, or without
--blocks to the end of the last block that is used. With --atomic a new file in
the same folder is written, which takes the name of OUT when all has gone well:
after a fault OUT is as it was.

Line numbers in faults, as P2 or S1, refer to the output of 'jffs2_image listing
DIR'.

Examples:
  jffs2_image pack tree flash.img
  jffs2_image pack --compress --owner 0 0 --time 1000000000 tree flash.img
  jffs2_image pack --block 131072 --pad --atomic tree flash.img

Exit status:
  0  done, and nothing was left out
  1  a fault, which standard error names
  2  the command line is wrong
  3  something was left out, or with --weak a weak node";

pub(crate) const VERIFY: &str = "\
DIR is read as pack reads it, and an image of it is made in memory. It prints
the lines that diff prints of that image and IMAGE:

  - LINE            only DIR has the path
  + LINE            only IMAGE has it
  - LINE, + LINE    both have it, and kind, permissions, owner, group, size or
                    target differ, or with --times the time of change
  * PATH at OFFSET  only the bytes differ, from this offset on
  * PATH device MAJOR:MINOR to MAJOR:MINOR
                    the numbers of devices differ, or one has none: 'none'

IMAGE may have compressed data. Give --owner and --time as they were given to
pack. Things of DIR that an image cannot hold are reported on standard error,
each with a line 'left out PATH: REASON'.

Examples:
  jffs2_image verify flash.img tree
  jffs2_image verify --owner 0 0 --time 1000000000 --times flash.img tree

Exit status:
  0  done, and nothing was printed
  1  a fault, which standard error names
  2  the command line is wrong
  3  a difference was printed, something of DIR was left out, or IMAGE has
     findings";
