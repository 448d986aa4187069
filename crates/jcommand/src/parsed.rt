//! What a command line asks for.
ghost use Rattle.std.specs.Prelude.{◌≡◌};
ghost use Rattle.jcommand.specs.Parsed.{order_asked};

use jnode::Endian;
use jscan::{Geometry, Page};

/// What most commands are given: how the bytes of the flash are to be read.
#[derive(Clone, Copy)]
pub struct Options {
    pub geometry: Geometry,
    pub endian: Endian,
}

/// The user and the group that own what a folder holds.
#[derive(Clone, Copy)]
pub struct Owner {
    pub uid: u16,
    pub gid: u16,
}

/// What is done about the file that is written.
#[derive(Clone, Copy)]
pub struct Placing {
    /// It is filled with erased flash, up to the end of the flash.
    pub pad: bool,
    /// It takes its name only when all is written.
    pub atomic: bool,
}

/// An image that is read.
#[derive(Clone, Copy)]
pub struct Image<T> {
    pub options: Options,
    pub image: T,
}

/// What the damage of an image costs; with `decompress`, of what `decompress` makes of it.
#[derive(Clone, Copy)]
pub struct Examination<T> {
    pub options: Options,
    pub decompress: bool,
    pub image: T,
}

/// An image that is scanned and mounted; with `shape`, whether its tree has its shape too.
#[derive(Clone, Copy)]
pub struct Check<T> {
    pub options: Options,
    pub shape: bool,
    pub image: T,
}

/// The tree of an image, or the part of it that a path names; with `decompress`, that of what
/// `decompress` makes of the image.
#[derive(Clone, Copy)]
pub struct TreeListing<T> {
    pub options: Options,
    pub decompress: bool,
    pub image: T,
    pub path: Option<T>,
}

/// The content of a file of an image; with `decompress` in the same way. With `strict` bytes that no
/// node has are found.
#[derive(Clone, Copy)]
pub struct FileContent<T> {
    pub options: Options,
    pub decompress: bool,
    pub strict: bool,
    pub image: T,
    pub path: T,
}

/// What an object was by its inode nodes up to a version.
#[derive(Clone, Copy)]
pub struct InodeContent<T> {
    pub options: Options,
    pub image: T,
    pub ino: u32,
    pub version: u32,
}

/// What the trees of two images differ in; with `times`, in times of change too, and with
/// `decompress` those of what `decompress` makes of the images.
#[derive(Clone, Copy)]
pub struct Comparison<T> {
    pub options: Options,
    pub decompress: bool,
    pub times: bool,
    pub first: T,
    pub second: T,
}

/// What `build` would write of a listing, or `append` on an image.
#[derive(Clone, Copy)]
pub struct Cuts<T> {
    pub options: Options,
    pub blocks: u32,
    pub page: Page,
    /// The image, if one is given.
    pub on: Option<T>,
    pub listing: T,
}

/// What is written of a listing on an image that is mounted through its compression, or on an empty
/// one; with `compress`, in nodes that are compressed if that makes them shorter.
#[derive(Clone, Copy)]
pub struct CutsThrough<T> {
    pub options: Options,
    pub blocks: u32,
    pub page: Page,
    pub compress: bool,
    /// The image, if one is given.
    pub on: Option<T>,
    pub listing: T,
}

/// What `update` would write of a listing on a device's image: [`Updating`] without its output.
#[derive(Clone, Copy)]
pub struct UpdateCuts<T> {
    pub options: Options,
    pub blocks: Option<u32>,
    pub page: Page,
    pub plain: bool,
    pub tail: bool,
    pub image: T,
    pub listing: T,
}

/// Where the nodes of an image lie, as a text or, with `svg`, as a picture.
#[derive(Clone, Copy)]
pub struct Mapping<T> {
    pub options: Options,
    pub svg: bool,
    pub image: T,
}

/// What became of each node of an image, or of those of the objects that a path ever named. Of the
/// nodes only those count whose time, in seconds since 1970, is not before `since` and not after
/// `until`, if these are given.
#[derive(Clone, Copy)]
pub struct NodeHistory<T> {
    pub options: Options,
    pub since: Option<u32>,
    pub until: Option<u32>,
    pub image: T,
    pub path: Option<T>,
}

/// The flash that is written, the page that files are cut by, and the file that holds its bytes;
/// with `weak`, weak nodes are noted when all is written.
#[derive(Clone, Copy)]
pub struct Target<T> {
    pub options: Options,
    pub blocks: u32,
    pub page: Page,
    pub weak: bool,
    pub placing: Placing,
    pub output: T,
}

/// An image of what a listing makes of an empty file system.
#[derive(Clone, Copy)]
pub struct Building<T> {
    pub target: Target<T>,
    pub listing: T,
}

/// An image with what a listing makes of its file system; with `decompress`, of what `decompress`
/// makes of the image; with `force` also over that one where it has findings.
#[derive(Clone, Copy)]
pub struct Appending<T> {
    pub target: Target<T>,
    pub decompress: bool,
    pub force: bool,
    pub image: T,
    pub listing: T,
}

/// A device's image with what a listing makes of its file system, written into its blank blocks: of
/// a flash of so many blocks, if they are given, or of as many as the image has or begins. With
/// `plain` nodes are not compressed, with `tail` they go into the rests of begun blocks too.
#[derive(Clone, Copy)]
pub struct Updating<T> {
    pub options: Options,
    pub blocks: Option<u32>,
    pub page: Page,
    pub plain: bool,
    pub tail: bool,
    pub placing: Placing,
    pub image: T,
    pub listing: T,
    pub output: T,
}

/// An image that is made of another one; with `force` also over that one where it has findings.
#[derive(Clone, Copy)]
pub struct Conversion<T> {
    pub options: Options,
    pub force: bool,
    pub placing: Placing,
    pub image: T,
    pub output: T,
}

/// An image of the nodes of another one that its tree needs: of a flash of so many blocks, where
/// they are given.
#[derive(Clone, Copy)]
pub struct Compaction<T> {
    pub conversion: Conversion<T>,
    pub blocks: Option<u32>,
}

/// The tree of an image in a new folder of the host, or the part of it that a path names, or with
/// `deleted` the files that no path leads to; with `owners`, its owners too, and with `decompress`
/// that of what `decompress` makes of the image. No path is named beside `deleted`.
#[derive(Clone, Copy)]
pub struct Extraction<T> {
    pub options: Options,
    pub decompress: bool,
    pub deleted: bool,
    pub owners: bool,
    pub quiet: bool,
    pub image: T,
    pub folder: T,
    pub path: Option<T>,
}

/// The listing that builds a folder of the host, with one owner or one time for all of it where
/// they are given.
#[derive(Clone, Copy)]
pub struct FolderListing<T> {
    pub owner: Option<Owner>,
    pub time: Option<u32>,
    pub quiet: bool,
    pub folder: T,
}

/// An image of a folder of the host: of a flash of so many blocks, where they are given.
#[derive(Clone, Copy)]
pub struct Packing<T> {
    pub options: Options,
    pub blocks: Option<u32>,
    pub page: Page,
    pub weak: bool,
    pub placing: Placing,
    pub owner: Option<Owner>,
    pub time: Option<u32>,
    pub quiet: bool,
    pub folder: T,
    pub output: T,
}

/// What differs between an image and what `pack` makes of a folder with this owner and this time;
/// with `times`, in times of change too.
#[derive(Clone, Copy)]
pub struct Verification<T> {
    pub options: Options,
    pub times: bool,
    pub owner: Option<Owner>,
    pub time: Option<u32>,
    pub quiet: bool,
    pub image: T,
    pub folder: T,
}

/// What a command line asks for. Files, folders and paths are named by texts `T`.
#[derive(Clone, Copy)]
pub enum Command<T> {
    /// `check --scan`: the tiles of the image and what is found in them.
    Scan(Image<T>),
    /// `check`: the same, and whether the image mounts.
    Check(Check<T>),
    /// `check --decompress`: the same, mounted through its compression.
    CheckThrough(Check<T>),
    /// `ls`: a line for each object of the tree.
    List(TreeListing<T>),
    /// `cat`: the bytes of a file.
    Cat(FileContent<T>),
    /// `cat --ino`: the bytes of an object by its inode nodes.
    CatInode(InodeContent<T>),
    /// `info`: what an image tells of itself, whose block size and byte order nobody says.
    Info { image: T },
    /// `diff`.
    Diff(Comparison<T>),
    /// `damage`.
    Damage(Examination<T>),
    /// `map`.
    Map(Mapping<T>),
    /// `history`.
    History(NodeHistory<T>),
    /// `build`.
    Build(Building<T>),
    /// `build --compress`: the same in nodes that are compressed if that makes them shorter.
    BuildCompressed(Building<T>),
    /// `append`.
    Append(Appending<T>),
    /// `update`.
    Update(Updating<T>),
    /// `cuts`: what stands after a stop of writing.
    Cuts(Cuts<T>),
    /// `cuts --decompress` and `cuts --compress`: the same through compression.
    CutsThrough(CutsThrough<T>),
    /// `cuts --update`: the same of what `update` would write.
    CutsUpdate(UpdateCuts<T>),
    /// `decompress`: an image of the same nodes, whose data are not compressed.
    Decompress(Conversion<T>),
    /// `decompress --clashes higher`: the same without those that one of a higher address clashes
    /// with.
    Apart(Conversion<T>),
    /// `compress`: an image of the same nodes, of which those of regular files are compressed.
    Compress(Conversion<T>),
    /// `compact`.
    Compact(Compaction<T>),
    /// `compact --clashes higher`: the same without the nodes that one of a higher address clashes
    /// with.
    CompactApart(Compaction<T>),
    /// `extract`.
    Extract(Extraction<T>),
    /// `listing`.
    Listing(FolderListing<T>),
    /// `pack`.
    Pack(Packing<T>),
    /// `pack --compress`: the same in nodes that are compressed if that makes them shorter.
    PackCompressed(Packing<T>),
    /// `verify`: the lines of `diff` on a folder and an image.
    Verify(Verification<T>),
}

impl<T> Command<T> {
    /// The byte order that it is given. `info` finds out its own, and `listing` reads no image.
    pub fn endian(&self) -> Endian
        ensures { result ≡ order_asked self.now }
    {
        match self {
            Command::Scan(asked) => asked.options.endian,
            Command::Check(asked) => asked.options.endian,
            Command::CheckThrough(asked) => asked.options.endian,
            Command::List(asked) => asked.options.endian,
            Command::Cat(asked) => asked.options.endian,
            Command::CatInode(asked) => asked.options.endian,
            Command::Diff(asked) => asked.options.endian,
            Command::Damage(asked) => asked.options.endian,
            Command::Map(asked) => asked.options.endian,
            Command::History(asked) => asked.options.endian,
            Command::Build(asked) | Command::BuildCompressed(asked) => {
                asked.target.options.endian
            }
            Command::Append(asked) => asked.target.options.endian,
            Command::Update(asked) => asked.options.endian,
            Command::Cuts(asked) => asked.options.endian,
            Command::CutsThrough(asked) => asked.options.endian,
            Command::CutsUpdate(asked) => asked.options.endian,
            Command::Decompress(asked) | Command::Apart(asked) | Command::Compress(asked) => {
                asked.options.endian
            }
            Command::Compact(asked) | Command::CompactApart(asked) => {
                asked.conversion.options.endian
            }
            Command::Extract(asked) => asked.options.endian,
            Command::Pack(asked) | Command::PackCompressed(asked) => asked.options.endian,
            Command::Verify(asked) => asked.options.endian,
            Command::Info { .. } | Command::Listing(_) => Endian::Little,
        }
    }
}
