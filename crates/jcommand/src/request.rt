//! A command, and the options that are found in the image that it reads.
ghost use Rattle.std.specs.Prelude.{◌≡◌, true, false, map, IfOk, option_map};
ghost use Rattle.jcommand.specs.Parsed.{command_view};
ghost use Rattle.jcommand.specs.Requests.{file_made, image_read, images_read, reads_image, with_options, writes_image};

use crate::parsed::{
    Appending, Check, Command, Compaction, Comparison, Conversion, Cuts, CutsThrough, Examination,
    Extraction, FileContent, Image, InodeContent, Mapping, NodeHistory, Options, Target,
    TreeListing, UpdateCuts, Updating, Verification,
};
use jspare::Region;
use std::alloc::{AllocError, Global};

/// What a command line asks for. Files, folders and paths are named by texts `T`.
#[derive(Clone, Copy)]
pub struct Request<T> {
    /// The options of the command are those that its image shows, and its data are decompressed.
    pub auto: bool,
    /// The part of its images' files that is read, if that is not all of them.
    pub region: Option<Region>,
    /// Its lines are printed as JSON.
    pub json: bool,
    pub command: Command<T>,
}

/// `append` with these options, which decompresses the image.
fn extended<'a>(asked: Appending<&'a str>, options: Options) -> Appending<&'a str>
    ensures target { result.target ≡ record asked.entry.target { options = options } }
    ensures decompress { result.decompress ≡ true }
    ensures force { result.force ≡ asked.entry.force }
    ensures image { result.image ≡ asked.entry.image }
    ensures listing { result.listing ≡ asked.entry.listing }
{
    Appending {
        target: Target {
            options,
            ..asked.target
        },
        decompress: true,
        ..asked
    }
}

/// `cuts` with these options, through the compression of the image.
fn through<'a>(asked: Cuts<&'a str>, options: Options) -> CutsThrough<&'a str>
    ensures { result ≡ record {
      options = options;
      blocks = asked.entry.blocks;
      page = asked.entry.page;
      compress = false;
      on = asked.entry.on;
      listing = asked.entry.listing;
    } }
{
    CutsThrough {
        options,
        blocks: asked.blocks,
        page: asked.page,
        compress: false,
        on: asked.on,
        listing: asked.listing,
    }
}

/// `compact` with these options.
fn compacted<'a>(asked: Compaction<&'a str>, options: Options) -> Compaction<&'a str>
    ensures { result ≡ record {
      conversion = record asked.entry.conversion { options = options };
      blocks = asked.entry.blocks;
    } }
{
    Compaction {
        conversion: Conversion {
            options,
            ..asked.conversion
        },
        blocks: asked.blocks,
    }
}

impl<'a> Command<&'a str> {
    /// The image that options are found in: the one that is read, and of two the first.
    pub fn image(&self) -> Option<&'a str>
        ensures { option_map (λ n. n.now) result ≡ image_read (command_view self.now) }
    {
        match self {
            Command::Scan(asked) => Some(asked.image),
            Command::Check(asked) | Command::CheckThrough(asked) => Some(asked.image),
            Command::List(asked) => Some(asked.image),
            Command::Cat(asked) => Some(asked.image),
            Command::CatInode(asked) => Some(asked.image),
            Command::Diff(asked) => Some(asked.first),
            Command::Damage(asked) => Some(asked.image),
            Command::Map(asked) => Some(asked.image),
            Command::History(asked) => Some(asked.image),
            Command::Append(asked) => Some(asked.image),
            Command::Update(asked) => Some(asked.image),
            Command::Cuts(asked) => asked.on,
            Command::CutsThrough(asked) => asked.on,
            Command::CutsUpdate(asked) => Some(asked.image),
            Command::Decompress(asked) | Command::Apart(asked) | Command::Compress(asked) => {
                Some(asked.image)
            }
            Command::Compact(asked) | Command::CompactApart(asked) => Some(asked.conversion.image),
            Command::Extract(asked) => Some(asked.image),
            Command::Verify(asked) => Some(asked.image),
            Command::Info { .. }
            | Command::Build(_)
            | Command::BuildCompressed(_)
            | Command::Listing(_)
            | Command::Pack(_)
            | Command::PackCompressed(_) => None,
        }
    }

    /// All images that are read.
    pub fn images(&self, alloc: Global) -> Result<Vec<&'a str>, AllocError>
        ensures { IfOk result (λ images. map (λ n. n.now) images.items
            ≡ images_read (command_view self.now)) }
    {
        let mut images = Vec::new(alloc);
        match self {
            Command::Info { image } => images.push(*image)?,
            Command::Diff(asked) => {
                images.push(asked.first)?;
                images.push(asked.second)?;
            }
            _ => {
                if let Some(image) = self.image() {
                    images.push(image)?;
                }
            }
        }
        Ok(images)
    }

    /// Whether it reads an image.
    pub(crate) fn reads_image(&self) -> bool
        ensures { result ≡ reads_image (command_view self.now) }
    {
        match self {
            Command::Info { .. } => true,
            _ => self.image().is_some(),
        }
    }

    /// Whether it writes an image, or foretells how one is written.
    pub fn writes_image(&self) -> bool
        ensures { result ≡ writes_image (command_view self.now) }
    {
        match self {
            Command::Build(_)
            | Command::BuildCompressed(_)
            | Command::Append(_)
            | Command::Update(_)
            | Command::Cuts(_)
            | Command::CutsThrough(_)
            | Command::CutsUpdate(_)
            | Command::Decompress(_)
            | Command::Apart(_)
            | Command::Compress(_)
            | Command::Compact(_)
            | Command::CompactApart(_)
            | Command::Pack(_)
            | Command::PackCompressed(_) => true,
            _ => false,
        }
    }

    /// The file that it makes.
    pub fn file_made(&self) -> Option<&'a str>
        ensures { option_map (λ n. n.now) result ≡ file_made (command_view self.now) }
    {
        match self {
            Command::Build(asked) | Command::BuildCompressed(asked) => Some(asked.target.output),
            Command::Append(asked) => Some(asked.target.output),
            Command::Update(asked) => Some(asked.output),
            Command::Decompress(asked) | Command::Apart(asked) | Command::Compress(asked) => {
                Some(asked.output)
            }
            Command::Compact(asked) | Command::CompactApart(asked) => Some(asked.conversion.output),
            Command::Pack(asked) | Command::PackCompressed(asked) => Some(asked.output),
            _ => None,
        }
    }

    /// The same with these options and with `--decompress`, where it reads an image.
    pub fn with_options(self, options: Options) -> Command<&'a str>
        ensures { command_view result ≡ with_options options (command_view self.entry) }
    {
        let decompress = true;
        match self {
            Command::Scan(it) => Command::Scan(Image { options, ..it }),
            Command::Check(it) => Command::CheckThrough(Check { options, ..it }),
            Command::CheckThrough(it) => Command::CheckThrough(Check { options, ..it }),
            Command::List(it) => Command::List(TreeListing {
                options,
                decompress,
                ..it
            }),
            Command::Cat(it) => Command::Cat(FileContent {
                options,
                decompress,
                ..it
            }),
            Command::CatInode(it) => Command::CatInode(InodeContent { options, ..it }),
            Command::Diff(it) => Command::Diff(Comparison {
                options,
                decompress,
                ..it
            }),
            Command::Damage(it) => Command::Damage(Examination {
                options,
                decompress,
                ..it
            }),
            Command::Map(it) => Command::Map(Mapping { options, ..it }),
            Command::History(it) => Command::History(NodeHistory { options, ..it }),
            Command::Append(it) => Command::Append(extended(it, options)),
            Command::Update(it) => Command::Update(Updating { options, ..it }),
            Command::Cuts(it) => Command::CutsThrough(through(it, options)),
            Command::CutsThrough(it) => Command::CutsThrough(CutsThrough { options, ..it }),
            Command::CutsUpdate(it) => Command::CutsUpdate(UpdateCuts { options, ..it }),
            Command::Decompress(it) => Command::Decompress(Conversion { options, ..it }),
            Command::Apart(it) => Command::Apart(Conversion { options, ..it }),
            Command::Compress(it) => Command::Compress(Conversion { options, ..it }),
            Command::Compact(it) => Command::Compact(compacted(it, options)),
            Command::CompactApart(it) => Command::CompactApart(compacted(it, options)),
            Command::Extract(it) => Command::Extract(Extraction {
                options,
                decompress,
                ..it
            }),
            Command::Verify(it) => Command::Verify(Verification { options, ..it }),
            Command::Info { image } => Command::Info { image },
            Command::Build(it) => Command::Build(it),
            Command::BuildCompressed(it) => Command::BuildCompressed(it),
            Command::Listing(it) => Command::Listing(it),
            Command::Pack(it) => Command::Pack(it),
            Command::PackCompressed(it) => Command::PackCompressed(it),
        }
    }
}
