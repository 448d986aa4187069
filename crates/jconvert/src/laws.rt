//! Laws of what goes out. Each function's contract is a law, and its body is empty.

ghost use Rattle.jconvert.specs.ApartLaws.{LocatedAreByAddress, LocatedAreExpanded, StayHaveRoom, ApartIsImage, ApartMounts, ApartHasNoRoot};
ghost use Rattle.jconvert.specs.CompressingLaws.{CompressedAreNodes, CompressedGivesBack, CompressedMounts};
ghost use Rattle.jconvert.specs.Laws.{ConvertedIsImage, ConvertedMounts, ConvertedHasNoRoot, ConvertedClashes, ThroughIsConverted};

/// What goes out is an image of exactly the expanded nodes, in order; it mounts as the file system
/// that they make, or answers that two of them clash, or that the root is no directory.
pub fn converted_mounts()
    ensures image { ConvertedIsImage }
    ensures mounts { ConvertedMounts }
    ensures root { ConvertedHasNoRoot }
    ensures clashes { ConvertedClashes }
{}

/// Where an image is not refused, mounting it through and mounting what goes out are one.
pub fn through_is_converted()
    ensures { ThroughIsConverted }
{}

/// What went out compressed is decompressed to the nodes of the image that went in, each and in
/// order; so it mounts as that one.
pub fn compressed_gives_back()
    ensures nodes { CompressedAreNodes }
    ensures back { CompressedGivesBack }
    ensures mounts { CompressedMounts }
{}

/// What goes out without nodes that clash is an image of exactly those that stay, in order; it
/// mounts as the file system that they make, or answers that the root is no directory.
pub fn apart_mounts()
    ensures order { LocatedAreByAddress }
    ensures expanded { LocatedAreExpanded }
    ensures room { StayHaveRoom }
    ensures image { ApartIsImage }
    ensures mounts { ApartMounts }
    ensures root { ApartHasNoRoot }
{}
