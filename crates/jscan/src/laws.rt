//! Laws of tilings and extents. Each function's contract is a law, and its body is empty.

ghost use Rattle.jscan.specs.Laws.{TilingExists, TilingIsOnly, TilesAreFew, TileThenRest, RunsAreLongest, ExtentsMakeUp, ExtentsAreFew, ExtentsAreTiles, ErasedRunsAreErased, NodesAreSeen, NamesAreShort, SightingsAreExtents, HeaderlessHasNoNodes, ErasedHasNoNodes, MarkedHasNoNodes, NodesAreOfBlocks, BlankFromIsLeast};
ghost use Rattle.jscan.specs.ImageLaws.{SightingsAscend, NodesAscend, FindingsAscend, SightingsAreWithin, SightingsHaveAddresses, RefusalIsFirst, NoneRefuses, NodesAreContained, NodesFit, NodesAreWritable};

/// A block of whole words has exactly one tiling, and it is the one computed.
pub fn one_tiling()
    ensures exists { TilingExists }
    ensures only { TilingIsOnly }
{}

/// A block has at most one tile for each of its words.
pub fn tiles_are_few()
    ensures { TilesAreFew }
{}

/// A block's tiles are the first one, and then those of what follows it.
pub fn tile_then_rest()
    ensures { TileThenRest }
{}

/// No two neighbours among a block's extents go on as one run.
pub fn runs_are_longest()
    ensures { RunsAreLongest }
{}

/// A block's extents make it up: none is empty, and each begins where the one before it ends.
pub fn extents_make_up()
    ensures { ExtentsMakeUp }
{}

/// A block has at most one extent for each of its words.
pub fn extents_are_few()
    ensures { ExtentsAreFew }
{}

/// An extent consists of the bytes of tiles that kind like it, an erased one of bytes 0xFF alone.
pub fn extents_are_tiles()
    ensures tiles { ExtentsAreTiles }
    ensures erased { ErasedRunsAreErased }
{}

/// An extent seen as a node is the whole tile of a good header, and the name of an entry seen has
/// at most 254 bytes.
pub fn nodes_are_seen()
    ensures seen { NodesAreSeen }
    ensures names { NamesAreShort }
{}

/// The sightings of a block are its extents that are nodes' tiles.
pub fn sightings_are_extents()
    ensures { SightingsAreExtents }
{}

/// Where there is no good header at any word, no node is sighted: so in erased flash, and after a
/// beginning of the clean marker.
pub fn headerless_has_no_nodes()
    ensures headerless { HeaderlessHasNoNodes }
    ensures erased { ErasedHasNoNodes }
    ensures marked { MarkedHasNoNodes }
{}

/// An image's nodes are those of its blocks, or of the flash's, which is erased past the image.
pub fn nodes_are_of_blocks()
    ensures { NodesAreOfBlocks }
{}

/// `blank_from` is the least block from which all are blank.
pub fn blank_from_is_least()
    ensures { BlankFromIsLeast }
{}

/// The addresses of an image's sightings, nodes and findings strictly ascend.
pub fn addresses_ascend()
    ensures sightings { SightingsAscend }
    ensures nodes { NodesAscend }
    ensures findings { FindingsAscend }
{}

/// The addresses of an image's sightings lie in its blocks, and fit 32 bits.
pub fn addresses_are_within()
    ensures within { SightingsAreWithin }
    ensures small { SightingsHaveAddresses }
{}

/// The refusal of an image is that of its first node that no image may have.
pub fn refusal_is_first()
    ensures first { RefusalIsFirst }
    ensures none { NoneRefuses }
{}

/// An image's nodes are what the node tiles of its blocks' tilings read as.
pub fn nodes_are_contained()
    ensures { NodesAreContained }
{}

/// The nodes of an image fit their widths, and could be written.
pub fn nodes_fit()
    ensures fit { NodesFit }
    ensures writable { NodesAreWritable }
{}
