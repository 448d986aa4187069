//! Laws of what is written. Each function's contract is a law, and its body is empty.

ghost use Rattle.jcollect.specs.Clean.{CleanBlocks};
ghost use Rattle.jcollect.specs.Collecting as law;
ghost use Rattle.jcollect.specs.PlanningApart.{PlannedApartIsPlanned, PlannedApartShows};
ghost use Rattle.jcollect.specs.Staying.{StayingArePlaced};
ghost use Rattle.jcollect.specs.Through as through;
ghost use Rattle.jcollect.specs.Tiles as tiles;

/// An image has no findings where none of its blocks has one.
pub fn blocks_are_clean()
    ensures { CleanBlocks }
{}

/// Where a sound node is sighted its tile stands, which is seen as that node wherever it is copied.
pub fn sighted_is_tile()
    ensures { tiles.SightedIsTile }
{}

/// What goes out for tiles has just these, at their places, and no finding.
pub fn output_has_tiles()
    ensures { tiles.OutputHasTiles }
{}

/// The image of the nodes that matter has just these and no findings, so that it shows the same
/// tree. It is no longer than the blocks, may be written on, and mounts.
pub fn collected_is_compact()
    ensures compact { law.CollectedIsCompact }
    ensures within { law.CollectedIsWithin }
    ensures mounts { law.CollectedMounts }
{}

/// Compressed nodes are copied as they stand: what goes out has just the nodes that are copied,
/// seen through the compression, and no findings.
pub fn copied_expands()
    ensures { through.CopiedExpands }
{}

/// So through the compression the image of the nodes that matter has just these and no findings,
/// and shows the same tree; and it mounts through.
pub fn collected_through_is_compact()
    ensures compact { through.CollectedThroughIsCompact }
    ensures mounts { through.CollectedMountsThrough }
{}

/// However nodes of which some clash are parted, those that are not left out are those that stay.
pub fn staying_are_placed()
    ensures { StayingArePlaced }
{}

/// Of the nodes that stay those that matter go out: some of them, in their order, of which no two
/// clash. What goes out has no findings and shows the tree that those that stay make.
pub fn planned_apart_shows()
    ensures { PlannedApartShows }
{}

/// Where no nodes clash that is what goes out of the image without that, and none is left out.
pub fn planned_apart_is_planned()
    ensures { PlannedApartIsPlanned }
{}
