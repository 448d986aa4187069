//! Laws of the listing, each the contract of an empty function.

ghost use Rattle.jreport.specs.ListedOnce as once;
ghost use Rattle.jreport.specs.TreeLaws as law;
ghost use Rattle.jreport.specs.TreeParts as part;

/// However the names of a file system lead, also in a circle, there is one text of its tree.
pub fn every_tree_has_one_text()
    ensures { law.EachTreeHasOneText }
{}

/// The text begins with the root's line, which does not say that the root was met before.
pub fn root_comes_first()
    ensures { law.RootComesFirst }
{}

/// In the text of a tree that has its shape, no directory is listed again.
pub fn shape_is_listed_once()
    ensures { once.ShapeIsListedOnce }
{}

/// In the text of a tree that has its shape, the lines of a part of it are one stretch.
pub fn part_is_a_stretch()
    ensures { part.PartIsStretch }
{}
