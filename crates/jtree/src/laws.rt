//! The laws of trees, each the contract of an empty function.

ghost use Rattle.jtree.specs.Image as image;
ghost use Rattle.jtree.specs.Laws as law;
ghost use Rattle.jtree.specs.Updates as update;
ghost use Rattle.jtree.specs.UpdatesThrough.{UpdatesAreWholeThrough, UpdatesAreWholeInRow};
ghost use Rattle.jtree.specs.Written as written;

/// The operations of a tree are all accepted on the empty file system, and make the tree and
/// nothing else. So are those that the tree's text is read as.
pub fn listing_makes_tree()
    ensures actions { law.ListingMakesTree }
    ensures text { law.TextMakesTree }
{}

/// The image that is written for a tree's text on a base without nodes mounts, and holds the tree
/// and nothing else. The empty image is such a base.
pub fn image_holds_tree()
    ensures image { image.ImageHoldsTree }
    ensures empty { image.EmptyIsBare }
{}

/// What is put out for the lines of a tree's text on the empty image, where nothing stops it, is
/// such an image: it mounts, and holds the tree and nothing else.
pub fn put_out_holds_tree()
    ensures { written.PutOutHoldsTree }
{}

/// Where no operation makes a regular file without its bytes, or writes or cuts one, each path that
/// leads to a regular file leads to one with all bytes of a file that the base had, or of one that
/// an operation makes: after any number of steps, and so in what mounts after a stop at any byte.
/// The operations that a tree's text is read as are such.
pub fn updates_are_whole()
    ensures steps { update.StepsKeepFilesWhole }
    ensures stopped { update.UpdatesAreWhole }
    ensures listing { update.ListingIsUpdate }
{}

/// The same of images with compressed data, whatever the forms of the nodes that go out: after a
/// stop at any byte of a log in the tail of an image, and of one in its blank blocks.
pub fn updates_are_whole_through()
    ensures tail { UpdatesAreWholeThrough }
    ensures row { UpdatesAreWholeInRow }
{}
