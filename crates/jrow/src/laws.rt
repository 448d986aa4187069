//! Laws of a row. Each function's contract is a law, and its body is empty.

ghost use Rattle.jrow.specs.Arranged.{BaseIsArranged, ArrangedMounts, RowIsTail, RowAddressHolds, RowStarts, ArrangedBegins, ArrangedSurvives, ArrangedEarlierStand};
ghost use Rattle.jrow.specs.HeadlineInRow.{FormsSurviveInRow};
ghost use Rattle.jrow.specs.MergedLaws.{RowIsMerged};
ghost use Rattle.jrow.specs.Moved.{LogIsMoved};
ghost use Rattle.jrow.specs.OrderLaws.{OrderDoesNotMatter, MergedMakeSame};
ghost use Rattle.jrow.specs.RowLaws.{RowIsSideBySide, RowIsOfBlankBlocks, BlankBlocksAreRow, ImageIsOfBlocks, RowIsOfBlocks};
ghost use Rattle.jrow.specs.RowLeft.{OtherBlocksStay, WrittenIsLeftInRow, LeftInRowExpands, WholeInRowExpands};
ghost use Rattle.jrow.specs.Written.{WithRowIsWhole, SameIsLeftInRow, SameMountsThrough, ImageWithRowIsLeft};

/// Nodes of which no two clash make the same file system in whatever order they come.
pub fn order_does_not_matter()
    ensures any { OrderDoesNotMatter }
    ensures merged { MergedMakeSame }
{}

/// The bytes of a row are those of its blocks, each at its address on the flash.
pub fn row_is_side_by_side()
    ensures { RowIsSideBySide }
{}

/// The nodes of an image are those of its blocks, one block after the other, and so are those of a
/// row.
pub fn nodes_are_of_blocks()
    ensures image { ImageIsOfBlocks }
    ensures row { RowIsOfBlocks }
{}

/// Where only blank blocks of an image are written, it has the nodes of its base and those of the
/// row.
pub fn row_is_merged()
    ensures { RowIsMerged }
{}

/// The row is the blank blocks, all of them, upwards.
pub fn row_is_of_blank_blocks()
    ensures each { RowIsOfBlankBlocks }
    ensures row { BlankBlocksAreRow }
{}

/// What went out to the row may always be left.
pub fn some_are_left_in_row()
    ensures { WrittenIsLeftInRow }
{}

/// Of what a write to the row leaves, all other blocks are the base's.
pub fn other_blocks_stay()
    ensures { OtherBlocksStay }
{}

/// After a cut there stands what was in the base, and the forms in the row that are intact; without
/// a cut all of them.
pub fn left_in_row_expands()
    ensures cut { LeftInRowExpands }
    ensures whole { WholeInRowExpands }
{}

/// Whatever the base that mounts through, wherever its blank blocks lie, whatever the accepted
/// operations, the forms that their nodes are put in and the byte where writing stops: what is left
/// mounts through as the file system after the steps whose forms stand whole.
pub fn forms_survive_in_row()
    ensures { FormsSurviveInRow }
{}

/// An image with its blank blocks last is seen as the same, and what is written to its blank blocks
/// is then written to its tail: so what is known of a log in a tail is known of one in a row.
pub fn row_is_tail()
    ensures base { BaseIsArranged }
    ensures mounts { ArrangedMounts }
    ensures tail { RowIsTail }
    ensures begins { ArrangedBegins }
    ensures survives { ArrangedSurvives }
    ensures earlier { ArrangedEarlierStand }
{}

/// A log that begins so many blocks further on has the same bytes, each form so many blocks further
/// on: so what goes out to the row goes out to the tail that the row then is.
pub fn log_is_moved()
    ensures { LogIsMoved }
{}

/// Of the flash with the blank blocks of an image last: where they begin, and that an address there
/// is one of the image.
pub fn row_has_addresses()
    ensures start { RowStarts }
    ensures address { RowAddressHolds }
{}

/// Images of a flash that differ only in how many erased bytes they lack at its end are left by the
/// same stops, and mount through as the same.
pub fn erased_ends_do_not_matter()
    ensures left { SameIsLeftInRow }
    ensures mounts { SameMountsThrough }
{}

/// What is put of an image with bytes in its row is the flash that has them there, and a stop may
/// leave it.
pub fn image_with_row_is_left()
    ensures whole { WithRowIsWhole }
    ensures left { ImageWithRowIsLeft }
{}
