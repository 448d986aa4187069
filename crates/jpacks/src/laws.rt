//! Laws of `pack` and `pack --compress`. Each function's contract is a law, and its body is empty.
ghost use Rattle.jpacks.specs.Held.{PackCompressedHoldsFolder, PackHoldsFolder};
ghost use Rattle.jpacks.specs.PackLaws.{PackBlamed, PackCompressedJudgedFirst, PackCompressedLeavesFiles, PackJudgedFirst, PackLeavesFiles};

/// With `--atomic`, a fault leaves the files of the host as they were, and what was made is
/// removed, or that failed. But the fault of standard output comes when the file has its name.
pub fn pack_leaves_files()
    ensures { PackLeavesFiles }
{}

/// Nothing is made, and no file changed, at any fault but those of the file that is made and of
/// writing it.
pub fn pack_judged_first()
    ensures { PackJudgedFirst }
{}

/// A fault that names a file or a folder comes with a call on it that failed, for the same reason.
pub fn pack_blamed()
    ensures { PackBlamed }
{}

/// What `pack` writes that ends without a fault is an image that holds the tree of the folder, with
/// the bytes that were read of its files.
pub fn pack_holds_folder()
    ensures { PackHoldsFolder }
{}

/// With `--atomic`, a fault of `pack --compress` leaves the files of the host as they were, as one
/// of `pack` does.
pub fn pack_compressed_leaves_files()
    ensures { PackCompressedLeavesFiles }
{}

/// Nothing is made, and no file changed, at any fault but those of the file that is made and of
/// writing it.
pub fn pack_compressed_judged_first()
    ensures { PackCompressedJudgedFirst }
{}

/// What `pack --compress` writes that ends without a fault is an image that holds, through its
/// compression, the tree of the folder, with the bytes that were read of its files.
pub fn pack_compressed_holds_folder()
    ensures { PackCompressedHoldsFolder }
{}
