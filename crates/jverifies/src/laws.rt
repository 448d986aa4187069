//! Laws of `verify`. Each function's contract is a law, and its body is empty.
ghost use Rattle.jverifies.specs.Verified.{VerifiedIsSame, VerifyTellsDifferences};
ghost use Rattle.jverifies.specs.VerifyLaws.{VerifyBlamed, VerifyMakesNothing};

/// Nothing is made, and no file changed, whatever it answers.
pub fn verify_makes_nothing()
    ensures { VerifyMakesNothing }
{}

/// A fault that names a file or a folder comes with a failed call on it, and that of the output
/// with a print that failed.
pub fn verify_blamed()
    ensures { VerifyBlamed }
{}

/// What is printed are the lines on the tree of the folder, as `pack` puts it into an image, and on
/// that of the image. Lines are found, or what was left out of the folder, or findings.
pub fn verify_tells_differences()
    ensures { VerifyTellsDifferences }
{}

/// Where nothing is found, the image shows the same tree, through its compression, as the image
/// that `pack` makes of the folder; and nothing was left out of that.
pub fn verified_is_same()
    ensures { VerifiedIsSame }
{}
