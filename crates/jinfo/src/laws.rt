//! Laws of the sizes that are told: each is the contract of a function with nothing to do.

ghost use Rattle.jinfo.specs.SizeLaws.{FittingAreTold, LeftPowersFit, ToldAreLeft};

/// Each size of blocks that fits an image is from the least to the greatest one that is told of it.
pub fn fitting_are_told()
    ensures { FittingAreTold }
{}

/// The least and the greatest size that are told are sizes that nothing rules out.
pub fn told_are_left()
    ensures { ToldAreLeft }
{}

/// A power of two that nothing rules out fits.
pub fn left_powers_fit()
    ensures { LeftPowersFit }
{}
