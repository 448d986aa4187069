//! Laws of rests and openings. Each function's contract is a law, and its body is empty.

ghost use Rattle.jrests.specs.BegunLaws.{RestIsDecided, RestIsOne, RestKeepsTiles, OpeningsAreOpenings};
ghost use Rattle.jrests.specs.LeftLaws.{SharesHoldAll, SharesFit, LeftInOpenings, WholeInOpenings};
ghost use Rattle.jrests.specs.Survives.{FormsSurviveInOpenings};

/// A block has at most one rest, which the function gives.
pub fn rest_is_decided()
    ensures decided { RestIsDecided }
    ensures one { RestIsOne }
{}

/// What is written to a rest changes no tile in front of it.
pub fn rest_keeps_tiles()
    ensures { RestKeepsTiles }
{}

/// The openings of an image are all that it has, upwards.
pub fn openings_are_openings()
    ensures { OpeningsAreOpenings }
{}

/// Where there is room, the shares of a row hold all forms in their order, each within a block.
pub fn shares_hold_all()
    ensures all { SharesHoldAll }
    ensures within { SharesFit }
{}

/// After a cut there stands what was in the base, and the first forms, those that are whole;
/// without a cut all of them.
pub fn left_in_openings()
    ensures cut { LeftInOpenings }
    ensures whole { WholeInOpenings }
{}

/// Whatever the base that mounts through, whichever of its blank blocks and rests are written,
/// whatever the accepted operations, the forms that their nodes are put in and the byte where
/// writing stops: what is left mounts through as the file system after the steps whose forms stand
/// whole.
pub fn forms_survive_in_openings()
    ensures { FormsSurviveInOpenings }
{}
