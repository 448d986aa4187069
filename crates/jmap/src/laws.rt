//! Laws of maps. Each function's contract is a law, and its body is empty.

ghost use Rattle.jmap.specs.MapLaws.{BarIsLong, KindsAreOfBlock, TallyIsAll};

/// The five numbers of a block sum to its bytes, each of which is of one kind.
pub fn tally_is_all()
    ensures kinds { KindsAreOfBlock }
    ensures tally { TallyIsAll }
{}

/// A bar has 50 characters.
#[tactic(auto, unfolding(crate::specs::MapText::bar_of))]
pub fn bar_is_long()
    ensures { BarIsLong }
{}
