//! The gaps of one file, from the lowest place up.

ghost use Rattle.std.specs.Prelude.{◌≡◌, ◌++◌, ◌∷◌, ℕ, Bool, List, IfOk, OnOk, map};
ghost use Rattle.jgaps.specs.Gaps.{gap_of, gaps_below};
ghost use Rattle.jgaps.specs.Sweeping.{Begin, BeginFrom, Cover, Swept};
ghost use Rattle.jgaps.specs.declared.fields.Stretch.{Stretch};
ghost use Rattle.jgaps.specs.declared.gap.Gap.{Gap};

use crate::fields::Stretch;
use crate::gap::Gap;
use std::alloc::AllocError;

/// Goes on over the range of one more node, behind those that begin before it. Answers up to which
/// place all gaps are found then.
fn pass(
    ino: u32,
    size: u32,
    reach: u32,
    stretch: &Stretch,
    gaps: &mut Vec<Gap>,
) -> Result<u32, AllocError>
    ensures { IfOk result (λ next. (covered : ℕ → Bool) (all : List Gap) (left : List Stretch)
        → BeginFrom stretch.now left
        → Swept ino size covered all (stretch.now ∷ left) gaps.old.items reach
        → Swept ino size covered all left gaps.new.items next) }
{
    let to = stretch.to.min(u64::from(size)) as u32;
    if to <= stretch.from {
        return Ok(reach);
    }
    if reach < stretch.from {
        let gap = Gap {
            ino,
            from: reach,
            to: stretch.from,
        };
        gaps.push(gap)?;
    }
    Ok(reach.max(to))
}

/// Adds the gaps of a file of this size, of which nodes have these ranges.
pub(crate) fn push_gaps(
    ino: u32,
    size: u32,
    ranges: &[Stretch],
    gaps: &mut Vec<Gap>,
) -> Result<(), AllocError>
    requires { Begin ranges.now }
    ensures { OnOk result ((covered : ℕ → Bool) → Cover covered size ranges.now
        → gaps.new.items ≡ gaps.old.items ++ map (gap_of ino) (gaps_below covered size)) }
{
    let mut reach = 0;
    for stretch in ranges {
        reach = pass(ino, size, reach, stretch, gaps)?;
    }
    if reach < size {
        let gap = Gap {
            ino,
            from: reach,
            to: size,
        };
        gaps.push(gap)?;
    }
    Ok(())
}
