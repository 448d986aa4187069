//! The commands as the program runs them: each is gone through, and its answer told.
ghost use Rattle.std.specs.Prelude.{◌≡◌, Ok, option_map};
ghost use Rattle.jcommand.specs.Parsed.{comparison_view};
ghost use Rattle.jedge.specs.Acts.{DoesFrom};
ghost use Rattle.jedge.specs.Commands.{cat_act, check_act, damage_act, diff_act, info_act, list_act, reported};

use crate::cat::cat;
use crate::check::check;
use crate::damage::damage;
use crate::diff::diff;
use crate::host::Host;
use crate::info::info;
use crate::list::list;
use crate::reporting::report;
use jcommand::{Check, Comparison, Examination, FileContent, Outcome, TreeListing};
use jnode::Order;

/// `info`.
pub fn run_info<H: Host>(host: &mut H, name: &str) -> Outcome
    ensures { DoesFrom (H.history host.old) (H.history host.new) (reported (info_act name.now))
        (Ok result) }
{
    let answer = info(host, name);
    report(host, answer)
}

/// `damage`.
pub fn run_damage<E: Order, H: Host>(host: &mut H, asked: Examination<&str>) -> Outcome
    requires { asked.options.endian ≡ E.order }
    ensures { DoesFrom (H.history host.old) (H.history host.new)
        (reported (damage_act asked.entry.options asked.entry.decompress asked.entry.image.now))
        (Ok result) }
{
    let answer = damage::<E, H>(host, asked);
    report(host, answer)
}

/// `check`.
pub fn run_check<E: Order, H: Host>(host: &mut H, asked: Check<&str>) -> Outcome
    requires { asked.options.endian ≡ E.order }
    ensures { DoesFrom (H.history host.old) (H.history host.new)
        (reported (check_act asked.entry.options asked.entry.shape asked.entry.image.now))
        (Ok result) }
{
    let answer = check::<E, H>(host, asked.options, asked.shape, asked.image);
    report(host, answer)
}

/// `ls`.
pub fn run_list<E: Order, H: Host>(host: &mut H, asked: TreeListing<&str>) -> Outcome
    requires { asked.options.endian ≡ E.order }
    ensures { DoesFrom (H.history host.old) (H.history host.new)
        (reported (list_act asked.entry.options asked.entry.decompress asked.entry.image.now
        (option_map (λ p. p.now) asked.entry.path))) (Ok result) }
{
    let TreeListing {
        options,
        decompress,
        image,
        path,
    } = asked;
    let answer = list::<E, H>(host, options, decompress, image, path);
    report(host, answer)
}

/// `cat`.
pub fn run_cat<E: Order, H: Host>(host: &mut H, asked: FileContent<&str>) -> Outcome
    requires { asked.options.endian ≡ E.order }
    ensures { DoesFrom (H.history host.old) (H.history host.new)
        (reported (cat_act asked.entry.options asked.entry.decompress asked.entry.strict
        asked.entry.image.now asked.entry.path.now)) (Ok result) }
{
    let answer = cat::<E, H>(host, asked);
    report(host, answer)
}

/// `diff`.
pub fn run_diff<E: Order, H: Host>(host: &mut H, asked: Comparison<&str>) -> Outcome
    requires { asked.options.endian ≡ E.order }
    ensures { DoesFrom (H.history host.old) (H.history host.new)
        (reported (diff_act (comparison_view asked.entry))) (Ok result) }
{
    let answer = diff::<E, H>(host, asked);
    report(host, answer)
}
