//! The commands as the program runs them: each is gone through, and its answer told.
ghost use Rattle.std.specs.Prelude.{◌≡◌, Ok, option_map};
ghost use Rattle.jedge.specs.Acts.{DoesFrom};
ghost use Rattle.jedge.specs.Commands.{reported};
ghost use Rattle.jinspects.specs.Inspecting.{cat_inode_act, check_through_act, history_act, map_act, period_asked};

use crate::check::check_through;
use crate::history::history;
use crate::map::map;
use crate::recalling::cat_inode;
use jcommand::{Check, InodeContent, Mapping, NodeHistory, Outcome};
use jedge::host::Host;
use jedge::reporting::report;
use jnode::Order;
use jversions::Revision;

/// `check --decompress`.
pub fn run_check_through<E: Order, H: Host>(host: &mut H, asked: Check<&str>) -> Outcome
    requires { asked.options.endian ≡ E.order }
    ensures { DoesFrom (H.history host.old) (H.history host.new)
        (reported (check_through_act asked.entry.options asked.entry.shape asked.entry.image.now))
        (Ok result) }
{
    let answer = check_through::<E, H>(host, asked.options, asked.shape, asked.image);
    report(host, answer)
}

/// `map`.
pub fn run_map<E: Order, H: Host>(host: &mut H, asked: Mapping<&str>) -> Outcome
    requires { asked.options.endian ≡ E.order }
    ensures { DoesFrom (H.history host.old) (H.history host.new)
        (reported (map_act asked.entry.options asked.entry.svg asked.entry.image.now))
        (Ok result) }
{
    let answer = map::<E, H>(host, asked.options, asked.svg, asked.image);
    report(host, answer)
}

/// `history`.
pub fn run_history<E: Order, H: Host>(host: &mut H, asked: NodeHistory<&str>) -> Outcome
    requires { asked.options.endian ≡ E.order }
    ensures { DoesFrom (H.history host.old) (H.history host.new)
        (reported (history_act asked.entry.options (period_asked asked.entry) asked.entry.image.now
        (option_map (λ p. p.now) asked.entry.path))) (Ok result) }
{
    let answer = history::<E, H>(host, asked);
    report(host, answer)
}

/// `cat --ino`.
pub fn run_cat_inode<E: Order, H: Host>(host: &mut H, asked: InodeContent<&str>) -> Outcome
    requires { asked.options.endian ≡ E.order }
    ensures { DoesFrom (H.history host.old) (H.history host.new)
        (reported (cat_inode_act asked.entry.options
        (record { ino = asked.entry.ino; version = asked.entry.version }) asked.entry.image.now))
        (Ok result) }
{
    let revision = Revision {
        ino: asked.ino,
        version: asked.version,
    };
    let answer = cat_inode::<E, H>(host, asked.options, revision, asked.image);
    report(host, answer)
}
