//! A command is run by the crate that has it.
ghost use Rattle.std.specs.Prelude.{◌≡◌, Ok};
ghost use Rattle.jcommand.specs.Parsed.{command_view, order_asked};
ghost use Rattle.jedge.specs.Acts.{DoesFrom};
ghost use Rattle.jedge.specs.Commands.{reported};
ghost use Rattle.jffs2_image.specs.Running.{command_act};

use crate::placed::remaking;
use jcommand::{Command, Outcome};
use jedge::commands::{run_cat, run_check, run_damage, run_diff, run_info, run_list};
use jfolders::commands::{run_extract, run_listing};
use jfolders::host::FolderHost;
use jforetells::commands::{run_cuts_through, run_cuts_update};
use jinspects::commands::{run_cat_inode, run_check_through, run_history, run_map};
use jmakes::commands::{run_append, run_build};
use jmakes::host::FileHost;
use jnode::Order;
use jpacks::commands::{run_pack, run_pack_compressed};
use jreads::commands::{run_cuts, run_scan};
use jreads::files_host::FilesHost;
use jreads::stream_host::StreamHost;
use jremakes::commands::{run_apart, run_compact, run_compact_apart, run_compress, run_decompress};
use jupdates::commands::{run_build_compressed, run_update};
use jverifies::commands::run_verify;

/// Runs a command.
pub fn run_command<E: Order, H: FileHost + FilesHost + StreamHost + FolderHost>(
    host: &mut H,
    command: Command<&str>,
) -> Outcome
    requires { order_asked command ≡ E.order }
    ensures { DoesFrom (H.history host.old) (H.history host.new)
        (reported (command_act (command_view command.entry))) (Ok result) }
{
    match command {
        Command::Scan(asked) => run_scan::<E, H>(host, asked),
        Command::Check(asked) => run_check::<E, H>(host, asked),
        Command::CheckThrough(asked) => run_check_through::<E, H>(host, asked),
        Command::List(asked) => run_list::<E, H>(host, asked),
        Command::Cat(asked) => run_cat::<E, H>(host, asked),
        Command::CatInode(asked) => run_cat_inode::<E, H>(host, asked),
        Command::Info { image } => run_info(host, image),
        Command::Diff(asked) => run_diff::<E, H>(host, asked),
        Command::Damage(asked) => run_damage::<E, H>(host, asked),
        Command::Map(asked) => run_map::<E, H>(host, asked),
        Command::History(asked) => run_history::<E, H>(host, asked),
        Command::Build(asked) => run_build::<E, H>(host, asked),
        Command::BuildCompressed(asked) => run_build_compressed::<E, H>(host, asked),
        Command::Append(asked) => run_append::<E, H>(host, asked),
        Command::Update(asked) => run_update::<E, H>(host, asked),
        Command::Cuts(asked) => run_cuts::<E, H>(host, asked),
        Command::CutsThrough(asked) => run_cuts_through::<E, H>(host, asked),
        Command::CutsUpdate(asked) => run_cuts_update::<E, H>(host, asked),
        Command::Decompress(asked) => run_decompress::<E, H>(host, remaking(asked, None)),
        Command::Apart(asked) => run_apart::<E, H>(host, remaking(asked, None)),
        Command::Compress(asked) => run_compress::<E, H>(host, remaking(asked, None)),
        Command::Compact(asked) => {
            run_compact::<E, H>(host, remaking(asked.conversion, asked.blocks), asked.blocks)
        }
        Command::CompactApart(asked) => {
            run_compact_apart::<E, H>(host, remaking(asked.conversion, asked.blocks), asked.blocks)
        }
        Command::Extract(asked) => run_extract::<E, H>(host, asked),
        Command::Listing(asked) => run_listing(host, asked),
        Command::Pack(asked) => run_pack::<E, H>(host, asked),
        Command::PackCompressed(asked) => run_pack_compressed::<E, H>(host, asked),
        Command::Verify(asked) => run_verify::<E, H>(host, asked),
    }
}
