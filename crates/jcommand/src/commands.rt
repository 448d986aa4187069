//! The command line, built with clap: the program, its subcommands, and the words that each one
//! takes.
ghost use Rattle.std.specs.Prelude.{◌≡◌, Ok, IfOk};
ghost use Rattle.clap.specs.Words.{App, Rule, new_app, with_rule, with_subcommand};
ghost use Rattle.jcommand.specs.Commands.{IsApp, IsRule, MakesApp, word, optional_word, option_or, required_option, option_of, option_of_two, lettered_option, flag, lettered_flag, block_option, plain_command, automatic, reader, writer, noting, check_app, ls_app, cat_app, build_app, append_app, update_app, decompress_app, compress_app, compact_app, extract_app, listing_app, info_app, cuts_app, diff_app, damage_app, map_app, history_app, pack_app, verify_app, atomic, compressing, replacing, placing, printer, printing, regional, writing, updating, folder_settings, bare, program};

use crate::{epilogues, help};
use clap::{Arg, ArgAction, Command};
use std::alloc::{AllocError, Global};

/// The version, and the logic of the kit that proves it, which the gate compares with its kit. The
/// commit can't stand in its own sources: a package has it in PROVED.txt.
const VERSION: &str = "0.1.0
proved by the Rattle kit's logic dac8208d650f15bf; PROVED.txt of a package names the commit";

/// What making a command comes to.
type Made<'a> = Result<Command<'a>, AllocError>;

/// A word that has to be there.
fn make_word<'a>(alloc: Global, id: &'a str, help: &'a str) -> Arg<'a>
    ensures { IsRule result (word id.now) }
{
    Arg::new(alloc, id).required(true).help(help)
}

/// A word that may be left out.
fn make_optional_word<'a>(alloc: Global, id: &'a str, help: &'a str) -> Arg<'a>
    ensures { IsRule result (optional_word id.now) }
{
    Arg::new(alloc, id).help(help)
}

/// An option with a value that may be left out.
fn make_option<'a>(
    alloc: Global,
    id: &'a str,
    value: &'a str,
    default: &'a str,
    help: &'a str,
) -> Arg<'a>
    ensures { IsRule result (option_or id.now default.now) }
{
    Arg::new(alloc, id)
        .long(id)
        .value_name(value)
        .default_value(default)
        .help(help)
}

/// An option with a value that has to be there.
fn make_required_option<'a>(alloc: Global, id: &'a str, value: &'a str, help: &'a str) -> Arg<'a>
    ensures { IsRule result (required_option id.now) }
{
    Arg::new(alloc, id)
        .long(id)
        .value_name(value)
        .required(true)
        .help(help)
}

/// An option with a value that may be left out, and has none then.
fn make_optional<'a>(alloc: Global, id: &'a str, value: &'a str, help: &'a str) -> Arg<'a>
    ensures { IsRule result (option_of id.now) }
{
    Arg::new(alloc, id).long(id).value_name(value).help(help)
}

/// The same with two values.
fn make_optional_two<'a>(
    alloc: Global,
    id: &'a str,
    values: &'a [&'a str; 2],
    help: &'a str,
) -> Arg<'a>
    ensures { IsRule result (option_of_two id.now) }
{
    Arg::new(alloc, id).long(id).value_names(values).help(help)
}

/// A flag that may be left out.
fn make_flag<'a>(alloc: Global, id: &'a str, help: &'a str) -> Arg<'a>
    ensures { IsRule result (flag id.now) }
{
    Arg::new(alloc, id)
        .long(id)
        .action(ArgAction::SetTrue)
        .help(help)
}

/// A flag that has a letter too.
fn make_lettered_flag<'a>(alloc: Global, id: &'a str, letter: char, help: &'a str) -> Arg<'a>
    ensures { IsRule result (lettered_flag id.now letter) }
{
    make_flag(alloc, id, help).short(letter)
}

/// An option with a value that may be left out, and that has a letter too.
fn make_lettered_option<'a>(
    alloc: Global,
    id: &'a str,
    letter: char,
    value: &'a str,
    help: &'a str,
) -> Arg<'a>
    ensures { IsRule result (lettered_option id.now letter) }
{
    make_optional(alloc, id, value, help).short(letter)
}

/// The size of a block, by either name or by the letter.
fn make_block<'a>(alloc: Global) -> Result<Arg<'a>, AllocError>
    ensures { IfOk result (λ arg. IsRule arg block_option) }
{
    make_optional(alloc, "block", "N", help::BLOCK)
        .short('e')
        .alias("eraseblock")
}

/// A command without words, with the texts at the top and at the end of its help.
fn make_named<'a>(alloc: Global, name: &'a str, about: &'a str, after: &'a str) -> Command<'a>
    ensures { IsApp result (new_app name.now) }
{
    Command::new(alloc, name).about(about).after_help(after)
}

/// The command with one more word or option.
fn add_arg<'a>(command: Made<'a>, arg: Arg<'a>) -> Made<'a>
    ensures { (app : App) (rule : Rule) → MakesApp command.entry app → IsRule arg.entry rule
        → MakesApp result (with_rule app rule) }
{
    command?.arg(arg)
}

/// The command with one more subcommand.
fn add_subcommand<'a>(command: Made<'a>, subcommand: Made<'a>) -> Made<'a>
    ensures { (app sub : App) → MakesApp command.entry app → MakesApp subcommand.entry sub
        → MakesApp result (with_subcommand app sub.top) }
{
    command?.subcommand(subcommand?)
}

/// A subcommand with the options that each one has.
fn make_plain<'a>(alloc: Global, name: &'a str, about: &'a str, after: &'a str) -> Made<'a>
    ensures { MakesApp result (plain_command name.now) }
{
    let block = make_block(alloc)?;
    let endian = make_optional(alloc, "endian", "ORDER", help::ENDIAN);
    let little = make_lettered_flag(alloc, "little-endian", 'l', help::LITTLE);
    let big = make_lettered_flag(alloc, "big-endian", 'b', help::BIG);
    let command = make_named(alloc, name, about, after);
    let command = add_arg(add_arg(Ok(command), block), endian);
    add_arg(add_arg(command, little), big)
}

/// The command that reads a part of a file as the image, where that is given.
fn add_region<'a>(alloc: Global, command: Made<'a>) -> Made<'a>
    ensures { (app : App) → MakesApp command.entry app → MakesApp result (regional app) }
{
    let layout = make_optional(alloc, "oob", "P+S", help::SPARE);
    let offset = make_optional(alloc, "offset", "A", help::OFFSET);
    let length = make_optional(alloc, "length", "N", help::LENGTH);
    add_arg(add_arg(add_arg(command, layout), offset), length)
}

/// The same, which finds its options in the image, where that is asked for.
fn add_auto<'a>(alloc: Global, command: Made<'a>) -> Made<'a>
    ensures { (app : App) → MakesApp command.entry app → MakesApp result (automatic app) }
{
    let flag = make_lettered_flag(alloc, "auto", 'a', help::AUTO);
    add_region(alloc, add_arg(command, flag))
}

/// A subcommand that reads an image.
fn make_reader<'a>(alloc: Global, name: &'a str, about: &'a str, after: &'a str) -> Made<'a>
    ensures { MakesApp result (reader name.now) }
{
    add_auto(alloc, make_plain(alloc, name, about, after))
}

/// The command that prints its lines as JSON, where that is asked for.
fn add_json<'a>(alloc: Global, command: Made<'a>) -> Made<'a>
    ensures { (app : App) → MakesApp command.entry app → MakesApp result (printing app) }
{
    add_arg(command, make_flag(alloc, "json", help::JSON))
}

/// A subcommand that reads an image, and prints lines of it.
fn make_printer<'a>(alloc: Global, name: &'a str, about: &'a str, after: &'a str) -> Made<'a>
    ensures { MakesApp result (printer name.now) }
{
    add_json(alloc, make_reader(alloc, name, about, after))
}

fn make_check<'a>(alloc: Global) -> Made<'a>
    ensures { MakesApp result check_app }
{
    let scan = make_flag(alloc, "scan", help::SCAN);
    let shape = make_flag(alloc, "shape", help::SHAPE);
    let decompress = make_flag(alloc, "decompress", help::MOUNTED_DECOMPRESSED);
    let image = make_word(alloc, "IMAGE", help::IMAGE);
    let command = make_printer(alloc, "check", help::CHECK, epilogues::CHECK);
    let command = add_arg(add_arg(command, scan), shape);
    add_arg(add_arg(command, decompress), image)
}

fn make_ls<'a>(alloc: Global) -> Made<'a>
    ensures { MakesApp result ls_app }
{
    let decompress = make_flag(alloc, "decompress", help::SHOWN_DECOMPRESSED);
    let image = make_word(alloc, "IMAGE", help::IMAGE);
    let path = make_optional_word(alloc, "PATH", help::PART);
    let command = make_printer(alloc, "ls", help::LIST, epilogues::LIST);
    add_arg(add_arg(add_arg(command, decompress), image), path)
}

fn make_cat<'a>(alloc: Global) -> Made<'a>
    ensures { MakesApp result cat_app }
{
    let decompress = make_flag(alloc, "decompress", help::SHOWN_DECOMPRESSED);
    let strict = make_flag(alloc, "strict", help::STRICT);
    let ino = make_optional(alloc, "ino", "I", help::INO);
    let upto = make_optional(alloc, "upto", "V", help::UPTO);
    let image = make_word(alloc, "IMAGE", help::IMAGE);
    let path = make_optional_word(alloc, "PATH", help::PATH);
    let command = make_reader(alloc, "cat", help::CAT, epilogues::CAT);
    let command = add_arg(add_arg(command, decompress), strict);
    let command = add_arg(add_arg(command, ino), upto);
    add_arg(add_arg(command, image), path)
}

/// A subcommand that writes to flash of so many blocks, by pages.
fn make_writer<'a>(alloc: Global, name: &'a str, about: &'a str, after: &'a str) -> Made<'a>
    ensures { MakesApp result (writer name.now) }
{
    let blocks = make_required_option(alloc, "blocks", "N", help::BLOCKS);
    let page = make_option(alloc, "page", "N", "4096", help::PAGE);
    add_arg(add_arg(make_plain(alloc, name, about, after), blocks), page)
}

/// The same, with notes on weak nodes where they are asked for.
fn make_noting<'a>(alloc: Global, name: &'a str, about: &'a str, after: &'a str) -> Made<'a>
    ensures { MakesApp result (noting name.now) }
{
    let weak = make_flag(alloc, "weak", help::WEAK);
    add_arg(make_writer(alloc, name, about, after), weak)
}

/// The command whose output takes its name only when all is written, where that is asked for.
fn add_atomic<'a>(alloc: Global, command: Made<'a>) -> Made<'a>
    ensures { (app : App) → MakesApp command.entry app → MakesApp result (atomic app) }
{
    let flag = make_flag(alloc, "atomic", help::ATOMIC);
    add_arg(command, flag)
}

/// The same, and the output may be the image, also where that has findings, where that is asked for.
fn add_replacing<'a>(alloc: Global, command: Made<'a>) -> Made<'a>
    ensures { (app : App) → MakesApp command.entry app → MakesApp result (replacing app) }
{
    let flag = make_flag(alloc, "force", help::FORCE);
    add_arg(add_atomic(alloc, command), flag)
}

/// The command whose output takes its name only when all is written, and is filled up to the end of
/// the flash, where these are asked for.
fn add_placing<'a>(alloc: Global, command: Made<'a>) -> Made<'a>
    ensures { (app : App) → MakesApp command.entry app → MakesApp result (placing app) }
{
    let pad = make_lettered_flag(alloc, "pad", 'p', help::PAD);
    add_atomic(alloc, add_arg(command, pad))
}

/// The command that writes a file, which is named in its place, or by `-o`.
fn add_output<'a>(alloc: Global, command: Made<'a>) -> Made<'a>
    ensures { (app : App) → MakesApp command.entry app → MakesApp result (writing app) }
{
    let named = make_lettered_option(alloc, "output", 'o', "FILE", help::OUTPUT);
    let placed = make_optional_word(alloc, "OUT", help::OUT);
    add_arg(add_arg(command, named), placed)
}

/// The command that compresses the nodes that it writes, where that is asked for.
fn add_compressing<'a>(alloc: Global, command: Made<'a>) -> Made<'a>
    ensures { (app : App) → MakesApp command.entry app → MakesApp result (compressing app) }
{
    let flag = make_flag(alloc, "compress", help::COMPRESSING);
    add_arg(command, flag)
}

/// The command that writes as `update` does: uncompressed, and into the rests of begun blocks,
/// where that is asked for.
fn add_updating<'a>(alloc: Global, command: Made<'a>) -> Made<'a>
    ensures { (app : App) → MakesApp command.entry app → MakesApp result (updating app) }
{
    let plain = make_flag(alloc, "plain", help::PLAIN);
    let tail = make_flag(alloc, "tail", help::TAIL);
    add_arg(add_arg(command, plain), tail)
}

fn make_build<'a>(alloc: Global) -> Made<'a>
    ensures { MakesApp result build_app }
{
    let listing = make_word(alloc, "LISTING", help::LISTING);
    let command = make_noting(alloc, "build", help::BUILD, epilogues::BUILD);
    let command = add_placing(alloc, add_compressing(alloc, command));
    add_output(alloc, add_arg(command, listing))
}

fn make_append<'a>(alloc: Global) -> Made<'a>
    ensures { MakesApp result append_app }
{
    let decompress = make_flag(alloc, "decompress", help::DECOMPRESSED);
    let force = make_flag(alloc, "force", help::FORCE);
    let image = make_word(alloc, "IMAGE", help::IMAGE);
    let listing = make_word(alloc, "LISTING", help::LISTING);
    let command = make_noting(alloc, "append", help::APPEND, epilogues::APPEND);
    let command = add_placing(alloc, add_auto(alloc, command));
    let command = add_arg(add_arg(command, decompress), force);
    add_output(alloc, add_arg(add_arg(command, image), listing))
}

fn make_update<'a>(alloc: Global) -> Made<'a>
    ensures { MakesApp result update_app }
{
    let blocks = make_optional(alloc, "blocks", "N", help::BLOCKS);
    let page = make_option(alloc, "page", "N", "4096", help::PAGE);
    let image = make_word(alloc, "IMAGE", help::IMAGE);
    let listing = make_word(alloc, "LISTING", help::LISTING);
    let command = make_reader(alloc, "update", help::UPDATE, epilogues::UPDATE);
    let command = add_arg(add_arg(command, blocks), page);
    let command = add_placing(alloc, add_updating(alloc, command));
    add_output(alloc, add_arg(add_arg(command, image), listing))
}

fn make_decompress<'a>(alloc: Global) -> Made<'a>
    ensures { MakesApp result decompress_app }
{
    let clashes = make_optional(alloc, "clashes", "RULE", help::CLASHES);
    let image = make_word(alloc, "IMAGE", help::IMAGE);
    let command = make_reader(alloc, "decompress", help::DECOMPRESS, epilogues::DECOMPRESS);
    let command = add_replacing(alloc, add_arg(command, clashes));
    add_output(alloc, add_arg(command, image))
}

fn make_compress<'a>(alloc: Global) -> Made<'a>
    ensures { MakesApp result compress_app }
{
    let image = make_word(alloc, "IMAGE", help::IMAGE);
    let command = make_reader(alloc, "compress", help::COMPRESS, epilogues::COMPRESS);
    add_output(alloc, add_arg(add_replacing(alloc, command), image))
}

fn make_compact<'a>(alloc: Global) -> Made<'a>
    ensures { MakesApp result compact_app }
{
    let blocks = make_optional(alloc, "blocks", "N", help::BLOCKS);
    let clashes = make_optional(alloc, "clashes", "RULE", help::CLASHES);
    let force = make_flag(alloc, "force", help::FORCE);
    let image = make_word(alloc, "IMAGE", help::IMAGE);
    let command = make_reader(alloc, "compact", help::COMPACT, epilogues::COMPACT);
    let command = add_placing(alloc, add_arg(add_arg(command, blocks), clashes));
    add_output(alloc, add_arg(add_arg(command, force), image))
}

fn make_extract<'a>(alloc: Global) -> Made<'a>
    ensures { MakesApp result extract_app }
{
    let decompress = make_flag(alloc, "decompress", help::DECOMPRESSED);
    let deleted = make_flag(alloc, "deleted", help::DELETED);
    let owners = make_flag(alloc, "owners", help::OWNERS);
    let quiet = make_flag(alloc, "quiet", help::QUIET);
    let image = make_word(alloc, "IMAGE", help::IMAGE);
    let folder = make_word(alloc, "DIR", help::NEW_FOLDER);
    let path = make_optional_word(alloc, "PATH", help::PART);
    let command = make_reader(alloc, "extract", help::EXTRACT, epilogues::EXTRACT);
    let command = add_arg(add_arg(command, decompress), deleted);
    let command = add_arg(add_arg(command, owners), quiet);
    add_arg(add_arg(add_arg(command, image), folder), path)
}

/// The command with an owner and a time for all that a folder holds.
fn add_settings<'a>(alloc: Global, command: Made<'a>) -> Made<'a>
    ensures { (app : App) → MakesApp command.entry app → MakesApp result (folder_settings app) }
{
    let owner = make_optional_two(alloc, "owner", &["UID", "GID"], help::OWNER);
    let time = make_optional(alloc, "time", "T", help::TIME);
    let quiet = make_flag(alloc, "quiet", help::QUIET);
    add_arg(add_arg(add_arg(command, owner), time), quiet)
}

fn make_listing<'a>(alloc: Global) -> Made<'a>
    ensures { MakesApp result listing_app }
{
    let folder = make_word(alloc, "DIR", help::FOLDER);
    let command = make_named(alloc, "listing", help::LISTING_OF, epilogues::LISTING_OF);
    add_arg(add_settings(alloc, Ok(command)), folder)
}

fn make_info<'a>(alloc: Global) -> Made<'a>
    ensures { MakesApp result info_app }
{
    let image = make_word(alloc, "IMAGE", help::IMAGE);
    let command = make_named(alloc, "info", help::INFO, epilogues::INFO);
    add_arg(add_json(alloc, add_region(alloc, Ok(command))), image)
}

fn make_cuts<'a>(alloc: Global) -> Made<'a>
    ensures { MakesApp result cuts_app }
{
    let blocks = make_optional(alloc, "blocks", "N", help::BLOCKS);
    let page = make_option(alloc, "page", "N", "4096", help::PAGE);
    let on = make_optional(alloc, "on", "IMAGE", help::ON);
    let decompress = make_flag(alloc, "decompress", help::MOUNTED_DECOMPRESSED);
    let update = make_flag(alloc, "update", help::UPDATING);
    let listing = make_word(alloc, "LISTING", help::LISTING);
    let command = make_printer(alloc, "cuts", help::CUTS, epilogues::CUTS);
    let command = add_arg(add_arg(add_arg(command, blocks), page), on);
    let command = add_arg(add_compressing(alloc, command), decompress);
    let command = add_updating(alloc, add_arg(command, update));
    add_arg(command, listing)
}

fn make_diff<'a>(alloc: Global) -> Made<'a>
    ensures { MakesApp result diff_app }
{
    let decompress = make_flag(alloc, "decompress", help::BOTH_DECOMPRESSED);
    let times = make_flag(alloc, "times", help::TIMES);
    let first = make_word(alloc, "A", help::FIRST);
    let second = make_word(alloc, "B", help::SECOND);
    let command = make_printer(alloc, "diff", help::DIFF, epilogues::DIFF);
    let command = add_arg(add_arg(command, decompress), times);
    add_arg(add_arg(command, first), second)
}

fn make_damage<'a>(alloc: Global) -> Made<'a>
    ensures { MakesApp result damage_app }
{
    let decompress = make_flag(alloc, "decompress", help::DECOMPRESSED);
    let image = make_word(alloc, "IMAGE", help::IMAGE);
    let command = make_printer(alloc, "damage", help::DAMAGE, epilogues::DAMAGE);
    add_arg(add_arg(command, decompress), image)
}

fn make_map<'a>(alloc: Global) -> Made<'a>
    ensures { MakesApp result map_app }
{
    let svg = make_flag(alloc, "svg", help::SVG);
    let image = make_word(alloc, "IMAGE", help::IMAGE);
    let command = make_printer(alloc, "map", help::MAP, epilogues::MAP);
    add_arg(add_arg(command, svg), image)
}

fn make_history<'a>(alloc: Global) -> Made<'a>
    ensures { MakesApp result history_app }
{
    let since = make_optional(alloc, "since", "T", help::SINCE);
    let until = make_optional(alloc, "until", "T", help::UNTIL);
    let image = make_word(alloc, "IMAGE", help::IMAGE);
    let path = make_optional_word(alloc, "PATH", help::FORMER);
    let command = make_printer(alloc, "history", help::HISTORY, epilogues::HISTORY);
    let command = add_arg(add_arg(command, since), until);
    add_arg(add_arg(command, image), path)
}

fn make_pack<'a>(alloc: Global) -> Made<'a>
    ensures { MakesApp result pack_app }
{
    let blocks = make_optional(alloc, "blocks", "N", help::BLOCKS);
    let page = make_option(alloc, "page", "N", "4096", help::PAGE);
    let weak = make_flag(alloc, "weak", help::WEAK);
    let folder = make_word(alloc, "DIR", help::FOLDER);
    let command = make_plain(alloc, "pack", help::PACK, epilogues::PACK);
    let command = add_arg(add_arg(add_arg(command, blocks), page), weak);
    let command = add_placing(alloc, add_compressing(alloc, command));
    let command = add_settings(alloc, command);
    add_output(alloc, add_arg(command, folder))
}

fn make_verify<'a>(alloc: Global) -> Made<'a>
    ensures { MakesApp result verify_app }
{
    let times = make_flag(alloc, "times", help::TIMES);
    let image = make_word(alloc, "IMAGE", help::IMAGE);
    let folder = make_word(alloc, "DIR", help::FOLDER);
    let command = make_printer(alloc, "verify", help::VERIFY, epilogues::VERIFY);
    let command = add_settings(alloc, add_arg(command, times));
    add_arg(add_arg(command, image), folder)
}

/// The program without its subcommands.
fn make_bare<'a>(alloc: Global) -> Command<'a>
    ensures { IsApp result bare }
{
    make_named(alloc, "jffs2_image", help::PROGRAM, epilogues::PROGRAM)
        .version(VERSION)
        .subcommand_required(true)
}

/// The program's command line.
pub(crate) fn make_program<'a>(alloc: Global) -> Made<'a>
    ensures { MakesApp result program }
{
    let command = add_subcommand(Ok(make_bare(alloc)), make_check(alloc));
    let command = add_subcommand(command, make_ls(alloc));
    let command = add_subcommand(command, make_cat(alloc));
    let command = add_subcommand(command, make_build(alloc));
    let command = add_subcommand(command, make_append(alloc));
    let command = add_subcommand(command, make_update(alloc));
    let command = add_subcommand(command, make_decompress(alloc));
    let command = add_subcommand(command, make_compress(alloc));
    let command = add_subcommand(command, make_compact(alloc));
    let command = add_subcommand(command, make_extract(alloc));
    let command = add_subcommand(command, make_listing(alloc));
    let command = add_subcommand(command, make_info(alloc));
    let command = add_subcommand(command, make_cuts(alloc));
    let command = add_subcommand(command, make_diff(alloc));
    let command = add_subcommand(command, make_damage(alloc));
    let command = add_subcommand(command, make_map(alloc));
    let command = add_subcommand(command, make_history(alloc));
    let command = add_subcommand(command, make_pack(alloc));
    add_subcommand(command, make_verify(alloc))
}
