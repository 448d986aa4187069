//! The request that a command line makes.
ghost use Rattle.std.specs.Prelude.{◌≡◌, ◌≢◌, ◌⊎◌, [], true, false, map, IfOk, IfErr, IsSome, OnOk, Some, option_map};
ghost use Rattle.clap.specs.Words.{HasKind, fault_of, kind_of, subcommand_of, subcommand_rows_of, takes};
ghost use Rattle.jcommand.specs.Commands.{program};
ghost use Rattle.jcommand.specs.Parsed.{are_words_taken, IsFaultless, IsHelpRequested, IsHelpKind, IsRefusedByClap};
ghost use Rattle.jcommand.specs.Requests.{request_by, request_from, request_view, IsUnreadable};
ghost use Rattle.jcommand.specs.Refused.{IsHelp, IsUsage};
ghost use Rattle.jcommand.specs.declared.command_line.RequestFault.TheVariants.{OutOfMemory};

use crate::commands::make_program;
use crate::matching::{
    apart, are_options_given, endian, is_given, is_on_path, is_path_beside_deleted,
    is_region_given, number, order_at, owner_number, page, parsed_of, request_at, size_at, text_at,
    texts_at,
};
use crate::region::{layout, length};
use crate::request::Request;
use crate::sizes::size;
use clap::error::ErrorKind;
use clap::{ArgMatches, Error};
use std::alloc::{AllocError, Global};

/// Why a command line makes no request. Each text ends with one line feed.
#[derive(Drop)]
pub enum RequestFault {
    /// It asks for help, or for the version.
    Help { text: String },
    /// It is wrong.
    Usage { text: String },
    OutOfMemory,
}

impl From<AllocError> for RequestFault {
    ghost from_gives = { λ _ e. e ≡ OutOfMemory };

    fn from(_e: AllocError) -> RequestFault {
        RequestFault::OutOfMemory
    }
}

/// What a wrong command line is answered.
fn usage(text: Result<String, AllocError>) -> RequestFault
    ensures { (result ≡ RequestFault.OutOfMemory) ⊎ IsUsage result }
{
    match text {
        Ok(text) => RequestFault::Usage { text },
        Err(AllocError) => RequestFault::OutOfMemory,
    }
}

/// The fault that clap's error is.
fn fault_of_error(alloc: Global, error: &Error) -> RequestFault
    ensures memory { kind_of error.now ≡ ErrorKind.OutOfMemory → result ≡ RequestFault.OutOfMemory }
    ensures help { IsHelp result → IsHelpKind (kind_of error.now) }
    ensures usage { IsUsage result → (kind_of error.now ≢ ErrorKind.DisplayHelp)
        × (kind_of error.now ≢ ErrorKind.DisplayVersion)
        × (kind_of error.now ≢ ErrorKind.OutOfMemory) }
{
    let text = match error.kind() {
        ErrorKind::OutOfMemory => return RequestFault::OutOfMemory,
        _ => format!(in alloc; "{error}"),
    };
    match error.kind() {
        ErrorKind::DisplayHelp | ErrorKind::DisplayVersion => match text {
            Ok(text) => RequestFault::Help { text },
            Err(AllocError) => RequestFault::OutOfMemory,
        },
        _ => usage(text),
    }
}

/// Clap's matches of the words.
fn matched<'a>(alloc: Global, args: &'a [&'a str]) -> Result<ArgMatches<'a>, RequestFault>
    ensures ok { IfOk result
        (λ m. subcommand_rows_of m ≡ subcommand_of program (map (λ w. w.now) args.entry.now)) }
    ensures not_refused { OnOk result (fault_of program (map (λ w. w.now) args.entry.now) ≡ []) }
    ensures taken { IfErr result
        (λ e. takes program (map (λ w. w.now) args.entry.now) ≡ true
        → e ≡ RequestFault.OutOfMemory) }
    ensures help { IfErr result
        (λ e. IsHelp e → IsHelpRequested (map (λ w. w.now) args.entry.now)) }
    ensures usage { IfErr result
        (λ e. IsUsage e → IsRefusedByClap (map (λ w. w.now) args.entry.now)) }
{
    let command = make_program(alloc)?;
    match command.try_get_matches_from(args) {
        Ok(matches) => Ok(matches),
        Err(error) => Err(fault_of_error(alloc, &error)),
    }
}

fn requested_in<'a>(matches: &ArgMatches<'a>) -> Option<Request<&'a str>>
    ensures { option_map request_view result ≡ request_by (subcommand_rows_of matches.now) }
{
    let (name, found) = matches.subcommand()?;
    let command = parsed_of(name, found)?;
    request_at(command, found)
}

/// Why words that clap takes ask for nothing.
#[derive(Clone, Copy)]
enum Objection<'a> {
    /// A value of an option can't be read, where this is wanted.
    Value {
        value: &'a str,
        option: &'a str,
        wanted: &'a str,
    },
    /// Two options do not go together.
    Conflict(&'a str, &'a str),
    /// An option has to be there.
    Missing(&'a str),
}

/// Of a subcommand that reads a folder, the first value that can't be read.
fn setting_objection<'a>(found: &ArgMatches<'a>) -> Objection<'a> {
    for value in texts_at(found, "owner").unwrap_or(&[]) {
        if owner_number(value).is_none() {
            return Objection::Value {
                value,
                option: "--owner <UID> <GID>",
                wanted: "two numbers in decimal digits, below 65536",
            };
        }
    }
    Objection::Value {
        value: text_at(found, "time").unwrap_or(""),
        option: "--time <T>",
        wanted: "a number of seconds in decimal digits, below 4294967296",
    }
}

/// A byte order that can't be read, or one that is given twice.
fn order_objection<'a>(found: &ArgMatches<'a>) -> Objection<'a> {
    match text_at(found, "endian") {
        Some(order) if endian(order).is_none() => Objection::Value {
            value: order,
            option: "--endian <ORDER>",
            wanted: "little or big",
        },
        Some(_) if is_given(found, "little-endian") => {
            Objection::Conflict("--endian <ORDER>", "--little-endian")
        }
        Some(_) => Objection::Conflict("--endian <ORDER>", "--big-endian"),
        None => Objection::Conflict("--little-endian", "--big-endian"),
    }
}

/// An option that `--auto` finds, or that there is no image to find it in, or one read only once.
fn auto_objection<'a>(name: &str, found: &ArgMatches<'a>) -> Objection<'a> {
    if text_at(found, "block").is_some() {
        return Objection::Conflict("--auto", "--block <N>");
    }
    if text_at(found, "endian").is_some() {
        return Objection::Conflict("--auto", "--endian <ORDER>");
    }
    if is_given(found, "little-endian") {
        return Objection::Conflict("--auto", "--little-endian");
    }
    if is_given(found, "big-endian") {
        return Objection::Conflict("--auto", "--big-endian");
    }
    if is_given(found, "decompress") {
        return Objection::Conflict("--auto", "--decompress");
    }
    match image_named(name, found) {
        Some(_) => Objection::Conflict("--auto", "-"),
        None => Objection::Missing("--on <IMAGE>"),
    }
}

/// Of `cuts`, the first options that do not go together, or one that has to be there.
fn cuts_objection<'a>(found: &ArgMatches<'a>) -> Option<Objection<'a>> {
    match is_given(found, "update") {
        true if is_given(found, "compress") => {
            Some(Objection::Conflict("--update", "--compress"))
        }
        true if is_given(found, "decompress") => {
            Some(Objection::Conflict("--update", "--decompress"))
        }
        true if text_at(found, "on").is_none() => Some(Objection::Missing("--on <IMAGE>")),
        false if is_given(found, "plain") || is_given(found, "tail") => {
            Some(Objection::Missing("--update"))
        }
        false if text_at(found, "blocks").is_none() => Some(Objection::Missing("--blocks <N>")),
        _ => None,
    }
}

/// Whether a subcommand writes a file.
fn writes_file(name: &str) -> bool {
    matches!(
        name,
        "build" | "append" | "update" | "decompress" | "compress" | "compact" | "pack"
    )
}

/// Of a subcommand that writes a file, one that is named twice, or not at all.
fn output_objection<'a>(name: &str, found: &ArgMatches<'a>) -> Option<Objection<'a>> {
    if !writes_file(name) {
        return None;
    }
    match (text_at(found, "OUT"), text_at(found, "output")) {
        (Some(_), Some(_)) => Some(Objection::Conflict("--output <FILE>", "[OUT]")),
        (None, None) => Some(Objection::Missing("<OUT>")),
        _ => None,
    }
}

/// The first value that can't be read.
fn value_objection<'a>(found: &ArgMatches<'a>) -> Objection<'a> {
    if size_at(found).is_none() {
        return Objection::Value {
            value: text_at(found, "block").unwrap_or(""),
            option: "--block <N>",
            wanted: "a number of bytes below 4294967296, as 131072, 0x20000 or 128KiB",
        };
    }
    if order_at(found).is_none() {
        return order_objection(found);
    }
    let rule = text_at(found, "clashes");
    if apart(rule).is_none() {
        return Objection::Value {
            value: rule.unwrap_or(""),
            option: "--clashes <RULE>",
            wanted: "higher",
        };
    }
    let blocks = text_at(found, "blocks").unwrap_or("0");
    if number(blocks).is_none() {
        return Objection::Value {
            value: blocks,
            option: "--blocks <N>",
            wanted: "a number of blocks in decimal digits, below 4294967296",
        };
    }
    let size = text_at(found, "page").unwrap_or("4096");
    if page(size).is_none() {
        return Objection::Value {
            value: size,
            option: "--page <N>",
            wanted: "4096, 8192 or 16384",
        };
    }
    setting_objection(found)
}

/// The image that a subcommand reads, and of two the first.
fn image_named<'a>(name: &str, found: &ArgMatches<'a>) -> Option<&'a str> {
    match name {
        "cuts" => text_at(found, "on"),
        "diff" => text_at(found, "A"),
        _ => text_at(found, "IMAGE"),
    }
}

/// What is wrong with the words of `cat`, if anything is.
fn content_objection<'a>(found: &ArgMatches<'a>) -> Option<Objection<'a>> {
    if is_on_path(found) {
        return match text_at(found, "PATH") {
            Some(_) => None,
            None => Some(Objection::Missing("<PATH>")),
        };
    }
    if text_at(found, "PATH").is_some() {
        return Some(Objection::Conflict("--ino <I>", "<PATH>"));
    }
    if is_given(found, "decompress") {
        return Some(Objection::Conflict("--ino <I>", "--decompress"));
    }
    if is_given(found, "strict") {
        return Some(Objection::Conflict("--ino <I>", "--strict"));
    }
    let Some(ino) = text_at(found, "ino") else {
        return Some(Objection::Missing("--ino <I>"));
    };
    let (value, option) = if number(ino).is_none() {
        (ino, "--ino <I>")
    } else {
        (text_at(found, "upto").unwrap_or("0"), "--upto <V>")
    };
    match number(value) {
        Some(_) => None,
        None => Some(Objection::Value {
            value,
            option,
            wanted: "a number in decimal digits, below 4294967296",
        }),
    }
}

/// What is wrong with the times of `history`, if one can't be read.
fn period_objection<'a>(found: &ArgMatches<'a>) -> Option<Objection<'a>> {
    let since = text_at(found, "since").unwrap_or("0");
    let (value, option) = if number(since).is_none() {
        (since, "--since <T>")
    } else {
        (text_at(found, "until").unwrap_or("0"), "--until <T>")
    };
    match number(value) {
        Some(_) => None,
        None => Some(Objection::Value {
            value,
            option,
            wanted: "a number of seconds in decimal digits, below 4294967296",
        }),
    }
}

/// What is wrong with the words of a subcommand that only it has, if anything is.
fn own_objection<'a>(name: &str, found: &ArgMatches<'a>) -> Option<Objection<'a>> {
    match name {
        "cuts" => cuts_objection(found),
        "cat" => content_objection(found),
        "history" => period_objection(found),
        "extract" if is_path_beside_deleted(found) => {
            Some(Objection::Conflict("--deleted", "[PATH]"))
        }
        _ => None,
    }
}

/// What is wrong with the value of an option of the part of a file, if it can't be read.
fn part_objection<'a>(found: &ArgMatches<'a>) -> Option<Objection<'a>> {
    match text_at(found, "oob") {
        Some(value) if layout(value).is_none() => {
            return Some(Objection::Value {
                value,
                option: "--oob <P+S>",
                wanted: "bytes of a page and spare ones behind it, up to 65536 of each, as 2048+64",
            });
        }
        _ => {}
    }
    match text_at(found, "offset") {
        Some(value) if size(value).is_none() => {
            return Some(Objection::Value {
                value,
                option: "--offset <A>",
                wanted: "a number of bytes below 4 GiB, as 524288, 0x80000 or 512KiB",
            });
        }
        _ => {}
    }
    match text_at(found, "length") {
        Some(value) if length(value).is_none() => Some(Objection::Value {
            value,
            option: "--length <N>",
            wanted: "a number of bytes above 0 and below 4 GiB, as 4194304, 0x400000 or 4MiB",
        }),
        _ => None,
    }
}

/// A part of a file that can't be read, or that there is no image for.
fn region_objection<'a>(name: &str, found: &ArgMatches<'a>) -> Option<Objection<'a>> {
    match part_objection(found) {
        Some(objection) => Some(objection),
        None if is_region_given(found) && name == "cuts" && text_at(found, "on").is_none() => {
            Some(Objection::Missing("--on <IMAGE>"))
        }
        None => None,
    }
}

/// Whether no image is read, or one that can be read only once.
fn is_alone(name: &str, found: &ArgMatches<'_>) -> bool {
    matches!(image_named(name, found), None | Some("-"))
}

/// Why the words of a subcommand ask for nothing.
fn objection_to<'a>(name: &str, found: &ArgMatches<'a>) -> Objection<'a> {
    if name == "listing" {
        return setting_objection(found);
    }
    if is_given(found, "auto") && (is_alone(name, found) || are_options_given(found)) {
        return auto_objection(name, found);
    }
    if let Some(objection) = own_objection(name, found) {
        return objection;
    }
    if let Some(objection) = output_objection(name, found) {
        return objection;
    }
    if is_given(found, "compress") && is_given(found, "weak") {
        return Objection::Conflict("--compress", "--weak");
    }
    if is_given(found, "json") && is_given(found, "svg") {
        return Objection::Conflict("--json", "--svg");
    }
    match region_objection(name, found) {
        Some(objection) => objection,
        None => value_objection(found),
    }
}

/// The text that answers them.
fn objection_text(
    alloc: Global,
    name: &str,
    objection: &Objection<'_>,
) -> Result<String, AllocError> {
    let said = match objection {
        Objection::Value {
            value,
            option,
            wanted,
        } => format!(in alloc; "invalid value '{value}' for '{option}': wanted {wanted}"),
        Objection::Conflict(first, second) => {
            format!(in alloc; "the argument '{first}' cannot be used with '{second}'")
        }
        Objection::Missing(option) => {
            format!(in alloc; "the following required arguments were not provided:\n  {option}")
        }
    };
    let said = said?;
    format!(in alloc;
        "error: {said}\n\n\
         For more information, try 'jffs2_image {name} --help'.\n"
    )
}

/// The text about words that clap takes, and that ask for nothing.
fn unreadable(alloc: Global, matches: &ArgMatches<'_>) -> Result<String, AllocError> {
    let Some((name, found)) = matches.subcommand() else {
        return String::from_str(alloc, "error: no subcommand; try '--help'\n");
    };
    objection_text(alloc, name, &objection_to(name, found))
}

/// What the words of a command line ask for. The first word is the program's own name.
#[tactic(auto, unfolding(crate::specs::Requests::request_from, crate::specs::Parsed::are_words_taken, crate::specs::Parsed::IsFaultless, crate::specs::Requests::IsUnreadable))]
pub fn asked<'a>(alloc: Global, args: &'a [&'a str]) -> Result<Request<&'a str>, RequestFault>
    // The subcommand and its values are clap's own function of the words.
    ensures ok { IfOk result
        (λ r. request_from (map (λ w. w.now) args.entry.now) ≡ Some (request_view r)) }

    // Words that clap refuses, or answers by help, ask for nothing.
    ensures faultless { OnOk result (IsFaultless (map (λ w. w.now) args.entry.now)) }

    // Where clap takes the words and every value can be read, it can only run out of memory.
    ensures only { are_words_taken (map (λ w. w.now) args.entry.now) ≡ true
        → IsSome (request_from (map (λ w. w.now) args.entry.now))
        → IfErr result (λ e. e ≡ RequestFault.OutOfMemory) }

    // Help comes only where clap answers the words by help, or by the version.
    ensures help { IfErr result
        (λ e. IsHelp e → IsHelpRequested (map (λ w. w.now) args.entry.now)) }

    // A command line is wrong only where clap refuses the words, or takes them and a value can't be
    // read, or `--auto` says nothing there.
    ensures usage { IfErr result (λ e. IsUsage e → IsRefusedByClap (map (λ w. w.now) args.entry.now)
        ⊎ IsUnreadable (map (λ w. w.now) args.entry.now)) }
{
    let matches = matched(alloc, args)?;
    match requested_in(&matches) {
        Some(request) => Ok(request),
        None => Err(usage(unreadable(alloc, &matches))),
    }
}
