//! The program on its words: they ask for something, and the host does it.
ghost use Rattle.std.specs.Prelude.{◌≡◌, Ok, map, option_map};
ghost use Rattle.jauto.specs.Looking.{auto_act};
ghost use Rattle.jcommand.specs.Parsed.{command_view};
ghost use Rattle.jcommand.specs.Requests.{file_made, image_read, images_read, request_view, with_options, writes_image};
ghost use Rattle.jedge.specs.Acts.{DoesFrom, Then};
ghost use Rattle.jedge.specs.Commands.{reported};
ghost use Rattle.jedge.specs.Streams.{reads_region};
ghost use Rattle.jffs2_image.specs.Running.{command_act, found_act, image_left, image_looked, json_act, lines_asked, keeps_file, keeps_named, MayReplace, printed_lines, read_act, region_act, request_act, run_act};

use crate::commands::run_command;
use crate::words::answer_refused;
use byteorder::{BigEndian, LittleEndian};
use jauto::{leave_found, look};
use jcommand::{Command, Outcome, Request, asked};
use jedge::fault::Fault;
use jedge::host::Host;
use jedge::reporting::report;
use jedge::streams_host::StreamsHost;
use jfolders::host::FolderHost;
use jjson::Lines;
use jmakes::host::FileHost;
use jnode::Endian;
use jreads::files_host::FilesHost;
use jreads::stream_host::StreamHost;
use jreport::{ImageFault, ProgramFault};
use jspare::Region;

/// Runs a command in its byte order.
fn run_given<H: FileHost + FilesHost + StreamHost + FolderHost>(
    host: &mut H,
    command: Command<&str>,
) -> Outcome
    ensures { DoesFrom (H.history host.old) (H.history host.new)
        (reported (command_act (command_view command.entry))) (Ok result) }
{
    match command.endian() {
        Endian::Little => run_command::<LittleEndian, H>(host, command),
        Endian::Big => run_command::<BigEndian, H>(host, command),
    }
}

/// Runs a command with the options that are found in the image of a name.
fn run_found<H: FileHost + FilesHost + StreamHost + FolderHost>(
    host: &mut H,
    command: Command<&str>,
    image: &str,
) -> Outcome
    ensures { DoesFrom (H.history host.old) (H.history host.new)
        (reported (auto_act (writes_image (command_view command.entry)) image.now
        (λ options. command_act (with_options options (command_view command.entry)))))
        (Ok result) }
{
    match look(host, image, command.writes_image()) {
        Ok(options) => run_given(host, command.with_options(options)),
        Err(fault) => report(host, Err(fault)),
    }
}

/// The image that options are found in, with `--auto`.
fn image_looked<'a>(request: &Request<&'a str>) -> Option<&'a str>
    ensures { option_map (λ n. n.now) result ≡ image_looked (request_view request.now) }
{
    if request.auto {
        request.command.image()
    } else {
        None
    }
}

/// Runs a command, with the options that it is given or with those that are found in its image.
fn run_looked<H: FileHost + FilesHost + StreamHost + FolderHost>(
    host: &mut H,
    request: Request<&str>,
) -> Outcome
    ensures { DoesFrom (H.history host.old) (H.history host.new)
        (reported (found_act (image_looked (request_view request.entry))
        (command_view request.entry.command))) (Ok result) }
{
    match image_looked(&request) {
        Some(image) => run_found(host, request.command, image),
        None => run_given(host, request.command),
    }
}

/// Refuses to replace the file that is read in part.
fn may_replace(over: bool) -> Result<(), Fault>
    ensures { MayReplace over result }
{
    if over {
        Err(Fault::Refused(ProgramFault::Image(ImageFault::Part)))
    } else {
        Ok(())
    }
}

/// The same, if this is the file that is made.
fn keep_file<H: FileHost>(host: &mut H, read: &str, made: &str) -> Result<(), Fault>
    ensures { DoesFrom (H.history host.old) (H.history host.new)
        (keeps_named read.now made.now) result }
{
    let over = host.is_one_file(read, made);
    may_replace(over)
}

/// The same of the image and the file of a command, if it has both.
fn keep_given<H: FileHost>(host: &mut H, command: &Command<&str>) -> Result<(), Fault>
    ensures { DoesFrom (H.history host.old) (H.history host.new)
        (keeps_file (image_read (command_view command.now))
        (file_made (command_view command.now))) result }
{
    match command.image() {
        Some(read) => match command.file_made() {
            Some(made) => keep_file(host, read, made),
            None => Ok(()),
        },
        None => Ok(()),
    }
}

/// Of the images of a command this part is read from here on.
fn read_images<H: StreamsHost>(
    host: &mut H,
    region: Region,
    command: &Command<&str>,
) -> Result<(), Fault>
    ensures { DoesFrom (H.history host.old) (H.history host.new)
        (reads_region region (images_read (command_view command.now))) result }
{
    match command.images(host.alloc()) {
        Ok(images) => host.read_region(region, images.as_slice()),
        Err(_) => Err(Fault::OutOfMemory),
    }
}

/// The same, if the command replaces none of their files.
fn read_given<H: FileHost + StreamsHost>(
    host: &mut H,
    region: Region,
    command: &Command<&str>,
) -> Result<(), Fault>
    ensures { DoesFrom (H.history host.old) (H.history host.new)
        (Then (keeps_file (image_read (command_view command.now))
        (file_made (command_view command.now)))
        (λ _. reads_region region (images_read (command_view command.now)))) result }
{
    match keep_given(host, command) {
        Ok(()) => read_images(host, region, command),
        Err(fault) => Err(fault),
    }
}

/// The image whose spare bytes are looked for, with `--auto`. None if an image is written: that may
/// be the same file, and what is left out would be lost.
fn image_left<'a>(request: &Request<&'a str>) -> Option<&'a str>
    ensures { option_map (λ n. n.now) result ≡ image_left (request_view request.now) }
{
    if request.command.writes_image() {
        None
    } else {
        image_looked(request)
    }
}

/// Reads the part that is given, or the pages of a dump that is found with `--auto`.
fn read_part<H: FileHost + StreamsHost>(host: &mut H, request: &Request<&str>) -> Result<(), Fault>
    ensures { DoesFrom (H.history host.old) (H.history host.new)
        (region_act request.now.region (image_left (request_view request.now))
        (command_view request.now.command)) result }
{
    match request.region {
        Some(region) => read_given(host, region, &request.command),
        None => match image_left(request) {
            Some(image) => leave_found(host, image),
            None => Ok(()),
        },
    }
}

/// What the lines are that a command prints, if they have a form in JSON.
fn printed_lines(command: &Command<&str>) -> Option<Lines>
    ensures { result ≡ printed_lines (command_view command.now) }
{
    match command {
        Command::Scan(_) | Command::Check(_) | Command::CheckThrough(_) => Some(Lines::Report),
        Command::List(_) => Some(Lines::Tree),
        Command::Info { .. } => Some(Lines::Parameters),
        Command::Diff(_) | Command::Verify(_) => Some(Lines::Differences),
        Command::Damage(_) => Some(Lines::Damage),
        Command::Map(_) => Some(Lines::Map),
        Command::History(_) => Some(Lines::History),
        Command::Cuts(_) | Command::CutsThrough(_) | Command::CutsUpdate(_) => Some(Lines::Cuts),
        _ => None,
    }
}

fn lines_asked(request: &Request<&str>) -> Option<Lines>
    ensures { result ≡ lines_asked (request_view request.now) }
{
    if request.json {
        printed_lines(&request.command)
    } else {
        None
    }
}

/// Lines go out as JSON from here on, if that is asked for.
fn print_json<H: StreamsHost>(host: &mut H, lines: Option<Lines>)
    ensures { DoesFrom (H.history host.old) (H.history host.new) (json_act lines) (Ok result) }
{
    match lines {
        Some(lines) => host.print_json(lines),
        None => {}
    }
}

/// Runs a command on the parts of files that are its images.
fn run_read<H: FileHost + FilesHost + StreamHost + FolderHost + StreamsHost>(
    host: &mut H,
    request: Request<&str>,
) -> Outcome
    ensures { DoesFrom (H.history host.old) (H.history host.new)
        (reported (read_act (request_view request.entry))) (Ok result) }
{
    match read_part(host, &request) {
        Ok(()) => run_looked(host, request),
        Err(fault) => report(host, Err(fault)),
    }
}

/// Runs a command, and its lines go out in the form that is asked for.
fn run_request<H: FileHost + FilesHost + StreamHost + FolderHost + StreamsHost>(
    host: &mut H,
    request: Request<&str>,
) -> Outcome
    ensures { DoesFrom (H.history host.old) (H.history host.new)
        (reported (request_act (request_view request.entry))) (Ok result) }
{
    print_json(host, lines_asked(&request));
    run_read(host, request)
}

/// Runs the program on its words, of which the first is its own name.
pub fn run<H: FileHost + FilesHost + StreamHost + FolderHost + StreamsHost>(
    host: &mut H,
    args: &[&str],
) -> Outcome
    ensures { DoesFrom (H.history host.old) (H.history host.new)
        (run_act (map (λ w. w.now) args.now)) (Ok result) }
{
    match asked(host.alloc(), args) {
        Ok(request) => run_request(host, request),
        Err(fault) => answer_refused(host, fault),
    }
}
