//! Laws of the commands. Each function's contract is a law, and its body is empty.
ghost use Rattle.jffs2_image.specs.RunLaws.{AtomicCommandsLeaveFiles, AutoDoesAsGiven, PrintingMakesNothing};

/// With `--atomic`, a fault of a command that makes a file leaves the files of the host as they
/// were. But the fault of standard output comes when the file has its name.
pub fn atomic_commands_leave_files()
    ensures { AtomicCommandsLeaveFiles }
{}

/// With `--auto` a command does exactly what it does with the options that are found in its image.
pub fn auto_does_as_given()
    ensures { AutoDoesAsGiven }
{}

/// A command that only prints makes nothing and changes no file, whatever it answers. Nor do words
/// that ask for no command.
pub fn printing_makes_nothing()
    ensures { PrintingMakesNothing }
{}
