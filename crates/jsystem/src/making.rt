//! A file of the system that is made: in its place, or beside the one of its name, which it takes
//! when all is written (`--atomic`).
ghost use Rattle.std.specs.Prelude.{◌≡◌, true, IfErr, IfOk, string_bytes};
ghost use Rattle.std.specs.Fs.{new_options, with_create, with_truncate, with_write};
ghost use Rattle.jmakes.specs.Making.{InPlace, wanted_file};
ghost use Rattle.jsystem.specs.Places.{EndsBy, IsAside, IsNameless, IsWantedPlace, closed_by, file_place};

use crate::replacing::{
    create_beside, known_now, open_in_place, remove, rename_open, sync_folder, take_after,
};
use jmakes::host::Opened;
use jmakes::wanted::{CloseFault, Wanted};
use jreport::Reason;
use std::alloc::AllocError;
use std::fs::{File, Metadata, OpenOptions};
use std::{fs, io};

/// A file that was opened, to be made.
#[derive(Drop)]
pub struct NewFile {
    /// The name of the file that is written, or that the new one takes.
    target: String,
    /// The regular file that was found under that name.
    found: Option<Metadata>,
    /// The name that the new one has until then, if there is one.
    beside: Option<String>,
}

impl Opened for NewFile {
    ghost place = { λ file. file_place file.target file.beside };
}

/// A file that is written in its place.
fn in_place(target: String) -> NewFile
    ensures { ⟦<NewFile as Opened>⟧.place result ≡ InPlace (string_bytes target) }
{
    NewFile {
        target,
        found: None,
        beside: None,
    }
}

/// How the file of a name is opened that is written in its place: it is made, or cut off.
fn written_over() -> OpenOptions
    ensures { result ≡ with_truncate (with_create (with_write new_options true) true) true }
{
    let mut how = OpenOptions::new();
    how.write(true).create(true).truncate(true);
    how
}

/// Opens the file of a name, which is made, or cut off.
fn open_over(rt: &HostRuntime, name: &str) -> io::Result<(File, NewFile)>
    ensures { IfOk result (λ made. ⟦<NewFile as Opened>⟧.place made.1 ≡ InPlace name.now) }
{
    let target = name.to_string(rt.alloc())?;
    let file = written_over().open(rt, name)?;
    Ok((file, in_place(target)))
}

/// The file that a name means: that to which a symbolic link leads, if it leads anywhere.
fn meant_by(rt: &HostRuntime, name: &str) -> Result<String, AllocError> {
    let is_link = match fs::symlink_metadata(rt, name) {
        Ok(known) => known.is_symlink(),
        Err(_) => false,
    };
    if is_link {
        if let Ok(path) = fs::canonicalize(rt, name) {
            return Ok(path.into_string());
        }
    }
    name.to_string(rt.alloc())
}

/// Whether something is there that is no regular file.
fn is_special(found: &Option<Metadata>) -> bool {
    match found {
        Some(known) => !known.is_file(),
        None => false,
    }
}

/// Opens the file that is written for a name: a new one, or what is there and is no regular file.
fn open_aside(rt: &HostRuntime, name: &str) -> io::Result<(File, NewFile)>
    ensures { IfOk result (λ made. IsAside (⟦<NewFile as Opened>⟧.place made.1)) }
{
    let target = meant_by(rt, name)?;
    let found = fs::metadata(rt, target.as_str()).ok();
    if is_special(&found) {
        let file = open_in_place(rt, target.as_str())?;
        return Ok((file, in_place(target)));
    }
    let (file, beside) = create_beside(rt, target.as_str(), found.is_some())?;
    let made = NewFile {
        target,
        found,
        beside: Some(beside),
    };
    Ok((file, made))
}

/// Opens a file that is wanted.
pub(crate) fn open_wanted(rt: &HostRuntime, wanted: Wanted<'_>) -> io::Result<(File, NewFile)>
    ensures { IfOk result (λ made.
        IsWantedPlace (wanted_file wanted.entry) (⟦<NewFile as Opened>⟧.place made.1)) }
{
    if wanted.atomic {
        open_aside(rt, wanted.name)
    } else {
        open_over(rt, wanted.name)
    }
}

/// Gives a new file that is complete its name.
fn take_name(
    rt: &HostRuntime,
    file: &File,
    beside: &str,
    target: &str,
    found: Option<Metadata>,
) -> io::Result<()> {
    if let Some(found) = found {
        take_after(file, &known_now(rt, target, found));
    }
    rename_open(rt, file, beside, target)?;
    // The file is there, so this is no fault.
    let _ = sync_folder(rt, target);
    Ok(())
}

/// The same; or it is removed.
fn take_name_or_go(
    rt: &HostRuntime,
    file: &File,
    beside: &str,
    target: &str,
    found: Option<Metadata>,
) -> Result<(), CloseFault>
    ensures { IfErr result IsNameless }
{
    match take_name(rt, file, beside, target, found) {
        Ok(()) => Ok(()),
        Err(error) => {
            remove(rt, beside);
            Err(CloseFault::NotNamed(Reason::of(&error)))
        }
    }
}

/// How a file ends that takes no other name, by whether all of it was written.
fn closed_by(written: Result<(), Reason>) -> Result<(), CloseFault>
    ensures { result ≡ closed_by written }
{
    match written {
        Ok(()) => Ok(()),
        Err(reason) => Err(CloseFault::NotWritten(reason)),
    }
}

impl NewFile {
    /// Removes it if it is a new one.
    pub(crate) fn give_up(self, rt: &HostRuntime) {
        if let Some(beside) = &self.beside {
            remove(rt, beside.as_str());
        }
    }

    /// Ends the file, which is open still, by whether all of it was written. A new one takes its
    /// name if all went `well`, and else is removed.
    pub(crate) fn end(
        self,
        rt: &HostRuntime,
        file: &File,
        written: Result<(), Reason>,
        well: bool,
    ) -> Result<(), CloseFault>
        ensures { EndsBy (⟦<NewFile as Opened>⟧.place self) well written result }
    {
        let NewFile {
            target,
            found,
            beside,
        } = self;
        let Some(beside) = beside else {
            return closed_by(written);
        };
        if well && written.is_ok() {
            return take_name_or_go(rt, file, beside.as_str(), target.as_str(), found);
        }
        remove(rt, beside.as_str());
        closed_by(written)
    }
}
