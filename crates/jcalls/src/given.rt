//! Files in memory of the caller, that a listing names.

ghost use Rattle.std.specs.Prelude.{◌≡◌, ◌+◌, nat_le, IsFalse, IsTrue, OnOk, IfErr, length};
ghost use Rattle.jcalls.specs.Files as files;
ghost use Rattle.jcalls.specs.Files.{AreWithin, RowsRefused, bytes_in_row, is_row_within, name_in};
ghost use Rattle.jcalls.specs.Shown.{IsDueFault};

use crate::told::{Told, row_told};

/// A file: where its name and its bytes are among the bytes of all files.
#[repr(C)]
#[derive(Clone, Copy)]
pub struct FileRow {
    pub name_at: u64,
    pub name_len: u64,
    pub at: u64,
    pub length: u64,
}

/// The names and the bytes of files, and where each has its own.
#[derive(Clone, Copy)]
pub struct Files<'a> {
    pub bytes: &'a [u8],
    pub rows: &'a [FileRow],
}

/// Whether so many bytes from a place on are within so many.
fn fits(length: usize, at: u64, count: u64) -> bool
    ensures { result ≡ nat_le (at + count) length }
{
    let length = length as u64;
    at <= length && count <= length - at
}

/// Whether a name and the bytes of its file are within so many bytes.
fn is_row_within(length: usize, row: FileRow) -> bool
    ensures { result ≡ is_row_within length row }
{
    fits(length, row.name_at, row.name_len) && fits(length, row.at, row.length)
}

/// Whether all are.
pub(crate) fn judge_rows(length: usize, rows: &[FileRow]) -> Result<(), Told>
    ensures ok { OnOk result (AreWithin length rows.now) }
    ensures err { IfErr result (IsDueFault (RowsRefused length rows.now)) }
{
    for i in 0..rows.len() {
        if !is_row_within(length, rows[i]) {
            return Err(row_told(i));
        }
    }
    Ok(())
}

/// The name of a file.
pub(crate) fn name_in(bytes: &[u8], row: FileRow) -> &[u8]
    requires { IsTrue (files.is_row_within (length bytes.now) row) }
    ensures { result.now ≡ name_in bytes.now row }
{
    &bytes[row.name_at as usize..][..row.name_len as usize]
}

/// Its bytes.
pub(crate) fn bytes_in_row(bytes: &[u8], row: FileRow) -> &[u8]
    requires { IsTrue (files.is_row_within (length bytes.now) row) }
    ensures { result.now ≡ bytes_in_row bytes.now row }
{
    &bytes[row.at as usize..][..row.length as usize]
}
