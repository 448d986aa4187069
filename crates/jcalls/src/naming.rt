//! All names of an image, as rows.

ghost use Rattle.std.specs.Prelude.{◌≡◌, ◌≢◌, ◌⊎◌, ◌++◌, ◌∷◌, [], ℕ, IfOk, IfErr, OnOk, length};
ghost use Rattle.jmount.specs.Tree.{State};
ghost use Rattle.jcalls.specs.Looking.{GivesTree, NeedsForTree};
ghost use Rattle.jcalls.specs.Rows as rows;
ghost use Rattle.jcalls.specs.Rows.{tree_rows, tree_names};
ghost use Rattle.jcalls.specs.Shown.{Shows, ShowsNone, IsDueFault};
ghost use Rattle.jcalls.specs.Told.{told_by};

use crate::giving::{give_bytes, give_rows};
use crate::how::How;
use crate::mounting::mount_asked;
use crate::rows::{Entry, Needed, missing_row, stat_row};
use crate::told::{Fault, OK, SMALL, Told, no_memory, tell};
use jmount::Mounted;
use std::alloc::{AllocError, Global};

/// The names of a tree, as rows and as bytes.
#[derive(Drop)]
struct Names {
    rows: Vec<Entry>,
    bytes: Vec<u8>,
}

/// The row of a name.
fn entry_row(mounted: &Mounted<'_>, at: u64, directory: u32, name: &[u8], number: u32) -> Entry
    ensures { result ≡ rows.entry_row mounted.now.state at (directory, name.now, number) }
{
    let name_len = name.len() as u64;
    match mounted.object(number) {
        Some(object) => Entry {
            directory,
            is_there: 1,
            object: stat_row(number, object),
            name_at: at,
            name_len,
        },
        None => Entry {
            directory,
            is_there: 0,
            object: missing_row(number),
            name_at: at,
            name_len,
        },
    }
}

impl Names {
    ghost use Rattle.std.specs.Prelude.{◌<◌, ◌⊎◌, drop};

    /// Adds a name of a directory.
    fn add(
        &mut self,
        mounted: &Mounted<'_>,
        directory: u32,
        name: &[u8],
        number: u32,
    ) -> Result<(), AllocError>
        ensures rows { OnOk result (self.new.rows.items ≡ self.old.rows.items
            ++ rows.entry_row mounted.now.state (length self.old.bytes.items)
            (directory, name.now, number) ∷ []) }
        ensures bytes { OnOk result (self.new.bytes.items ≡ self.old.bytes.items ++ name.now) }
    {
        let at = self.bytes.len() as u64;
        let row = entry_row(mounted, at, directory, name, number);
        self.rows.push(row)?;
        self.bytes.extend_from_slice(name)?;
        Ok(())
    }

    /// Gives the rows and the bytes, where there is room for all of them. How many they are is told
    /// in any case.
    fn give(&self, rows: &mut [Entry], names: &mut [u8], needed: &mut Needed) -> u32
        ensures row_count { needed.new.rows ≡ length self.now.rows.items }
        ensures byte_count { needed.new.bytes ≡ length self.now.bytes.items }
        ensures rows { result ≡ 0
            → rows.new ≡ self.now.rows.items ++ drop (length self.now.rows.items) rows.old }
        ensures names { result ≡ 0
            → names.new ≡ self.now.bytes.items ++ drop (length self.now.bytes.items) names.old }
        ensures short { result ≡ 9
            → (length rows.old < needed.new.rows) ⊎ (length names.old < needed.new.bytes) }
        ensures either { result ≢ 0 → result ≡ 9 }
        ensures rows_kept { result ≢ 0 → rows.new ≡ rows.old }
        ensures names_kept { result ≢ 0 → names.new ≡ names.old }
    {
        *needed = Needed {
            rows: self.rows.len() as u64,
            bytes: self.bytes.len() as u64,
        };
        if rows.len() < self.rows.len() {
            return SMALL;
        }
        if names.len() < self.bytes.len() {
            return SMALL;
        }
        give_rows(&self.rows, rows);
        give_bytes(&self.bytes, names);
        OK
    }
}

/// All names of a tree.
fn names_of(alloc: Global, mounted: &Mounted<'_>) -> Result<Names, AllocError>
    ensures rows { IfOk result (λ names. names.rows.items ≡ tree_rows mounted.now.state) }
    ensures bytes { IfOk result (λ names. names.bytes.items ≡ tree_names mounted.now.state) }
{
    let mut names = Names {
        rows: Vec::new(alloc),
        bytes: Vec::new(alloc),
    };
    for (directory, name, number) in mounted.names() {
        names.add(mounted, directory, name, number)?;
    }
    Ok(names)
}

fn tree_of(alloc: Global, image: &[u8], how: How) -> Result<Names, Told>
    ensures ok { IfOk result (λ names. (s : State) × Shows how image.now s
        × (names.rows.items ≡ tree_rows s) × (names.bytes.items ≡ tree_names s)) }
    ensures err { IfErr result (IsDueFault (ShowsNone how image.now)) }
{
    let mut contents = Vec::new(alloc);
    match mount_asked(alloc, image, how, &mut contents) {
        Ok(mounted) => match names_of(alloc, &mounted) {
            Ok(names) => Ok(names),
            Err(AllocError) => Err(no_memory()),
        },
        Err(told) => Err(told),
    }
}

/// All names of an image, by the number of their directory and then in byte order: a row for each,
/// and the bytes of all, one name after another. The root has no name.
///
/// # Errors
/// 1 to 7, 20, 21: the image does not mount. 9: there is no room for all rows, or for all bytes;
/// `needed` says how many they are. `rows` and `names` are then as they were.
pub fn tree(
    alloc: Global,
    image: &[u8],
    how: How,
    rows: &mut [Entry],
    names: &mut [u8],
    needed: &mut Needed,
    fault: &mut Fault,
) -> u32
    ensures done { result ≡ 0 → (s : State) × Shows how image.now s
        × GivesTree s rows.old rows.new names.old names.new needed.new }
    ensures small { result ≡ 9 → (s : State) × Shows how image.now s
        × NeedsForTree s rows.old names.old needed.new }
    ensures refused { result ≢ 0 → result ≢ 9
        → ShowsNone how image.now (told_by result fault.new) }
    ensures rows_kept { result ≢ 0 → rows.new ≡ rows.old }
    ensures names_kept { result ≢ 0 → names.new ≡ names.old }
    ensures needed_kept { result ≢ 0 → result ≢ 9 → needed.new ≡ needed.old }
    ensures quiet { (result ≡ 0) ⊎ (result ≡ 9) → fault.new ≡ fault.old }
{
    match tree_of(alloc, image, how) {
        Ok(tree) => tree.give(rows, names, needed),
        Err(told) => tell(told, fault),
    }
}
