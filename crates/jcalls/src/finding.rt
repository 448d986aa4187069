//! The findings and the nodes of an image, as rows. No memory is taken.

ghost use Rattle.std.specs.Prelude.{◌≡◌, ◌≢◌, ◌⊎◌, IfOk, IfErr, length};
ghost use Rattle.jcalls.specs.Asked.{asked_order};
ghost use Rattle.jcalls.specs.Counting.{CountRefused};
ghost use Rattle.jcalls.specs.Filling.{rows_given, GivesRows, NeedsForRows};
ghost use Rattle.jcalls.specs.FindingRows.{finding_rows};
ghost use Rattle.jcalls.specs.NodeRows.{node_rows};
ghost use Rattle.jcalls.specs.Shown.{IsDueFault};
ghost use Rattle.jcalls.specs.Told.{told_by};

use crate::finding_row::{FindingRow, found_row};
use crate::how::How;
use crate::node_row::{NodeRow, node_row};
use crate::told::{Fault, OK, SMALL, Told, scan_told, tell};
use byteorder::{BigEndian, LittleEndian};
use jnode::Order;
use jscan::{Geometry, ImageExtents};

/// Gives as many findings as there is room for, and says how many there are.
fn fill_found<E: Order>(image: &[u8], block: u32, rows: &mut [FindingRow]) -> Result<usize, Told>
    ensures count { IfOk result
        (λ count. count ≡ length (finding_rows E.order block image.now)) }
    ensures rows { IfOk result
        (λ _. rows.new ≡ rows_given (finding_rows E.order block image.now) rows.old) }
    ensures err { IfErr result (IsDueFault (CountRefused block image.now)) }
    ensures kept { IfErr result (λ _. rows.new ≡ rows.old) }
{
    let extents = match ImageExtents::<E>::new(image, Geometry { block }) {
        Ok(extents) => extents,
        Err(why) => return Err(scan_told(why)),
    };
    let mut count = 0;
    for extent in extents {
        if let Some(row) = found_row(&extent) {
            if count < rows.len() {
                rows[count] = row;
            }
            count += 1;
        }
    }
    Ok(count)
}

fn found_asked(image: &[u8], how: How, rows: &mut [FindingRow]) -> Result<usize, Told>
    ensures count { IfOk result
        (λ count. count ≡ length (finding_rows (asked_order how) how.block image.now)) }
    ensures rows { IfOk result
        (λ _. rows.new ≡ rows_given (finding_rows (asked_order how) how.block image.now) rows.old) }
    ensures err { IfErr result (IsDueFault (CountRefused how.block image.now)) }
    ensures kept { IfErr result (λ _. rows.new ≡ rows.old) }
{
    if how.is_big() {
        fill_found::<BigEndian>(image, how.block, rows)
    } else {
        fill_found::<LittleEndian>(image, how.block, rows)
    }
}

/// The findings of an image, in the order of their addresses: those that `check` counts.
///
/// # Errors
/// 1: the block size is not read. 2: the image is too long. 9: there is no room for all rows, and
/// `needed` says how many there are. `rows` is then as it was.
pub fn findings(
    image: &[u8],
    how: How,
    rows: &mut [FindingRow],
    needed: &mut usize,
    fault: &mut Fault,
) -> u32
    ensures done { result ≡ 0
        → GivesRows (finding_rows (asked_order how) how.block image.now)
        rows.old rows.new needed.new }
    ensures small { result ≡ 9
        → NeedsForRows (finding_rows (asked_order how) how.block image.now) rows.old needed.new }
    ensures refused { result ≢ 0 → result ≢ 9
        → CountRefused how.block image.now (told_by result fault.new) }
    ensures kept { result ≢ 0 → rows.new ≡ rows.old }
    ensures needed_kept { result ≢ 0 → result ≢ 9 → needed.new ≡ needed.old }
    ensures quiet { (result ≡ 0) ⊎ (result ≡ 9) → fault.new ≡ fault.old }
{
    let count = match found_asked(image, how, &mut []) {
        Ok(count) => count,
        Err(told) => return tell(told, fault),
    };
    if rows.len() < count {
        *needed = count;
        return SMALL;
    }
    match found_asked(image, how, rows) {
        Ok(count) => {
            *needed = count;
            OK
        }
        Err(told) => tell(told, fault),
    }
}

/// Gives as many nodes as there is room for, and says how many there are.
fn fill_nodes<E: Order>(image: &[u8], block: u32, rows: &mut [NodeRow]) -> Result<usize, Told>
    ensures count { IfOk result (λ count. count ≡ length (node_rows E.order block image.now)) }
    ensures rows { IfOk result
        (λ _. rows.new ≡ rows_given (node_rows E.order block image.now) rows.old) }
    ensures err { IfErr result (IsDueFault (CountRefused block image.now)) }
    ensures kept { IfErr result (λ _. rows.new ≡ rows.old) }
{
    let geometry = Geometry { block };
    let extents = match ImageExtents::<E>::new(image, geometry) {
        Ok(extents) => extents,
        Err(why) => return Err(scan_told(why)),
    };
    let mut count = 0;
    for extent in extents {
        if let Some(row) = node_row::<E>(image, geometry, &extent) {
            if count < rows.len() {
                rows[count] = row;
            }
            count += 1;
        }
    }
    Ok(count)
}

fn nodes_asked(image: &[u8], how: How, rows: &mut [NodeRow]) -> Result<usize, Told>
    ensures count { IfOk result
        (λ count. count ≡ length (node_rows (asked_order how) how.block image.now)) }
    ensures rows { IfOk result
        (λ _. rows.new ≡ rows_given (node_rows (asked_order how) how.block image.now) rows.old) }
    ensures err { IfErr result (IsDueFault (CountRefused how.block image.now)) }
    ensures kept { IfErr result (λ _. rows.new ≡ rows.old) }
{
    if how.is_big() {
        fill_nodes::<BigEndian>(image, how.block, rows)
    } else {
        fill_nodes::<LittleEndian>(image, how.block, rows)
    }
}

/// The nodes of an image, in the order of their addresses, whatever each is seen as.
///
/// # Errors
/// As `findings`.
pub fn nodes(
    image: &[u8],
    how: How,
    rows: &mut [NodeRow],
    needed: &mut usize,
    fault: &mut Fault,
) -> u32
    ensures done { result ≡ 0
        → GivesRows (node_rows (asked_order how) how.block image.now)
        rows.old rows.new needed.new }
    ensures small { result ≡ 9
        → NeedsForRows (node_rows (asked_order how) how.block image.now) rows.old needed.new }
    ensures refused { result ≢ 0 → result ≢ 9
        → CountRefused how.block image.now (told_by result fault.new) }
    ensures kept { result ≢ 0 → rows.new ≡ rows.old }
    ensures needed_kept { result ≢ 0 → result ≢ 9 → needed.new ≡ needed.old }
    ensures quiet { (result ≡ 0) ⊎ (result ≡ 9) → fault.new ≡ fault.old }
{
    let count = match nodes_asked(image, how, &mut []) {
        Ok(count) => count,
        Err(told) => return tell(told, fault),
    };
    if rows.len() < count {
        *needed = count;
        return SMALL;
    }
    match nodes_asked(image, how, rows) {
        Ok(count) => {
            *needed = count;
            OK
        }
        Err(told) => tell(told, fault),
    }
}
