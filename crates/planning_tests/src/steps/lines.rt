//! Operations and their answers as lines of text.

use jnode::Part;
use jscan::Page;
use jsteps::{Attributes, Index, OpFault, Step, plan, plan_paged};
use std::alloc::Global;
use std::test::Fail;
use test_operations::{By, op_of};

/// At time 7, for owners 5 and 6.
pub const BY: By = By {
    time: 7,
    uid: 5,
    gid: 6,
};

fn text_of<'a>(part: &Part<'a>) -> &'a str {
    str::from_utf8(part.present()).unwrap_or("?")
}

/// Appends the bytes that an object is made with, or their number where a page holds no more.
fn put_bytes(text: &mut String, part: &Part<'_>) -> Result<(), Fail> {
    if part.len() >= 4096 {
        write!(text, " [{}]", part.len())?;
    } else {
        write!(text, " [{}]", text_of(part))?;
    }
    Ok(())
}

/// Appends what a step says of a name.
fn put_naming(text: &mut String, step: &Step<'_>) -> Result<(), Fail> {
    match step {
        Step::SetName {
            directory,
            name,
            ino,
            ..
        } => write!(text, "set {directory} {} {ino}", text_of(name))?,
        Step::ClearName {
            directory,
            name,
            ..
        } => write!(text, "clear {directory} {}", text_of(name))?,
        _ => (),
    }
    Ok(())
}

/// Appends the attributes of an object from a time on.
fn put_attributes(
    text: &mut String,
    ino: u32,
    attributes: &Attributes,
    time: u32,
) -> Result<(), Fail> {
    let Attributes {
        mode,
        uid,
        gid,
        atime,
        mtime,
    } = attributes;
    write!(
        text,
        "attr {ino} {mode:o} {uid} {gid} {atime} {mtime} {time}"
    )?;
    Ok(())
}

/// Appends a step.
fn put_step(text: &mut String, step: &Step<'_>) -> Result<(), Fail> {
    match step {
        Step::MakeObject {
            mode,
            uid,
            gid,
            target,
            ..
        } => {
            write!(text, "make {mode:o} {uid} {gid}")?;
            put_bytes(text, target)?;
        }
        Step::SetName { .. } | Step::ClearName { .. } => put_naming(text, step)?,
        Step::Put {
            ino,
            offset,
            bytes,
            ..
        } => write!(text, "put {ino} {offset} {}", bytes.len())?,
        Step::Zero { ino, count, .. } => write!(text, "zero {ino} {count}")?,
        Step::Cut { ino, size, .. } => write!(text, "cut {ino} {size}")?,
        Step::SetAttributes {
            time,
            ino,
            attributes,
        } => put_attributes(text, *ino, attributes, *time)?,
    }
    Ok(())
}

/// Appends a step, behind a comma where it is not the first.
fn put_next(text: &mut String, step: &Step<'_>) -> Result<(), Fail> {
    if !text.is_empty() {
        text.push_str(", ")?;
    }
    put_step(text, step)
}

/// Steps between commas.
fn text_of_steps(alloc: Global, steps: &[Step<'_>]) -> Result<String, Fail> {
    let mut text = String::new(alloc);
    for step in steps {
        put_next(&mut text, step)?;
    }
    Ok(text)
}

/// Steps, or why there are none.
fn shown(alloc: Global, plan: Result<Vec<Step<'_>>, OpFault>) -> Result<String, Fail> {
    match plan {
        Ok(steps) => text_of_steps(alloc, &steps),
        Err(fault) => Ok(format!(in alloc; "{fault}")?),
    }
}

/// The steps of the operation of a line, or why it is refused.
pub fn answer(alloc: Global, index: &Index, line: &str) -> Result<String, Fail> {
    let op = op_of(line, BY).ok_or("no operation")?;
    shown(alloc, plan(alloc, index, &op))
}

/// The same by a page.
pub fn answer_by(alloc: Global, index: &Index, line: &str, page: Page) -> Result<String, Fail> {
    let op = op_of(line, BY).ok_or("no operation")?;
    shown(alloc, plan_paged(alloc, index, &op, page))
}
