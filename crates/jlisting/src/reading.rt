//! The form of a line, by its number of words and its first word.

ghost use Rattle.std.specs.Prelude.{◌==◌, ◌∷◌};
ghost use Rattle.std.specs.List.{slice_split};
ghost use Rattle.jline.specs.Read.{IsRead};
ghost use Rattle.jlisting.specs.Listing.{one_operand, two_operands, three_operands, five_operands, six_operands, statement_of, statement_of_words};

use crate::forms::{
    AttrWords, read_attr, read_create, read_device, read_fifo, read_file, read_link, read_mkdir,
    read_owner, read_part, read_put, read_remove, read_remove_if, read_rename, read_replace,
    read_socket, read_symlink, read_time, read_truncate, read_write,
};
use crate::split::split_once;
use crate::statement::{Settings, Statement};
use crate::words::is_word;
use jline::WordFault;
use std::alloc::Global;

/// A line of two words.
#[tactic(auto, unfolding(crate::specs::Listing::one_operand))]
fn read_one<'a>(
    alloc: Global,
    settings: Settings,
    name: &[u8],
    a: &'a [u8],
) -> Result<Statement<'a>, WordFault>
    ensures { IsRead (one_operand settings name.now a.entry.now) result }
{
    if is_word(name, b"time") {
        read_time(settings, a)
    } else if is_word(name, b"remove") {
        read_remove(alloc, settings, a)
    } else if is_word(name, b"remove-if") {
        read_remove_if(alloc, settings, a)
    } else {
        Err(WordFault::Invalid)
    }
}

/// A line of three words.
#[tactic(auto, unfolding(crate::specs::Listing::two_operands))]
fn read_two<'a>(
    alloc: Global,
    settings: Settings,
    name: &[u8],
    a: &'a [u8],
    b: &'a [u8],
) -> Result<Statement<'a>, WordFault>
    ensures { IsRead (two_operands settings name.now a.entry.now b.entry.now) result }
{
    if is_word(name, b"owner") {
        read_owner(settings, a, b)
    } else if is_word(name, b"mkdir") {
        read_mkdir(alloc, settings, a, b)
    } else if is_word(name, b"create") {
        read_create(alloc, settings, a, b)
    } else if is_word(name, b"fifo") {
        read_fifo(alloc, settings, a, b)
    } else if is_word(name, b"socket") {
        read_socket(alloc, settings, a, b)
    } else if is_word(name, b"symlink") {
        read_symlink(alloc, settings, a, b)
    } else if is_word(name, b"truncate") {
        read_truncate(alloc, settings, a, b)
    } else if is_word(name, b"link") {
        read_link(alloc, settings, a, b)
    } else if is_word(name, b"rename") {
        read_rename(alloc, settings, a, b)
    } else if is_word(name, b"replace") {
        read_replace(alloc, settings, a, b)
    } else {
        Err(WordFault::Invalid)
    }
}

/// A line of four words.
#[tactic(auto, unfolding(crate::specs::Listing::three_operands))]
fn read_three<'a>(
    alloc: Global,
    settings: Settings,
    name: &[u8],
    a: &'a [u8],
    b: &'a [u8],
    c: &'a [u8],
) -> Result<Statement<'a>, WordFault>
    ensures { IsRead (three_operands settings name.now a.entry.now b.entry.now c.entry.now) result }
{
    if is_word(name, b"file") {
        read_file(alloc, settings, a, b, c)
    } else if is_word(name, b"put") {
        read_put(alloc, settings, a, b, c)
    } else if is_word(name, b"write") {
        read_write(alloc, settings, a, b, c)
    } else if is_word(name, b"part") {
        read_part(alloc, settings, a, b, c)
    } else {
        Err(WordFault::Invalid)
    }
}

/// A line of six words.
#[tactic(auto, unfolding(crate::specs::Listing::five_operands))]
fn read_five<'a>(
    alloc: Global,
    settings: Settings,
    name: &[u8],
    a: &'a [u8],
    b: &'a [u8],
    c: &'a [u8],
    d: &'a [u8],
    e: &'a [u8],
) -> Result<Statement<'a>, WordFault>
    ensures { IsRead (five_operands settings name.now a.entry.now b.entry.now c.entry.now
        d.entry.now e.entry.now) result }
{
    if is_word(name, b"device") {
        read_device(alloc, settings, a, b, c, d, e)
    } else {
        Err(WordFault::Invalid)
    }
}

/// A line of seven words.
#[tactic(auto, unfolding(crate::specs::Listing::six_operands))]
fn read_six<'a>(
    alloc: Global,
    settings: Settings,
    name: &[u8],
    a: &'a [u8],
    b: &'a [u8],
    c: &'a [u8],
    d: &'a [u8],
    e: &'a [u8],
    f: &'a [u8],
) -> Result<Statement<'a>, WordFault>
    ensures { IsRead (six_operands settings name.now a.entry.now b.entry.now c.entry.now d.entry.now
        e.entry.now f.entry.now) result }
{
    if is_word(name, b"attr") {
        let words = AttrWords {
            mode: a,
            uid: b,
            gid: c,
            atime: d,
            mtime: e,
            path: f,
        };
        read_attr(alloc, settings, words)
    } else {
        Err(WordFault::Invalid)
    }
}

/// What a line of more than four words means, by the first four and the rest of it.
fn read_many<'a>(
    alloc: Global,
    settings: Settings,
    name: &[u8],
    a: &'a [u8],
    b: &'a [u8],
    c: &'a [u8],
    line: &'a [u8],
) -> Result<Statement<'a>, WordFault>
    ensures { IsRead
        (statement_of_words settings (name.now ∷ a.entry.now ∷ b.entry.now ∷ c.entry.now
        ∷ slice_split (λ b. b == 32) line.entry.now)) result }
{
    let Some((d, line)) = split_once(line, b' ') else {
        return Err(WordFault::Invalid);
    };
    let Some((e, line)) = split_once(line, b' ') else {
        return read_five(alloc, settings, name, a, b, c, d, line);
    };
    match split_once(line, b' ') {
        None => read_six(alloc, settings, name, a, b, c, d, e, line),
        Some(_) => Err(WordFault::Invalid),
    }
}

/// What the words of a line mean.
fn read_words<'a>(
    alloc: Global,
    settings: Settings,
    line: &'a [u8],
) -> Result<Statement<'a>, WordFault>
    ensures { IsRead (statement_of_words settings (slice_split (λ b. b == 32) line.entry.now))
        result }
{
    let Some((name, line)) = split_once(line, b' ') else {
        return Err(WordFault::Invalid);
    };
    let Some((a, line)) = split_once(line, b' ') else {
        return read_one(alloc, settings, name, line);
    };
    let Some((b, line)) = split_once(line, b' ') else {
        return read_two(alloc, settings, name, a, line);
    };
    match split_once(line, b' ') {
        None => read_three(alloc, settings, name, a, b, line),
        Some((c, line)) => read_many(alloc, settings, name, a, b, c, line),
    }
}

/// What a line means after these settings.
#[tactic(auto, unfolding(crate::specs::Listing::statement_of))]
pub fn read_line<'a>(
    alloc: Global,
    settings: Settings,
    line: &'a [u8],
) -> Result<Statement<'a>, WordFault>
    ensures { IsRead (statement_of settings line.entry.now) result }
{
    match line {
        [] | [b'#', ..] => Ok(Statement::Blank),
        _ => read_words(alloc, settings, line),
    }
}
