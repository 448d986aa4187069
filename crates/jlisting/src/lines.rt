//! The lines of a listing.

ghost use Rattle.std.specs.Prelude.{◌≡◌, ◌==◌, ◌+◌, ◌<◌, ◌∷◌, ◌++◌, ℕ, None, Ok, IfOk, IfErr, OnOk, length};
ghost use Rattle.std.specs.List.{slice_split};
ghost use Rattle.jlisting.specs.declared.statement.Settings.{Settings};
ghost use Rattle.jlisting.specs.Listing.{settings_after, action_lines, lines_from, lines_in, lines_of, statement_of};
ghost use Rattle.jlisting.specs.Broken.{IsFaultOfLine, IsListingFault, line_after};

use crate::broken::first_broken;
use crate::fault::{BadLine, ListingFault};
use crate::line::Line;
use crate::reading::read_line;
use crate::split::split_once;
use crate::statement::{Settings, Statement};
use jline::WordFault;
use std::alloc::{AllocError, Global};

/// The first line, and what follows it.
#[tactic(auto, using(crate::proofs::ListingLemmas::lines_from_end, crate::proofs::ListingLemmas::nothing_behind))]
fn first_line(text: &[u8]) -> (&[u8], &[u8])
    requires { 0 < length text.now }
    ensures first { (n : ℕ) (s : Settings) → lines_in n s text.now
        ≡ lines_from n s (result.0.now ∷ slice_split (λ b. b == 10) result.1.now) }
    ensures line { line_after 0 text.now ≡ result.0.now }
    ensures rest { (n : ℕ) → line_after (n + 1) text.now ≡ line_after n result.1.now }
    ensures shorter { length result.1.now < length text.now }
{
    match split_once(text, b'\n') {
        Some(parts) => parts,
        None => (text, &[]),
    }
}

/// Adds the action of a line, and gives the settings after it.
fn apply<'a>(
    number: usize,
    settings: Settings,
    statement: Statement<'a>,
    lines: &mut Vec<Line<'a>>,
) -> Result<Settings, AllocError>
    ensures settings { IfOk result (λ next. next ≡ settings_after settings statement.entry) }
    ensures lines { OnOk result
        (lines.new.items ≡ lines.old.items ++ action_lines number statement.entry) }
{
    match statement {
        Statement::Blank => Ok(settings),
        Statement::Settings(next) => Ok(next),
        Statement::Action(action) => {
            lines.push(Line { number, action })?;
            Ok(settings)
        }
    }
}

/// The fault of a line that means nothing.
fn fault_of_line(alloc: Global, settings: Settings, number: usize, line: &[u8]) -> ListingFault
    requires { statement_of settings line.now ≡ None }
    ensures { IsFaultOfLine number line.now result }
{
    match first_broken(alloc, line) {
        Ok(Some(rule)) => ListingFault::Line(BadLine { line: number, rule }),
        Ok(None) => unreachable!(),
        Err(_) => ListingFault::OutOfMemory,
    }
}

/// Reads a listing as a whole: its lines that have an action, in their order.
///
/// # Errors
/// `Line`: the first line that means nothing, and the first rule that it breaks. `OutOfMemory`.
pub fn listing<'a>(alloc: Global, text: &'a [u8]) -> Result<Vec<Line<'a>>, ListingFault>
    ensures ok { IfOk result (λ lines. lines_of text.entry.now ≡ Ok lines.items) }
    ensures err { IfErr result (IsListingFault text.entry.now) }
{
    let mut lines = Vec::new(alloc);
    let mut settings = Settings {
        time: 0,
        uid: 0,
        gid: 0,
    };
    let mut number = 0usize;
    let mut left = text;
    while !left.is_empty() {
        let (line, rest) = first_line(left);
        number += 1;
        let statement = match read_line(alloc, settings, line) {
            Ok(statement) => statement,
            Err(WordFault::Invalid) => return Err(fault_of_line(alloc, settings, number, line)),
            Err(WordFault::OutOfMemory) => return Err(ListingFault::OutOfMemory),
        };
        settings = apply(number, settings, statement, &mut lines)?;
        left = rest;
    }
    Ok(lines)
}
