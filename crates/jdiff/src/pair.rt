//! The names of two directories, side by side.

ghost use Rattle.std.specs.Prelude.{◌≡◌, ◌∷◌, [], drop, filter, MatchOption};
ghost use Rattle.jmount.specs.Tree.{is_there};
ghost use Rattle.jdiff.specs.Names.{joined, names_there};
ghost use Rattle.jdiff.specs.Sides.{names_behind};

use jmount::Mounted;
use jname::Of;
use std::cmp::Ordering;
use std::marker::Model;

/// The next name that leads to an object.
fn next_there<'m, 'a>(mounted: &Mounted<'a>, names: &mut Of<'m, 'a>) -> Option<(&'m [u8], u32)>
    ensures { MatchOption result (filter (λ e. is_there mounted.now.state e.1) names.old ≡ [])
        (λ n. filter (λ e. is_there mounted.now.state e.1) names.old
        ≡ (n.0.now, n.1) ∷ filter (λ e. is_there mounted.now.state e.1) names.new) }
{
    while let Some((name, ino)) = names.next() {
        if mounted.object(ino).is_some() {
            return Some((name, ino));
        }
    }
    None
}

/// The same of a directory that there may be.
fn next_behind<'m, 'a>(
    mounted: &Mounted<'a>,
    names: &mut Option<Of<'m, 'a>>,
) -> Option<(&'m [u8], u32)>
    ensures { MatchOption result (names_behind mounted.now.state names.old ≡ [])
        (λ n. names_behind mounted.now.state names.old
        ≡ (n.0.now, n.1) ∷ names_behind mounted.now.state names.new) }
{
    match names {
        Some(names) => next_there(mounted, names),
        None => None,
    }
}

/// The names of a directory that lead to objects, or no names, with the next one at hand.
#[derive(Drop)]
struct Side<'m, 'a> {
    mounted: &'m Mounted<'a>,
    next: Option<(&'m [u8], u32)>,
    left: Option<Of<'m, 'a>>,
}

impl<'m, 'a> Model for Side<'m, 'a> {
    ghost use Rattle.std.specs.Prelude.{List, ℕ};
    ghost use Rattle.jdiff.specs.Sides.{names_ahead};

    ghost Value = { List (List ℕ × ℕ) };

    ghost view = { λ side. names_ahead side.mounted.now.state side.next side.left };
}

impl<'m, 'a> Side<'m, 'a> {
    /// The names of a directory, if there is one.
    fn new(mounted: &'m Mounted<'a>, directory: Option<u32>) -> Self
        ensures { result ≡ names_there mounted.now.state directory }
    {
        let Some(ino) = directory else {
            return Side {
                mounted,
                next: None,
                left: None,
            };
        };
        let mut names = mounted.entries(ino);
        let next = next_there(mounted, &mut names);
        Side {
            mounted,
            next,
            left: Some(names),
        }
    }

    /// The next name.
    fn peek(&self) -> Option<(&'m [u8], u32)>
        ensures { MatchOption result (self.now ≡ [])
            (λ n. self.now ≡ (n.0.now, n.1) ∷ drop 1 self.now) }
    {
        self.next
    }

    /// Goes past the next name, if there is one.
    fn pass(&mut self)
        ensures { self.new ≡ drop 1 self.old }
    {
        if self.next.is_none() {
            return;
        }
        self.next = next_behind(self.mounted, &mut self.left);
    }
}

/// The names of two directories that lead to objects, each name of both once, in byte order.
#[derive(Drop)]
pub(crate) struct Pair<'m, 'a> {
    left: Side<'m, 'a>,
    right: Side<'m, 'a>,
}

impl<'m, 'a> Model for Pair<'m, 'a> {
    ghost use Rattle.std.specs.Prelude.{List};
    ghost use Rattle.jdiff.specs.Names.{SharedName, joined};

    ghost Value = { List SharedName };

    ghost view = { λ pair. joined pair.left pair.right };
}

impl<'m, 'a> Pair<'m, 'a> {
    /// The names of a directory of each tree, if there is one.
    pub(crate) fn new(
        left: &'m Mounted<'a>,
        left_directory: Option<u32>,
        right: &'m Mounted<'a>,
        right_directory: Option<u32>,
    ) -> Self
        ensures { result ≡ joined (names_there left.now.state left_directory)
            (names_there right.now.state right_directory) }
    {
        Pair {
            left: Side::new(left, left_directory),
            right: Side::new(right, right_directory),
        }
    }

    /// The next name, and what it stands for in each.
    pub(crate) fn next(&mut self) -> Option<(&'m [u8], Option<u32>, Option<u32>)>
        ensures { MatchOption result (self.old ≡ [])
            (λ n. self.old ≡ (n.0.now, n.1, n.2) ∷ self.new) }
    {
        match (self.left.peek(), self.right.peek()) {
            (None, None) => None,
            (Some((name, ino)), None) => {
                self.left.pass();
                Some((name, Some(ino), None))
            }
            (None, Some((name, ino))) => {
                self.right.pass();
                Some((name, None, Some(ino)))
            }
            (Some((name, ino)), Some((other, other_ino))) => match name.cmp(other) {
                Ordering::Less => {
                    self.left.pass();
                    Some((name, Some(ino), None))
                }
                Ordering::Equal => {
                    self.left.pass();
                    self.right.pass();
                    Some((name, Some(ino), Some(other_ino)))
                }
                Ordering::Greater => {
                    self.right.pass();
                    Some((other, None, Some(other_ino)))
                }
            },
        }
    }
}
