//! Walks over the objects.

ghost use Rattle.std.specs.Prelude.{◌≡◌, ℕ, List};

use crate::object::Object;
use crate::shown::shown;
use crate::stored::Stored;
use std::collections::BTreeMap;
use std::collections::btree_map::Iter;
use std::marker::Model;

/// All objects, the root among them, each with its number, in ascending order of number.
#[derive(Drop)]
pub struct Objects<'m, 'a> {
    left: Iter<'m, u32, Stored<'a>>,
}

impl<'m, 'a> Model for Objects<'m, 'a> {
    ghost use Rattle.std.specs.Prelude.{ℕ, List};
    ghost use Rattle.jmount.specs.declared.object.Object.{Object};
    ghost use Rattle.jmount.specs.Walk.{shown_entries};

    ghost Value = { List (ℕ × Object) };

    ghost view = { λ objects. shown_entries objects.left };
}

impl<'m, 'a> Objects<'m, 'a> {
    ghost use Rattle.jmount.specs.Walk.{shown_entries};

    pub(crate) fn new(objects: &'m BTreeMap<u32, Stored<'a>>) -> Self
        ensures { result ≡ shown_entries objects.now.entries }
    {
        Objects {
            left: objects.iter(),
        }
    }
}

impl<'m, 'a> Iterator for Objects<'m, 'a> {
    type Item = (u32, Object);

    ghost use Rattle.std.specs.Iterator.{YieldsFirstBy, item_count};

    ghost next_gives = { YieldsFirstBy (λ x. x) (λ rest. rest) };

    ghost remaining = { item_count (λ rest. rest) };

    fn next(&mut self) -> Option<(u32, Object)> {
        let (number, stored) = self.left.next()?;
        Some((*number, shown(stored)))
    }
}
