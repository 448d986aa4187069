//! How far long work is, told on a terminal.

ghost use Rattle.std.specs.Prelude.{◌≡◌, IsFalse};
ghost use Rattle.jhost.specs.Counted.{counted_objects, one_more};
ghost use Rattle.jhost.specs.Silence.{IsCleared, IsSilent};

use std::io::Eprint;
use std::rt::Clock;
use std::time::Duration;

/// Counts objects, and tells each second how many they are, after the first second. What is told
/// next is written over it.
#[derive(Drop)]
pub struct Progress<'r, R: Clock + Eprint> {
    rt: &'r R,
    count: u64,
    /// When it is told next, if at all.
    due: Option<Duration>,
    is_shown: bool,
}

impl<'r, R: Clock + Eprint> Progress<'r, R> {
    /// No objects. It tells nothing unless it `tells`.
    pub fn new(rt: &'r R, tells: bool) -> Self
        ensures silent { IsFalse tells → IsSilent result }
        ensures none { counted_objects result ≡ 0 }
        ensures hidden { IsCleared result }
    {
        let due = if tells { a_second_from_now(rt) } else { None };
        Progress {
            rt,
            count: 0,
            due,
            is_shown: false,
        }
    }

    /// One object more.
    pub fn step(&mut self)
        ensures count { counted_objects self.new ≡ one_more (counted_objects self.old) }
        ensures silent { IsSilent self.old → IsSilent self.new }
        ensures hidden { IsSilent self.old → IsCleared self.old → IsCleared self.new }
    {
        self.count = self.count.saturating_add(1);
        let Some(due) = self.due else {
            return;
        };
        match self.rt.monotonic() {
            Ok(now) if now >= due => self.tell(),
            _ => {}
        }
    }

    fn tell(&mut self)
        ensures { counted_objects self.new ≡ counted_objects self.old }
    {
        let count = self.count;
        let _ = eprint!(self.rt; "{count} objects\r");
        self.is_shown = true;
        self.due = a_second_from_now(self.rt);
    }

    /// Takes away what was told.
    pub fn finish(&mut self)
        ensures hidden { IsCleared self.new }
        ensures count { counted_objects self.new ≡ counted_objects self.old }
        ensures silent { IsSilent self.old → IsSilent self.new }
    {
        if self.is_shown {
            let _ = eprint!(self.rt; "                            \r");
            self.is_shown = false;
        }
    }
}

/// When a second has passed, if the clock tells.
fn a_second_from_now<R: Clock>(rt: &R) -> Option<Duration> {
    match rt.monotonic() {
        Ok(now) => now.checked_add(Duration::from_secs(1)),
        Err(_) => None,
    }
}
