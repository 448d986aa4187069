//! The times whose nodes are told.

ghost use Rattle.std.specs.Prelude.{◌≡◌};
ghost use Rattle.jhistory.specs.HistoryText.{is_always, is_in_period, is_since, is_until};

/// The times whose nodes are told, in seconds since 1970: all from one on, and all up to one.
#[derive(Clone, Copy, Debug, PartialEq, Eq)]
pub struct Period {
    /// The first time, if there is a first.
    pub since: Option<u32>,
    /// The last time, if there is a last.
    pub until: Option<u32>,
}

fn is_since(first: Option<u32>, time: u32) -> bool
    ensures { result ≡ is_since first time }
{
    match first {
        Some(first) => first <= time,
        None => true,
    }
}

fn is_until(last: Option<u32>, time: u32) -> bool
    ensures { result ≡ is_until last time }
{
    match last {
        Some(last) => time <= last,
        None => true,
    }
}

impl Period {
    /// Whether a time is in it.
    pub(crate) fn has(self, time: u32) -> bool
        ensures { result ≡ is_in_period self time }
    {
        is_since(self.since, time) && is_until(self.until, time)
    }

    /// Whether it has no bounds, so that no time is asked for.
    pub(crate) fn is_always(self) -> bool
        ensures { result ≡ is_always self }
    {
        self.since.is_none() && self.until.is_none()
    }
}
