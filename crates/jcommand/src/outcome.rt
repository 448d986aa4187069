//! How the program ends.
ghost use Rattle.std.specs.Prelude.{◌≡◌};
ghost use Rattle.jcommand.specs.Status.{outcome_of, status_of};

/// How the program ends.
#[derive(Clone, Copy)]
pub enum Outcome {
    /// It did what was asked, and found nothing wrong. Help is such an end too.
    Done,
    /// It gave up, and standard error says why.
    Fault,
    /// The command line is wrong.
    Usage,
    /// `check` found something.
    Found,
}

impl Outcome {
    /// What it comes to where nothing failed, by the number of findings.
    pub fn of(findings: u64) -> Outcome
        ensures { result ≡ outcome_of findings }
    {
        match findings {
            0 => Outcome::Done,
            _ => Outcome::Found,
        }
    }
}

/// The exit status.
pub fn status(outcome: Outcome) -> u8
    ensures { result ≡ status_of outcome }
{
    match outcome {
        Outcome::Done => 0,
        Outcome::Fault => 1,
        Outcome::Usage => 2,
        Outcome::Found => 3,
    }
}
