// What a site is doing: nothing, waiting for the resource, or holding it.
ghost use Rattle.std.specs.Prelude.{◌≡◌, Some};
ghost use Rattle.manager.specs.Meaning.{is_idle, is_waiting, is_holding};
ghost use Rattle.manager.specs.Words.{status_in_words};

use std::fmt;

#[derive(Clone, Copy, PartialEq, Eq, Debug)]
pub enum Status {
    Idle,
    Waiting,
    Holding,
}

impl Status {
    pub fn is_idle(self) -> bool
        ensures { result ≡ is_idle self }
    {
        self == Status::Idle
    }

    pub fn is_waiting(self) -> bool
        ensures { result ≡ is_waiting self }
    {
        self == Status::Waiting
    }

    pub fn is_holding(self) -> bool
        ensures { result ≡ is_holding self }
    {
        self == Status::Holding
    }
}

impl fmt::Display for Status {
    ghost output = { λ s. Some (status_in_words s) };

    fn fmt<W: fmt::Write>(&self, f: &mut fmt::Formatter<W>) -> fmt::Result {
        match self {
            Status::Idle => f.pad("idle"),
            Status::Waiting => f.pad("waiting"),
            Status::Holding => f.pad("holding"),
        }
    }
}
