// Why a call was refused. specs/Refusals.antt says when each is due and which number it has.
ghost use Rattle.std.specs.Prelude.{◌≡◌, Some};
ghost use Rattle.manager.specs.Refusals.{number_of};
ghost use Rattle.manager.specs.Words.{refusal_in_words};

use std::error::Error;
use std::fmt;

#[derive(Clone, Copy, PartialEq, Eq, Debug)]
pub enum Refusal {
    NoSite = 1,
    Worn = 2,
    NotIdle = 3,
    NotHolding = 4,
    NoThing = 5,
    RollFull = 6,
    ShortWaitList = 7,
    LimitReached = 11,
}

impl Refusal {
    // The number by which printed records name the refusal.
    pub fn number(self) -> u8
        ensures { result ≡ number_of self }
    {
        self as u8
    }

    // What was refused, or why.
    pub fn words(self) -> &'static str
        ensures says_it_in_words { result.now ≡ refusal_in_words self }
    {
        match self {
            Refusal::NoSite => "there is no site of that number",
            Refusal::Worn => "the manager is worn out",
            Refusal::NotIdle => "the site is not idle",
            Refusal::NotHolding => "the site does not hold",
            Refusal::NoThing => "no thing of that number is under way",
            Refusal::RollFull => "the roll has no free place",
            Refusal::ShortWaitList => "the wait list has fewer places than there are sites",
            Refusal::LimitReached => "the drain is at its limit with something under way",
        }
    }
}

impl fmt::Display for Refusal {
    ghost output = { λ r. Some (refusal_in_words r) };

    fn fmt<W: fmt::Write>(&self, f: &mut fmt::Formatter<W>) -> fmt::Result {
        f.pad(self.words())
    }
}

impl Error for Refusal {}
