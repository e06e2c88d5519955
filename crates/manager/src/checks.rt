// The tests by which a manager, of whatever kind, refuses a call: one for each refusal, over plain values.
ghost use Rattle.std.specs.Prelude.{◌≡◌, not, nat_le};
ghost use Rattle.manager.specs.Answers.{refuse_if};
ghost use Rattle.manager.specs.Meaning.{limit, is_idle, is_holding};
ghost use Rattle.manager.specs.declared.refusal.Refusal.TheVariants.{NoSite, Worn, NotIdle, NotHolding, NoThing};

use crate::refusal::Refusal;
use crate::status::Status;

// The age at which a manager is worn out, the most things under way that are counted, and the largest toll that is told.
pub const LIMIT: u64 = 1_000_000_000_000_000;

// Is the site one of as many as there are?
pub fn check_site(site: usize, sites: usize) -> Result<(), Refusal>
    ensures { result ≡ refuse_if (nat_le sites site) NoSite }
{
    refuse_if(site >= sites, Refusal::NoSite)
}

pub fn check_age(age: u64) -> Result<(), Refusal>
    ensures { result ≡ refuse_if (nat_le limit age) Worn }
{
    refuse_if(age >= LIMIT, Refusal::Worn)
}

// An ask is for a site that is idle,
pub fn check_idle(status: Status) -> Result<(), Refusal>
    ensures { result ≡ refuse_if (not (is_idle status)) NotIdle }
{
    refuse_if(!status.is_idle(), Refusal::NotIdle)
}

// and a free for one that holds.
pub fn check_holding(status: Status) -> Result<(), Refusal>
    ensures { result ≡ refuse_if (not (is_holding status)) NotHolding }
{
    refuse_if(!status.is_holding(), Refusal::NotHolding)
}

// A step carries out thing number k of those under way.
pub fn check_thing(k: u64, underway: u64) -> Result<(), Refusal>
    ensures { result ≡ refuse_if (nat_le underway k) NoThing }
{
    refuse_if(k >= underway, Refusal::NoThing)
}

// The refusal, if it is due.
fn refuse_if(due: bool, refusal: Refusal) -> Result<(), Refusal>
    ensures refuses_if_due { result ≡ refuse_if due refusal }
{
    if due { Err(refusal) } else { Ok(()) }
}
