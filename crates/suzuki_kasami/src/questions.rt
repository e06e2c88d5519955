// What a manager tells of itself.
ghost use Rattle.std.specs.Prelude.{◌≡◌};
ghost use Rattle.suzuki_rules.specs.Reading.{meaning_of, is_called, wanted};
ghost use Rattle.suzuki_rules.specs.State.{has_token, wants};
ghost use Rattle.suzuki_kasami.specs.Reading.{state_of};

use crate::state::SuzukiKasami;
use counting::stored::cell_or;
use counting::table::Table;
use suzuki_rules::Token;

impl SuzukiKasami {
    // Is the token at the site? A `match`: of `==` the clause speaks of coded values, and no proof closed.
    pub(crate) fn has_token(&self, site: usize) -> bool
        ensures { result ≡ has_token (state_of self.now) site }
    {
        match self.token {
            Token::At(place) => place == site,
            Token::Sent(_) => false,
        }
    }

    // The largest request number of the other site that the site knows.
    fn known_at(&self, site: usize, other: usize) -> u64
        ensures tells_the_number { result ≡ (state_of self.now).known site other }
    {
        cell_or(&self.known, site, other, 0)
    }

    // The last request number of the site that was served.
    fn served_at(&self, site: usize) -> u64
        ensures tells_the_number { result ≡ (state_of self.now).served site }
    {
        self.served.get(site).copied().unwrap_or(0)
    }

    // As far as one site knows, does the other wait?
    pub(crate) fn wants(&self, site: usize, other: usize) -> bool
        ensures { result ≡ wants (state_of self.now) site other }
    {
        self.known_at(site, other)
            .checked_sub(1)
            .is_some_and(|last| last == self.served_at(other))
    }

    // Does the site know another to wait?
    fn wanted(&self, site: usize) -> bool
        ensures { result ≡ wanted (state_of self.now) site self.now.island.sites }
    {
        (0..self.island.sites).any(|other| self.wants(site, other) && other != site)
    }

    // Does the site hold while somebody is known to want the resource?
    pub(crate) fn is_called(&self, site: usize) -> bool
        ensures { result ≡ is_called (state_of self.now) site }
    {
        self.island.status_of(site).is_holding() && (!self.queue.is_empty() || self.wanted(site))
    }

    // How many things are under way: the REQUESTs, and the token if it is.
    pub(crate) fn things(&self) -> u64
        ensures { result ≡ (meaning_of (state_of self.now)).underway }
    {
        match self.token {
            Token::At(_) => self.total(),
            Token::Sent(_) => self.total() + 1,
        }
    }
}
