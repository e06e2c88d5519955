// What the sites know of each other. Each question is answered of every number: a site that is not there has asked for nothing.
ghost use Rattle.std.specs.Prelude.{◌≡◌, not, ◌&&◌, ◌==◌, slice_index_or};
ghost use Rattle.counting.specs.Tests.{any};
ghost use Rattle.ricart_rules.specs.Reading.{is_called};
ghost use Rattle.ricart_rules.specs.Rules.{defers};
ghost use Rattle.ricart_rules.specs.State.{earlier, lacks, is_deferred, is_received};
ghost use Rattle.ricart_agrawala.specs.Reading.{first_clock, state_of};

use crate::state::{Clock, RicartAgrawala};
use counting::stored::cell_or;
use manager::status::Status;
use ricart_rules::Stage;

impl RicartAgrawala {
    // The numbers that the site knows.
    pub(crate) fn clock(&self, site: usize) -> Clock
        ensures tells_the_numbers { result ≡ slice_index_or self.now.clocks site first_clock }
    {
        self.clocks.get(site).copied().unwrap_or(Clock::FIRST)
    }

    // How far the site's request has come with the other.
    pub(crate) fn stage(&self, site: usize, other: usize) -> Stage
        ensures tells_the_stage { result ≡ (state_of self.now).stage site other }
    {
        cell_or(&self.stages, site, other, Stage::Unasked)
    }

    // Is the site's stamp earlier than the other's? Equal numbers go by the site.
    fn is_earlier(&self, site: usize, other: usize) -> bool
        ensures { result ≡ earlier (state_of self.now) site other }
    {
        (self.clock(site).number, site) < (self.clock(other).number, other)
    }

    // Does the site, with the other's REQUEST before it, defer the answer?
    pub(crate) fn defers(&self, site: usize, other: usize) -> bool
        ensures { result ≡ defers (state_of self.now) site other }
    {
        match self.island.status_of(site) {
            Status::Idle => false,
            Status::Waiting => self.is_earlier(site, other),
            Status::Holding => true,
        }
    }

    // Is the other's REPLY to the site yet to come?
    fn awaits(&self, site: usize, other: usize) -> bool
        ensures { result ≡ (not (other == site) && not (is_received ((state_of self.now).stage site other))) }
    {
        other != site && self.stage(site, other) != Stage::Received
    }

    // Does the site lack the REPLY of another?
    pub(crate) fn lacks_reply(&self, site: usize) -> bool
        ensures { result ≡ lacks self.now.island.sites site ((state_of self.now).stage site) }
    {
        (0..self.island.sites).any(|other| self.awaits(site, other))
    }

    // Has the site deferred its answer to the other?
    fn has_deferred(&self, site: usize, other: usize) -> bool
        ensures { result ≡ is_deferred ((state_of self.now).stage other site) }
    {
        self.stage(other, site) == Stage::Deferred
    }

    // Does the site hold while somebody is known to want the resource?
    pub(crate) fn is_called(&self, site: usize) -> bool
        ensures { result ≡ is_called (state_of self.now) site }
    {
        self.island.status_of(site).is_holding() && self.has_deferred_any(site)
    }

    // Has the site deferred its answer to anybody?
    fn has_deferred_any(&self, site: usize) -> bool
        ensures { result ≡ any (λ j. is_deferred ((state_of self.now).stage j site)) self.now.island.sites }
    {
        (0..self.island.sites).any(|other| self.has_deferred(site, other))
    }
}
