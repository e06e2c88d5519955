// What an island answers of its sites, and when it refuses a call that names one of them.
ghost use Rattle.std.specs.Prelude.{◌≡◌, ◌-◌, ◌*◌, min, max, replicate, slice_index_or, slice_set};
ghost use Rattle.manager.specs.Answers.{answer, status_shown, holder_shown};
ghost use Rattle.manager.specs.Islands.{alone};
ghost use Rattle.manager.specs.Refusals.{refused, site_order, ask_order, free_order, step_order};
ghost use Rattle.manager.specs.declared.status.Status.TheVariants.{Idle, Holding};

use crate::checks::{check_age, check_holding, check_idle, check_site, check_thing};
use crate::holder::first_holding;
use crate::island::Island;
use crate::refusal::Refusal;
use crate::status::Status;

impl Island {
    // An island of as many sites as fit, fewer than 2 making 2 and more than 16 making 16, of which this one holds. Where there is no
    // such site none holds.
    pub fn parked(sites: usize, site: usize) -> Island
        ensures has_as_many_sites_as_fit { result.sites ≡ max 2 (min sites 16) }
        ensures its_place_alone_holds { result.status ≡ slice_set (replicate 16 Idle) site Holding }
        ensures has_carried_out_nothing { result.age ≡ 0 }
    {
        let mut status = [Status::Idle; 16];
        if site < status.len() {
            status[site] = Status::Holding;
        }
        Island {
            sites: sites.clamp(2, 16),
            status,
            age: 0,
        }
    }

    // What the site is doing. Past the sixteenth place there is no site, and it reads as idle.
    pub fn status_of(&self, site: usize) -> Status
        ensures tells_the_status { result ≡ slice_index_or self.now.status site Idle }
    {
        self.status.get(site).copied().unwrap_or(Status::Idle)
    }

    pub fn status(&self, site: usize) -> Result<Status, Refusal>
        ensures shows_the_status { result ≡ status_shown (alone self.now 0) site }
    {
        // Tested by the check itself and not by `names`, whose promise does not tell that the index is in range.
        let sites = self.sites;
        check_site(site, sites)?;
        Ok(self.status[site])
    }

    // The site that holds, if one does.
    pub fn holder(&self) -> Option<usize>
        ensures shows_the_holder { result ≡ holder_shown (alone self.now 0) }
    {
        first_holding(&self.status, self.sites)
    }

    // A call of a site sends a message to each other site, and each of them one back, at most.
    pub fn toll(&self) -> u64
        ensures tells_two_for_each_other_site { result ≡ 2 * (self.now.sites - 1) }
    {
        2 * (self.sites as u64 - 1)
    }

    // A call may name a site of the island.
    pub fn names(&self, site: usize) -> Result<(), Refusal>
        ensures refuses_where_no_such_site { result ≡ answer (refused site_order (alone self.now 0) site) tt }
    {
        check_site(site, self.sites)
    }

    // An ask is for an idle site of the island,
    pub fn may_ask(&self, site: usize) -> Result<(), Refusal>
        ensures refuses_as_an_ask_does { result ≡ answer (refused ask_order (alone self.now 0) site) tt }
    {
        self.names(site)?;
        check_age(self.age)?;
        check_idle(self.status_of(site))
    }

    // a free for one that holds,
    pub fn may_free(&self, site: usize) -> Result<(), Refusal>
        ensures refuses_as_a_free_does { result ≡ answer (refused free_order (alone self.now 0) site) tt }
    {
        self.names(site)?;
        check_age(self.age)?;
        check_holding(self.status_of(site))
    }

    // and a step for one of the things under way.
    pub fn may_step(&self, k: u64, underway: u64) -> Result<(), Refusal>
        ensures refuses_as_a_step_does { result ≡ answer (refused step_order (alone self.now underway) k) tt }
    {
        check_age(self.age)?;
        check_thing(k, underway)
    }
}
