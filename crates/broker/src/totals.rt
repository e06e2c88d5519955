// The totals of what a broker carried out since it was started. They never exceed the age at which a manager is worn out, so
// counting one more is a plain sum.
ghost use Rattle.std.specs.Prelude.{◌≡◌, ◌+◌, ◌-◌, ◌<◌, ◌≤◌, length, replicate, slice_index, slice_set};
ghost use Rattle.manager.specs.Meaning.{limit};

// How many asks, frees and steps were carried out, and for each site the total of steps when it last asked.
#[derive(Drop)]
pub(crate) struct Totals {
    pub(crate) asks: u64,
    pub(crate) frees: u64,
    pub(crate) steps: u64,
    pub(crate) asked: [u64; 64],
    ghost within: { asks + frees + steps ≤ limit },
}

impl Totals {
    ghost use Rattle.broker.specs.Counting.{Counts, age_of};

    // Nothing is carried out yet, and no site has asked.
    pub(crate) fn new() -> Totals
        ensures nothing_is_counted { Counts result 0 0 0 (replicate 64 0) }
    {
        Totals {
            asks: 0,
            frees: 0,
            steps: 0,
            asked: [0; 64],
        }
    }

    // How many calls were carried out: a manager that was parked at the start is as old.
    pub(crate) fn age(&self) -> u64
        ensures adds_up_the_calls { result ≡ age_of self.now }
    {
        self.asks + self.frees + self.steps
    }

    // One more ask is carried out, by this site, with so many steps so far.
    pub(crate) fn count_ask(&mut self, site: usize)
        requires is_site { site < 64 }
        requires not_worn { age_of self.old < limit }
        ensures one_more_ask { Counts self.new (self.old.asks + 1) self.old.frees self.old.steps (slice_set self.old.asked site self.old.steps) }
        ensures has_a_place_for_each_site { length self.old.asked ≡ 64 }
    {
        self.asks += 1;
        self.asked[site] = self.steps;
    }

    // One more free is carried out.
    pub(crate) fn count_free(&mut self)
        requires not_worn { age_of self.old < limit }
        ensures one_more_free { Counts self.new self.old.asks (self.old.frees + 1) self.old.steps self.old.asked }
    {
        self.frees += 1;
    }

    // One more step is carried out.
    pub(crate) fn count_step(&mut self)
        requires not_worn { age_of self.old < limit }
        ensures one_more_step { Counts self.new self.old.asks self.old.frees (self.old.steps + 1) self.old.asked }
    {
        self.steps += 1;
    }

    // The steps carried out since the site last asked.
    pub(crate) fn since_ask(&self, site: usize) -> u64
        ensures steps_less_those_at_the_ask { result ≡ self.now.steps - slice_index self.now.asked site }
    {
        self.steps
            .saturating_sub(self.asked.get(site).copied().unwrap_or(0))
    }
}
