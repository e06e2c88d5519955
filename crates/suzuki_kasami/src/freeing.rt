// What a free does.
ghost use Rattle.std.specs.Prelude.{◌≡◌, ◌-◌, ◌<◌, Some, None};
ghost use Rattle.std.specs.List.{range_with_len};
ghost use Rattle.manager.specs.Meaning.{limit};
ghost use Rattle.suzuki_rules.specs.Invariant.{Sound};
ghost use Rattle.suzuki_rules.specs.Rules.{freed, order};
ghost use Rattle.suzuki_rules.specs.declared.Token.TheVariants.{Sent};
ghost use Rattle.suzuki_kasami.specs.Reading.{state_of};
ghost use Rattle.suzuki_kasami.specs.Waiting.{gathered, noted};

use crate::state::SuzukiKasami;
use arrayvec::ArrayVec;
use manager::status::Status;
use suzuki_rules::Token;

impl SuzukiKasami {
    // Notes the site's request as served, queues whoever it knows to wait, and sends the token to the first of the queue.
    pub(crate) fn release(&mut self, site: usize)
        requires { (site < self.old.island.sites) × (self.old.island.age < limit) }
        ensures { Sound (state_of self.old) → state_of self.new ≡ freed (state_of self.old) site }
    {
        let mut queue = self.queue.take();
        self.search(&mut queue, site);
        self.token = self.passed_to(queue.pop_at(0));
        self.queue = queue;
        self.served[site] = self.known[site][site];
        self.island.status[site] = Status::Idle;
        self.island.age += 1;
    }

    // The token, sent to the next site, if there is one.
    fn passed_to(&self, next: Option<usize>) -> Token
        ensures sends_it_to_the_next { result ≡ elim next [ Some site ↦ Sent site | None ↦ self.now.token ] }
    {
        next.map_or(self.token, Token::Sent)
    }

    // Queues all others that the site knows to wait: those after it, then those before it. The site is one of the island's, so
    // that `site + 1` does not overflow.
    fn search(&self, queue: &mut ArrayVec<usize, 16>, site: usize)
        requires { site < self.now.island.sites }
        ensures goes_through_all_in_order { queue.new.items ≡ gathered (state_of self.now) site queue.old.items (order site self.now.island.sites) }
    {
        self.search_among(queue, site, site + 1, self.island.sites);
        self.search_among(queue, site, 0, site);
    }

    // Queues those that the site knows to wait, of the sites from one number on and below another. Called twice in place of one loop over
    // a chain of two ranges, which asks at each site in which range it is.
    fn search_among(&self, queue: &mut ArrayVec<usize, 16>, site: usize, from: usize, to: usize)
        ensures goes_through_them_in_order { queue.new.items ≡ gathered (state_of self.now) site queue.old.items (range_with_len from (to - from)) }
    {
        for other in from..to {
            self.enqueue(queue, site, other);
        }
    }

    // Queues the other site, if it is known to wait, unless the queue is full or has it already. Whether it waits is asked first: of most
    // sites it is not known.
    fn enqueue(&self, queue: &mut ArrayVec<usize, 16>, site: usize, other: usize)
        ensures notes_the_other { queue.new.items ≡ noted (state_of self.now) site queue.old.items other }
    {
        if self.wants(site, other) && !queue.is_full() && !queue.contains(&other) {
            queue.push(other);
        }
    }
}
