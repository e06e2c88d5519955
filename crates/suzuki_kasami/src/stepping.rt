// What a step does: one of the things under way comes to where it goes.
ghost use Rattle.std.specs.Prelude.{◌≡◌, ◌<◌, ◌&&◌, [], false, if◌then◌else◌, max, slice_index, slice_index_or};
ghost use Rattle.manager.specs.Meaning.{limit, is_idle};
ghost use Rattle.suzuki_rules.specs.Reading.{meaning_of};
ghost use Rattle.suzuki_rules.specs.Rules.{received, arrived, Delivered};
ghost use Rattle.suzuki_rules.specs.State.{has_token, wants};
ghost use Rattle.suzuki_rules.specs.declared.Token.TheVariants.{Sent};
ghost use Rattle.suzuki_kasami.specs.Reading.{state_of};
ghost use Rattle.suzuki_kasami.specs.Writes.{with_cell, SameButLinks};

use crate::state::SuzukiKasami;
use counting::table::Table;
use manager::status::Status;
use suzuki_rules::Token;

impl SuzukiKasami {
    // Carries out thing number k of those under way, and answers the site that the token came to, if it was the token.
    pub(crate) fn deliver(&mut self, k: u64) -> Option<usize>
        requires { (k < (meaning_of (state_of self.old)).underway) × (self.old.island.age < limit) }
        ensures { Delivered (state_of self.old) k result (state_of self.new) }
    {
        if let Some(spot) = self.find(k) {
            self.receive(spot.row, spot.column);
            return None;
        }
        let Token::Sent(site) = self.token else {
            unreachable()
        };
        self.arrive(site);
        Some(site)
    }

    // A REQUEST comes to its receiver, which keeps the larger number, and sends the token if it is to.
    fn receive(&mut self, sender: usize, receiver: usize)
        requires { (sender < self.old.island.sites) × ((receiver < self.old.island.sites) × (self.old.island.age < limit)) }
        ensures { state_of self.new ≡ received (state_of self.old) sender receiver (slice_index (slice_index_or self.old.known sender []) sender) }
    {
        self.take_in(sender, receiver);
        self.token = self.forwarded(receiver, sender);
        self.island.age += 1;
    }

    // The REQUEST is under way no longer, and its receiver keeps the larger number.
    fn take_in(&mut self, sender: usize, receiver: usize)
        requires { (sender < 16) × (receiver < 16) }
        ensures takes_the_request { self.new.requests ≡ with_cell self.old.requests sender receiver false }
        ensures keeps_the_larger_number { self.new.known ≡ with_cell self.old.known receiver sender
            (max ((state_of self.old).known receiver sender) ((state_of self.old).known sender sender)) }
        ensures leaves_the_rest { SameButLinks self.old self.new }
    {
        let number = self.known[sender][sender];
        self.requests[sender][receiver] = false;
        self.known[receiver][sender] = self.known[receiver][sender].max(number);
    }

    // The token, after a REQUEST of the other site came to this one: if it rests here and the other waits, it is sent there.
    fn forwarded(&self, site: usize, other: usize) -> Token
        ensures sends_it_where_due { result ≡ (if has_token (state_of self.now) site
            && (is_idle ((state_of self.now).status site) && wants (state_of self.now) site other) then Sent other else self.now.token) }
    {
        if self.has_token(site)
            && self.island.status_of(site).is_idle()
            && self.wants(site, other)
        {
            Token::Sent(other)
        } else {
            self.token
        }
    }

    // The token comes to the site, which holds from then on.
    fn arrive(&mut self, site: usize)
        requires { (site < 16) × (self.old.island.age < limit) }
        ensures { state_of self.new ≡ arrived (state_of self.old) site }
    {
        self.island.status[site] = Status::Holding;
        self.token = Token::At(site);
        self.island.age += 1;
    }
}
