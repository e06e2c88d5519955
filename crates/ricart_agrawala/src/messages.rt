// The messages under way, as a table of how many are from one site to another.
ghost use Rattle.std.specs.Prelude.{◌≡◌, ◌≤◌, nat_lt};
ghost use Rattle.ricart_rules.specs.Rules.{requests, replies, messages};
ghost use Rattle.ricart_rules.proofs.Facts.{messages_most};
ghost use Rattle.ricart_agrawala.specs.Reading.{state_of};

use crate::state::RicartAgrawala;
use counting::table::{Coordinate, Table};
use ricart_rules::Stage;

// Messages are numbered by sender, then by receiver, on each link the REQUEST before the REPLY.
impl Table for RicartAgrawala {
    ghost cells = { λ m. messages (state_of m) };

    ghost side = { λ m. m.island.sites };

    ghost bounds = { λ m. record { few_rows = m.island.most; few_in_a_cell = messages_most (state_of m) } };

    fn side(&self) -> usize {
        self.island.sites
    }

    fn cell(&self, sender: usize, receiver: usize) -> u64 {
        self.requests(sender, receiver) + self.replies(sender, receiver)
    }

    fn cell_at(&self, sender: Coordinate, receiver: Coordinate) -> u64 {
        u64::from(self.stages[sender.number][receiver.number] == Stage::Requested)
            + u64::from(self.stages[receiver.number][sender.number] == Stage::Replied)
    }
}

impl RicartAgrawala {
    // How many REQUESTs are under way from one site to another: one at most.
    fn requests(&self, sender: usize, receiver: usize) -> u64
        ensures { (result ≡ requests (state_of self.now) sender receiver) × (result ≤ 1) }
    {
        u64::from(self.stage(sender, receiver) == Stage::Requested)
    }

    // How many REPLYs are, one at most.
    fn replies(&self, sender: usize, receiver: usize) -> u64
        ensures { (result ≡ replies (state_of self.now) sender receiver) × (result ≤ 1) }
    {
        u64::from(self.stage(receiver, sender) == Stage::Replied)
    }

    // Of the messages from one site to another, is the one that has k before it the REQUEST? It comes before the REPLY.
    pub(crate) fn is_request(&self, k: u64, sender: usize, receiver: usize) -> bool
        ensures is_true_of_the_first { result ≡ nat_lt k (requests (state_of self.now) sender receiver) }
    {
        k < self.requests(sender, receiver)
    }
}
