// The REQUESTs under way, as a table by sender and receiver.
ghost use Rattle.suzuki_rules.specs.Rules.{requests};
ghost use Rattle.suzuki_kasami.specs.Reading.{state_of};
ghost use Rattle.suzuki_rules.proofs.Facts.{requests_small};

use crate::state::SuzukiKasami;
use counting::stored::cell_or;
use counting::table::{Coordinate, Table};

impl Table for SuzukiKasami {
    ghost cells = { λ m. requests (state_of m) };

    ghost side = { λ m. m.island.sites };

    fn side(&self) -> usize {
        self.island.sites
    }

    fn cell(&self, at: usize, column: usize) -> u64 {
        u64::from(column < self.island.sites && cell_or(&self.requests, at, column, false))
    }

    fn cell_at(&self, at: Coordinate, column: Coordinate) -> u64 {
        u64::from(column.number < self.island.sites && self.requests[at.number][column.number])
    }

    ghost bounds = { λ m. requests_small (state_of m) m.island.most };
}
