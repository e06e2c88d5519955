// What a manager stores. specs/Reading.antt says which state of the algorithm that is.
ghost use Rattle.std.specs.Prelude.{◌≡◌, ℕ, ◌<◌, [], length, slice_index_or};

use manager::island::Island;
use ricart_rules::Stage;

// The numbers that a site knows.
#[derive(Clone, Copy)]
pub(crate) struct Clock {
    // The highest that it has received in a REQUEST.
    pub(crate) highest: u64,
    // The one in its own stamp, while it is not idle.
    pub(crate) number: u64,
}

impl Clock {
    // What a site knows when the manager is parked.
    pub(crate) const FIRST: Clock = Clock {
        highest: 1,
        number: 1,
    };
}

// The stages are a table by pairs of sites, as the rules have it, and the statuses lie together in the island, which answers of
// them: a struct for each site would split both.
#[derive(Drop)]
pub struct RicartAgrawala {
    pub(crate) island: Island,
    pub(crate) clocks: [Clock; 16],
    // stages[i][j]: how far the request of site i has come with site j. A REQUEST under way carries i's stamp.
    pub(crate) stages: [[Stage; 16]; 16],
    ghost wide: { ((i : ℕ) → i < 16 → length (slice_index_or stages i []) ≡ 16) },
}
