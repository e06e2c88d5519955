// What a manager stores. specs/Reading.antt says which state of the algorithm that is.
ghost use Rattle.std.specs.Prelude.{◌≡◌, ℕ, ◌<◌, [], length, slice_index_or};
ghost use Rattle.suzuki_kasami.specs.Places.{place};
ghost use Rattle.suzuki_kasami.specs.Waiting.{AllBelow};

use arrayvec::ArrayVec;
use manager::island::Island;
use suzuki_rules::Token;

// What the sites know are tables by pairs of sites, each as the rules have it, and the statuses lie together in the island, which
// answers of them: a struct for each site would split both.
#[derive(Drop)]
pub struct SuzukiKasami {
    pub(crate) island: Island,
    // known[i][j]: the largest request number of site j that site i knows; known[i][i] is i's own.
    pub(crate) known: [[u64; 16]; 16],
    // requests[i][j]: a REQUEST from i to j is under way. It carries i's own number.
    pub(crate) requests: [[bool; 16]; 16],
    pub(crate) token: Token,
    // For each site the last request number that was served.
    pub(crate) served: [u64; 16],
    // The queue that the token carries: the sites that it goes to next, in order.
    pub(crate) queue: ArrayVec<usize, 16>,
    ghost wide: { ((i : ℕ) → i < 16 → (length (slice_index_or known i []) ≡ 16) × (length (slice_index_or requests i []) ≡ 16)) },
    ghost placed: { place token < 16 },
    ghost within: { AllBelow queue.items 16 },
}
