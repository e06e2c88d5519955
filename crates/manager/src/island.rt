// The sites of an island, whatever the algorithm by which they share the resource: how many there are, what each is doing, and
// how many calls have been carried out. What follows from that alone stands in island/questions.rt, once for every kind.
ghost use Rattle.std.specs.Prelude.{◌≤◌};
ghost use Rattle.manager.specs.Meaning.{limit};

use crate::status::Status;

mod questions;
mod rows;

#[derive(Drop)]
pub struct Island {
    // Sites are numbered from 0, and have the first places. No `ArrayVec` of so many: past the last site the rules read idle.
    pub sites: usize,
    pub status: [Status; 16],
    // The asks, frees and steps since parking.
    pub age: u64,
    pub ghost fewest: { 2 ≤ sites },
    pub ghost most: { sites ≤ 16 },
    pub ghost young: { age ≤ limit },
}
