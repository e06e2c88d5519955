// What an island makes of a row that has a place for each site.
ghost use Rattle.std.specs.Prelude.{◌≡◌, ℕ, not, ◌&&◌, if◌then◌else◌, ◌==◌, nat_lt, slice_index_or};

use crate::island::Island;

impl Island {
    // The row, with the value in the places of all sites of the island but one.
    pub fn with_others<T: Copy>(&self, mut row: [T; 16], site: usize, value: T) -> [T; 16]
        ensures changes_the_others_alone { (j : ℕ) (d : T) → slice_index_or result j d
            ≡ (if nat_lt j self.now.sites && not (j == site) then value else slice_index_or row j d) }
    {
        for (other, place) in row[..self.sites].iter_mut().enumerate() {
            if other != site {
                *place = value;
            }
        }
        row
    }
}
