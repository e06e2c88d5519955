// How one goes over the elements of a roll: by `iter`, or by a `for` over the roll itself.
ghost use Rattle.std.specs.Prelude.{◌≡◌};
ghost use Rattle.std.specs.Slice.Iter.{iter_rest};
ghost use Rattle.roll.specs.Contents.{written};

use crate::list::Roll;
use std::slice;

impl<'a, T: Copy> Roll<'a, T> {
    // Goes over the elements, first to last.
    pub fn iter(&self) -> slice::Iter<'_, T>
        ensures goes_over_the_elements_in_order { iter_rest result ≡ written self.now }
    {
        self.as_slice().iter()
    }
}

impl<'b, 'a, T: Copy> IntoIterator for &'b Roll<'a, T> {
    type Item = &'b T;

    type IntoIter = slice::Iter<'b, T>;

    ghost into_iter_gives = { λ roll it. iter_rest it ≡ written roll.now };

    fn into_iter(self) -> slice::Iter<'b, T> {
        self.iter()
    }
}
