// What a roll answers: how many elements it has and can still take, which they are, and how many tell a site.
ghost use Rattle.std.specs.Prelude.{◌≡◌, ◌==◌};
ghost use Rattle.std.specs.List.{slice_get};
ghost use Rattle.roll.specs.Contents.{written, room_of};
ghost use Rattle.roll.specs.Tellers.{tellers};

use crate::list::Roll;
use crate::telling::TellsSite;

impl<'a, T: Copy> Roll<'a, T> {
    // How many elements there are.
    pub fn len(&self) -> usize
        ensures { result ≡ self.now.len }
    {
        self.len
    }

    pub fn is_empty(&self) -> bool
        ensures tells_whether_none { result ≡ (self.now.len == 0) }
    {
        self.as_slice().is_empty()
    }

    // How many places are free.
    pub fn room(&self) -> usize
        ensures { result ≡ room_of self.now }
    {
        self.items.len() - self.len
    }

    // The elements, first to last.
    pub fn as_slice(&self) -> &[T]
        ensures has_the_elements_in_order { result.now ≡ written self.now }
    {
        &self.items[..self.len]
    }

    // The element at a place, counting from 0, if there is one.
    pub fn get(&self, place: usize) -> Option<T>
        ensures { result ≡ slice_get (written self.now) place }
    {
        self.as_slice().get(place).copied()
    }
}

impl<'a, T: Copy + TellsSite> Roll<'a, T> {
    // How many elements tell the site. A `for`: a chain of `filter` and `count` took up to twice the time.
    pub fn count(&self, site: usize) -> usize
        ensures { result ≡ tellers T.TellsSite.told (written self.now) site }
    {
        let mut found = 0;
        for item in self.as_slice() {
            if item.site() == site {
                found += 1;
            }
        }
        found
    }
}
