// The roll itself: the type. What it answers stands in list/questions.rt, how one goes over it in list/iteration.rt, and how it is
// made and changes in list/changes.rt.
ghost use Rattle.std.specs.Prelude.{◌≤◌, length};

mod changes;
mod iteration;
mod questions;

// A roll is a list that only grows at its end, or is emptied, and that lies in memory lent by the caller: the elements
// written so far stand in the first `len` places of `items`, and the places after them are free. A slice and a length, and not
// `arrayvec` or `Vec`: a rule of the project is that the caller lends the memory, and reads it after the roll is gone.
#[derive(Drop)]
pub struct Roll<'a, T: Copy> {
    items: &'a mut [T],
    len: usize,
    ghost fits: { len ≤ length items.now },
}
