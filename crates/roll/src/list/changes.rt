// How a roll is made, grows and is emptied. Each clause `lender` says that the roll still lies in the memory that it was
// given, so that the lender, who reads that memory afterwards, knows what it holds.
ghost use Rattle.std.specs.Prelude.{◌≡◌, [], Err};
ghost use Rattle.manager.specs.declared.refusal.Refusal.TheVariants.{RollFull};
ghost use Rattle.roll.specs.Contents.{written};
ghost use Rattle.roll.specs.Push.{push_answer, pushed_contents, pushed_len, pushed_memory};

use crate::list::Roll;
use manager::refusal::Refusal;

impl<'a, T: Copy> Roll<'a, T> {
    // An empty roll over the lent memory.
    pub fn new(items: &'a mut [T]) -> Roll<'a, T>
        ensures empty { result.len ≡ 0 }
        ensures contents { written result ≡ [] }
        ensures memory { result.items.now ≡ items.old }
        ensures lender { result.items.ghost_name ≡ items.entry.ghost_name }
    {
        Roll { items, len: 0 }
    }

    // Adds an element at the end. A full roll refuses, and stays as it is.
    pub fn push(&mut self, x: T) -> Result<(), Refusal>
        ensures answers { result ≡ push_answer self.old }
        ensures contents { written self.new ≡ pushed_contents self.old x }
        ensures grows { self.new.len ≡ pushed_len self.old }
        ensures memory { self.new.items.now ≡ pushed_memory self.old x }
        ensures refused { result ≡ Err RollFull → self.new ≡ self.old }
        ensures lender { self.new.items.ghost_name ≡ self.old.items.ghost_name }
    {
        if self.len == self.items.len() {
            return Err(Refusal::RollFull);
        }
        self.items[self.len] = x;
        self.len += 1;
        Ok(())
    }

    // Empties the roll. The lent memory keeps what was written.
    pub fn clear(&mut self)
        ensures empty { self.new.len ≡ 0 }
        ensures contents { written self.new ≡ [] }
        ensures memory { self.new.items.now ≡ self.old.items.now }
        ensures lender { self.new.items.ghost_name ≡ self.old.items.ghost_name }
    {
        self.len = 0;
    }
}
