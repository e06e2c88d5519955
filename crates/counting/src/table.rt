// A square table of small numbers, whatever it is stored as, with its rows one after another: how many things are in a row
// and in all, and where the thing is that has so many before it.
ghost use Rattle.std.specs.Prelude.{◌≡◌, ℕ, ◌<◌, ◌≤◌, MatchOption};
ghost use Rattle.counting.specs.Cells.{Small, StandsAt};
ghost use Rattle.counting.specs.Tables.{row, total};

// A thing in a table: its cell, and how many things of the cell come before it.
#[derive(Clone, Copy, PartialEq, Eq, Debug)]
pub struct Spot {
    pub row: usize,
    pub column: usize,
    pub earlier: u64,
}

// The number of a cell's row or of its column, which is below 16, so that the cell is read by an index that needs no test.
#[derive(Clone, Copy)]
pub struct Coordinate {
    pub number: usize,
    pub ghost within: { number < 16 },
}

// The totals are added up in loops: as chains, their sums need the bound of the trait's law, and left three goals each open. The search
// of `find` ends where what is left is less than what is here.
pub trait Table {
    // How many things are in a cell, by its row and its column.
    ghost cells: { Self → ℕ → ℕ → ℕ };

    // How many rows there are, and as many columns.
    ghost side: { Self → ℕ };

    fn side(&self) -> usize
        ensures tells_the_side { result ≡ side self.now };

    fn cell(&self, at: usize, column: usize) -> u64
        ensures tells_the_cell { result ≡ cells self.now at column };

    // The same of numbers that are known to be below 16: `total` and `find` read every cell, and test no index.
    fn cell_at(&self, at: Coordinate, column: Coordinate) -> u64
        ensures tells_the_cell { result ≡ cells self.now at.number column.number }
    {
        self.cell(at.number, column.number)
    }

    // How many things are in a row.
    fn row_total(&self, at: usize) -> u64
        ensures adds_up_the_row { result ≡ row (cells self.now) (side self.now) at }
        ensures is_small { result ≤ 32 }
    {
        let mut count = 0;
        for column in 0..self.side() {
            count += self.cell(at, column);
        }
        count
    }

    // How many things are in the table.
    fn total(&self) -> u64
        ensures adds_up_the_table { result ≡ total (cells self.now) (side self.now) }
        ensures is_small { result ≤ 512 }
    {
        let mut count = 0;
        for at in 0..self.side() {
            for column in 0..self.side() {
                count += self.cell_at(Coordinate { number: at }, Coordinate { number: column });
            }
        }
        count
    }

    // The thing that has so many before it, by row and then by column, if there are more than so many.
    fn find(&self, before: u64) -> Option<Spot>
        ensures finds_the_thing { MatchOption result (total (cells self.now) (side self.now) ≤ before) (StandsAt (cells self.now) (side self.now) before) }
    {
        let mut left = before;
        for at in 0..self.side() {
            for column in 0..self.side() {
                let here = self.cell_at(Coordinate { number: at }, Coordinate { number: column });
                if left < here {
                    return Some(Spot {
                        row: at,
                        column,
                        earlier: left,
                    });
                }
                left -= here;
            }
        }
        None
    }

    // The table is small enough for its totals to be numbers of the machine.
    ghost bounds: { (t : Self) → Small (cells t) (side t) };
}
