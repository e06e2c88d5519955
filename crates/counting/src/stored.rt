// How a table that is stored as rows of 16 is read.
ghost use Rattle.std.specs.Prelude.{◌≡◌, [], slice_index_or};

// A cell of the table, or the default where there is none. A `match` and not `and_then`, since the check reads nothing off a generic
// closure.
pub fn cell_or<T: Copy>(rows: &[[T; 16]; 16], row: usize, column: usize, default: T) -> T
    ensures reads_the_cell { result ≡ slice_index_or (slice_index_or rows.now row []) column default }
{
    match rows.get(row) {
        Some(cells) => cells.get(column).copied().unwrap_or(default),
        None => default,
    }
}
