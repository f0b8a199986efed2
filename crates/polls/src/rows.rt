ghost use Rattle.std.specs.Prelude.{◌≡◌, map, length, replicate};
ghost use Rattle.health.specs.Rows.{row_of, clear_row};

use health::Row;

// Clears one row.
fn clear_row(row: &mut Row)
    ensures { row_of row.new ≡ clear_row }
{
    *row = Row::clear();
}

// Clears every row. No `fill`: no must-fail edit of it lets each row keep its own events, and one of `clear_row` does.
pub fn clear_rows(rows: &mut [Row])
    ensures { map row_of rows.new ≡ replicate (length rows.old) clear_row }
{
    for row in rows.iter_mut() {
        clear_row(row);
    }
}
