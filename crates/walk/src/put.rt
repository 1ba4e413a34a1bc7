// A line's row put into the rows of a walk.
ghost use Rattle.std.specs.Prelude.{◌≡◌, ◌*◌, ◌<◌, length, get_or};
ghost use Rattle.law.specs.Numbers.{most_lines, row_cells, most_cells};
ghost use Rattle.walk.specs.Books.{put_from};

// A row's seven cells behind those of the lines before.
// Kept: a line's number and no rest of the rows: Promise of `rules` speaks of 336 cells in one table.
pub fn put_row(rows: &mut [u64], line: usize, row: [u64; 7])
    requires { (line < most_lines) × (length rows.old ≡ most_cells) }
    ensures { rows.new ≡ put_from (λ k. get_or row k 0) row_cells (row_cells * line) rows.old }
{
    let from = 7 * line;
    cells::put_figures(&row, &mut rows[from..]);
}
