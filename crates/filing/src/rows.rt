// A row of the text: a line of seven numbers, of which the last before the totals may have fewer, put behind the rows before it.
ghost use Rattle.std.specs.Prelude.{◌≡◌, ◌||◌, ◌++◌, take, drop, length, eqb, MatchResult};
ghost use Rattle.law.specs.Numbers.{row_cells};
ghost use Rattle.filing.specs.Filing.{total_word, starts_with};
ghost use Rattle.filing.specs.Parts.{held, RowTaken, RowRefused};

use crate::TOTAL;
use crate::lines::{Line, line_of};
use rules::Refusal;

// Seven numbers, or fewer before the totals.
fn is_row(l: &Line<'_, 7>) -> bool
    ensures { result ≡ (eqb (length l.now.numbers.items) row_cells || starts_with total_word l.now.rest.now) }
{
    l.numbers.is_full() || l.rest.starts_with(TOTAL)
}

// The row that a text starts with: seven numbers, or fewer before the totals.
pub fn row_of(text: &[u8]) -> Result<Line<'_, 7>, Refusal>
    ensures { MatchResult result (λ row. RowTaken text.now row.numbers.items row.rest.now) (RowRefused text.now) }
{
    let row = line_of::<7>(text).ok_or(Refusal::BadLine)?;
    if !is_row(&row) {
        return Err(Refusal::BadLine);
    }
    if !row.fits {
        return Err(Refusal::OutOfRange);
    }
    Ok(row)
}

// A row behind the cells of the rows before it, as far as there is room.
pub fn put_row(row: &[u64], count: usize, rows: &mut [u64])
    ensures { rows.new ≡ take count rows.old ++ held (drop count rows.old) row.now }
{
    if count < rows.len() {
        cells::put_figures(row, &mut rows[count..]);
    }
}
