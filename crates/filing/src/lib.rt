// The text of a filing read into cells: rows of seven numbers, then five totals.
#![tactic(auto)]

mod lines;
mod numbers;
mod rows;
mod totals;

ghost use Rattle.filing.specs.Filing.{filing_on_paper, Promise};

use crate::rows::{put_row, row_of};
use crate::totals::totals_of;
use rules::Refused;

// How many cells the rows of a text have; and its totals, or what refuses the text, with its line.
// Kept: a count beside the lent rows, since `Promise` of `read_filing` counts also the cells that found no room.
#[derive(Clone, Copy, Debug, PartialEq, Eq)]
pub struct Filing {
    pub count: usize,
    pub totals: Result<[u64; 5], Refused>,
}

// The word of the totals.
const TOTAL: &[u8] = b"total ";

// A text's rows, put into the lent cells as far as there is room, line after line up to the totals or to what is refused.
pub fn read_filing(text: &[u8], rows: &mut [u64]) -> Filing
    ensures { Promise text.now rows.old (filing_on_paper result) rows.new }
{
    let mut rest = text;
    let mut line: usize = 1;
    let mut count: usize = 0;
    // Kept: `loop`: only the line that is read says how far a turn goes, so that a `for` would be no plainer.
    loop {
        if let Some(figures) = rest.strip_prefix(TOTAL) {
            return Filing {
                count,
                totals: totals_of(figures, line),
            };
        }
        match row_of(rest) {
            Ok(row) => {
                put_row(&row.numbers, count, rows);
                count += row.numbers.len();
                line += 1;
                rest = row.rest;
            }
            Err(refusal) => {
                return Filing {
                    count,
                    totals: Err(Refused {
                        refusal,
                        place: line,
                    }),
                };
            }
        }
    }
}
