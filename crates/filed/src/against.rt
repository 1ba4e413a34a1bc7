// The filed cells beside the account of the file.
ghost use Rattle.std.specs.Prelude.{◌*◌, ◌≤◌};
ghost use Rattle.law.specs.Numbers.{row_cells, most_cells};
ghost use Rattle.filed.specs.Filed.{verdict_on_paper};
ghost use Rattle.filed.specs.Parts.{CheckedBy};

use crate::Verdict;
use crate::compare::verdict_of;
use rules::{Refusal, Refused};
use walk::Walked;

// "Wrong row count", with place 0.
// Kept: place 0 written out: a call for it would hide the 0 and be no plainer.
pub const WRONG_COUNT: Refused = Refused {
    refusal: Refusal::RowCount,
    place: 0,
};

// Of an accepted file: 22, or the cells compared.
pub fn against_account(w: &Walked, rows: &[u64], totals: &[u64; 5]) -> Result<Verdict, Refused>
    requires { row_cells * w.now.account.lines ≤ most_cells }
    ensures { CheckedBy w.now rows.now totals.now (verdict_on_paper result) }
{
    let right = &w.rows[..7 * w.account.lines];
    // Kept: no `ensure` by `?`, here and in texts.rt: in `round_day` of day it was tried, and of the lengths behind it no proof knew enough.
    if rows.len() != right.len() {
        return Err(WRONG_COUNT);
    }
    Ok(verdict_of(rows, right, totals, &w.account.totals))
}
