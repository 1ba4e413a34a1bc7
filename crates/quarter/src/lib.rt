// The account call: one file in, every row proved.
#![tactic(auto)]

ghost use Rattle.std.specs.Prelude.{◌≡◌, [], ◌++◌, ◌≤◌, length, drop};
ghost use Rattle.law.specs.Numbers.{most_hours};
ghost use Rattle.rules.specs.Refusals.{answered};
ghost use Rattle.rules.specs.Row.{cells};
ghost use Rattle.rules.specs.Account.{Promise};

use rules::{Account, Refusal, Refused};

// "Fewer than 7 cells per line lent for rows", with place 0.
// Kept: place 0 written out: a call for it would hide the 0 and be no plainer.
const TOO_FEW: Refused = Refused {
    refusal: Refusal::FewRowCells,
    place: 0,
};

// 8: "The first 2,208 work cells become zero", "cells past 2,208 are never written".
// Kept: two calls, and the lengths asked: `account` is lent two slices of any length.
fn clear_work(concentrations: &mut [u32], flows: &mut [u32])
    requires { (most_hours ≤ length concentrations.old) × (most_hours ≤ length flows.old) }
    ensures { (concentrations.new ≡ cells [] ++ drop most_hours concentrations.old) × (flows.new ≡ cells [] ++ drop most_hours flows.old) }
{
    cells::clear_first(concentrations, 2208);
    cells::clear_first(flows, 2208);
}

// The account of a record file. The rows are written at the very end, so that a refusal leaves them as they were.
pub fn account(
    file: &[u8],
    rows: &mut [u64],
    concentrations: &mut [u32],
    flows: &mut [u32],
) -> Result<Account, Refused>
    ensures { Promise file.now rows.old concentrations.old flows.old (answered result) rows.new concentrations.new flows.new }
{
    let walked = walk::walk_file(file, concentrations, flows);
    // Kept: no `?`, which was tried: it lays the table of rows on the stack once more.
    let walked = match &walked {
        Ok(w) => w,
        Err(f) => return Err(*f),
    };
    let n = 7 * walked.account.lines;
    if rows.len() < n {
        clear_work(concentrations, flows);
        return Err(TOO_FEW);
    }
    rows[..n].copy_from_slice(&walked.rows[..n]);
    Ok(walked.account)
}
