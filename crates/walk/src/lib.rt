// One walk over the file: the answer, the rows of all its lines, and the work cells.
#![tactic(auto)]

mod books; // books.rt
mod close; // close.rt
mod put; // put.rt
mod turns; // turns.rt
mod take; // take.rt
mod water; // water.rt

ghost use Rattle.std.specs.Prelude.{◌≡◌, length};
ghost use Rattle.law.specs.Numbers.{most_hours};
ghost use Rattle.rules.specs.Account.{Promise};
ghost use Rattle.walk.specs.Books.{no_rows};
ghost use Rattle.walk.specs.Walking.{walked_answer, walked_rows, Settled, Unlent};

use crate::turns::walk_records;
use rules::{Account, Refusal, Refused};

// What the walk finds in a file that it accepts, with cells for the rows of 48 lines.
// Kept: 336 cells beside the number of lines: `walk_file` promises all of them, 0 past the last line's.
#[derive(Clone, Copy)]
pub struct Walked {
    pub account: Account,
    pub rows: [u64; 336],
}

// "A work slice under 2,208 cells", with place 0.
// Kept: place 0 written out: a call for it would hide the 0 and be no plainer.
const TOO_SHORT: Refused = Refused {
    refusal: Refusal::FewWorkCells,
    place: 0,
};

// The walk where both work tables have 2,208 cells, which a refusal leaves clear.
// Kept: two fills, twice: a function that clears both would be as long as they are. Slices with their length asked, here and in what they are lent on to, and
// no arrays: `walk_file` is lent slices, and what is written back through an array cut from one would be a clause more of each, no plainer.
fn settle(file: &[u8], conc: &mut [u32], flow: &mut [u32]) -> Result<Walked, Refused>
    requires { (length conc.old ≡ most_hours) × (length flow.old ≡ most_hours) }
    ensures { Settled file.now (walked_answer result) (walked_rows result) conc.new flow.new }
{
    conc.fill(0);
    flow.fill(0);
    let walked = walk_records(file, conc, flow);
    if walked.is_err() {
        conc.fill(0);
        flow.fill(0);
    }
    walked
}

// The account of a file, as if 336 cleared cells were lent for its rows. No work cell past 2,208 is lent on.
pub fn walk_file(
    file: &[u8],
    concentrations: &mut [u32],
    flows: &mut [u32],
) -> Result<Walked, Refused>
    ensures { Promise file.now no_rows concentrations.old flows.old (walked_answer result) (walked_rows result) concentrations.new flows.new }
{
    if concentrations.len() < 2208 {
        return Err(TOO_SHORT);
    }
    if flows.len() < 2208 {
        return Err(TOO_SHORT);
    }
    settle(file, &mut concentrations[..2208], &mut flows[..2208])
}

// The same with work tables of its own, which are clear as they are made.
pub fn walk_unlent(file: &[u8]) -> Result<Walked, Refused>
    ensures { Unlent file.now (walked_answer result) (walked_rows result) }
{
    let mut conc = [0; 2208];
    let mut flow = [0; 2208];
    walk_records(file, &mut conc, &mut flow)
}
