// The gaps of a line's two quantities. A state is 2 for a measured hour and 1 for a missing one; with any other the hour is stopped.
ghost use Rattle.std.specs.Prelude.{◌≡◌, [], ◌≤◌, length};
ghost use Rattle.law.specs.Numbers.{most_hours};
ghost use Rattle.fills.specs.Parts.{patched, Roomy, Gathered, Aside, FilledBoth, gap_fill};
ghost use Rattle.fills.specs.Windows.{Peaked};

use crate::fill::fill_of;
use crate::stretch::{Gap, MEASURED, MISSING, filler, run_end, scan};
use arrayvec::ArrayVec;

// The valid values of both quantities, in their order, into the first cells of `cs` and `ls`; how many there are.
// Kept: arrays and a count: an `ArrayVec` of each, gathered alone, was tried and proved: 166,073 instructions for 152,840 of 500 dark hours, and 0.77 of the
// reference's time, past the bar of 0.76, for 0.71.
fn gather(
    states: &[u8],
    concentrations: &[u32],
    flows: &[u32],
    cs: &mut [u32],
    ls: &mut [u32],
) -> usize
    requires { Roomy states.now concentrations.now flows.now cs.old ls.old }
    ensures { Gathered states.now concentrations.now flows.now cs.new ls.new result }
{
    let mut b = 0;
    // Kept: an index and no zip: a push behind a zip of two was tried, and what it asks of the room stayed open.
    for i in 0..states.len() {
        if states[i] != MEASURED {
            continue;
        }
        cs[b] = concentrations[i];
        ls[b] = flows[i];
        b += 1;
    }
    b
}

// The valid values of one quantity, in the order of the hours, and their peaks so far.
// Kept: `Peaked`, and that `b` values stand before a gap, are asked by `fill` and by what it calls: of those each takes one or two of the fields, and as
// methods they would promise of the others too.
#[derive(Drop)]
struct Series<'a> {
    valid: &'a [u32],
    peaks: ArrayVec<u32, 46>,
}

impl<'a> Series<'a> {
    fn new(valid: &'a [u32]) -> Series<'a>
        ensures { (result.valid.now ≡ valid.entry.now) × (result.peaks.items ≡ []) }
    {
        Series {
            valid,
            peaks: ArrayVec::new(),
        }
    }

    // The cells of the gap at hour `first`; `b` of the valid values stand before the gap.
    fn fill(&mut self, states: &[u8], values: &mut [u32], first: usize, b: usize, gap: Gap)
        requires { ((first ≤ gap.next) × (gap.next ≤ length states.now) × (gap.next ≤ length values.old))
            × (Peaked self.old.valid.now self.old.peaks.items × (b ≤ length self.old.valid.now)) }
        ensures { (values.new ≡ patched states.now (gap_fill gap.missing self.old.valid.now b) first gap.next values.old)
            × Peaked self.old.valid.now self.new.peaks.items × (self.new.valid.now ≡ self.old.valid.now) }
    {
        let value = fill_of(gap.missing, self.valid, b, &mut self.peaks);
        filler(
            &mut values[first..gap.next],
            &states[first..gap.next],
            value,
        );
    }
}

// Every gap, from the first hour on: of the hours before `i`, `empty` are not measured.
fn fill_along(states: &[u8], concentrations: &mut [u32], flows: &mut [u32], cs: &[u32], ls: &[u32])
    requires { Aside states.now concentrations.old flows.old cs.now ls.now × (length cs.now ≤ most_hours) × (length ls.now ≤ most_hours) }
    ensures { FilledBoth states.now concentrations.old flows.old concentrations.new flows.new }
{
    let mut c = Series::new(cs);
    let mut l = Series::new(ls);
    let mut empty: usize = 0;
    let mut i: usize = 0;
    // Kept: no `for`, which is no plainer, since a turn goes on behind the gap or the run that it found, and not by one hour.
    while i < states.len() {
        let s = states[i];
        if s == MEASURED {
            i = run_end(states, i + 1);
        } else if s == MISSING {
            let gap = scan(states, i);
            let b = i - empty;
            c.fill(states, concentrations, i, b, gap);
            l.fill(states, flows, i, b, gap);
            i = gap.next;
            empty = i - b;
        } else {
            empty += 1;
            i += 1;
        }
    }
}

// The missing hours of both quantities filled, of which each hour has its cells.
// Kept: three tables side by side, the C interface: `doarpezwim_account` lends concentrations and flows as two.
pub fn fill_gaps(states: &[u8], concentrations: &mut [u32], flows: &mut [u32])
    requires { (length states.now ≤ most_hours) × (length states.now ≤ length concentrations.old) × (length states.now ≤ length flows.old) }
    ensures { FilledBoth states.now concentrations.old flows.old concentrations.new flows.new }
{
    // The valid values are kept aside before a cell is written, so that no fill feeds another.
    let mut cs = [0u32; 2208];
    let mut ls = [0u32; 2208];
    let count = gather(states, concentrations, flows, &mut cs, &mut ls);
    fill_along(states, concentrations, flows, &cs[..count], &ls[..count]);
}
