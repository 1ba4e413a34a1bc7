// The hours of a line's period: the gaps of both quantities filled.
#![tactic(auto)]

mod fill;
mod gaps;
mod stretch;
mod window;

ghost use Rattle.fills.specs.Period.{PeriodFilled};

// "Fills under method 1 only", by the states of the hours, and the first missing hour plus 1, by the masks: a line that lacks no hour has nothing to fill.
// Kept: the method and the first missing hour as numbers, 0 for none, and bare tables: this public call takes every method and the lent tables so, and its
// answer is the row's own cell.
pub fn fill_period(
    method: u32,
    runs: &[u32; 92],
    measured: &[u32; 92],
    states: &[u8; 2208],
    days: u8,
    conc: &mut [u32],
    flow: &mut [u32],
) -> u32
    ensures { PeriodFilled method days runs.now measured.now states.now conc.old flow.old
        conc.new flow.new result }
{
    let first = hours::first_missing(runs, measured, days);
    let room = conc.len().min(flow.len()).min(2208);
    let n = 24 * usize::from(days);
    if (method == 1) & (n <= room) & (first != 0) {
        gaps::fill_gaps(&states[..n], conc, flow);
    }
    first
}
