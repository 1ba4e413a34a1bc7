// A survey put in at its day of an outfall's line, and weighed; the first missing day.
ghost use Rattle.std.specs.Prelude.{◌≡◌, ◌≢◌, ◌<◌, ℕ, length, get_or, eqb, MatchOption};
ghost use Rattle.line.specs.Days.{first_lacking, DayPut};

use crate::surveyed::{Weighed, put_at};
use rules::Survey;

// The state of a day that runs without data.
// Kept: states as bytes: `put_on_day` and `first_missing_day` take and promise the lent tables, whatever byte a day has.
const MISSING: u8 = 1;

// Whether a day runs without data; past the states none does.
fn lacks_day(states: &[u8], day: usize) -> bool
    ensures { result ≡ eqb (get_or states.now day 0) MISSING }
{
    states.get(day).is_some_and(|state| *state == MISSING)
}

// The first of the days that runs without data.
fn first_missing(states: &[u8]) -> Option<usize>
    ensures { MatchOption result ((k : ℕ) → k < length states.now → get_or states.now k 0 ≢ MISSING)
        (λ day. (day < length states.now) × (get_or states.now day 0 ≡ MISSING) × ((k : ℕ) → k < day → get_or states.now k 0 ≢ MISSING)) }
{
    states.iter().position(|state| *state == MISSING)
}

// The first running day without data, from 1 on; 0 where there is none.
// Kept: 0 and no Option: this public call promises `first_lacking`, the row's cell. No twin of `first_missing` of `hours`: a day has one state, and no masks.
pub fn first_missing_day(states: &[u8], days: u8) -> u32
    ensures { result ≡ first_lacking states.now days }
{
    let days = states.len().min(usize::from(days));
    match first_missing(&states[..days]) {
        Some(day) => day as u32 + 1,
        None => 0,
    }
}

// "Surveys act on days as on hours": one that is beaten changes nothing and weighs nothing; the day of one that stands, missing or not, is measured.
// Kept: a flag and three tables: this public call takes them so, and promises of the lent tables what `DayPut` says.
pub fn put_on_day(
    t: Survey,
    beaten: bool,
    states: &mut [u8],
    conc: &mut [u32],
    flow: &mut [u32],
) -> Weighed
    ensures { DayPut t beaten states.old conc.old flow.old
        states.new conc.new flow.new result }
{
    if beaten {
        return Weighed::default();
    }
    let found = u32::from(lacks_day(states, usize::from(t.hour)));
    put_at(t, found, states, conc, flow)
}
