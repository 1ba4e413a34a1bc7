// The figures of a line: its row; a survey put in and weighed, by hours and by days.
#![tactic(auto)]

mod days;
mod marked;
mod surveyed;

ghost use Rattle.std.specs.Prelude.{◌≡◌};
ghost use Rattle.line.specs.Line.{row_in};

pub use days::{first_missing_day, put_on_day};
use rules::View;
pub use surveyed::{Weighed, put_survey};

// "Stack, pollutant, method, grams, running, missing, first missing hour plus 1."
// Kept: the method and the first missing hour as numbers, 0 for none: this public call takes every number, and its row is made of them.
pub fn row_of(v: View, method: u32, grams: u64, first: u32) -> [u64; 7]
    ensures { result ≡ row_in v method grams first }
{
    let h = v.head;
    [
        u64::from(h.stack),
        u64::from(h.pollutant),
        u64::from(method),
        grams,
        u64::from(v.running),
        u64::from(v.missing),
        u64::from(first),
    ]
}
