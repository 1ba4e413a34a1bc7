// An hour marked as measured in the mask of its day, and the missing hours that its day has fewer.
ghost use Rattle.std.specs.Prelude.{◌≡◌, ◌<◌, set};
ghost use Rattle.law.specs.Numbers.{hours_of_day};
ghost use Rattle.rules.specs.Lines.{with_bit};
ghost use Rattle.hours.specs.Marks.{Marked};

use crate::bits::{bit_of, mask_at};
use crate::masks::missing_hours;

// A mask with the bit of an hour set.
fn with_bit(hour: usize, mask: u32) -> u32
    requires { hour < hours_of_day }
    ensures { result ≡ with_bit hour mask }
{
    mask | (1u32 << hour)
}

// The mask of a day put in; past the last day nothing is.
fn put_mask(masks: &mut [u32], day: usize, mask: u32)
    ensures { masks.new ≡ set masks.old day mask }
{
    // Kept: of a write through `get_mut` no proof knows what the slice holds. Not shared with `put` of `line`: a public call more is no plainer.
    if day < masks.len() {
        masks[day] = mask;
    }
}

// The measured bit of an hour set, and how many missing hours fewer its day has, by the ones of its masks. Most surveys lie in measured hours: there nothing
// moves.
pub fn mark_measured(runs: &[u32], measured: &mut [u32], hour: u16) -> u32
    ensures { Marked hour runs.now measured.old measured.new result }
{
    let hour = usize::from(hour);
    let day = hour / 24;
    let hour = hour % 24;
    let before = mask_at(measured, day);
    if bit_of(hour, before) == 1 {
        return 0;
    }
    let after = with_bit(hour, before);
    put_mask(measured, day, after);
    let run = mask_at(runs, day);
    missing_hours(run, before) - missing_hours(run, after)
}
