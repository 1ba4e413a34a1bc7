// The fill of one gap by the valid values of one quantity, in the order of the hours: `b` of them stand before the gap, and the rest after it.
ghost use Rattle.std.specs.Prelude.{◌≡◌, reverse, ◌≤◌, length, take, drop};
ghost use Rattle.law.specs.Numbers.{long_window};
ghost use Rattle.law.specs.Words.{largest};
ghost use Rattle.rules.specs.Fill.{short, mean_up, same};
ghost use Rattle.fills.specs.Parts.{gap_fill};
ghost use Rattle.fills.specs.Windows.{Peaked};

use crate::window::{largest_of, last_720, put_peaks};
use arrayvec::ArrayVec;

// The mean, halves up.
fn mean_up(before: u32, after: u32) -> u32
    ensures { result ≡ mean_up before after }
{
    ((u64::from(before) + u64::from(after) + 1) / 2) as u32
}

// A gap of 24 or fewer: the two nearest, or the one side that there is.
fn short_fill(valid: &[u32], b: usize) -> u32
    requires { b ≤ length valid.now }
    ensures { result ≡ short mean_up same (reverse (take b valid.now)) (drop b valid.now) }
{
    let (before, after) = valid.split_at(b);
    match (before.last(), after.first()) {
        (Some(last), Some(next)) => mean_up(*last, *next),
        (Some(last), None) => *last,
        (None, Some(next)) => *next,
        (None, None) => 0,
    }
}

// "With none before, of the first 720 after it, or all if fewer."
fn first_720(valid: &[u32]) -> u32
    ensures { result ≡ largest (take long_window valid.now) }
{
    largest_of(&valid[..valid.len().min(720)])
}

// The fill of a gap of `gap` missing hours; the peaks that a gap before it needed are there already.
pub fn fill_of(gap: usize, valid: &[u32], b: usize, peaks: &mut ArrayVec<u32, 46>) -> u32
    requires { Peaked valid.now peaks.old.items × (b ≤ length valid.now) }
    ensures { (result ≡ gap_fill gap valid.now b) × Peaked valid.now peaks.new.items }
{
    if gap <= 24 {
        return short_fill(valid, b);
    }
    if 0 < b {
        put_peaks(valid, b, peaks);
        return last_720(valid, b, peaks.as_slice());
    }
    first_720(valid)
}
