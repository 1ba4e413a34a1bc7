// The largest of the last 720 valid values before a long gap. The largest of each 48 values, their peak, is found once for all gaps of a line: a window is made
// of at most 15 peaks and of fewer than 48 values before and behind them.
ghost use Rattle.std.specs.Prelude.{◌≡◌, ◌-◌, ◌/◌, ◌≤◌, length};
ghost use Rattle.law.specs.Numbers.{long_window};
ghost use Rattle.law.specs.Words.{largest};
ghost use Rattle.fills.specs.Windows.{span, Peaked};

use arrayvec::ArrayVec;

// The largest of some values, 0 of none.
pub fn largest_of(values: &[u32]) -> u32
    ensures { result ≡ largest values.now }
{
    values.iter().copied().max().unwrap_or(0)
}

// The peaks among the first `b` values put behind those that are there already.
// Kept: a peak by its number, by which `Peaked` says where its values stand: `chunks_exact(48)` with a `skip` of those that are there would be no plainer.
pub fn put_peaks(valid: &[u32], b: usize, peaks: &mut ArrayVec<u32, 46>)
    requires { Peaked valid.now peaks.old.items × (b ≤ length valid.now) }
    ensures { Peaked valid.now peaks.new.items × (b / 48 ≤ length peaks.new.items) }
{
    for k in peaks.len()..b / 48 {
        peaks.push(largest_of(&valid[48 * k..48 * k + 48]));
    }
}

// The largest of the last 720 of the first `b` values, or of all if fewer.
pub fn last_720(valid: &[u32], b: usize, peaks: &[u32]) -> u32
    requires { Peaked valid.now peaks.now × (b / 48 ≤ length peaks.now) × (b ≤ length valid.now) }
    ensures { result ≡ span valid.now (b - long_window) b }
{
    let start = b.saturating_sub(720);
    let first = start.div_ceil(48);
    let last = b / 48;
    let before = largest_of(&valid[start..48 * first]);
    let between = largest_of(&peaks[first..last]);
    let behind = largest_of(&valid[48 * last..b]);
    before.max(between).max(behind)
}
