// One stretch of hours. A state is 2 for a measured hour and 1 for a missing one; with any other the hour is stopped.
ghost use Rattle.std.specs.Prelude.{◌≡◌, ℕ, ◌<◌, ◌≤◌, get_or, length};
ghost use Rattle.law.specs.Words.{over};
ghost use Rattle.fills.specs.Parts.{spot, Scanned, Measured};

// The states of an hour.
// Kept: bytes: `fill_period` takes every one from the lent table, and stopped is all but these two.
pub const MISSING: u8 = 1;

pub const MEASURED: u8 = 2;

// The missing hours up to the next measured one, and that hour, or the number of hours.
#[derive(Clone, Copy)]
pub struct Gap {
    pub missing: usize,
    pub next: usize,
}

// What a scan from an hour on finds.
// Kept: the hour beside the whole row: `Scanned` and `Measured` speak of the hours of the period, and a part lent from there on, as an `enumerate`, counts anew.
// One loop: a `position` with a `filter` and `count` behind it would go over the gap twice, and is no plainer.
pub fn scan(states: &[u8], first: usize) -> Gap
    requires { first ≤ length states.now }
    ensures { Scanned states.now first result.missing result.next }
{
    let mut missing = 0;
    for next in first..states.len() {
        let state = states[next];
        if state == MEASURED {
            return Gap { missing, next };
        }
        if state == MISSING {
            missing += 1;
        }
    }
    Gap {
        missing,
        next: states.len(),
    }
}

// How many hours are measured from the first one on.
fn measured_hours(states: &[u8]) -> usize
    ensures within { result ≤ length states.now }
    ensures all { (k : ℕ) → k < result → get_or states.now k 0 ≡ MEASURED }
{
    states
        .iter()
        .position(|state| *state != MEASURED)
        .unwrap_or(states.len())
}

// The end of the measured hours from `first` on.
pub fn run_end(states: &[u8], first: usize) -> usize
    requires { first ≤ length states.now }
    ensures { Measured states.now first result }
{
    first + measured_hours(&states[first..])
}

// `v` into the missing hours of a part.
// Kept: of a write through a zip of `iter_mut` no proof knows what the slice holds, and `enumerate` would index the other.
pub fn filler(part: &mut [u32], states: &[u8], v: u32)
    requires { length part.old ≤ length states.now }
    ensures { part.new ≡ over (spot states.now v part.old) (length part.old) part.old }
{
    for k in 0..part.len() {
        if states[k] == MISSING {
            part[k] = v;
        }
    }
}
