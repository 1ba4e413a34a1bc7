// The end of a line: its gaps filled and weighed, its grams.
ghost use Rattle.std.specs.Prelude.{◌≡◌, ℕ, ◌+◌, ◌*◌, ◌^◌, ◌<◌, ◌≤◌, length, get_or, sum_by};
ghost use Rattle.law.specs.Numbers.{most_hours, most_lines, total_cells, most_surveys, most_amount, per_gram, most_grams};
ghost use Rattle.law.specs.Words.{halves_up};
ghost use Rattle.std.specs.List.{zip};
ghost use Rattle.fuel.specs.Fuel.{fuel_on_paper};
ghost use Rattle.rules.specs.Refusals.{method_number};
ghost use Rattle.walk.specs.Closing.{grams_in, period_weight, SurveyedReady, DailyReady, daily_grams, GramsReady, line_grams, with_grams};

use crate::books::Sums;
use fuel::NoFigure;
use rules::{Method, View};

// Kept: a figure that is refused gives 0, as `grams_in` of specs/ says; the judge refuses such a line before.
#[tactic(auto, unfolding(fuel::specs::Fuel::fuel_on_paper))]
fn grams_in(f: Result<u64, NoFigure>) -> u64
    ensures { result ≡ grams_in (fuel_on_paper f) }
{
    f.unwrap_or(0)
}

// The sum of c x l. It is known to fit, so that no turn tests it.
fn weigh(conc: &[u32], flow: &[u32]) -> u64
    requires { sum_by (λ (p : ℕ × ℕ). p.0 * p.1) (zip conc.now flow.now) < 2 ^ 64 }
    ensures { result ≡ sum_by (λ (p : ℕ × ℕ). p.0 * p.1) (zip conc.now flow.now) }
{
    conc.iter()
        .zip(flow)
        .map(|(c, l)| u64::from(*c) * u64::from(*l))
        .sum()
}

// The sum of c x l over the n hours or days of the period.
// Kept: n beside the tables: cut by the two callers, each would cut both and cite the limits of the sum, which is no plainer.
fn period_weight(conc: &[u32], flow: &[u32], n: usize) -> u64
    requires { (n ≤ length conc.now) × (n ≤ length flow.now) × (period_weight n conc.now flow.now < 2 ^ 64) }
    ensures { result ≡ period_weight n conc.now flow.now }
{
    weigh(&conc[..n], &flow[..n])
}

// Half of what a gram is in units of c x l: of a stack 100,000, of an outfall 100.
const HALF: u64 = 50_000;

const HALF_OF_WATER: u64 = 50;

// The sum of c x l over n hours or days and the units of a gram, halves up: half of the divisor is added first, so that nothing is doubled.
// Kept: beside `halves_up` of fuel, which doubles: sums of c x l are to fit 64 bits in micrograms too (DECISIONS 37).
fn grams_of(weight: u64, n: u32, halfgram: u64) -> u64
    requires { (0 < n) × (0 < halfgram) × (halfgram ≤ per_gram) × (weight ≤ most_surveys * most_amount * most_hours) }
    ensures { result ≡ halves_up weight (n * (2 * halfgram)) }
{
    let half = halfgram * u64::from(n);
    (weight + half) / (2 * half)
}

// The grams of surveys: "the mean" of c x l over the distinct surveys, times the running hours or days.
fn surveyed_grams(v: View, s: Sums, halfgram: u64) -> u64
    requires { SurveyedReady v s × (0 < halfgram) × (halfgram ≤ per_gram) }
    ensures { result ≡ halves_up (s.weight * v.running) (s.surveyed * (2 * halfgram)) }
{
    grams_of(s.weight * u64::from(v.running), s.surveyed, halfgram)
}

// The grams of a line of an outfall by its method and its cells; no day is filled.
// Kept: beside `line_grams`, since water has no fuel: one `match` for both would test the world in every arm. `_` takes None, as `daily_grams` of specs/, which
// takes view and sums apart too.
#[tactic(auto, unfolding(law::specs::Words::pick))]
pub fn daily_grams(method: Option<Method>, v: View, s: Sums, conc: &[u32], flow: &[u32]) -> u64
    requires { DailyReady (method_number method) v s conc.now flow.now }
    ensures { result ≡ daily_grams (method_number method) v s conc.now flow.now }
{
    match method {
        Some(Method::Automatic) => {
            grams_of(
                period_weight(conc, flow, usize::from(v.head.days)),
                1,
                HALF_OF_WATER,
            )
        }
        _ => surveyed_grams(v, s, HALF_OF_WATER),
    }
}

// The grams of a line by its method and its cells, which are filled under method 1.
// Kept: `_` takes None too, as `line_grams` of specs/ does.
#[tactic(auto, unfolding(law::specs::Words::pick))]
pub fn line_grams(method: Option<Method>, v: View, s: Sums, conc: &[u32], flow: &[u32]) -> u64
    requires { GramsReady (method_number method) v s conc.now flow.now }
    ensures { result ≡ line_grams (method_number method) v s conc.now flow.now }
{
    match method {
        Some(Method::Automatic) => {
            grams_of(
                period_weight(conc, flow, 24 * usize::from(v.head.days)),
                1,
                HALF,
            )
        }
        Some(Method::Manual) => surveyed_grams(v, s, HALF),
        _ => grams_in(fuel::fuel_figure(v.head, v.fuel, s.sulphur, s.ash)),
    }
}

// "Each pollutant's grams summed": a line's grams go to the total of its pollutant.
pub fn add_grams(totals: &mut [u64; 5], pollutant: u8, grams: u64)
    requires { (1 ≤ pollutant) × (pollutant ≤ total_cells) × (grams ≤ most_grams) × ((i : ℕ) → get_or totals.old i 0 ≤ most_lines * most_grams) }
    ensures { totals.new ≡ with_grams totals.old pollutant grams }
{
    let i = usize::from(pollutant - 1);
    totals[i] += grams;
}
