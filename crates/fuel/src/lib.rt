// Fuel speaks: the figures of balance, oxides and dust.
#![tactic(auto)]

ghost use Rattle.std.specs.Prelude.{◌≡◌, ◌<◌, ◌≤◌};
ghost use Rattle.law.specs.Words.{halves_up};
ghost use Rattle.rules.specs.Tables.{coefficients_of};
ghost use Rattle.tables.specs.Rows.{Small};
ghost use Rattle.fuel.specs.Fuel.{figure_of, Ranged, fuel_figure, fuel_on_paper};

use rules::{Coefficients, Head};

// Why there is no figure: a table entry is wanting, or an amount is out of the document's range.
#[derive(Clone, Copy, Debug, PartialEq, Eq)]
pub enum NoFigure {
    WithoutEntry,
    OutOfRange,
}

// n / d in whole grams, halves up.
// Kept: apart from the walk's `grams_of` (decision 37), whose larger sums are never doubled: a public function for both lines would be no plainer.
#[tactic(auto, unfolding(law::specs::Words::halves_up))]
fn halves_up(n: u64, d: u64) -> u64
    requires { (0 < d) × (d ≤ 1_000_000) × (n ≤ 4_000_000_000_000_000_000) }
    ensures { result ≡ halves_up n d }
{
    (2 * n + d) / (2 * d)
}

// What the tables have for a line: no entry of theirs is large.
fn entry_of(h: Head) -> Option<Coefficients>
    ensures entry { result ≡ coefficients_of h }
    ensures small { Small result }
{
    tables::coefficients(h)
}

// The figure of amounts within the document's range, by the entry that the tables have: one rounding.
#[tactic(auto, using(crate::proofs::Figures::balance_fits), unfolding(crate::specs::Opened::figures))]
fn figure(h: Head, kg: u64, sulphur: u16, ash: u64) -> Result<u64, NoFigure>
    requires { Ranged kg sulphur ash }
    ensures { fuel_on_paper result ≡ figure_of (coefficients_of h) kg sulphur ash }
{
    match entry_of(h).ok_or(NoFigure::WithoutEntry)? {
        Coefficients::Balance(q, k) => {
            Ok(halves_up(
                2 * kg * (1_000 - u64::from(q)) * u64::from(sulphur) * u64::from(k),
                1_000_000,
            ))
        }
        Coefficients::Oxides(coefficient) => Ok(halves_up(kg * u64::from(coefficient), 100)),
        Coefficients::Dust(a, b) => {
            Ok(halves_up(u64::from(a) * ash + 100 * u64::from(b) * kg, 10_000))
        }
    }
}

// The grams of a line from its kg, its largest sulphur and its sum of kg x ash.
// Kept: the limits stand in `judge` too, for a record's fields: `fuel_figure` promises them for every call, and a shared constant for two lines is no plainer.
#[tactic(auto, unfolding(crate::specs::Fuel::fuel_figure, crate::specs::Fuel::fuel_on_paper, law::specs::Words::need_all, law::specs::Words::need))]
pub fn fuel_figure(h: Head, kg: u64, sulphur: u16, ash: u64) -> Result<u64, NoFigure>
    ensures { fuel_on_paper result ≡ fuel_figure h kg sulphur ash }
{
    if kg <= 10_000_000_000 && sulphur <= 2_000 && ash <= 100_000_000_000_000 {
        figure(h, kg, sulphur, ash)
    } else {
        Err(NoFigure::OutOfRange)
    }
}
