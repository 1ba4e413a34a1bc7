// Filed cells beside the right ones.
ghost use Rattle.std.specs.Prelude.{◌≡◌, ◌==◌, Ok, ℕ, ◌*◌, length};
ghost use Rattle.law.specs.Numbers.{row_cells};
ghost use Rattle.filed.specs.Filed.{verdict_on_paper, with_totals, compared};
ghost use Rattle.filed.specs.Parts.{differing, FirstOrNone};

use crate::Verdict;

// Whether all cells are alike: no bit of any differs. Each is looked at, whatever the others are, so that the compiler takes several at a time.
// Kept: a fold and no `==`, which ends at the first difference: the edit `difference_lost` tries that all cells are asked at once, for speed (docs/SPEED.md).
fn all_alike(filed: &[u64], right: &[u64]) -> bool
    ensures { result ≡ (differing filed.now right.now == 0) }
{
    let differ = filed
        .iter()
        .zip(right)
        .fold(0, |bits, (a, b)| bits | (*a ^ *b));
    differ == 0
}

// The first place at which two lists of cells differ. A filing mostly agrees, which is asked first.
fn first_wrong(filed: &[u64], right: &[u64]) -> Option<usize>
    requires { length filed.now ≡ length right.now }
    ensures { FirstOrNone filed.now right.now result }
{
    if all_alike(filed, right) {
        return None;
    }
    filed.iter().zip(right).position(|(a, b)| a != b)
}

// Rows first, then the totals, which are the row after the last.
pub fn verdict_of(rows: &[u64], right: &[u64], totals: &[u64; 5], sums: &[u64; 5]) -> Verdict
    requires { (length rows.now ≡ length right.now) × ((lines : ℕ) × (length right.now ≡ row_cells * lines)) }
    ensures { verdict_on_paper (Ok result) ≡ compared (with_totals rows.now totals.now) (with_totals right.now sums.now) }
{
    if let Some(i) = first_wrong(rows, right) {
        return Verdict::Wrong(i / 7, i % 7);
    }
    if let Some(k) = first_wrong(totals, sums) {
        return Verdict::Wrong(right.len() / 7, k);
    }
    Verdict::Agrees
}
