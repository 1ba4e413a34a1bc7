// The numbers of a line.
ghost use Rattle.std.specs.Prelude.{◌≡◌, MatchOption};
ghost use Rattle.filing.specs.Filing.{numbers_in};
ghost use Rattle.filing.specs.Parts.{Lined};

use crate::numbers::next_number;
use arrayvec::ArrayVec;

// The numbers of a line, whether all are in their range, and what stands behind the line.
// Kept: a flag beside the numbers: `totals_from`, which `read_filing` promises, has 19 for a line of another count before 20 for a number out of range.
#[derive(Drop)]
pub struct Line<'a, const N: usize> {
    pub numbers: ArrayVec<u64, N>,
    pub fits: bool,
    pub rest: &'a [u8],
}

// The first line of a text, if it is a line of one to N numbers.
pub fn line_of<const N: usize>(text: &[u8]) -> Option<Line<'_, N>>
    ensures { MatchOption result (numbers_in N text.now ≡ 0) (λ l. Lined N text.now l.numbers.items l.fits l.rest.now) }
{
    let mut rest = text;
    let mut numbers = ArrayVec::new();
    let mut fits = true;
    while !numbers.is_full() {
        let n = next_number(rest)?;
        numbers.push(n.value.unwrap_or(0));
        fits &= n.value.is_some();
        rest = n.rest;
        if n.last {
            return Some(Line {
                numbers,
                fits,
                rest,
            });
        }
    }
    None
}
