// The five totals, with which the text ends.
ghost use Rattle.std.specs.Prelude.{◌≡◌, ℕ, List, ◌+◌, ◌^◌, ◌<◌};
ghost use Rattle.filing.specs.Filing.{totals_from};
ghost use Rattle.filing.specs.Parts.{read_by};

use crate::lines::line_of;
use rules::{Refusal, Refused, ensure};

// The totals, from behind their word on: five numbers, and no line behind them.
pub fn totals_of(text: &[u8], line: usize) -> Result<[u64; 5], Refused>
    requires { line + 1 < 2 ^ 64 }
    ensures { (cells : List ℕ) → read_by result cells ≡ totals_from line cells text.now }
{
    let malformed = Refused {
        refusal: Refusal::BadLine,
        place: line,
    };
    let l = line_of::<5>(text).ok_or(malformed)?;
    let totals = l.numbers.into_inner().or(Err(malformed))?;
    ensure(l.fits, Refusal::OutOfRange, line)?;
    ensure(l.rest.is_empty(), Refusal::BadLine, line + 1)?;
    Ok(totals)
}
