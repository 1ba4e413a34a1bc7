// The text of a filing, read and checked, and what is said of it.
ghost use Rattle.std.specs.Prelude.{◌≡◌};
ghost use Rattle.filed.specs.Filed.{verdict_on_paper};
ghost use Rattle.filed.specs.Parts.{checked_program};
ghost use Rattle.filed.specs.Said.{checked_text, line_of};
ghost use Rattle.text.specs.Line.{said_line};

use crate::Verdict;
use crate::against::{WRONG_COUNT, against_account};
use rules::{Refusal, Refused};
use text::Said;

// Kept: stated in `printed` too, beside its own test: the limit is of the programs, and no code below the two has it.
const MOST_BYTES: usize = 65_536;

// "Program only: input over 65,536 bytes", with place 0.
// Kept: place 0 written out: a call for it would hide the 0 and be no plainer.
const TOO_LONG: Refused = Refused {
    refusal: Refusal::TooLong,
    place: 0,
};

// The file first, then the text, then its rows. No account has more than 336 cells, so that a text with more is not kept whole.
// Kept: a buffer with its count beside, which `read_filing` promises to fill as far as there is room.
fn check_text(file: &[u8], text: &[u8]) -> Result<Verdict, Refused>
    ensures { verdict_on_paper result ≡ checked_text file.now text.now }
{
    let w = walk::walk_unlent(file)?;
    let mut rows = [0u64; 336];
    let t = filing::read_filing(text, &mut rows);
    let totals = t.totals?;
    if t.count > rows.len() {
        return Err(WRONG_COUNT);
    }
    against_account(&w, &rows[..t.count], &totals)
}

// 13 comes before either is looked at.
pub fn check_program(file: &[u8], text: &[u8]) -> Result<Verdict, Refused>
    ensures { verdict_on_paper result ≡ checked_program file.now text.now }
{
    if file.len() > MOST_BYTES || text.len() > MOST_BYTES {
        return Err(TOO_LONG);
    }
    check_text(file, text)
}

// "yes", "wrong ROW FIELD" or "refused N PLACE".
pub fn said_of(checked: Result<Verdict, Refused>) -> Said
    ensures { said_line result ≡ line_of (verdict_on_paper checked) }
{
    match checked {
        Ok(Verdict::Agrees) => Said::Yes,
        Ok(Verdict::Wrong(row, field)) => Said::Wrong(row as u64, field as u64),
        Err(f) => Said::from(f),
    }
}
