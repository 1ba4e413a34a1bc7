// The texts that the programs print, written into a lent buffer: a refusal, rows and totals, what is said of a filing.
#![tactic(auto)]

ghost use Rattle.std.specs.Prelude.{◌≡◌, ◌+◌, ◌*◌, ◌<◌, ◌≤◌, [], ◌∷◌, ◌++◌, flat_map, length};
ghost use Rattle.law.specs.Written.{Wrote};
ghost use Rattle.rules.specs.Refusals.{number_of};
ghost use Rattle.text.specs.declared.Said.TheVariants.{Refused};
ghost use Rattle.text.specs.Line.{said_line};
ghost use Rattle.text.specs.Numbers.{spaced};
ghost use Rattle.text.specs.Text.{Text, stated_lines};

use crate::writing::{put_bytes, put_spaced};
use rules::Refused;

mod writing;

// No text is longer: 48 rows of seven numbers, and a line of five.
const LONGEST: usize = 8192;

// No answer has more rows.
const MOST_ROWS: usize = 48;

// A line that is said of a file or of a filing.
// Kept: `Refused` with two numbers and not rules::Refused, since `said_text` promises a line for every number and place.
#[derive(Clone, Copy, Debug, PartialEq, Eq)]
pub enum Said {
    Refused(u64, u64),
    Wrong(u64, u64),
    Yes,
}

impl From<Refused> for Said {
    ghost from_gives = { λ f s. s ≡ Refused (number_of f.refusal) f.place };

    fn from(f: Refused) -> Said {
        Said::Refused(u64::from(f.refusal), f.place as u64)
    }
}

// A word, two numbers and a line feed, at the start; a number is at most 20 bytes long.
// Kept: the room as a test of lengths and no cursor: the least room differs from writer to writer, and `Text` and `Wrote` speak of the whole buffer.
fn put_word(text: &mut [u8], word: &[u8], first: u64, second: u64) -> usize
    requires { length word.now + 42 < length text.old }
    ensures { Wrote text.old 0 (word.now ++ spaced (first ∷ second ∷ [])) text.new result }
{
    let at = put_bytes(text, 0, word);
    put_spaced(text, at, &[first, second])
}

// "refused N PLACE", "wrong ROW FIELD" or "yes"; 0 where the buffer could be too short.
// Kept: a count and no Option, which is no plainer: each caller prints `text[..n]`, of 0 bytes nothing, and `Text` counts so.
pub fn said_text(text: &mut [u8], s: Said) -> usize
    ensures { Text (said_line s) text.old text.new result }
{
    if text.len() < LONGEST {
        return 0;
    }
    match s {
        Said::Refused(number, place) => put_word(text, b"refused ", number, place),
        Said::Wrong(row, field) => put_word(text, b"wrong ", row, field),
        Said::Yes => put_bytes(text, 0, b"yes\n"),
    }
}

// A line for each row; a row of seven numbers is at most 148 bytes long.
fn put_rows(text: &mut [u8], rows: &[[u64; 7]]) -> usize
    requires { 148 * length rows.now ≤ length text.old }
    ensures { Wrote text.old 0 (flat_map spaced rows.now) text.new result }
{
    let mut end: usize = 0;
    for row in rows {
        end = put_spaced(text, end, row);
    }
    end
}

// One line a row, then the totals; 0 where the buffer could be too short, for more than 48 rows, and where one is not there.
// Kept: cells, `n` beside them and a count: `stated_text` takes every table and every n, and `stated_lines` has no text, of 0 bytes, for the wrong ones.
pub fn stated_text(text: &mut [u8], rows: &[u64], n: usize, totals: &[u64; 5]) -> usize
    ensures { Text (stated_lines rows.now n totals.now) text.old text.new result }
{
    if text.len() < LONGEST || n > MOST_ROWS || rows.len() < 7 * n {
        return 0;
    }
    let (rows, _) = rows.as_chunks::<7>();
    let end = put_rows(text, &rows[..n]);
    let at = put_bytes(text, end, b"total ");
    put_spaced(text, at, totals)
}
