// What a plant has filed, checked against the account of its record file.
#![tactic(auto)]

mod against;
mod compare;
mod texts;

ghost use Rattle.std.specs.Prelude.{◌≡◌, ◌≤◌, length};
ghost use Rattle.text.specs.Text.{Text};
ghost use Rattle.filed.specs.Filed.{verdict_on_paper, checked};
ghost use Rattle.filed.specs.Said.{said};

use crate::against::against_account;
use crate::texts::{check_program, said_of};
use rules::Refused;

// Rows and totals are those of the account; or the first row and field that is wrong, both from 0.
#[derive(Clone, Copy, Debug, PartialEq, Eq)]
pub enum Verdict {
    Agrees,
    Wrong(usize, usize),
}

// Filed rows, seven cells each, and the five totals, beside those of the account; or what refuses the file, or 22.
pub fn check_filed(file: &[u8], rows: &[u64], totals: &[u64; 5]) -> Result<Verdict, Refused>
    ensures { verdict_on_paper result ≡ checked file.now rows.now totals.now }
{
    let walked = walk::walk_unlent(file);
    // Kept: no `?`, which was tried: it laid the table of rows on the stack once more, past what the C header says that a call takes.
    match &walked {
        Ok(w) => against_account(w, rows, totals),
        Err(f) => Err(*f),
    }
}

// What the program says of a record file and the text of a filing: 13 comes before either is looked at.
// Kept: a count and no Option, since `Text` counts the bytes of `line` that are written, 0 where it is too short.
pub fn filed_text(file: &[u8], text: &[u8], line: &mut [u8]) -> usize
    ensures text { Text (said file.now text.now) line.old line.new result }
    ensures upper_bound { result ≤ length line.new }
{
    text::said_text(line, said_of(check_program(file, text)))
}
