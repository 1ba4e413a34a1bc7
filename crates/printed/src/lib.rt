// What the program prints: the text of a file's answer, written into a lent buffer.
#![tactic(auto)]

ghost use Rattle.std.specs.Prelude.{◌≤◌, length};
ghost use Rattle.rules.specs.Walk.{outcome};
ghost use Rattle.text.specs.Text.{Text};
ghost use Rattle.printed.specs.Program.{printed_from, printed};

use rules::{Refusal, Refused};
use text::Said;

// No longer input is looked at.
// Kept: here and in filed, each its own: `program_text` and `filed_text` promise their limits apart; a public constant of `text`, which tests no input, is no
// plainer.
const MOST_BYTES: usize = 65536;

// The text of a file's answer, for a file of any length; 0 where the buffer could be too short.
// Kept: a count and no Option, as `said_text` has it and as `Text` counts: the callers print `text[..n]`.
pub fn answer_text(file: &[u8], text: &mut [u8]) -> usize
    ensures text { Text (printed_from (outcome file.now)) text.old text.new result }
    ensures upper_bound { result ≤ length text.new }
{
    let mut rows = [0u64; 336];
    let mut concentrations = [0u32; 2208];
    let mut flows = [0u32; 2208];
    match quarter::account(file, &mut rows, &mut concentrations, &mut flows) {
        Ok(account) => text::stated_text(text, &rows, account.lines, &account.totals),
        Err(f) => text::said_text(text, Said::from(f)),
    }
}

// What the program prints for an input: 13 comes before the file is looked at.
// Kept: a count and no Option, likewise.
pub fn program_text(input: &[u8], text: &mut [u8]) -> usize
    ensures text { Text (printed input.now) text.old text.new result }
    ensures upper_bound { result ≤ length text.new }
{
    if input.len() > MOST_BYTES {
        // Kept: place 0 written out: a call for it would hide the 0 and be no plainer.
        let too_long = Refused {
            refusal: Refusal::TooLong,
            place: 0,
        };
        return text::said_text(text, Said::from(too_long));
    }
    answer_text(input, text)
}
