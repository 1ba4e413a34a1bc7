// One walk over the file: each record read, judged and taken in.
ghost use Rattle.std.specs.Prelude.{◌≡◌, [], ◌+◌, ◌<◌, ◌≤◌, ◌^◌, length, take};
ghost use Rattle.rules.specs.Refusals.{told};
ghost use Rattle.rules.specs.Judge.{judge_record};
ghost use Rattle.rules.specs.Row.{cells};
ghost use Rattle.walk.specs.Views.{behind};
ghost use Rattle.walk.specs.Books.{open_in};
ghost use Rattle.walk.specs.Walking.{SomeKept, Steps, WalkPromise};

use crate::Walked;
use crate::books::{BEGIN, Done, Marks, Sums, Taken};
use crate::take::take_in;
use rules::{Account, Record, Refusal, Refused, View};

// The run masks of the days so far are lent to the judge.
fn judged(v: View, runs: &[u32], r: Record) -> Result<(), Refused>
    requires { v.days ≤ length runs.now }
    ensures { told result ≡ judge_record v (take v.days runs.now) r }
{
    judge::judge_record(v, &runs[..v.days as usize], r)
}

// The record's place is added to its refusal's, here and nowhere else.
fn behind(f: Refused, at: usize) -> Refused
    requires { at + f.place < 2 ^ 64 }
    ensures { result ≡ behind at f }
{
    Refused {
        place: at + f.place,
        ..f
    }
}

// One record read, judged and taken in.
fn step(
    bytes: &[u8],
    t: &mut Taken,
    marks: &mut Marks,
    conc: &mut [u32],
    flow: &mut [u32],
    done: &mut Done,
) -> Result<(), Refused>
    requires { SomeKept t.old.view t.old.sums (open_in marks.old conc.old flow.old) done.old }
    ensures { Steps bytes.now t.old.view t.old.sums (open_in marks.old conc.old flow.old) done.old (open_in marks.new conc.new flow.new) done.new result t.new }
{
    let r = record::read_record(bytes);
    judged(t.view, &marks.runs, r)?;
    take_in(bytes, r, t, marks, conc, flow, done)
}

// A file that is not refused may still end inside a line. After a refusal nothing more is read.
pub fn walk_records(file: &[u8], conc: &mut [u32], flow: &mut [u32]) -> Result<Walked, Refused>
    requires { (conc.old ≡ cells []) × (flow.old ≡ cells []) }
    ensures { WalkPromise file.now conc.new flow.new result }
{
    let mut marks = Marks {
        runs: [0; 92],
        measured: [0; 92],
        states: [0; 2208],
        flags: [false; 2208],
    };
    let mut done = Done {
        rows: [0; 336],
        totals: [0; 5],
    };
    let mut t = Taken {
        view: BEGIN,
        sums: Sums::default(),
    };
    let mut at = 0;
    // Kept: a `while`: each record says where the next begins, so that a `for` would be no plainer.
    while at < file.len() {
        let bytes = &file[at..];
        step(bytes, &mut t, &mut marks, conc, flow, &mut done).map_err(|f| behind(f, at))?;
        at += record::size_in(bytes);
    }
    // Kept: no `ensure` by `?`: tried, and behind it the promise stayed open.
    if t.view.inside | t.view.water {
        return Err(Refused {
            refusal: Refusal::OutOfPlace,
            place: file.len(),
        });
    }
    Ok(Walked {
        account: Account {
            lines: t.view.lines as usize,
            totals: done.totals,
        },
        rows: done.rows,
    })
}
