// A survey put in at its hour of a line's period, and weighed; what it does to its hour, or to its day of an outfall.
ghost use Rattle.std.specs.Prelude.{◌≡◌};
ghost use Rattle.line.specs.Put.{in_tables, PutAt, SurveyPut};

use crate::marked::put;
use rules::Survey;

// What a survey adds to those of a line: one hour and its c x l, or nothing; and how many missing hours fewer the line has.
// Kept: a count of 1 or 0 and no Option: `put_survey` and `put_on_day` promise the three numbers, all 0 for one that is beaten (`nothing`).
#[derive(Clone, Copy, Debug, Default, PartialEq, Eq)]
pub struct Weighed {
    pub count: u32,
    pub weight: u64,
    pub found: u32,
}

// The state of an hour or a day that is measured.
// Kept: a byte: `put_survey` and `put_on_day` write it into the lent tables.
const MEASURED: u8 = 2;

// A survey that stands, at its hour or day: rounded, measured with its readings, and weighed.
pub fn put_at(
    t: Survey,
    found: u32,
    states: &mut [u8],
    conc: &mut [u32],
    flow: &mut [u32],
) -> Weighed
    ensures { PutAt t found states.old conc.old flow.old states.new conc.new flow.new result }
{
    let p = t.pair;
    let f = reading::flagged_pair(p.concentration, p.flow);
    put(t.hour, MEASURED, states);
    put(t.hour, f.concentration, conc);
    put(t.hour, f.flow, flow);
    Weighed {
        count: 1,
        weight: u64::from(f.concentration) * u64::from(f.flow),
        found,
    }
}

// "Enforcement beats plant at one hour": a survey that is beaten changes nothing and weighs nothing. The hour of one that stands, missing or not, has its bit
// in the measured mask of its day.
// Kept: a flag and five tables: this public call takes them so, and promises of the lent tables what `SurveyPut` says.
pub fn put_survey(
    t: Survey,
    beaten: bool,
    runs: &[u32],
    measured: &mut [u32],
    states: &mut [u8],
    conc: &mut [u32],
    flow: &mut [u32],
) -> Weighed
    ensures { SurveyPut t beaten runs.now (in_tables measured.old states.old conc.old flow.old)
        (in_tables measured.new states.new conc.new flow.new) result }
{
    if beaten {
        return Weighed::default();
    }
    let found = hours::mark_measured(runs, measured, t.hour);
    put_at(t, found, states, conc, flow)
}
