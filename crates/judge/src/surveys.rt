// A survey judged: out of place 2, by its kind; then 17, 4, 5. One function for both kinds and both worlds.
ghost use Rattle.std.specs.Prelude.{◌≡◌};
ghost use Rattle.rules.specs.Refusals.{told};
ghost use Rattle.rules.specs.Fields.{survey_fields};
ghost use Rattle.rules.specs.Judge.{first, first_wrong, runs_on};
ghost use Rattle.judge.specs.Surveys.{place_survey, inside_of, period_of, runs_in, judge_survey_of};

use rules::{Refusal, Refused, Survey, Surveyor, View, World, ensure};

// Whether the line that is open is of a world.
fn is_open(world: World, v: View) -> bool
    ensures { result ≡ inside_of world v }
{
    match world {
        World::Air => v.inside,
        World::Water => v.water,
    }
}

// The hours or days of the line's period.
// Kept: beside `used_by` of walk: a method of World in `rules` would be a public call more with promise and edits of its own, no plainer.
fn period(world: World, v: View) -> u32
    ensures { result ≡ period_of world v }
{
    let days = u32::from(v.head.days);
    match world {
        World::Air => 24 * days,
        World::Water => days,
    }
}

// Whether an hour or a day of the period so far runs: by the run masks of the days of a stack, by the states of those of an outfall.
fn runs_at(world: World, runs: &[u32], at: u16) -> bool
    ensures { result ≡ runs_in world runs.now at }
{
    match world {
        World::Air => hours::runs_at(runs, at),
        World::Water => runs_on(runs, at),
    }
}

// The state of a day of the period so far is not 0; past it no day runs.
// Kept: states as numbers: `judge_record` takes every one, in the slice that has a stack's masks.
fn runs_on(states: &[u32], day: u16) -> bool
    ensures { result ≡ runs_on states.now day }
{
    states.get(usize::from(day)).is_some_and(|state| *state > 0)
}

// Outside a line of its world, before the last day, after fuel, not rising within its kind, one too many: "at most 120 surveys of both kinds together". An
// enforcement survey has no plant survey before it.
// Kept: the flag beside the view, as `place_survey` of specs/ takes it.
fn place_survey(by: Surveyor, inside: bool, v: View, s: Survey) -> Result<(), Refused>
    ensures { told result ≡ place_survey by inside v s }
{
    let (turn, floor) = match by {
        Surveyor::Enforcement => (v.plant.count == 0, v.enforcement.floor),
        Surveyor::Plant => (true, v.plant.floor),
    };
    let phase = inside & (v.days == u32::from(v.head.days)) & (v.batches == 0);
    let left = crate::surveys_of(v) < 120;
    ensure(
        turn & phase & (u32::from(s.hour) >= floor) & left,
        Refusal::OutOfPlace,
        0,
    )
}

// "Survey hour past the period", 17, then its readings, 4.
fn range_survey(period: u32, s: Survey) -> Result<(), Refused>
    ensures { told result ≡ first_wrong (survey_fields period s) }
{
    ensure(u32::from(s.hour) < period, Refusal::PastPeriod, 4)?;
    day::judge_pair(6, s.pair)
}

// Kinds 3, 4, 11 and 12: where it stands, its hour or day and its readings, then "survey in a stopped hour".
pub fn judge_survey(
    world: World,
    by: Surveyor,
    v: View,
    runs: &[u32],
    s: Survey,
) -> Result<(), Refused>
    ensures { told result ≡ judge_survey_of world by v runs.now s }
{
    place_survey(by, is_open(world, v), v, s)?;
    range_survey(period(world, v), s)?;
    ensure(runs_at(world, runs, s.hour), Refusal::StoppedHour, 0)
}
