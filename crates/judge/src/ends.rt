// An end judged: 2, then 6 and 7 by the line's method.
ghost use Rattle.std.specs.Prelude.{◌≡◌};
ghost use Rattle.rules.specs.Refusals.{told};
ghost use Rattle.rules.specs.Judge.{first, judge_entry, place_end, judge_fuel, judge_method};

use rules::{Coefficients, Method, Refusal, Refused, View, ensure};

// "No table entry."
fn judge_entry(entry: Option<Coefficients>) -> Result<(), Refused>
    ensures { told result ≡ judge_entry entry }
{
    ensure(entry.is_some(), Refusal::NoEntry, 0)
}

// "6, then 7, at the line's end record", for methods 3 and 4.
fn judge_fuel(v: View) -> Result<(), Refused>
    ensures { told result ≡ judge_fuel v }
{
    match crate::line_method(v) {
        Method::Automatic | Method::Manual => Ok(()),
        Method::Balance | Method::Coefficient => {
            ensure(v.batches > 0, Refusal::NoBatch, 0)?;
            judge_entry(tables::coefficients(v.head))
        }
    }
}

// "18, no method left", of water; a line of a stack has 6 and 7.
fn judge_method(v: View) -> Result<(), Refused>
    ensures { told result ≡ judge_method v }
{
    if v.water {
        return ensure(crate::daily_method(v).is_some(), Refusal::NoMethod, 0);
    }
    judge_fuel(v)
}

// Outside a line, before the last day; then the line's method.
pub fn judge_end(v: View) -> Result<(), Refused>
    ensures { told result ≡ first (place_end v) (judge_method v) }
{
    let placed = (v.inside | v.water) & (v.days == u32::from(v.head.days));
    ensure(placed, Refusal::OutOfPlace, 0)?;
    judge_method(v)
}
