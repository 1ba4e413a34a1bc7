// "Which method", steps 2 to 4.
ghost use Rattle.std.specs.Prelude.{◌≡◌, Some};
ghost use Rattle.rules.specs.Refusals.{method_number};
ghost use Rattle.rules.specs.Method.{method_of, daily_method_of};

use rules::{Head, Method};

// The method of a line by its head, its surveys and its hours. In 64 bits, so that the product cannot wrap.
// Kept: the head's codes as bytes: `judge_record` and `open_method` take every head, also with codes that are none.
pub fn method_of(head: Head, surveys: u64, running: u32, missing: u32) -> Method
    ensures { method_number (Some result) ≡ method_of head surveys running missing }
{
    if 4 * u64::from(missing) <= u64::from(running) {
        return Method::Automatic;
    }
    if (head.required == 0) & (surveys > 0) {
        return Method::Manual;
    }
    if head.pollutant == 1 {
        return Method::Balance;
    }
    Method::Coefficient
}

// Of an outfall: automatic where no day is missing, manual where there is a survey, else none.
pub fn daily_method_of(surveys: u64, missing: u32) -> Option<Method>
    ensures { method_number result ≡ daily_method_of surveys missing }
{
    if missing == 0 {
        return Some(Method::Automatic);
    }
    if surveys > 0 {
        return Some(Method::Manual);
    }
    None
}
