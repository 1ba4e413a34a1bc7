// The call of a panel's hour, its state and readings by their patterns.
ghost use Rattle.std.specs.Prelude.{◌≤◌, length};
ghost use Rattle.law.specs.Written.{Wrote};
ghost use Rattle.calls.specs.Answers.{Answered, state_bytes, panel_bytes};

use crate::bytes::Little;
use std::num::{f32_from_bits_with_nan, f64_from_bits_with_nan, f64_to_bits_with_nan};

// An hour's number, and the state after it.
fn put_state(out: &mut [u8], number: u32, total: f64, hours: u32, missing: u32) -> usize
    requires { 20 ≤ length out.old }
    ensures { Wrote out.old 0 (state_bytes number total hours missing) out.new result }
{
    let n = number.put(out, 0);
    let t = f64_to_bits_with_nan(total).put(out, n);
    let h = hours.put(out, t);
    missing.put(out, h)
}

// The call is made on the frame's state, and what it answers and leaves is written.
// Kept: seven parameters, which are the call's own arguments: a struct of them, made once and taken apart at once, would be no plainer.
pub fn answer(
    bits: u64,
    mut hours: u32,
    mut missing: u32,
    kind: u32,
    concentration: u32,
    flow: u32,
    out: &mut [u8],
) -> usize
    requires { 20 ≤ length out.old }
    ensures { Answered (panel_bytes bits hours missing kind concentration flow) out.old out.new result }
{
    let mut total = f64_from_bits_with_nan(bits);
    let c = f32_from_bits_with_nan(concentration);
    let l = f32_from_bits_with_nan(flow);
    let number = doarpezwim::doarpezwim_panel_hour(
        &mut total,
        &mut hours,
        &mut missing,
        kind,
        c,
        l,
    );
    put_state(out, number, total, hours, missing)
}
