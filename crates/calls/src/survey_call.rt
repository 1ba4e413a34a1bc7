// The call of the governing survey.
ghost use Rattle.std.specs.Prelude.{◌≤◌, length};
ghost use Rattle.survey.specs.Governing.{governing};
ghost use Rattle.calls.specs.Answers.{Answered, survey_bytes};

use crate::bytes;

// The call is made, and what it answers and leaves is written: a length, and the 14 bytes behind it.
pub fn answer<'a>(enforcement: &'a [u8], plant: &'a [u8], hour: u16, out: &mut [u8]) -> usize
    requires { 18 ≤ length out.old }
    ensures { Answered (survey_bytes (governing enforcement.entry plant.entry hour).bytes) out.old out.new result }
{
    let mut part = [0xaa; 14];
    let n = doarpezwim::doarpezwim_governing_survey(enforcement, plant, hour, &mut part);
    bytes::put_counted(out, n, &part)
}
