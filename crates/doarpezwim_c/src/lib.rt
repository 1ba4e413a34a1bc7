// The static library for C and Rust: each export hands on to the call of its name in the library `doarpezwim`, and promises the same.
#![tactic(auto)]

ghost use Rattle.survey.specs.Governing.{governing};
ghost use Rattle.doarpezwim.specs.Faces.{panel_of, AccountFace, PanelFace, PartFace, ImportFace, CheckFace};

#[unsafe(no_mangle)]
pub extern "C" fn doarpezwim_account(
    file: &[u8],
    rows: &mut [u64],
    concentration: &mut [u32],
    flow: &mut [u32],
    answer: &mut [u64; 8],
) -> u32
    ensures { AccountFace file.now rows.old concentration.old flow.old
        result answer.new rows.new concentration.new flow.new }
{
    doarpezwim::doarpezwim_account(file, rows, concentration, flow, answer)
}

#[unsafe(no_mangle)]
pub extern "C" fn doarpezwim_panel_hour(
    total: &mut f64,
    hours: &mut u32,
    missing: &mut u32,
    kind: u32,
    concentration: f32,
    flow: f32,
) -> u32
    ensures { PanelFace (panel_of total.old hours.old missing.old) kind concentration flow
        result total.new hours.new missing.new }
{
    doarpezwim::doarpezwim_panel_hour(total, hours, missing, kind, concentration, flow)
}

#[unsafe(no_mangle)]
pub extern "C" fn doarpezwim_governing_survey<'a>(
    enforcement: &'a [u8],
    plant: &'a [u8],
    hour: u16,
    part: &mut [u8; 14],
) -> u32
    ensures { PartFace (governing enforcement.entry plant.entry hour).bytes part.old result part.new }
{
    doarpezwim::doarpezwim_governing_survey(enforcement, plant, hour, part)
}

#[unsafe(no_mangle)]
pub extern "C" fn doarpezwim_import(text: &[u8], records: &mut [u8], answer: &mut [u64; 3]) -> u32
    ensures { ImportFace text.now records.old result answer.new records.new }
{
    doarpezwim::doarpezwim_import(text, records, answer)
}

#[unsafe(no_mangle)]
pub extern "C" fn doarpezwim_check(
    file: &[u8],
    rows: &[u64],
    totals: &[u64; 5],
    answer: &mut [u64; 3],
) -> u32
    ensures { CheckFace file.now rows.now totals.now result answer.new }
{
    doarpezwim::doarpezwim_check(file, rows, totals, answer)
}
