// The faces for C and Rust: the account, a panel's hour, the governing survey, the import of a text, the check of what was filed.
#![tactic(auto)]

ghost use Rattle.survey.specs.Governing.{governing};
ghost use Rattle.doarpezwim.specs.Faces.{panel_of, AccountFace, PanelFace, PartFace, ImportFace, CheckFace};

use panel::{Panel, Stepped};
use rules::Refusal;

mod faces;

// Kept: numbers, cells and lent slices in all five calls, which are the C interface: doarpezwim_c exports them as they stand.
pub fn doarpezwim_account(
    file: &[u8],
    rows: &mut [u64],
    concentration: &mut [u32],
    flow: &mut [u32],
    answer: &mut [u64; 8],
) -> u32
    ensures { AccountFace file.now rows.old concentration.old flow.old
        result answer.new rows.new concentration.new flow.new }
{
    let account = quarter::account(file, rows, concentration, flow);
    *answer = faces::answer_cells(account);
    faces::number(&account)
}

// An unknown kind is refused before the state is looked at.
pub fn doarpezwim_panel_hour(
    total: &mut f64,
    hours: &mut u32,
    missing: &mut u32,
    kind: u32,
    concentration: f32,
    flow: f32,
) -> u32
    ensures { PanelFace (panel_of total.old hours.old missing.old) kind concentration flow
        result total.new hours.new missing.new }
{
    let Some(hour) = faces::hour_of_kind(kind, concentration, flow) else {
        return u32::from(Refusal::MaskField);
    };
    let state = Panel {
        total: *total,
        hours: *hours,
        missing: *missing,
    };
    let Stepped { refused, next } = state.hour(hour);
    *total = next.total;
    *hours = next.hours;
    *missing = next.missing;
    refused.map_or(0, u32::from)
}

// The export behind hands no reference back, so the block is copied out.
pub fn doarpezwim_governing_survey<'a>(
    enforcement: &'a [u8],
    plant: &'a [u8],
    hour: u16,
    part: &mut [u8; 14],
) -> u32
    ensures { PartFace (governing enforcement.entry plant.entry hour).bytes part.old result part.new }
{
    let Ok(block) = <[u8; 14]>::try_from(survey::governing_survey(enforcement, plant, hour)) else {
        return 0;
    };
    *part = block;
    14
}

// Three cells for the answer: number, line, and how many bytes of records were written.
pub fn doarpezwim_import(text: &[u8], records: &mut [u8], answer: &mut [u64; 3]) -> u32
    ensures { ImportFace text.now records.old result answer.new records.new }
{
    let imported = import::import_days(text, records);
    *answer = faces::import_cells(imported);
    faces::number(&imported)
}

// Three cells for the answer: whether it agrees, is wrong or refused, and row and field, or number and place.
pub fn doarpezwim_check(file: &[u8], rows: &[u64], totals: &[u64; 5], answer: &mut [u64; 3]) -> u32
    ensures { CheckFace file.now rows.now totals.now result answer.new }
{
    *answer = faces::verdict_cells(filed::check_filed(file, rows, totals));
    // Kept: read back from its cell, the C interface: `CheckFace` returns the first of the three.
    answer[0] as u32
}
