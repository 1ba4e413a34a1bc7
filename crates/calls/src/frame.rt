// One frame: its header and its bytes read, its call made, its answer written.
// Kept: buffers with a count, by a rule of the project: a fixed memory, no heap.
use crate::{account_call, check_call, filed_call, import_call, panel_call, survey_call};
use std::io;
use std::io::Read;
use std::ops::ControlFlow;

// The longest answer in bytes: eight cells of eight bytes, and every cell that can be lent.
pub const LONGEST: usize = 64 + 8 * MOST_ROW_CELLS + 2 * 4 * MOST_WORK_CELLS;

const MOST_ROW_CELLS: usize = 512;

const MOST_WORK_CELLS: usize = 4096;

const MOST_RECORDS: usize = 20_000;

// The calls, by their numbers in a header.
#[derive(Clone, Copy)]
enum Call {
    Account = 1,
    PanelHour,
    GoverningSurvey,
    Import,
    Check,
    FiledText,
}

#[derive(Drop)]
struct UnknownCall;

impl TryFrom<u32> for Call {
    type Error = UnknownCall;

    fn try_from(number: u32) -> Result<Call, UnknownCall> {
        Ok(match number {
            1 => Call::Account,
            2 => Call::PanelHour,
            3 => Call::GoverningSurvey,
            4 => Call::Import,
            5 => Call::Check,
            6 => Call::FiledText,
            _ => return Err(UnknownCall),
        })
    }
}

// The bytes behind a header; none where they are too many for their room or do not all come.
// Kept: reader, room and buffer as parameters of the six calls below: a frame's bytes stay lent while its answer is written, so a struct is no plainer.
fn read_bytes<'a>(from: &mut impl Read, room: &'a mut [u8], n: usize) -> Option<&'a [u8]> {
    let bytes = room.get_mut(..n)?;
    if input::read_pieces(from, bytes, 1_000_000) != Ok(n) {
        return None;
    }
    Some(bytes)
}

// The account's answer; none where more cells are to be lent than there are.
fn account<'a>(
    from: &mut impl Read,
    numbers: [u32; 5],
    room: &mut [u8],
    out: &'a mut [u8; LONGEST],
) -> Option<&'a [u8]> {
    let [length, rows, concentrations, flows, seed] = numbers;
    let file = read_bytes(from, room, length as usize)?;
    let mut row_cells = [0; MOST_ROW_CELLS];
    let mut concentration_cells = [0; MOST_WORK_CELLS];
    let mut flow_cells = [0; MOST_WORK_CELLS];
    let rows = row_cells.get_mut(..rows as usize)?;
    let concentrations = concentration_cells.get_mut(..concentrations as usize)?;
    let flows = flow_cells.get_mut(..flows as usize)?;
    let n = account_call::answer(file, rows, concentrations, flows, seed, out);
    Some(&out[..n])
}

// The answer of a panel's hour.
fn panel_hour<'a>(
    from: &mut impl Read,
    numbers: [u32; 5],
    out: &'a mut [u8; LONGEST],
) -> Option<&'a [u8]> {
    let [hours, missing, kind, concentration, flow] = numbers;
    let mut total = [0; 8];
    read_bytes(from, &mut total, 8)?;
    let n = panel_call::answer(
        u64::from_le_bytes(total),
        hours,
        missing,
        kind,
        concentration,
        flow,
        out,
    );
    Some(&out[..n])
}

// The governing survey's answer.
fn governing_survey<'a>(
    from: &mut impl Read,
    numbers: [u32; 5],
    room: &mut [u8],
    out: &'a mut [u8; LONGEST],
) -> Option<&'a [u8]> {
    let [enforcement, plant, hour, _, _] = numbers;
    let both = read_bytes(from, room, enforcement as usize + plant as usize)?;
    let (enforcement, plant) = both.split_at_checked(enforcement as usize)?;
    let hour = (hour % 65_536) as u16;
    let n = survey_call::answer(enforcement, plant, hour, out);
    Some(&out[..n])
}

// The import's answer to a text; none where more bytes are to be lent than there are.
fn import<'a>(
    from: &mut impl Read,
    numbers: [u32; 5],
    room: &mut [u8],
    out: &'a mut [u8; LONGEST],
) -> Option<&'a [u8]> {
    let [length, records, seed, _, _] = numbers;
    let text = read_bytes(from, room, length as usize)?;
    let mut record_bytes = [0; MOST_RECORDS];
    let records = record_bytes.get_mut(..records as usize)?;
    let n = import_call::answer(text, records, seed, out);
    Some(&out[..n])
}

// The check's answer to a file and the cells behind it; none where there are more row cells than room.
fn check<'a>(
    from: &mut impl Read,
    numbers: [u32; 5],
    room: &mut [u8],
    out: &'a mut [u8; LONGEST],
) -> Option<&'a [u8]> {
    let [file, rows, _, _, _] = numbers;
    let both = read_bytes(from, room, file as usize + 8 * rows as usize + 40)?;
    let (file, cells) = both.split_at_checked(file as usize)?;
    let mut row_cells = [0; MOST_ROW_CELLS];
    let rows = row_cells.get_mut(..rows as usize)?;
    let n = check_call::answer(file, cells, rows, out);
    Some(&out[..n])
}

// The line that `checker` prints of a file and a text.
fn filed_text<'a>(
    from: &mut impl Read,
    numbers: [u32; 5],
    room: &mut [u8],
    out: &'a mut [u8; LONGEST],
) -> Option<&'a [u8]> {
    let [file, text, _, _, _] = numbers;
    let both = read_bytes(from, room, file as usize + text as usize)?;
    let (file, text) = both.split_at_checked(file as usize)?;
    let n = filed_call::answer(file, text, out);
    Some(&out[..n])
}

// The answer by the call; none for an unknown one.
fn answer<'a>(
    from: &mut impl Read,
    header: &[u8; 24],
    room: &mut [u8],
    out: &'a mut [u8; LONGEST],
) -> Option<&'a [u8]> {
    let [call, a, b, c, d, e] = [0, 4, 8, 12, 16, 20].map(|at| field::u32_at(header, at));
    let numbers = [a, b, c, d, e];
    match Call::try_from(call).ok()? {
        Call::Account => account(from, numbers, room, out),
        Call::PanelHour => panel_hour(from, numbers, out),
        Call::GoverningSurvey => governing_survey(from, numbers, room, out),
        Call::Import => import(from, numbers, room, out),
        Call::Check => check(from, numbers, room, out),
        Call::FiledText => filed_text(from, numbers, room, out),
    }
}

// Why the program stops before the end of its input.
fn stop(err: &impl Print, why: &[u8]) -> io::Result<ControlFlow<()>> {
    err.write_all(why)?;
    Ok(ControlFlow::Break(()))
}

// One frame answered, by one write; a break where the program is to end.
pub fn next(
    from: &mut impl Read,
    to: &impl Print,
    err: &impl Print,
    room: &mut [u8],
    out: &mut [u8; LONGEST],
) -> io::Result<ControlFlow<()>> {
    let mut header = [0; 24];
    match input::read_pieces(from, &mut header, 24) {
        Ok(24) => {}
        Ok(0) => return Ok(ControlFlow::Break(())),
        _ => return stop(err, b"calls: a header is cut short\n"),
    }
    let Some(said) = answer(from, &header, room, out) else {
        return stop(
            err,
            b"calls: a frame is unknown, too large for its room or cut short\n",
        );
    };
    if to.write_all(said).is_err() {
        return stop(err, b"calls: an answer could not be written\n");
    }
    Ok(ControlFlow::Continue(()))
}
