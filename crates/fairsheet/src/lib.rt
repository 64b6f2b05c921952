// What is printed for a text of demands (paper 02, S-8): the lines of its rates, or the one that refuses it. Shape is judged of
// the whole text before size, so a number that is too large is remembered until the last line is read.
#![tactic(auto)]

ghost use Rattle.std.specs.Prelude.{◌≡◌, ◌≤◌, length, set, drop};
ghost use Rattle.definitions.specs.Sizes.{ids};
ghost use Rattle.grammar.specs.Lines.{lines};
ghost use Rattle.grammar.specs.FairSheet.{demand_rows, shaped, rate_lines, rates_printed};
ghost use Rattle.printer.specs.Appended.{Appended};
ghost use Rattle.fairsheet.specs.SheetRead.{DemandsRead, SheetRead};
ghost use Rattle.fairsheet.specs.Written.{sheet_room, SheetWritten};

use definitions::{Answer, IDS, Refusal};
use grammar::{TEXT_LIMIT, Unread};
use printer::LINE_ROOM;

// How many demands a list may have, and the room of their lines.
const ROWS: usize = IDS as usize;

pub const SHEET_ROOM: usize = ROWS * LINE_ROOM;

// What a text that is too long is answered with: the number of no check of a call, and so no Refusal.
const TOO_LONG: u32 = 18;

// What was read of a text that is not refused: its threshold, and how many demands there are.
#[derive(Clone, Copy)]
struct Reading {
    threshold: u32,
    count: usize,
}

// Keeps a number of a row. Rows that have no room are counted and not kept, since so many are refused.
fn keep(column: &mut [u32], row: usize, n: u32)
    ensures { column.new ≡ set column.old row n }
{
    if row < column.len() {
        column[row] = n;
    }
}

// How many demands there are from a place on. A line of another shape ends the reading at once.
// Ids and demands are two lists, as `maxmin::rates` takes them.
fn read_demands(
    text: &[u8],
    from: usize,
    listed: &mut [u32],
    demands: &mut [u32],
) -> Result<usize, Unread>
    ensures { DemandsRead (demand_rows (lines (drop from text.now))) listed.new demands.new
        result }
{
    let mut large = false;
    let mut count = 0;
    let mut at = from;
    // where the next line begins is where `line_at` says: no index is counted
    while at < text.len() {
        let next = reader::line_at(text, at).next;
        match parser::demand(&text[at..next]) {
            Ok(row) => {
                keep(listed, count, row.first);
                keep(demands, count, row.second);
            }
            Err(Unread::TooLarge) => large = true,
            Err(Unread::NoForm) => return Err(Unread::NoForm),
        }
        count += 1;
        at = next;
    }
    if large {
        return Err(Unread::TooLarge);
    }
    Ok(count)
}

// The whole text. One without bytes has a first line without bytes, which is no form.
fn read(text: &[u8], listed: &mut [u32], demands: &mut [u32]) -> Result<Reading, Unread>
    ensures { SheetRead (shaped (lines text.now)) listed.new demands.new result }
{
    let next = reader::line_at(text, 0).next;
    match parser::threshold(&text[..next]) {
        Ok(first) => {
            let count = read_demands(text, next, listed, demands)?;
            Ok(Reading {
                threshold: first.first,
                count,
            })
        }
        Err(Unread::TooLarge) => {
            read_demands(text, next, listed, demands)?;
            Err(Unread::TooLarge)
        }
        Err(Unread::NoForm) => Err(Unread::NoForm),
    }
}

// Writes the line of each id and its rate, in the order of the list.
fn put_rates(listed: &[u32], rates: &[u32], out: &mut [u8]) -> usize
    requires { (length listed.now ≤ ids) × (length listed.now ≤ length rates.now) × (sheet_room ≤ length out.old) }
    ensures { Appended (rate_lines listed.now rates.now) out.old 0 out.new result }
{
    let mut at = 0;
    for (id, rate) in listed.iter().zip(rates) {
        at = printer::print_rate(out, at, *id, *rate);
    }
    at
}

// Writes what a threshold and demands of any numbers print.
fn print_rates(threshold: u32, listed: &[u32], demands: &[u32], out: &mut [u8]) -> usize
    requires { sheet_room ≤ length out.old }
    ensures { Appended (rates_printed threshold listed.now demands.now)
        out.old 0 out.new result }
{
    let mut rates = [0u32; ROWS];
    let answer = maxmin::rates(threshold, listed, demands, &mut rates);
    let Answer::Accepted = answer else {
        return printer::print_refused(out, 0, Refusal::Unfair.number());
    };
    put_rates(listed, &rates, out)
}

// Writes the printout of a text at the start of the buffer, and gives how many bytes it has. Without room for as many lines as
// there can be nothing is done.
pub fn print(text: &[u8], out: &mut [u8]) -> usize
    ensures { SheetWritten text.now out.old out.new result }
{
    if out.len() < SHEET_ROOM {
        return 0;
    }
    if text.len() > TEXT_LIMIT {
        return printer::print_refused(out, 0, TOO_LONG);
    }
    let mut listed = [0u32; ROWS];
    let mut demands = [0u32; ROWS];
    let reading = match read(text, &mut listed, &mut demands) {
        Ok(reading) => reading,
        Err(unread) => return printer::print_refused(out, 0, unread.number()),
    };
    let count = reading.count;
    if count > ROWS {
        return printer::print_refused(out, 0, Refusal::Unfair.number());
    }
    print_rates(reading.threshold, &listed[..count], &demands[..count], out)
}
