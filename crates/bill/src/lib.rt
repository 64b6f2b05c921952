// The count sheets behind a script (paper 02, S-7): the script is carried out, its answers are dropped, and a line for every active
// client, by rising id, tells its counts.
#![tactic(auto)]

ghost use Rattle.std.specs.Prelude.{◌≡◌, ◌+◌, ◌≤◌, length};
ghost use Rattle.grammar.specs.CountLines.{line_of};
ghost use Rattle.printer.specs.Printed.{line_room, LineWritten};
ghost use Rattle.tables.specs.declared.Tables.{Tables};
ghost use Rattle.tables.specs.Meaning.{whole_of};
ghost use Rattle.bill.specs.Billed.{bill_room, AllLines, Billed};

use counts::COUNTS;
use definitions::IDS;
use grammar::TEXT_LIMIT;
use printer::LINE_ROOM;
use tables::{Control, Tables};

// The room for a line of every id.
const BILL_ROOM: usize = IDS as usize * LINE_ROOM;

// Writes the line of an id; one that is not active has none.
// A buffer and a place, as crate printer takes them.
fn print_line(out: &mut [u8], at: usize, control: Control, counts: &[u64; COUNTS], id: u32) -> usize
    ensures { ((t : Tables) → t.counts ≡ counts.now
        → LineWritten (line_of (whole_of control t) id) out.old at out.new result) × (result ≤ at + line_room) }
{
    match sheets::sheet(control, counts, id) {
        Ok(six) => printer::print_counts(out, at, id, six),
        Err(_) => at,
    }
}

// Writes the lines of all ids from the start of the buffer, one behind the other.
fn print_lines(out: &mut [u8], control: Control, counts: &[u64; COUNTS]) -> usize
    requires { bill_room ≤ length out.old }
    ensures { (t : Tables) → t.counts ≡ counts.now → AllLines (whole_of control t) out.new result }
{
    let mut end: usize = 0;
    for id in 0..IDS {
        end = print_line(out, end, control, counts, id);
    }
    end
}

// Writes the lines behind a text at the start of the buffer, and gives how many bytes they have. The tables may hold anything. Without
// room for a line of every id nothing is done. With `forecast` it shares `carry_out`; what is told behind that has a definition of its own.
pub fn bill(text: &[u8], out: &mut [u8], tables: &mut Tables) -> usize
    ensures { Billed text.now out.old tables.old out.new result tables.new }
{
    if out.len() < BILL_ROOM {
        return 0;
    }
    let carried = carried::carry_out(text, out, tables);
    if text.len() > TEXT_LIMIT {
        return carried.written;
    }
    print_lines(out, carried.control, &tables.counts)
}
