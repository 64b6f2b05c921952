// The forecast behind a script (paper 02, S-14, "a figure for leases"): the script is carried out, its answers are dropped, and
// one line tells of how many picks the private side is then sure in the next ticks.
#![tactic(auto)]

ghost use Rattle.std.specs.Prelude.{List, ℕ};
ghost use Rattle.grammar.specs.Forecast.{forecast};
ghost use Rattle.printer.specs.Printed.{LineWritten};
ghost use Rattle.tables.specs.Tables.{tables};
ghost use Rattle.tables.specs.Meaning.{core_of};
ghost use Rattle.tables.specs.Invariant.{Valid};
ghost use Rattle.forecast.specs.Told.{Told};

use definitions::Refusal;
use grammar::TEXT_LIMIT;
use tables::{Control, STOCKS, TERMS, Tables};

// Writes the line of a core.
fn print_line(
    out: &mut [u8],
    control: Control,
    terms: &[u32; TERMS],
    stocks: &[u32; STOCKS],
    ticks: u32,
) -> usize
    ensures { (handles lengths links counts : List ℕ)
        → Valid control (tables terms.now stocks.now handles lengths links counts)
        → LineWritten (forecast (core_of control (tables terms.now stocks.now handles lengths links counts)) ticks)
        out.old 0 out.new result }
{
    if !control.opened {
        return printer::print_refused(out, 0, Refusal::Unopened.number());
    }
    let picks = guarantee::sure(control, terms, stocks, ticks);
    printer::print_sure(out, 0, ticks, picks)
}

// Writes the line behind a text at the start of the buffer, and gives how many bytes it has. The tables may hold anything.
// Without room for a line no piece would go on, so nothing is done. With `bill` it shares `carry_out`; what is told behind that has a
// definition of its own.
pub fn forecast(text: &[u8], ticks: u32, out: &mut [u8], tables: &mut Tables) -> usize
    ensures { Told text.now ticks out.old tables.old out.new result tables.new }
{
    if !printer::has_room(out.len(), 0) {
        return 0;
    }
    let carried = carried::carry_out(text, out, tables);
    if text.len() > TEXT_LIMIT {
        return carried.written;
    }
    print_line(out, carried.control, &tables.terms, &tables.stocks, ticks)
}
