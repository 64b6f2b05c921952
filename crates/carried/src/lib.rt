// A whole script carried out, its answers dropped. What is told behind it, the figure of a forecast or the count sheets, goes by the core
// and the counts that it leaves.
#![tactic(auto)]

ghost use Rattle.carried.specs.CarriedOut.{CarriedOut};

use grammar::{Audience, TEXT_LIMIT};
use script::Progress;
use tables::Tables;

// Carries a script out from an unopened core on; the tables may hold anything. Each piece writes its answers over those before. Of a text
// that is too long the one line is written at the start of the buffer, and without room for a line nothing is carried out.
pub fn carry_out(text: &[u8], out: &mut [u8], tables: &mut Tables) -> Progress
    ensures { CarriedOut text.now out.new result tables.new }
{
    let first = script::start(text, out);
    if !printer::has_room(out.len(), 0) {
        return first;
    }
    if text.len() > TEXT_LIMIT {
        return first;
    }
    let mut control = first.control;
    let mut at = first.next;
    // where the next piece begins is where this one came to: no index is counted
    while at < text.len() {
        let piece = script::piece(Audience::Caller, text, at, out, control, tables);
        control = piece.control;
        at = piece.next;
    }
    Progress {
        control,
        next: at,
        written: 0,
    }
}
