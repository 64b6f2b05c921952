// The count sheet that billing gets for an id (paper 02, S-7).
#![tactic(auto)]

ghost use Rattle.std.specs.Prelude.{◌≡◌};
ghost use Rattle.definitions.specs.Counts.{count_sheet};
ghost use Rattle.definitions.specs.Refusals.{numbered};
ghost use Rattle.tables.specs.declared.Tables.{Tables};
ghost use Rattle.tables.specs.Meaning.{core_of, counts_of};

use counts::COUNTS;
use definitions::{CountSheet, Refusal};
use tables::Control;

// The six counts of an id since its join, in the order in which billing names them. Refused with 19, 4, 5. It changes nothing.
pub fn sheet(control: Control, counts: &[u64; COUNTS], id: u32) -> Result<CountSheet, Refusal>
    ensures { (t : Tables) → t.counts ≡ counts.now
        → numbered result ≡ count_sheet (core_of control t) (counts_of control t) id }
{
    // Not by `?`: the refusal has a name here, since must-fail/unavailable_always_5 gives another one.
    if let Err(refusal) = tables::check_active(control, id) {
        return Err(refusal);
    }
    Ok(counts::sheet(counts, id))
}
