// The table of counts: six numbers for each id, what billing counts of a client since its join. The six of an id lie together, so that
// an entry touches one part of the table, and an id's sheet is read in one go. A count wraps at 64 bits.
#![tactic(auto)]

ghost use Rattle.std.specs.Prelude.{◌≡◌, ℕ, ◌*◌, ◌<◌, false, slice_set};
ghost use Rattle.definitions.specs.Sizes.{ids};
ghost use Rattle.definitions.specs.Counts.{column as columnOf, more, anew, entry_of_drop, entry_of_slot, sheet_of};
ghost use Rattle.counts.specs.CountTable.{count_columns, count_entry, count_in, count_named, for_one, Entered, SenderBelow};

use definitions::{CountSheet, IDS, Outcome};

const COLUMNS: u32 = 6;

pub const COUNTS: usize = (COLUMNS * IDS) as usize;

// The six counts, in billing's order: packets accepted and sent, those refused with 14, for want of a place, and with 15, for want of a
// token, those emptied out by a change of type, and dummies sent.
#[derive(Clone, Copy)]
pub enum Counted {
    Accepted,
    Sent,
    Full,
    Drained,
    Emptied,
    Dummies,
}

// Where a count of an id stands.
#[tactic(auto, unfolding(definitions::specs::Sizes::ids, definitions::specs::Counts::column))]
fn place(id: u32, counted: Counted) -> usize
    requires { id < ids }
    ensures entry { result ≡ count_entry id (columnOf (count_named counted)) }
    ensures below { result < count_columns * ids }
{
    (id * COLUMNS + counted as u32) as usize
}

// One count of an id.
#[tactic(auto, unfolding(definitions::specs::Sizes::ids, crate::specs::CountTable::count_in))]
fn count_of(counts: &[u64; COUNTS], id: u32, counted: Counted) -> u64
    requires { id < ids }
    ensures { result ≡ count_in counts.now id (count_named counted) }
{
    counts[place(id, counted)]
}

// Writes one count of an id.
#[tactic(auto, unfolding(definitions::specs::Sizes::ids))]
fn put(counts: &mut [u64; COUNTS], id: u32, counted: Counted, n: u64)
    requires { id < ids }
    ensures { counts.new ≡ slice_set counts.old (count_entry id (columnOf (count_named counted))) n }
{
    counts[place(id, counted)] = n;
}

// Raises one count of an id.
pub fn raise(counts: &mut [u64; COUNTS], id: u32, counted: Counted, n: u64)
    requires { id < ids }
    ensures { Entered (for_one id (more (count_named counted) n)) counts.old counts.new }
{
    let count = count_of(counts, id, counted);
    put(counts, id, counted, count.wrapping_add(n));
}

// Begins an id's sheet anew.
pub fn clear(counts: &mut [u64; COUNTS], id: u32)
    requires { id < ids }
    ensures { Entered (for_one id anew) counts.old counts.new }
{
    put(counts, id, Counted::Accepted, 0);
    put(counts, id, Counted::Sent, 0);
    put(counts, id, Counted::Full, 0);
    put(counts, id, Counted::Drained, 0);
    put(counts, id, Counted::Emptied, 0);
    put(counts, id, Counted::Dummies, 0);
}

// Counts a packet that was refused with a number: 14 and 15 have a count each, and no other number has one.
// By number and no Refusal: `entry_of_drop` is over every number.
pub fn drop(counts: &mut [u64; COUNTS], id: u32, number: u32)
    requires { (number ≡ 14 → id < ids) × (number ≡ 15 → id < ids) }
    ensures { Entered (for_one id (entry_of_drop number)) counts.old counts.new }
{
    match number {
        14 => raise(counts, id, Counted::Full, 1),
        15 => raise(counts, id, Counted::Drained, 1),
        _ => {}
    }
}

// Counts what was sent in a slot: a packet or a dummy.
pub fn send(counts: &mut [u64; COUNTS], outcome: Outcome)
    requires { SenderBelow outcome }
    ensures { Entered (λ (id : ℕ). entry_of_slot id false 0 outcome) counts.old counts.new }
{
    match outcome {
        Outcome::Real {
            id,
            packet: _,
            padding: _,
        } => raise(counts, id, Counted::Sent, 1),
        Outcome::Dummy { id } => raise(counts, id, Counted::Dummies, 1),
        Outcome::Idle { id: _ } => {}
        Outcome::None => {}
    }
}

// The sheet of an id.
#[tactic(auto, unfolding(definitions::specs::Counts::sheet_of))]
pub fn sheet(counts: &[u64; COUNTS], id: u32) -> CountSheet
    requires { id < ids }
    ensures { result ≡ sheet_of (count_in counts.now id) }
{
    CountSheet {
        accepted: count_of(counts, id, Counted::Accepted),
        sent: count_of(counts, id, Counted::Sent),
        full: count_of(counts, id, Counted::Full),
        drained: count_of(counts, id, Counted::Drained),
        emptied: count_of(counts, id, Counted::Emptied),
        dummies: count_of(counts, id, Counted::Dummies),
    }
}
