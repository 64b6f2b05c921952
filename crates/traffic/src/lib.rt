// What comes in for a client: dummies for a private pool, and packets.
#![tactic(auto, unfolding(definitions::specs::Sizes::ids, definitions::specs::Sizes::places, definitions::specs::Sizes::shares, definitions::specs::Sizes::longest, tables::specs::Tables::field))]

ghost use Rattle.std.specs.Prelude.{◌≡◌, List, set, ℕ, ◌+◌, ◌-◌, ◌*◌, ◌%◌, ◌≤◌, ◌<◌};
ghost use Rattle.definitions.specs.Event.{Load, Arrive};
ghost use Rattle.definitions.specs.Sizes.{ids, places, shares, longest};
ghost use Rattle.definitions.specs.Checks.{load_checks, arrive_checks};
ghost use Rattle.definitions.specs.Refusals.{number_in};
ghost use Rattle.tables.specs.Tables.{tables, level_column, count_column, written, level_at, head_at, count_at};
ghost use Rattle.tables.specs.Invariant.{Valid};
ghost use Rattle.tables.specs.Numbers.{refusal};
ghost use Rattle.tables.specs.Places.{Promised};

use counts::{COUNTS, Counted};
use definitions::{LONGEST, PLACES, POOL_LIMIT, Packet, Refusal, SHARES, SHORTEST};
use order::LINKS;
use tables::{Answered, COUNT, Control, HEAD, LEVEL, POOL, STOCKS, STORE, TERMS, Tables};

// What a load is refused for: 19, 4, 5, 11, 12.
fn check_load(
    control: Control,
    stocks: &[u32; STOCKS],
    id: u32,
    dummies: u32,
) -> Result<(), Refusal>
    ensures { (terms handles lengths links counts : List ℕ)
        → number_in result ≡ refusal control (tables terms stocks.now handles lengths links counts) (λ s. load_checks s id dummies) }
{
    tables::check_active(control, id)?;
    if marks::has(control.indifferent, id) {
        return Err(Refusal::Indifferent);
    }
    if POOL_LIMIT < tables::wide(stocks[(POOL + id) as usize]) + tables::wide(dummies) {
        return Err(Refusal::Pool);
    }
    Ok(())
}

// Adds dummies to a private client's pool (paper 01, "Load"). Refused: 19, 4, 5, 11, 12.
// The tables come one by one: those that a load does not write are lent by `&`.
pub fn load(
    control: Control,
    terms: &[u32; TERMS],
    stocks: &mut [u32; STOCKS],
    handles: &[u64; STORE],
    lengths: &[u16; STORE],
    links: &[u32; LINKS],
    counts: &[u64; COUNTS],
    id: u32,
    dummies: u32,
) -> Answered
    requires { Valid control (tables terms.now stocks.old handles.now lengths.now links.now counts.now) }
    ensures { Promised (Load id dummies) control
        (tables terms.now stocks.old handles.now lengths.now links.now
        counts.now) result
        (tables terms.now stocks.new handles.now lengths.now links.now
        counts.now) }
{
    if let Err(refusal) = check_load(control, stocks, id, dummies) {
        return tables::refused(control, refusal.number());
    }
    stocks[(POOL + id) as usize] += dummies;
    tables::accepted(control)
}

// What a packet is refused for: 19, 4, 5, 13, 14, 15.
fn check_arrive(
    control: Control,
    terms: &[u32; TERMS],
    stocks: &[u32; STOCKS],
    id: u32,
    packet: Packet,
) -> Result<(), Refusal>
    ensures { (handles lengths links counts : List ℕ)
        → number_in result ≡ refusal control (tables terms.now stocks.now handles lengths links counts)
        (λ s. arrive_checks s id packet) }
{
    tables::check_active(control, id)?;
    if packet.length < SHORTEST {
        return Err(Refusal::Length);
    }
    if LONGEST < packet.length {
        return Err(Refusal::Length);
    }
    if PLACES <= stocks[(COUNT + id) as usize] {
        return Err(Refusal::Full);
    }
    if !marks::has(control.indifferent, id) {
        return Ok(());
    }
    if terms[(LEVEL + id) as usize] < SHARES {
        return Err(Refusal::Drained);
    }
    Ok(())
}

// The place behind an id's last packet.
fn free_place(stocks: &[u32; STOCKS], id: u32) -> u32
    requires { (id < ids) × (head_at stocks.now id < places) × (count_at stocks.now id < places) }
    ensures { result ≡ id * places + (head_at stocks.now id + count_at stocks.now id) % places }
{
    let head = stocks[(HEAD + id) as usize];
    let count = stocks[(COUNT + id) as usize];
    id * PLACES + (head + count) % PLACES
}

// Two arrays, as the tables have them.
// Puts a packet at a place. 16 bits hold every length that is accepted.
fn keep(handles: &mut [u64; STORE], lengths: &mut [u16; STORE], place: u32, packet: Packet)
    requires { (place < ids * places) × (packet.length ≤ longest) }
    ensures handles_after { handles.new ≡ set handles.old place packet.handle }
    ensures lengths_after { lengths.new ≡ set lengths.old place packet.length }
{
    let at = place as usize;
    handles[at] = packet.handle;
    lengths[at] = packet.length as u16;
}

// Raises the count of an id's packets by one.
fn count_up(stocks: &mut [u32; STOCKS], id: u32)
    requires { (id < ids) × (count_at stocks.old id < places) }
    ensures { stocks.new
        ≡ written stocks.old count_column id (count_at stocks.old id + 1) }
{
    stocks[(COUNT + id) as usize] += 1;
}

// Takes what a packet costs from an id's bucket.
fn charge(terms: &mut [u32; TERMS], id: u32)
    requires { (id < ids) × (shares ≤ level_at terms.old id) }
    ensures { terms.new
        ≡ written terms.old level_column id (level_at terms.old id - shares) }
{
    terms[(LEVEL + id) as usize] -= SHARES;
}

// Puts a packet last in its client's queue (paper 01, "Arrive"). Refused: 19, 4, 5, 13, 14, 15.
// It costs the same however many packets wait. A refusal with 14 or 15 changes its own count and nothing else.
pub fn arrive(control: Control, tables: &mut Tables, id: u32, packet: Packet) -> Answered
    requires { Valid control tables.old }
    ensures { Promised (Arrive id packet) control tables.old result tables.new }
{
    if let Err(refusal) = check_arrive(control, &tables.terms, &tables.stocks, id, packet) {
        let number = refusal.number();
        counts::drop(&mut tables.counts, id, number);
        return tables::refused(control, number);
    }
    let place = free_place(&tables.stocks, id);
    keep(&mut tables.handles, &mut tables.lengths, place, packet);
    count_up(&mut tables.stocks, id);
    if marks::has(control.indifferent, id) {
        charge(&mut tables.terms, id);
        order::push(&mut tables.links, place);
    }
    let mut after = control;
    after.waiting = marks::mark(control.waiting, id);
    counts::raise(&mut tables.counts, id, Counted::Accepted, 1);
    tables::accepted(after)
}
